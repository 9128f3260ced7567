//! Shares of a grant and buffer status reports (TS 36.321 5.4.3.1, 5.4.5).
//!
//! A grant goes through the logical channels in two rounds, by priority and then by LCID. The first
//! gives each what its bucket allows, the second what is left.
#![tactic(auto)]

mod buckets;
mod channel;
pub mod laws;
mod report;

pub use buckets::Buckets;
pub use l2_types::Channel;
pub use mac_pdu::Bsr;
pub use report::{EDGES, choose, level};

#[cfg(test)]
mod tests {
    use super::*;
    use std::test::Fail;

    // With a full bucket of channel 3 round one gives 10 and 20, and round two the rest; with an
    // empty one round one gives 0 and 20.
    #[test]
    fn buckets_share_a_grant(rt: HostRuntime) -> Result<(), Fail> {
        let mut buckets = Buckets::new();
        let slow = Channel {
            lcid: 3,
            priority: 1,
            pbr: Some(10),
            bucket: 1,
            group: 0,
        };
        let fast = Channel {
            lcid: 4,
            priority: 2,
            pbr: None,
            bucket: 100,
            group: 0,
        };
        assert!(rt; !buckets.has(4));
        buckets.add(fast);
        assert!(rt; buckets.has(4) && !buckets.has(3));
        buckets.add(slow);
        buckets.tick();
        let needs = [0, 0, 0, 50, 20, 0, 0, 0, 0, 0, 0];
        for _round in 0..2u32 {
            let shares = buckets.allot(&needs, 40);
            assert_eq!(rt; shares, [0, 0, 0, 20, 20, 0, 0, 0, 0, 0, 0]);
        }
        Ok(())
    }

    #[test]
    fn levels_and_reports(rt: HostRuntime) -> Result<(), Fail> {
        let levels = [
            (0, 0),
            (1, 1),
            (10, 1),
            (11, 2),
            (12, 2),
            (150_000, 62),
            (150_001, 63),
        ];
        for (octets, want) in levels {
            assert_eq!(rt; level(octets), want, "{octets} octets");
        }
        let several = [0, 12, 5, 0];
        let long = Bsr::Long {
            levels: [0, 2, 1, 0],
        };
        let truncated = Bsr::Truncated { group: 2, level: 1 };
        assert_eq!(rt; choose(&several, 2, 1), None);
        assert_eq!(rt; choose(&several, 2, 3), Some(truncated));
        assert_eq!(rt; choose(&several, 2, 4), Some(long));
        let only = Bsr::Short { group: 2, level: 1 };
        assert_eq!(rt; choose(&[0, 0, 5, 0], 2, 3), Some(only));
        assert_eq!(rt;
            choose(&[0; 4], 1, 2),
            Some(Bsr::Short { group: 0, level: 0 })
        );
        Ok(())
    }
}
