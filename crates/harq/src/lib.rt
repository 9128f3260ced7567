//! HARQ processes (TS 36.321 5.3.2, 5.4.2): eight of each direction, at its sender and at its
//! receiver.
//!
//! Both directions visit process t modulo 8 in TTI t. A block is moved into its process and stays
//! there until it is acknowledged, until a new block takes its place or until its last visit; a
//! resend copies nothing. No call takes memory.
#![tactic(auto)]

pub mod laws;
mod receiver;
mod sender;

pub use receiver::{Answer, Receiver};
pub use sender::{Order, Sender, Visit};

#[cfg(test)]
mod tests {
    use super::*;
    use l2_bits::Bytes;
    use std::test::Fail;

    // A new block of the uplink in TTI 0, whose first sending ends so, with that feedback read.
    #[test]
    fn uplink_blocks_come_again_unseen(rt: HostRuntime) -> Result<(), Fail> {
        for (good, heard, first) in [(false, false, Answer::Damaged), (true, false, Answer::Up)] {
            let mut terminal = Sender::new(4);
            let mut station = Receiver::new(4);
            let ndi = station.grant(0);
            assert_eq!(rt; terminal.visit(0, Order::Grant { ndi }), Visit::New);
            terminal.load(0, Bytes::from_slice(rt.alloc(), &[0, 1])?);
            assert_eq!(rt; station.granted(0, Some(good)), first);
            terminal.feedback(0, heard);
            for tti in 1..8u64 {
                assert_eq!(rt; terminal.visit(tti, Order::Silent), Visit::Silent);
                station.pass(tti);
            }
            // The first award lasts on, and the second is another.
            assert!(rt; (station.grant(8) == ndi) != good);
            assert_eq!(rt; terminal.visit(8, Order::Unseen), Visit::Resend { rv: 2 });
            assert_eq!(rt; terminal.held(0), Some([0, 1].as_slice()));
            assert_eq!(rt; station.granted(8, Some(true)), Answer::Up);
            terminal.feedback(8, true);
            assert_eq!(rt; terminal.held(0), None);
        }
        let mut station = Receiver::new(4);
        assert!(rt; station.grant(0));
        assert_eq!(rt; Sender::new(4).visit(0, Order::Unseen), Visit::Silent);
        assert_eq!(rt; station.granted(0, None), Answer::Nothing);
        station.reset();
        assert!(rt; station.grant(0));
        Ok(())
    }

    #[test]
    fn downlink_versions_and_visits(rt: HostRuntime) -> Result<(), Fail> {
        let mut station = Sender::new(6);
        let mut terminal = Receiver::new(6);
        assert_eq!(rt; station.visit(5, Order::Free), Visit::New);
        station.load(5, Bytes::from_slice(rt.alloc(), &[7])?);
        assert_eq!(rt; terminal.assigned(5, station.ndi(5), true), Answer::Up);
        station.feedback(5, false);
        let rows = [
            (13, 2, true),
            (21, 3, false),
            (29, 1, true),
            (37, 0, true),
            (45, 2, true),
        ];
        for (tti, rv, good) in rows {
            assert_eq!(rt; station.visit(tti, Order::Free), Visit::Resend { rv });
            let want = if good { Answer::Again } else { Answer::Damaged };
            assert_eq!(rt; terminal.assigned(tti, station.ndi(tti), good), want);
            station.feedback(tti, false);
        }
        assert_eq!(rt; station.visit(53, Order::Free), Visit::New);
        assert!(rt; !station.ndi(53));
        station.reset();
        assert_eq!(rt; station.held(5), None);
        Ok(())
    }
}
