//! Discontinuous reception (TS 36.321 5.7): in which TTIs a terminal listens.
//!
//! A terminal that sleeps sees no grant. It listens in the first TTIs of each cycle, for some TTIs
//! after a new block, while a damaged block may come again, and where its uplink process holds a
//! block.
#![tactic(auto)]

ghost use Rattle.std.specs.Prelude.{◌≡◌, ◌<◌, ◌≤◌, ◌+◌};
ghost use Rattle.std.specs.List.{list_any};
ghost use Rattle.drx.specs.Within.{is_within};

pub mod laws;

pub use l2_types::DrxConfig;
use std::marker::Model;

/// What a terminal saw that decides when it listens. The TTIs that it is handed never fall.
#[derive(Drop)]
pub struct Drx {
    config: DrxConfig,
    // The last TTI with a new block.
    last_new: Option<u64>,
    // For each process the TTI of its last block, where that was damaged.
    damaged: [Option<u64>; 8],
}

impl Model for Drx {
    ghost use Rattle.std.specs.Prelude.{◌<◌};
    ghost use Rattle.drx.specs.Drx.{State, state};

    ghost Value = { State };

    ghost view = { λ d. state d.config d.last_new d.damaged };

    ghost invariant = { λ d. d.config.offset < d.config.cycle };
}

impl Drx {
    ghost use Rattle.drx.specs.Drx.{fresh, is_active, is_on, after_new, after_damaged};
    ghost use Rattle.drx.specs.Drx.{after_decoded, after_reset};

    /// A terminal that saw nothing yet. The configuration has an `on` of at most `cycle` and an
    /// `offset` below it.
    #[tactic(auto, unfolding(crate::specs::Drx::fresh))]
    pub fn new(config: &DrxConfig) -> Drx
        requires on { config.now.on ≤ config.now.cycle }
        requires offset { config.now.offset < config.now.cycle }
        ensures { result ≡ fresh config.now }
    {
        Drx {
            config: *config,
            last_new: None,
            damaged: [None; 8],
        }
    }

    /// Whether the terminal listens in a TTI, as that begins; `held` says whether its uplink
    /// process of that TTI holds a block.
    #[tactic(auto, unfolding(crate::specs::Drx::is_active))]
    pub fn active(&self, tti: u64, held: bool) -> bool
        ensures { result ≡ is_active self.now tti held }
    {
        held || self.is_on(tti) || self.is_busy(tti) || self.awaits_repeat(tti)
    }

    /// A TTI has a new uplink block, or a downlink block that is seen for the first time.
    #[tactic(auto, unfolding(crate::specs::Drx::after_new))]
    pub fn saw_new(&mut self, tti: u64)
        ensures { self.new ≡ after_new self.old tti }
    {
        self.last_new = Some(tti);
    }

    /// The downlink block of a TTI came damaged.
    #[tactic(auto, unfolding(crate::specs::Drx::after_damaged))]
    pub fn damaged(&mut self, tti: u64)
        ensures { self.new ≡ after_damaged self.old tti }
    {
        self.damaged[(tti % 8) as usize] = Some(tti);
    }

    /// The downlink block of a TTI came intact.
    #[tactic(auto, unfolding(crate::specs::Drx::after_decoded))]
    pub fn decoded(&mut self, tti: u64)
        ensures { self.new ≡ after_decoded self.old tti }
    {
        self.damaged[(tti % 8) as usize] = None;
    }

    /// Forgets what was seen, as a handover does.
    #[tactic(auto, unfolding(crate::specs::Drx::after_reset, crate::specs::Drx::fresh))]
    pub fn reset(&mut self)
        ensures { self.new ≡ after_reset self.old }
    {
        self.last_new = None;
        self.damaged = [None; 8];
    }

    // Whether a new block was seen shortly before a TTI.
    fn is_busy(&self, tti: u64) -> bool
        ensures { result ≡ is_within 1 self.now.config.inactivity tti self.now.last_new }
    {
        is_within(self.last_new, 1, self.config.inactivity as u64, tti)
    }

    // Whether a damaged block of some process may come again in a TTI.
    fn awaits_repeat(&self, tti: u64) -> bool
        ensures { result ≡ list_any (is_within 8 (7 + self.now.config.retransmit) tti)
            self.now.damaged }
    {
        let last = 7 + self.config.retransmit as u64;
        self.damaged
            .iter()
            .any(|since| is_within(*since, 8, last, tti))
    }

    // Whether a TTI is one of the first of its cycle.
    fn is_on(&self, tti: u64) -> bool
        ensures { result ≡ is_on self.now.config tti }
    {
        let cycle = self.config.cycle as u64;
        (tti % cycle + cycle - self.config.offset as u64) % cycle < self.config.on as u64
    }
}

// Whether a TTI lies from `first`, 1 or more, to `last` TTIs after another one.
fn is_within(since: Option<u64>, first: u64, last: u64, tti: u64) -> bool
    requires { 1 ≤ first }
    ensures { result ≡ is_within first last tti since }
{
    match since {
        Some(since) => {
            let passed = tti.saturating_sub(since);
            first <= passed && passed <= last
        }
        None => false,
    }
}

#[cfg(test)]
mod tests {
    use super::*;
    use std::test::Fail;

    #[test]
    fn listens_in_its_ttis(rt: HostRuntime) -> Result<(), Fail> {
        let config = DrxConfig {
            on: 1,
            inactivity: 2,
            retransmit: 0,
            cycle: 9,
            offset: 0,
        };
        let mut drx = Drx::new(&config);
        for tti in 0..9u64 {
            assert_eq!(rt; drx.active(tti, false), tti == 0, "TTI {tti}");
        }
        assert!(rt; drx.active(4, true));
        drx.saw_new(9);
        let rows = [(10, true), (11, true), (12, false), (17, false), (18, true)];
        for (tti, want) in rows {
            assert_eq!(rt; drx.active(tti, false), want, "TTI {tti}");
        }
        drx.reset();
        assert!(rt; !drx.active(10, false));
        Ok(())
    }

    #[test]
    fn listens_for_a_repeat(rt: HostRuntime) -> Result<(), Fail> {
        let config = DrxConfig {
            on: 1,
            inactivity: 0,
            retransmit: 2,
            cycle: 100,
            offset: 99,
        };
        let mut drx = Drx::new(&config);
        drx.damaged(3);
        let rows = [(10, false), (11, true), (12, true), (13, false), (99, true)];
        for (tti, want) in rows {
            assert_eq!(rt; drx.active(tti, false), want, "TTI {tti}");
        }
        drx.decoded(11);
        assert!(rt; !drx.active(12, false));
        Ok(())
    }
}
