ghost use Rattle.std.specs.Prelude.{◌≡◌};
ghost use Rattle.air_link.specs.Sums.{sums_of, sums};

use crate::link::{Flows, Link};
use bearer::Side;

/// What became of the flow of a logical channel that one side sends.
#[derive(Clone, Copy, Debug, PartialEq, Eq)]
pub struct Sums {
    /// The SDUs submitted.
    pub submitted: u64,
    /// The SDUs that the other side handed up.
    pub delivered: u64,
    /// The sender reached the retransmission limit in this life.
    pub failed: bool,
}

impl Link {
    /// What became of the flow that a side sends; nothing where there is no such channel.
    #[tactic(auto, unfolding(crate::specs::Sums::sums))]
    pub fn sums(&self, side: Side, lcid: u8) -> Sums
        ensures { result ≡ sums side lcid self.now }
    {
        match side {
            Side::Nb => sums_of(&self.down, lcid),
            Side::Ue => sums_of(&self.up, lcid),
        }
    }
}

fn sums_of(flows: &Flows, lcid: u8) -> Sums
    ensures { result ≡ sums_of flows.now lcid }
{
    if lcid < 11 {
        let at = lcid as usize;
        return Sums {
            submitted: flows.submitted[at],
            delivered: flows.delivered[at],
            failed: flows.failed[at],
        };
    }
    Sums {
        submitted: 0,
        delivered: 0,
        failed: false,
    }
}
