//! SDUs that wait for a COUNT.

ghost use Rattle.std.specs.Prelude.{◌≡◌, ◌+◌, ◌-◌, ◌<◌, ◌≤◌, ◌^◌, [], ◌∷◌, ◌++◌, length, take};
ghost use Rattle.std.specs.Prelude.{drop, map, slice_get, option_map, OnOk, OnErr, IfOk};
ghost use Rattle.std.specs.Prelude.{MatchOption};
ghost use Rattle.pdcp_tx_store.specs.Waiting.{waits, length_all, start_of};

use crate::sdu::Sdu;
use l2_bits::{NoMemory, Ring};
use std::alloc::Global;
use std::marker::Model;

/// Fewer octets than this are ever submitted, so that sums of them are small.
const LIMIT: u64 = 1 << 61;

/// An SDU that waits, the TTIs that had begun as it was submitted, and the octets that were
/// submitted before it.
#[derive(Drop)]
pub struct Waiting {
    pub octets: Sdu,
    pub born: u64,
    pub before: u64,
}

/// The SDUs that wait. The octets of the first few are the difference of two marks, whatever their
/// number.
#[derive(Drop)]
pub struct Queue {
    ring: Ring<Waiting>,
    end: u64,
}

impl Model for Queue {
    ghost use Rattle.std.specs.Prelude.{List, map, ◌≤◌, ◌^◌};
    ghost use Rattle.pdcp_tx_store.specs.Waiting.{Waits, waits, AreSummed};

    ghost Value = { List Waits };

    ghost view = { λ q. map waits q.ring };

    ghost invariant = { λ q. AreSummed q.ring q.end × (q.end ≤ 2 ^ 61) };
}

impl Queue {
    /// No SDU. It takes no memory.
    pub fn new(alloc: Global) -> Queue
        ensures { result ≡ [] }
    {
        Queue {
            ring: Ring::new(alloc),
            end: 0,
        }
    }

    /// The number of SDUs.
    pub fn len(&self) -> usize
        ensures { result ≡ length self.now }
    {
        self.ring.len()
    }

    /// Adds an SDU. An `Err` changes nothing.
    #[tactic(auto, using(crate::proofs::WaitingSums::summed_more))]
    pub fn push(&mut self, octets: Sdu, born: u64) -> Result<(), NoMemory>
        ensures ok { OnOk result (self.new ≡ self.old ++ record { sdu = octets; born = born } ∷ []) }
        ensures err { OnErr result (self.new ≡ self.old) }
    {
        let before = self.end;
        let end = before.saturating_add(u64::from(octets.len()));
        if end >= LIMIT {
            return Err(NoMemory);
        }
        let one = Waiting {
            octets,
            born,
            before,
        };
        match self.ring.push_back(one) {
            Ok(()) => {
                self.end = end;
                Ok(())
            }
            Err((_, no_memory)) => Err(no_memory),
        }
    }

    /// Takes out the first SDU.
    pub fn pop(&mut self) -> Option<Waiting>
        ensures value { MatchOption result (self.old ≡ []) (λ w. self.old ≡ waits w ∷ self.new) }
        ensures rest { self.new ≡ drop 1 self.old }
    {
        self.ring.pop_front()
    }

    /// The first SDU.
    #[tactic(auto, using(crate::proofs::WaitingSums::first_waits))]
    pub fn front(&self) -> Option<&Waiting>
        ensures { MatchOption result (self.now ≡ [])
            (λ w. slice_get self.now 0 ≡ Some (waits w.now)) }
    {
        self.ring.front()
    }

    /// The octets of the first `count` SDUs.
    #[tactic(auto, using(crate::proofs::WaitingSums::firsts))]
    pub fn octets(&self, count: usize) -> u64
        ensures value { result ≡ length_all (take count self.now) }
        ensures below { result ≤ 2 ^ 61 }
    {
        start_at(&self.ring, self.end, count) - start_at(&self.ring, self.end, 0)
    }
}

// The octets that were submitted before the SDU at a place.
#[tactic(auto, using(crate::proofs::WaitingSums::starts))]
fn start_at(ring: &Ring<Waiting>, end: u64, at: usize) -> u64
    ensures { result ≡ start_of (drop at ring.now) end }
{
    match ring.get(at) {
        Some(one) => one.before,
        None => end,
    }
}
