//! The SDUs that wait.
ghost use Rattle.std.specs.Prelude.{◌≡◌, ◌<◌, ◌≤◌, ◌+◌, [], length, take, OnOk, OnErr, IfOk, IfErr};
ghost use Rattle.std.specs.Prelude.{slice_index_or, ◌^◌, nat_lt, ◌==◌, ◌++◌};
ghost use Rattle.rlc_queue.specs.Waiting.{nothing_waits, with_sdu, HaveOctets, first, behind};
ghost use Rattle.rlc_queue.specs.Waiting.{total, wanted};

use l2_bits::{Bytes, NoMemory, Ring};
use std::alloc::Global;
use std::marker::Model;

// From so many octets on the queue takes no more.
const LIMIT: u64 = 1 << 62;

// So many SDUs at most wait.
const COUNT: usize = 1 << 61;

/// The SDUs that a sender was offered and hasn't wholly sent, in their order. Contracts see what is
/// left of each.
#[derive(Debug, Drop)]
pub struct Queue {
    sdus: Ring<Bytes>,
    sent: usize,
    octets: u64,
}

impl Model for Queue {
    ghost use Rattle.std.specs.Prelude.{nat_lt, ◌<◌, ◌≤◌, ◌^◌, length, ◌⊎◌, ◌≡◌};
    ghost use Rattle.rlc_queue.specs.Waiting.{Waiting, HaveOctets, first, unsent, total};

    ghost Value = { Waiting };

    ghost view = { λ q. record { sdus = unsent q.sent q.sdus; begun = nat_lt 0 q.sent } };

    ghost invariant = { λ q. (q.octets < 2 ^ 63) × (length q.sdus ≤ 2 ^ 61)
        × ((q.sent ≡ 0) ⊎ (q.sent < length (first q.sdus)))
        × (total (unsent q.sent q.sdus) ≡ q.octets) × (HaveOctets (unsent q.sent q.sdus)) };
}

impl Queue {
    /// The empty queue. It takes no memory.
    pub fn new(alloc: Global) -> Queue
        ensures { result ≡ nothing_waits }
    {
        Queue {
            sdus: Ring::new(alloc),
            sent: 0,
            octets: 0,
        }
    }

    /// Whether nothing waits.
    pub fn is_empty(&self) -> bool
        ensures { result ≡ (length self.now.sdus == 0) }
    {
        self.sdus.is_empty()
    }

    /// Whether the first SDU is partly sent.
    pub fn is_begun(&self) -> bool
        ensures begun { result ≡ self.now.begun }

        // Something is left of each SDU.
        ensures some { HaveOctets self.now.sdus }
    {
        self.sent > 0
    }

    /// How many octets are left of all SDUs.
    pub fn octets(&self) -> u64
        ensures value { result ≡ total self.now.sdus }
        ensures below { result < 2 ^ 63 }
    {
        self.octets
    }

    /// How many octets are left of all SDUs, and two more for each.
    pub fn wanted(&self) -> u64
        ensures { result ≡ wanted self.now.sdus }
    {
        self.octets + 2 * self.sdus.len() as u64
    }

    /// Adds an SDU of 1 to 8193 octets at the end, without copying it. An `Err` gives it back and
    /// changes nothing.
    #[tactic(auto, using(crate::proofs::Steps::pushes))]
    pub fn offer(&mut self, sdu: Bytes) -> Result<(), (Bytes, NoMemory)>
        requires some { 1 ≤ length sdu }
        requires few { length sdu ≤ 8193 }
        ensures ok { OnOk result (self.new ≡ with_sdu sdu self.old) }
        ensures err { IfErr result (λ e. e.0 ≡ sdu) }
        ensures same { OnErr result (self.new ≡ self.old) }
    {
        if self.octets >= LIMIT || self.sdus.len() >= COUNT {
            return Err((sdu, NoMemory));
        }
        let len = sdu.as_slice().len();
        match self.sdus.push_back(sdu) {
            Ok(()) => {
                self.octets += len as u64;
                Ok(())
            }
            Err(failed) => Err(failed),
        }
    }

    // How many SDUs wait.
    pub(crate) fn len(&self) -> usize
        ensures { result ≡ length self.now.sdus }
    {
        self.sdus.len()
    }

    // What is left of the first SDU.
    pub(crate) fn first(&self) -> &[u8]
        ensures { result.now ≡ first self.now.sdus }
    {
        match self.sdus.front() {
            Some(sdu) => sdu.as_slice().split_at(self.sent).1,
            None => &[],
        }
    }

    // How many octets are left of the SDU at a place.
    pub(crate) fn len_at(&self, at: usize) -> usize
        requires { at < length self.now.sdus }
        ensures { result ≡ length (slice_index_or self.now.sdus at []) }
    {
        if at == 0 {
            self.first().len()
        } else {
            match self.sdus.get(at) {
                Some(sdu) => sdu.as_slice().len(),
                None => 0,
            }
        }
    }

    // Moves so many octets of the first SDU to the end of a field, or all that are left of it, and
    // returns how many.
    #[tactic(auto, using(crate::proofs::Steps::pulls))]
    pub(crate) fn pull(&mut self, most: usize, field: &mut Bytes) -> Result<usize, NoMemory>
        requires { 0 < most }
        ensures taken { IfOk result (λ n. n ≡ length (take most (first self.old.sdus))) }
        ensures within { IfOk result (λ n. n ≤ most) }
        ensures field { OnOk result (field.new ≡ field.old ++ take most (first self.old.sdus)) }
        ensures queue { OnOk result
            (self.new ≡ record {
              sdus = behind most self.old.sdus;
              begun = nat_lt most (length (first self.old.sdus));
            }) }
    {
        let left = self.first();
        let taken = left.len().min(most);
        let more = taken < left.len();
        field.append(left.split_at(taken).0)?;
        self.octets -= taken as u64;
        if more {
            self.sent = sent_behind(&self.sdus, self.sent, taken);
        } else {
            let _ = self.sdus.pop_front();
            self.sent = 0;
        }
        Ok(taken)
    }
}

// How many octets of the first SDU are sent once so many more are.
fn sent_behind(sdus: &Ring<Bytes>, sent: usize, taken: usize) -> usize
    requires { sent + taken ≤ length (first sdus.now) }
    ensures { result ≡ sent + taken }
{
    match sdus.front() {
        Some(sdu) => {
            let len = sdu.as_slice().len();
            len - (len - sent - taken)
        }
        None => 0,
    }
}
