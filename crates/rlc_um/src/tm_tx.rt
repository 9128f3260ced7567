ghost use Rattle.std.specs.Prelude.{◌≡◌, ◌+◌, ◌<◌, ◌≤◌, ◌^◌, length, OnOk, OnErr, IfErr, IfSome};
ghost use Rattle.std.specs.Prelude.{IsNone, Some, None, option_map, slice_get};
ghost use Rattle.rlc_queue.specs.NewPdu.{IsWithin};
ghost use Rattle.rlc_queue.specs.Waiting.{total};
ghost use Rattle.rlc_um.specs.Transparent.{nothing_submitted, refusal, IsAnswer, submitted, taken};
ghost use Rattle.rlc_um.specs.Transparent.{after_take, need};

use l2_bits::{Bytes, NoMemory, Ring, SubmitRefusal};
use l2_types::{GREATEST_SDU, MOST_WAITING};
use rlc_pdu::Taken;
use std::alloc::Global;
use std::marker::Model;

// From so many octets or SDUs on the sender takes no more.
const LIMIT: u64 = 1 << 62;

/// The sending transparent mode entity of a bearer (TS 36.322 5.1.1.1): each SDU is a PDU.
#[derive(Debug, Drop)]
pub struct TmTx {
    alloc: Global,
    next: u64,
    waiting: Ring<Bytes>,
    octets: u64,
}

impl Model for TmTx {
    ghost use Rattle.std.specs.Prelude.{◌≡◌, ◌<◌, ◌+◌, ◌≤◌, ◌^◌, length};
    ghost use Rattle.rlc_queue.specs.Waiting.{HaveOctets, total};
    ghost use Rattle.rlc_um.specs.Transparent.{Transparent};

    ghost Value = { Transparent };

    ghost view = { λ s. record { next = s.next; waiting = s.waiting } };

    ghost invariant = { λ s. (s.next + length s.waiting ≤ 2 ^ 62) × (s.octets < 2 ^ 63)
        × (total s.waiting ≡ s.octets) × HaveOctets s.waiting };
}

impl TmTx {
    /// A sender to which nothing was submitted. It takes no memory.
    pub fn new(alloc: Global) -> TmTx
        ensures { result ≡ nothing_submitted }
    {
        TmTx {
            alloc,
            next: 0,
            waiting: Ring::new(alloc),
            octets: 0,
        }
    }

    /// Takes over a copy of an SDU of 1 to 8188 octets, where fewer than 1024 wait. An `Err`
    /// changes nothing.
    pub fn submit(&mut self, sdu: &[u8]) -> Result<(), SubmitRefusal>
        ensures fits { OnOk result (refusal self.old sdu.now ≡ None) }
        ensures ok { OnOk result (self.new ≡ submitted self.old sdu.now) }
        ensures answer { IfErr result (λ e. IsAnswer e (refusal self.old sdu.now)) }
        ensures err { OnErr result (self.new ≡ self.old) }
    {
        if let Some(refusal) = self.refusal(sdu) {
            return Err(refusal);
        }
        let Ok(octets) = Bytes::from_slice(self.alloc, sdu) else {
            return Err(SubmitRefusal::NoMemory);
        };
        match self.add(octets) {
            Ok(()) => Ok(()),
            Err(_) => Err(SubmitRefusal::NoMemory),
        }
    }

    // Adds an SDU at the end.
    #[tactic(auto, using(crate::proofs::Sums::pushes))]
    fn add(&mut self, sdu: Bytes) -> Result<(), NoMemory>
        requires some { 1 ≤ length sdu }
        requires few { length sdu ≤ GREATEST_SDU }
        ensures ok { OnOk result (self.new ≡ submitted self.old sdu) }
        ensures err { OnErr result (self.new ≡ self.old) }
    {
        if self.octets >= LIMIT || self.next + self.waiting.len() as u64 >= LIMIT {
            return Err(NoMemory);
        }
        let len = sdu.as_slice().len();
        match self.waiting.push_back(sdu) {
            Ok(()) => {
                self.octets += len as u64;
                Ok(())
            }
            Err((_, no_memory)) => Err(no_memory),
        }
    }

    #[tactic(auto, unfolding(crate::specs::Transparent::refusal))]
    fn refusal(&self, sdu: &[u8]) -> Option<SubmitRefusal>
        ensures value { result ≡ refusal self.now sdu.now }
        ensures answer { IfSome result (λ e. IsAnswer e (refusal self.now sdu.now)) }
        ensures some { IsNone result → 1 ≤ length sdu.now }
        ensures few { IsNone result → length sdu.now ≤ GREATEST_SDU }
    {
        if sdu.is_empty() {
            Some(SubmitRefusal::Empty)
        } else if sdu.len() > GREATEST_SDU {
            Some(SubmitRefusal::TooLong)
        } else if self.waiting.len() >= MOST_WAITING {
            Some(SubmitRefusal::Full)
        } else {
            None
        }
    }

    /// Gives the next PDU of at most so many octets: `Idle` where nothing waits, `Small` where the
    /// first SDU is longer, else a `Piece`, numbered from 0. All but the last change nothing. It
    /// takes no memory.
    #[tactic(auto, unfolding(crate::specs::Transparent::taken, crate::specs::Transparent::after_take))]
    pub fn take(&mut self, size: u32) -> Taken
        ensures taken { result ≡ taken self.old size }
        ensures within { IsWithin size result }
        ensures state { self.new ≡ after_take self.old size }
    {
        let Some(len) = self.first_len() else {
            return Taken::Idle;
        };
        if len > size as usize {
            return Taken::Small;
        }
        let Some(octets) = self.waiting.pop_front() else {
            return Taken::Idle;
        };
        let number = self.next;
        self.next += 1;
        self.octets -= len as u64;
        Taken::Piece {
            number,
            fresh: true,
            polled: false,
            octets,
        }
    }

    /// What the sender needs of a grant of so many octets: 3 for a subheader and the octets of the
    /// first SDU, or 0 where nothing waits or a block of the grant can't hold it.
    pub fn need(&self, grant: u32) -> u32
        ensures { result ≡ need self.now grant }
    {
        let Some(len) = self.first_len() else {
            return 0;
        };
        if len + 3 > grant as usize + 2 {
            0
        } else {
            (len + 3).min(u32::MAX as usize) as u32
        }
    }

    /// The octets that were submitted and aren't sent yet.
    pub fn backlog(&self) -> u64
        ensures { result ≡ total self.now.waiting }
    {
        self.octets
    }

    // The length of the first SDU that waits.
    fn first_len(&self) -> Option<usize>
        ensures value { result ≡ option_map length (slice_get self.now.waiting 0) }
        ensures below { IfSome result (λ len. len < 2 ^ 63) }
    {
        match self.waiting.front() {
            Some(sdu) => Some(sdu.as_slice().len()),
            None => None,
        }
    }
}
