ghost use Rattle.std.specs.Prelude.{◌≡◌, ◌+◌, ◌-◌, ◌%◌, ◌<◌, ◌≤◌, ◌^◌, length, OnOk, OnErr, IfOk};
ghost use Rattle.std.specs.Prelude.{IfErr, IsTrue, IsErr, min, ◌==◌};
ghost use Rattle.std.specs.List.{sum};
ghost use Rattle.rlc_pdu.specs.Pdus.{AreLens, IsUmBits};
ghost use Rattle.rlc_pdu.specs.Writing.{header_len, umd_written};
ghost use Rattle.rlc_queue.specs.NewPdu.{framing, IsWithin};
ghost use Rattle.rlc_queue.specs.Waiting.{total};
ghost use Rattle.rlc_um.specs.Sender.{idle_sender, head_of, is_held, turn, Gives, answer, sent};
ghost use Rattle.rlc_um.specs.Sender.{pdu_of, taken, after_take, is_hungry, need, offered, alive};

use crate::um_rx::width;
use l2_bits::{Bytes, NoMemory};
use rlc_pdu::{Taken, write_umd};
use rlc_queue::{NewPdu, Queue, has_room, new_pdu};
use std::alloc::Global;
use std::marker::Model;

// From this number on the sender makes no more PDUs.
const LIMIT: u64 = 1 << 63;

/// The sending unacknowledged mode entity of a bearer (TS 36.322 5.1.2.1).
///
/// Where memory runs out in a call, it answers `NoMemory` from then on to each call that can.
#[derive(Debug, Drop)]
pub struct UmTx {
    alloc: Global,
    bits: u32,
    next: u64,
    queue: Queue,
    dead: bool,
}

impl Model for UmTx {
    ghost use Rattle.std.specs.Prelude.{◌≤◌, ◌^◌};
    ghost use Rattle.rlc_pdu.specs.Pdus.{IsUmBits};
    ghost use Rattle.rlc_um.specs.Sender.{Entity};

    ghost Value = { Entity };

    ghost view = { λ s. record {
      state = record { bits = s.bits; next = s.next; waiting = s.queue };
      dead = s.dead;
    } };

    ghost invariant = { λ s. IsUmBits s.bits × (s.next ≤ 2 ^ 63) };
}

impl UmTx {
    /// A sender of PDUs with numbers of 5 or 10 bits, to which nothing was offered. It takes no
    /// memory.
    pub fn new(alloc: Global, bits: u32) -> UmTx
        requires { IsUmBits bits }
        ensures { result ≡ alive (idle_sender bits) }
    {
        UmTx {
            alloc,
            bits,
            next: 0,
            queue: Queue::new(alloc),
            dead: false,
        }
    }

    /// What the sender needs of a grant, in octets: 3 for a subheader, and for each SDU that waits,
    /// or that may be offered, its octets and 2; 0 where nothing waits, or where a number that HARQ
    /// holds forbids a new PDU.
    ///
    /// `waiting` is the sum of (length + 2) over the SDUs that may be offered, `held` the lowest
    /// number of this bearer that HARQ holds. What is above 2^32 - 1 is given as 2^32 - 1.
    pub fn need(&self, waiting: u64, held: Option<u64>) -> u32
        ensures { result ≡ need self.now.state waiting held }
    {
        let wanted = self.queue.wanted();
        if self.is_held(held) || waiting == 0 && wanted == 0 {
            0
        } else {
            need_of(waiting.saturating_add(wanted))
        }
    }

    /// The octets that were offered and aren't sent yet.
    pub fn backlog(&self) -> u64
        ensures { result ≡ total self.now.state.waiting.sdus }
    {
        self.queue.octets()
    }

    /// Whether a new PDU may be made of so many octets, and has room for an octet of a further SDU.
    /// `held` is as in `need`.
    pub fn hungry(&self, size: u32, held: Option<u64>) -> bool
        ensures { result ≡ is_hungry self.now.state size held }
    {
        !self.is_held(held) && has_room(&self.queue, self.head(), size as usize)
    }

    /// Adds an SDU of 1 to 8193 octets at the end, without copying it. An `Err` gives it back.
    pub fn offer(&mut self, sdu: Bytes) -> Result<(), (Bytes, NoMemory)>
        requires some { 1 ≤ length sdu }
        requires few { length sdu ≤ 8193 }
        ensures ok { OnOk result (self.new ≡ alive (offered sdu self.old.state)) }
        ensures dead { IsTrue self.old.dead → IsErr result }
        ensures err { OnErr result (IsTrue self.new.dead) }
        ensures back { IfErr result (λ e. e.0 ≡ sdu) }
    {
        if self.dead {
            return Err((sdu, NoMemory));
        }
        let answer = self.queue.offer(sdu);
        self.dead = answer.is_err();
        answer
    }

    /// Gives the next PDU of at most so many octets: `Idle` where nothing waits, `Held` where HARQ
    /// holds a number so low that it might be misread behind the next, `Small` below the least PDU,
    /// else a `Piece`. All but the last change nothing. `held` is as in `need`.
    #[tactic(auto, unfolding(crate::specs::Sender::taken, crate::specs::Sender::after_take))]
    pub fn take(&mut self, size: u32, held: Option<u64>) -> Result<Taken, NoMemory>
        ensures taken { IfOk result (λ t. t ≡ taken self.old.state size held) }
        ensures within { IfOk result (λ t. IsWithin size t) }
        ensures state { OnOk result (self.new ≡ alive (after_take self.old.state size held)) }
        ensures dead { IsTrue self.old.dead → IsErr result }
        ensures err { OnErr result (IsTrue self.new.dead) }
    {
        if self.dead {
            return Err(NoMemory);
        }
        if self.queue.is_empty() {
            Ok(Taken::Idle)
        } else if self.is_held(held) {
            Ok(Taken::Held)
        } else if (size as usize) < self.head() + 1 {
            Ok(Taken::Small)
        } else {
            self.give(size as usize)
        }
    }

    // Gives the next PDU.
    fn give(&mut self, size: usize) -> Result<Taken, NoMemory>
        requires some { 0 < length self.old.state.waiting.sdus }
        requires low { head_of self.old.state.bits < size }
        requires high { size < 2 ^ 32 }
        ensures taken { IfOk result (λ t. t ≡ answer Gives self.old.state size) }
        ensures within { IfOk result (λ t. IsWithin size t) }
        ensures state { OnOk result (self.new ≡ alive (sent self.old.state size)) }
        ensures err { OnErr result (IsTrue self.new.dead) }
    {
        self.dead = true;
        if self.next >= LIMIT {
            return Err(NoMemory);
        }
        let head = self.head();
        let pdu = new_pdu(&mut self.queue, self.alloc, head, size)?;
        let number = self.next;
        let octets = written(self.alloc, self.bits, number, &pdu, size)?;
        self.next += 1;
        self.dead = false;
        Ok(Taken::Piece {
            number,
            fresh: true,
            polled: false,
            octets,
        })
    }

    // Whether HARQ holds a number that might be misread behind the next.
    fn is_held(&self, held: Option<u64>) -> bool
        ensures { result ≡ is_held held self.now.state }
    {
        let width = u64::from(width(self.bits));
        match held {
            None => false,
            Some(number) => width <= self.next && number <= self.next - width,
        }
    }

    // The octets of the header of a PDU of one element.
    fn head(&self) -> usize
        ensures value { result ≡ head_of self.now.state.bits }
        ensures high { result ≤ 2 }
    {
        if self.bits == 5 { 1 } else { 2 }
    }
}

// The octets of the PDU of a number, which fits a size.
#[tactic(auto, using(crate::proofs::Sizes::umd))]
fn written(
    alloc: Global,
    bits: u32,
    number: u64,
    pdu: &NewPdu,
    size: usize,
) -> Result<Bytes, NoMemory>
    requires bits { IsUmBits bits }
    requires lens { AreLens pdu.now.lens.items }
    requires whole { sum pdu.now.lens.items ≡ length pdu.now.field }
    requires within { header_len (head_of bits) (length pdu.now.lens.items) + length pdu.now.field
        ≤ size }
    ensures value { IfOk result (λ octets. octets
        ≡ umd_written bits (number % 2 ^ bits) (framing pdu.now.begins pdu.now.ends)
        pdu.now.lens.items pdu.now.field) }
    ensures some { IfOk result (λ octets. 1 ≤ length octets) }
    ensures within { IfOk result (λ octets. length octets ≤ size) }
{
    let sn = reduced(number, bits);
    let fi = pdu.framing();
    let octets = write_umd(alloc, bits, sn, fi, &pdu.lens, pdu.field.as_slice())?;
    Ok(octets)
}

// The number as it stands in a PDU.
fn reduced(number: u64, bits: u32) -> u32
    requires { IsUmBits bits }
    ensures value { result ≡ number % 2 ^ bits }
    ensures below { result < 2 ^ bits }
{
    (number % (1u64 << bits)) as u32
}

fn need_of(wanted: u64) -> u32
    ensures { result ≡ min (3 + wanted) (2 ^ 32 - 1) }
{
    if wanted >= u64::from(u32::MAX) - 3 {
        u32::MAX
    } else {
        wanted as u32 + 3
    }
}
