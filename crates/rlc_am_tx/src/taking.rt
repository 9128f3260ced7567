//! A data PDU is taken: one that is sent again, a segment of one, or a new one.

ghost use Rattle.std.specs.Prelude.{ℕ, ◌≡◌, ◌<◌, ◌≤◌, ◌^◌, OnOk, IfOk, length, true};
ghost use Rattle.rlc_queue.specs.NewPdu.{IsWithin};
ghost use Rattle.std.specs.List.{sum};
ghost use Rattle.rlc_pdu.specs.Pdus.{AreLens};
ghost use Rattle.rlc_am_tx_window.specs.Sent.{is_waiting, whole_size, next_stretch, stretch_size};
ghost use Rattle.rlc_am_tx_window.specs.Sent.{fresh};
ghost use Rattle.rlc_am_tx_window.specs.Written.{whole_octets, part_octets};
ghost use Rattle.rlc_am_tx_window.specs.Window.{slot_at};
ghost use Rattle.rlc_am_tx.specs.declared.turn.Turn.TheVariants as turns;
ghost use Rattle.rlc_am_tx.specs.Machine.{waits, again, resend_turn, new_turn, turn, IsAgain};
ghost use Rattle.rlc_am_tx.specs.Machine.{IsAble, is_wanted, polled, sent_whole, sent_segment};
ghost use Rattle.rlc_am_tx.specs.Machine.{whole_taken, part_taken, new_slot, sent_new, new_taken};
ghost use Rattle.rlc_am_tx.specs.Machine.{after_take, answer};
ghost use Rattle.rlc_pdu.specs.declared.constants.TheConstants.{AM_WINDOW_SIZE};

use crate::sender::{HEAD, Sender};
use crate::turn::Turn;
use l2_bits::{Bytes, NoMemory};
use rlc_am_tx_window::{Slot, Stretch};
use rlc_pdu::Taken;
use rlc_queue::{NewPdu, new_pdu};
use std::alloc::Global;

// From so many SDUs on that were wholly sent nothing more is sent.
const LIMIT: u64 = 1 << 62;

impl Sender {
    fn resend_turn(&self, size: u32) -> Turn
        requires { waits self.now ≡ true }
        ensures value { result ≡ resend_turn (again self.now) size }
        ensures able { IsAble self.now size result }
        ensures old { result ≡ turns.New → ⊥ }
    {
        match self.window.get(self.window.first_waiting()) {
            Some(slot) => resend_turn(slot, size),
            None => Turn::Small,
        }
    }

    fn new_turn(&self, size: u32, held: Option<u64>) -> Turn
        ensures value { result ≡ new_turn self.now size held }
        ensures able { IsAble self.now size result }
        ensures open { result ≡ turns.New → length self.now.window.slots < AM_WINDOW_SIZE }
    {
        if self.is_shut() {
            Turn::Shut
        } else if self.is_held(held) {
            Turn::Held
        } else if size < 3 {
            Turn::Small
        } else if self.queue.is_empty() {
            Turn::Idle
        } else {
            Turn::New
        }
    }

    #[tactic(auto, unfolding(crate::specs::Machine::turn))]
    fn turn(&self, size: u32, held: Option<u64>, more: bool) -> Turn
        ensures value { result ≡ turn self.now size held more }
        ensures able { IsAble self.now size result }
        ensures open { result ≡ turns.New → length self.now.window.slots < AM_WINDOW_SIZE }
    {
        let waits = self.waits();
        if !waits && self.queue.is_empty() && !more {
            Turn::Idle
        } else if self.failed {
            Turn::Stopped
        } else if waits {
            self.resend_turn(size)
        } else {
            self.new_turn(size, held)
        }
    }

    fn is_wanted(&self, more: bool) -> bool
        ensures { result ≡ is_wanted self.now more }
    {
        self.polls
            .is_due(self.config.poll_pdu, self.config.poll_byte)
            || self.is_quiet(more)
    }

    // Polls with the PDU that is being written, where a poll is wanted.
    fn poll(&mut self, more: bool) -> bool
        ensures wanted { result ≡ is_wanted self.old more }
        ensures state { self.new ≡ polled self.old more }
    {
        let wanted = self.is_wanted(more);
        if wanted {
            self.polls.poll(self.window.next().saturating_sub(1));
        }
        wanted
    }

    // Writes the PDU that lies so far above VT(A).
    fn write_whole(&self, at: usize, number: u64, poll: bool) -> Result<Bytes, NoMemory>
        requires { at < length self.now.window.slots }
        ensures value { IfOk result
            (λ pdu. pdu ≡ whole_octets (slot_at self.now.window.slots at) number poll) }
        ensures len { IfOk result (λ pdu. length pdu
            ≡ whole_size (slot_at self.now.window.slots at)) }
    {
        match self.window.get(at) {
            Some(slot) => slot.write_whole(self.alloc, number, poll),
            None => unreachable!(),
        }
    }

    // Writes a segment of it.
    fn write_part(
        &self,
        at: usize,
        number: u64,
        poll: bool,
        stretch: &Stretch,
    ) -> Result<Bytes, NoMemory>
        requires there { at < length self.now.window.slots }
        requires within { stretch.now.to ≤ length (slot_at self.now.window.slots at).field }
        ensures value { IfOk result
            (λ pdu. pdu ≡ part_octets (slot_at self.now.window.slots at) number poll stretch.now) }
        ensures len { IfOk result (λ pdu. length pdu ≡ stretch_size stretch.now) }
    {
        match self.window.get(at) {
            Some(slot) => slot.write_part(self.alloc, number, poll, stretch),
            None => unreachable!(),
        }
    }

    #[tactic(auto, using(crate::proofs::SendSteps::whole))]
    fn send_whole(&mut self, more: bool) -> Result<Taken, NoMemory>
        requires { waits self.old ≡ true }
        ensures state { OnOk result (self.new ≡ polled (sent_whole self.old) more) }
        ensures taken { IfOk result
            (λ t. t ≡ whole_taken self.old (is_wanted (sent_whole self.old) more)) }
        ensures within { IfOk result (λ t. (size : ℕ) → whole_size (again self.old) ≤ size
            → IsWithin size t) }
    {
        let at = self.window.first_waiting();
        let number = self.window.base() + at as u64;
        self.window.rest(at);
        let polled = self.poll(more);
        let octets = self.write_whole(at, number, polled)?;
        Ok(Taken::Piece {
            number,
            fresh: false,
            polled,
            octets,
        })
    }

    // The longest segment of what waits first.
    fn next_stretch(&self, at: usize, size: u32) -> Result<Stretch, NoMemory>
        requires there { at < length self.now.window.slots }
        requires waits { is_waiting (slot_at self.now.window.slots at) ≡ true }
        requires room { 5 ≤ size }
        ensures value { IfOk result (λ s. s ≡ next_stretch (slot_at self.now.window.slots at) size) }
        ensures some { IfOk result (λ s. s.from < s.to) }
        ensures within { IfOk result (λ s. s.to ≤ length (slot_at self.now.window.slots at).field) }
        ensures fits { IfOk result (λ s. stretch_size s ≤ size) }
    {
        match self.window.get(at) {
            Some(slot) => slot.next_stretch(size),
            None => unreachable!(),
        }
    }

    #[tactic(auto, using(crate::proofs::SendSteps::parts))]
    fn send_part(&mut self, size: u32, more: bool) -> Result<Taken, NoMemory>
        requires waits { waits self.old ≡ true }
        requires room { 5 ≤ size }
        ensures state { OnOk result (self.new ≡ polled (sent_segment self.old size) more) }
        ensures taken { IfOk result
            (λ t. t ≡ part_taken self.old size (is_wanted (sent_segment self.old size) more)) }
        ensures within { IfOk result (λ t. IsWithin size t) }
    {
        let at = self.window.first_waiting();
        let number = self.window.base() + at as u64;
        let stretch = self.next_stretch(at, size)?;
        self.window.rest_part(at, stretch.from(), stretch.to())?;
        let polled = self.poll(more);
        let octets = self.write_part(at, number, polled, &stretch)?;
        Ok(Taken::Piece {
            number,
            fresh: false,
            polled,
            octets,
        })
    }

    // Adds a new PDU to the window.
    #[tactic(auto, using(crate::proofs::SendSteps::news))]
    fn add_new(&mut self, size: u32) -> Result<(), NoMemory>
        requires some { 0 < length self.old.queue.sdus }
        requires open { length self.old.window.slots < AM_WINDOW_SIZE }
        requires room { 3 ≤ size }
        requires short { size ≤ 9421 }
        ensures state { OnOk result (self.new ≡ sent_new self.old size) }
        ensures fits { OnOk result (whole_size (new_slot self.old size) ≤ size) }
    {
        if self.place >= LIMIT {
            return Err(NoMemory);
        }
        let pdu = new_pdu(&mut self.queue, self.alloc, HEAD, size as usize)?;
        self.polls.count(pdu.field.as_slice().len())?;
        let place = self.place;
        self.place += pdu.ended() as u64;
        self.window.add(slot_of(self.alloc, pdu, place))
    }

    #[tactic(auto, using(crate::proofs::SendSteps::news))]
    fn send_new(&mut self, size: u32, more: bool) -> Result<Taken, NoMemory>
        requires some { 0 < length self.old.queue.sdus }
        requires open { length self.old.window.slots < AM_WINDOW_SIZE }
        requires room { 3 ≤ size }
        requires short { size ≤ 9421 }
        ensures state { OnOk result (self.new ≡ polled (sent_new self.old size) more) }
        ensures taken { IfOk result
            (λ t. t ≡ new_taken self.old size (is_wanted (sent_new self.old size) more)) }
        ensures within { IfOk result (λ t. IsWithin size t) }
    {
        let at = self.window.len();
        let number = self.window.next();
        self.add_new(size)?;
        let polled = self.poll(more);
        let octets = self.write_whole(at, number, polled)?;
        Ok(Taken::Piece {
            number,
            fresh: true,
            polled,
            octets,
        })
    }

    #[tactic(auto, unfolding(crate::specs::Machine::after_turn, crate::specs::Machine::answer_of))]
    pub(crate) fn take(
        &mut self,
        size: u32,
        held: Option<u64>,
        more: bool,
    ) -> Result<Taken, NoMemory>
        requires { size ≤ 9421 }
        ensures state { OnOk result (self.new ≡ after_take self.old size held more) }
        ensures taken { IfOk result (λ t. t ≡ answer self.old size held more) }
        ensures within { IfOk result (λ t. IsWithin size t) }
    {
        match self.turn(size, held, more) {
            Turn::Whole => self.send_whole(more),
            Turn::Part => self.send_part(size, more),
            Turn::New => self.send_new(size, more),
            Turn::Idle => Ok(Taken::Idle),
            Turn::Stopped => Ok(Taken::Stopped),
            Turn::Small => Ok(Taken::Small),
            Turn::Shut => Ok(Taken::Shut),
            Turn::Held => Ok(Taken::Held),
        }
    }
}

fn slot_of(alloc: Global, pdu: NewPdu, place: u64) -> Slot
    requires lens { AreLens pdu.lens.items }
    requires whole { sum pdu.lens.items ≡ length pdu.field }
    requires short { length pdu.field < 2 ^ 15 }
    requires place { place < 2 ^ 63 }
    ensures { result ≡ fresh pdu.field pdu.lens.items pdu.begins pdu.ends place }
{
    Slot::new(alloc, pdu.field, pdu.lens, pdu.begins, pdu.ends, place)
}

fn resend_turn(slot: &Slot, size: u32) -> Turn
    ensures value { result ≡ resend_turn slot.now size }
    ensures able { IsAgain slot.now size result }
    ensures old { result ≡ turns.New → ⊥ }
{
    if slot.all_wait() && slot.whole_size() <= size {
        Turn::Whole
    } else if 5 <= size {
        Turn::Part
    } else {
        Turn::Small
    }
}
