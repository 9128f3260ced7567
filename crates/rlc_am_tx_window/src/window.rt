ghost use Rattle.std.specs.Prelude.{◌≡◌, ◌++◌, ◌+◌, ◌<◌, ◌≤◌, ◌^◌, OnOk, OnErr, IfOk, IfSome, List};
ghost use Rattle.std.specs.Prelude.{[], ◌∷◌, length, drop, slice_get, slice_set, None, Some};
ghost use Rattle.std.specs.Prelude.{option_copied, true, false, if◌then◌else◌};
ghost use Rattle.circular_buffer.specs.Buffer.{buffer};
ghost use Rattle.rlc_am_tx_window.specs.Sent.{is_waiting, is_spent, rested, sent_part, recalled};
ghost use Rattle.rlc_am_tx_window.specs.Window.{next, slot_at, with_slot, offset_of, leading_idle};
ghost use Rattle.rlc_am_tx_window.specs.Window.{waiting_in, last_open, named_all, acked_from};
ghost use Rattle.rlc_am_tx_window.specs.Window.{credited_from, considered_all, spent_among};
ghost use Rattle.rlc_am_tx_window.specs.Window.{advanced};
ghost use Rattle.rlc_pdu.specs.declared.constants.TheConstants.{AM_MODULUS};

use crate::ledger::Accounts;
use crate::numbers::Numbers;
use crate::ring;
use crate::slot::Slot;
use circular_buffer::HeapCircularBuffer;
use l2_bits::{NoMemory, make_room};
use rlc_pdu::{AM_WINDOW_SIZE, NackReader};
use std::alloc::Global;
use std::marker::Model;

// From this number on the window takes nothing more.
const LIMIT: u64 = 1 << 62;

/// What is kept of each number from VT(A) below VT(S).
#[derive(Drop)]
pub struct Window {
    ring: HeapCircularBuffer<Slot>,
    base: u64,
    // The numbers of which octets wait to be resent.
    waiting: Numbers,
}

impl Model for Window {
    ghost use Rattle.rlc_pdu.specs.declared.constants.TheConstants.{AM_WINDOW_SIZE};
    ghost use Rattle.std.specs.Prelude.{◌≡◌, ◌≤◌, ◌+◌, ◌^◌, length};
    ghost use Rattle.rlc_am_tx_window.specs.Window.{TxWindow, waiting_from};

    ghost Value = { TxWindow };

    ghost view = { λ w. record { base = w.base; slots = w.ring.items } };

    ghost invariant = { λ w. (length w.ring.items ≤ AM_WINDOW_SIZE)
        × (w.base + length w.ring.items ≤ 2 ^ 62 + AM_WINDOW_SIZE)
        × (w.waiting ≡ waiting_from w.base w.ring.items) };
}

impl Window {
    ghost use Rattle.rlc_pdu.specs.Views.{nacks_of};

    /// The empty window. Memory for its numbers is taken as they come.
    pub fn new(alloc: Global) -> Result<Window, NoMemory>
        ensures { IfOk result (λ w. w ≡ record { base = 0; slots = [] }) }
    {
        let ring = HeapCircularBuffer::with_capacity(alloc, 0)?;
        Ok(Window {
            ring,
            base: 0,
            waiting: Numbers::new(alloc),
        })
    }

    /// VT(A).
    pub fn base(&self) -> u64
        ensures value { result ≡ self.now.base }
        ensures below { result ≤ 2 ^ 62 + AM_WINDOW_SIZE }
    {
        self.base
    }

    /// VT(S).
    pub fn next(&self) -> u64
        ensures value { result ≡ next self.now }
        ensures below { result ≤ 2 ^ 62 + AM_WINDOW_SIZE }
    {
        self.base + self.ring.len() as u64
    }

    /// How many numbers lie from VT(A) below VT(S).
    pub fn len(&self) -> usize
        ensures value { result ≡ length self.now.slots }
        ensures below { result ≤ AM_WINDOW_SIZE }
    {
        self.ring.len()
    }

    /// What is kept of the number that lies so far above VT(A).
    pub fn get(&self, at: usize) -> Option<&Slot>
        ensures { option_copied result ≡ slice_get self.now.slots at }
    {
        self.ring.get(at)
    }

    /// How far a sequence number lies above VT(A).
    pub fn offset(&self, sn: u32) -> usize
        ensures value { result ≡ offset_of self.now.base sn }
        ensures below { result < AM_MODULUS }
    {
        ring::offset(self.base, sn)
    }

    /// How far above VT(A) the first number lies that waits to be resent; `len()` where none waits.
    #[tactic(auto, using(crate::proofs::WaitingSteps::firsts))]
    pub fn first_waiting(&self) -> usize
        ensures value { result ≡ leading_idle self.now.slots }
        ensures within { result ≤ length self.now.slots }
        ensures below { result ≤ AM_WINDOW_SIZE }
    {
        match self.waiting.first() {
            Some(number) => number.saturating_sub(self.base) as usize,
            None => self.ring.len(),
        }
    }

    /// How many octets wait to be resent.
    pub fn waiting_octets(&self) -> u64
        ensures value { result ≡ waiting_in self.now.slots }
        ensures below { result ≤ 2 ^ 32 }
    {
        ring::waiting_octets(&self.ring)
    }

    /// How far above VT(A) the greatest number lies that isn't acknowledged.
    pub fn last_open(&self) -> Option<usize>
        ensures value { result ≡ last_open 0 None self.now.slots }
        ensures within { IfSome result (λ at. at < length self.now.slots) }
        ensures below { IfSome result (λ at. at < AM_MODULUS) }
    {
        ring::last_open(&self.ring)
    }

    /// Whether RETX_COUNT of the number that lies so far above VT(A) has reached a limit.
    pub fn is_spent(&self, at: usize, most: u32) -> bool
        ensures { result ≡ is_spent (slot_at self.now.slots at).retransmissions most }
    {
        ring::is_spent_at(&self.ring, at, most)
    }

    /// Adds a PDU with the number VT(S), of which no octet waits.
    pub fn add(&mut self, slot: Slot) -> Result<(), NoMemory>
        requires room { length self.old.slots < AM_WINDOW_SIZE }
        requires idle { is_waiting slot ≡ false }
        ensures { OnOk result (self.new ≡ record self.old { slots = self.old.slots ++ slot ∷ [] }) }
    {
        if self.base >= LIMIT {
            return Err(NoMemory);
        }
        let len = self.ring.len();
        make_room(&mut self.ring, len + 1)?;
        ring::add(&mut self.ring, &self.waiting, self.base, slot);
        Ok(())
    }

    /// No octet of a number waits any longer.
    pub fn rest(&mut self, at: usize)
        requires { at < length self.old.slots }
        ensures { self.new ≡ with_slot self.old at (rested (slot_at self.old.slots at)) }
    {
        ring::rest(&mut self.ring, &mut self.waiting, self.base, at);
    }

    /// Octets of a segment of a number don't wait any longer.
    pub fn rest_part(&mut self, at: usize, from: u32, to: u32) -> Result<(), NoMemory>
        requires there { at < length self.old.slots }
        requires some { from < to }
        requires within { to ≤ length (slot_at self.old.slots at).field }
        requires waits { is_waiting (slot_at self.old.slots at) ≡ true }
        ensures { OnOk result
            (self.new ≡ with_slot self.old at (sent_part (slot_at self.old.slots at) from to)) }
    {
        ring::rest_part(&mut self.ring, &mut self.waiting, self.base, at, from, to)
    }

    /// An expiry of the poll timer names all octets of a number, where nothing waits. It takes no
    /// memory.
    pub fn recall(&mut self, at: usize, most: u32)
        requires there { at < length self.old.slots }
        requires quiet { leading_idle self.old.slots ≡ length self.old.slots }
        ensures { self.new ≡ with_slot self.old at (recalled most (slot_at self.old.slots at)) }
    {
        ring::recall(&mut self.ring, &mut self.waiting, self.base, at, most);
    }

    /// Names what the entries of a STATUS name.
    pub fn name_all(&mut self, nacks: NackReader<'_>) -> Result<(), NoMemory>
        ensures { OnOk result
            (self.new ≡ record self.old {
              slots =
                  named_all self.old.base self.old.slots (nacks_of nacks.entry);
            }) }
    {
        ring::name_all(&mut self.ring, &mut self.waiting, self.base, nacks)
    }

    /// Acknowledges the numbers below a place that the STATUS didn't name.
    pub fn acknowledge(&mut self, below: usize, accounts: &mut Accounts) -> Result<(), NoMemory>
        ensures state { OnOk result
            (self.new ≡ record self.old { slots = acked_from 0 below self.old.slots }) }
        ensures accounts { OnOk result (accounts.new
            ≡ credited_from accounts.old 0 below self.old.slots) }
    {
        ring::acknowledge(
            &mut self.ring,
            &mut self.waiting,
            self.base,
            below,
            accounts,
        )
    }

    /// Considers for retransmission what the entries of a STATUS named.
    #[tactic(auto, using(crate::proofs::WaitingSteps::considers))]
    pub fn consider_all(&mut self, nacks: NackReader<'_>, most: u32)
        ensures { self.new ≡ record self.old {
          slots =
              considered_all self.old.base most self.old.slots (nacks_of nacks.entry);
        } }
    {
        ring::consider_all(&mut self.ring, self.base, nacks, most);
    }

    /// The place of the least number named whose RETX_COUNT has reached the limit.
    pub fn spent_among(&self, nacks: NackReader<'_>, most: u32) -> Option<usize>
        ensures value { result ≡ spent_among self.now.base most self.now.slots None
            (nacks_of nacks.entry) }
        ensures below { IfSome result (λ at. at < AM_MODULUS) }
    {
        ring::spent_among(&self.ring, self.base, nacks, most)
    }

    /// Moves VT(A) to the first number that isn't acknowledged.
    pub fn advance(&mut self)
        ensures { self.new ≡ advanced self.old }
    {
        ring::advance(&mut self.ring, &mut self.waiting, &mut self.base);
    }
}
