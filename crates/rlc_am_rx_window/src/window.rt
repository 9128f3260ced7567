ghost use Rattle.std.specs.Prelude.{◌≡◌, [], ◌∷◌, ◌++◌, ◌+◌, ◌-◌, ◌<◌, ◌≤◌, ◌^◌, length, OnOk};
ghost use Rattle.std.specs.Prelude.{IfOk, slice_get, max, None};
ghost use Rattle.rlc_pdu.specs.Views.{amd_of};
ghost use Rattle.rlc_am_rx_window.specs.Piece.{piece_of, end_of};
ghost use Rattle.rlc_am_rx_window.specs.Window.{no_numbers, top, offset_of, first_incomplete};
ghost use Rattle.rlc_am_rx_window.specs.Window.{polled_in, landed, landing, with_kept, handed_on};
ghost use Rattle.rlc_am_rx_window.specs.Window.{advanced, salvaged};
ghost use Rattle.rlc_am_rx_window.specs.Missing.{missing, AreRanges, entries_bits};

use crate::missing::Missing;
use crate::output::Output;
use crate::piece::end_of;
use crate::ring;
use crate::slot::Slot;
use circular_buffer::HeapCircularBuffer;
use l2_bits::{NoMemory, make_room};
use rlc_pdu::{AM_MODULUS, AM_WINDOW_SIZE, Amd, Landed};
use std::alloc::Global;
use std::marker::Model;

/// From this number on the window takes no more.
const LIMIT: u64 = 1 << 63;

/// What is held of each number from VR(R) below VR(H).
#[derive(Drop)]
pub struct Window {
    alloc: Global,
    ring: HeapCircularBuffer<Slot>,
    front: u64,
    given: usize,
}

impl Model for Window {
    ghost use Rattle.rlc_pdu.specs.declared.constants.TheConstants.{AM_WINDOW_SIZE};
    ghost use Rattle.std.specs.Prelude.{◌≡◌, ◌≤◌, ◌+◌, ◌^◌, length};
    ghost use Rattle.rlc_am_rx_window.specs.Window.{RxWindow};

    ghost Value = { RxWindow };

    ghost view = { λ w. record { front = w.front; slots = w.ring.items; given = w.given } };

    ghost invariant = { λ w. (length w.ring.items ≤ AM_WINDOW_SIZE)
        × (w.front + length w.ring.items ≤ 2 ^ 63 + AM_WINDOW_SIZE) };
}

impl Window {
    /// A window in front of number 0. Memory for its numbers is taken as they come.
    pub fn new(alloc: Global) -> Result<Window, NoMemory>
        ensures { IfOk result (λ w. w ≡ no_numbers) }
    {
        let ring = HeapCircularBuffer::with_capacity(alloc, 0)?;
        Ok(Window {
            alloc,
            ring,
            front: 0,
            given: 0,
        })
    }

    /// VR(R), the first number that isn't complete.
    pub fn front(&self) -> u64
        ensures value { result ≡ self.now.front }
        ensures below { result ≤ 2 ^ 63 + AM_WINDOW_SIZE }
    {
        self.front
    }

    /// VR(H), one above the highest number of which an octet has arrived.
    pub fn top(&self) -> u64
        ensures value { result ≡ top self.now }
        ensures below { result ≤ 2 ^ 63 + AM_WINDOW_SIZE }
    {
        self.front + self.ring.len() as u64
    }

    /// How far a number of 10 bits lies above the front.
    pub fn offset(&self, sn: u32) -> usize
        requires { sn < AM_MODULUS }
        ensures value { result ≡ offset_of self.now.front sn }
        ensures below { result < AM_MODULUS }
    {
        ((sn as u64 + AM_MODULUS - self.front % AM_MODULUS) % AM_MODULUS) as usize
    }

    /// What comes of a PDU: first `Outside`, then `Repeat`, then `Clash`, exactly where it is so;
    /// else `Kept`.
    pub fn landed(&self, pdu: &Amd<'_>) -> Landed
        requires { pdu.now.sn < AM_MODULUS }
        ensures { result ≡ landed self.now pdu.now.sn (piece_of (amd_of pdu.now)) }
    {
        let at = self.offset(pdu.sn);
        if AM_WINDOW_SIZE <= at {
            return Landed::Outside;
        }
        match self.ring.get(at) {
            Some(slot) => slot.landing(pdu),
            None => landing_on_nothing(pdu),
        }
    }

    /// The first place at or above another whose number isn't complete.
    pub fn first_incomplete(&self, from: usize) -> usize
        ensures value { result ≡ first_incomplete self.now.slots from }
        ensures within { result ≤ max from AM_WINDOW_SIZE }
    {
        ring::first_incomplete(&self.ring, from)
    }

    /// Whether a poll came with one of the numbers from a place on below another.
    pub fn has_poll(&self, from: usize, to: usize) -> bool
        ensures { result ≡ polled_in self.now.slots from to }
    {
        ring::has_poll(&self.ring, from, to)
    }

    /// What a STATUS may say of the numbers below a bound.
    pub fn missing(&self, bound: u64) -> Result<Vec<Missing>, NoMemory>
        ensures value { IfOk result (λ all. all.items ≡ missing self.now bound) }
        ensures ranges { IfOk result (λ all. AreRanges all.items) }
    {
        ring::missing(self.alloc, &self.ring, self.front, bound)
    }

    /// How many bits the entries of a STATUS take that says all that it may of the numbers below a
    /// bound.
    pub fn missing_bits(&self, bound: u64) -> u32
        ensures value { result ≡ entries_bits (missing self.now bound) }
        ensures few { result ≤ 2 ^ 31 }
    {
        ring::missing_bits(&self.ring, self.front, bound)
    }

    /// Keeps a PDU at a place.
    pub fn keep(&mut self, at: usize, pdu: &Amd<'_>) -> Result<(), NoMemory>
        requires at { at < AM_WINDOW_SIZE }
        requires fits { end_of (piece_of (amd_of pdu.now)) ≤ 32767 }
        ensures { OnOk result
            (self.new ≡ with_kept self.old at (piece_of (amd_of pdu.now)) pdu.now.poll) }
    {
        if self.front >= LIMIT {
            return Err(NoMemory);
        }
        make_room(&mut self.ring, at + 1)?;
        ring::widen(self.alloc, &mut self.ring, at + 1);
        match self.ring.get_mut(at) {
            Some(slot) => slot.keep(pdu),
            None => unreachable!(),
        }
    }

    /// Hands on the octets that are in sequence, and moves the front past complete numbers.
    pub fn advance(&mut self, out: &mut Output) -> Result<(), NoMemory>
        ensures window { OnOk result (self.new ≡ advanced self.old) }
        ensures out { OnOk result (out.new ≡ handed_on out.old self.old.slots self.old.given) }
    {
        ring::hand_on(&mut self.ring, &mut self.front, &mut self.given, out)
    }

    /// Goes on with all octets that are held and weren't handed on, and leaves out gaps.
    pub fn salvage(&self, out: &mut Output) -> Result<(), NoMemory>
        ensures { OnOk result (out.new ≡ salvaged out.old self.now.slots self.now.given) }
    {
        ring::salvage(&self.ring, self.given, out)
    }
}

/// What comes of a PDU of a number of which nothing has arrived.
fn landing_on_nothing(pdu: &Amd<'_>) -> Landed
    ensures { result ≡ landing None (piece_of (amd_of pdu.now)) }
{
    match end_of(pdu) {
        Some(_) => Landed::Kept,
        None => Landed::Clash,
    }
}
