ghost use Rattle.std.specs.Prelude.{◌≡◌, ◌-◌, ◌^◌, ◌≤◌, Option, OnOk, slice_get};
ghost use Rattle.rlc_pdu.specs.Pdus.{IsUmBits};
ghost use Rattle.journal_um.specs.UmEvents.{PduArrived, ReorderStarted, ReorderExpired};
ghost use Rattle.journal_um.specs.UmEvents.{InLife, LifeEnded};
ghost use Rattle.journal_um.specs.UmNumbers.{read_number};
ghost use Rattle.journal_um.specs.UmWindow.{top_of, width_of};
ghost use Rattle.journal_um.specs.UmFlow.{empty_flow, is_long, pass, advanced, put, kept, landed};
ghost use Rattle.journal_um.specs.UmFlow.{numbered, flow_with, sdu_taken};

use crate::joiner::Joiner;
use crate::pieces::{JoinedSdu, Pieces};
use crate::window::Window;
use l2_bits::NoMemory;
use rlc_pdu::{UM_LONG_WINDOW_SIZE, UM_SHORT_WINDOW_SIZE};
use std::alloc::Global;
use std::marker::Model;

/// What the events of an unacknowledged flow tell through its lives: which SDUs go up, whatever is
/// lost, and whether losses were long. Numbers are true numbers, counted from 0 in a life.
/// Contracts see the account of `specs/UmFlow.antt`.
///
/// It takes memory for the PDUs that were accepted from VR(UR) on, of which there are at most
/// UM_Window_Size, for the SDU that is being joined, and for those that weren't taken yet. Behind
/// an `Err` nothing is known.
#[derive(Drop)]
pub struct UmFlow {
    window: Window,
    mark: u64,
    far: bool,
    joiner: Joiner,
}

impl Model for UmFlow {
    ghost use Rattle.journal_um.specs.UmFlow.{UmFlow};

    ghost Value = { UmFlow };

    ghost view = { λ f. record {
      window = f.window;
      mark = f.mark;
      far = f.far;
      joiner = f.joiner;
    } };
}

impl UmFlow {
    /// As the first life begins, with the bits of RLC's SNs, 5 or 10, and of PDCP's. It takes no
    /// memory.
    pub fn new(alloc: Global, sn_bits: u32, pdcp_bits: u32) -> UmFlow
        requires sn_bits { IsUmBits sn_bits }
        requires pdcp_bits { pdcp_bits ≤ 31 }
        ensures { result ≡ empty_flow (width_of sn_bits) (2 ^ pdcp_bits) }
    {
        UmFlow {
            window: Window::new(alloc, width(sn_bits)),
            mark: 0,
            far: false,
            joiner: Joiner::new(alloc, 1 << pdcp_bits),
        }
    }

    /// VR(UR), the least number that is still awaited.
    pub fn edge(&self) -> u64
        ensures { result ≡ self.now.window.edge }
    {
        self.window.edge()
    }

    /// VR(UH), one above the greatest number that was read, or 0.
    pub fn top(&self) -> u64
        ensures { result ≡ top_of self.now.window }
    {
        self.window.top()
    }

    /// Whether losses were long, in this life or an earlier one: a number came that its SN doesn't
    /// tell, or so many SDUs were left out before one that goes up that PDCP's SN doesn't tell its
    /// COUNT (TS 36.322 7.1, TS 36.323 5.1.2.1.3).
    pub fn is_long(&self) -> bool
        ensures { result ≡ is_long self.now }
    {
        self.far || self.joiner.is_long()
    }

    /// Takes the next SDU that goes up, for PDCP to read.
    pub fn next_joined(&mut self) -> Option<JoinedSdu>
        ensures value { result ≡ slice_get self.old.joiner.ready 0 }
        ensures rest { self.new ≡ sdu_taken self.old }
    {
        self.joiner.take_next()
    }

    /// A UMD PDU comes, with its number and its pieces (TS 36.322 5.1.2.2.2, 5.1.2.2.3).
    pub fn arrive(&mut self, number: u64, pieces: Pieces) -> Result<(), NoMemory>
        ensures { OnOk result (self.new ≡ flow_with (InLife (PduArrived number pieces)) self.old) }
    {
        self.note_far(number);
        match self.window.read(number) {
            Some(read) => self.land(read, pieces),
            None => Ok(()),
        }
    }

    /// t-Reordering starts, with VR(UX) at VR(UH) (TS 36.322 5.1.2.2.3).
    pub fn start_reorder(&mut self)
        ensures { self.new ≡ flow_with (InLife ReorderStarted) self.old }
    {
        self.mark = self.window.top();
    }

    /// t-Reordering expires, and VR(UR) moves to the first number at or above VR(UX) that wasn't
    /// accepted (TS 36.322 5.1.2.2.4).
    pub fn expire_reorder(&mut self) -> Result<(), NoMemory>
        ensures { OnOk result (self.new ≡ flow_with (InLife ReorderExpired) self.old) }
    {
        let count = self.mark.saturating_sub(self.window.edge());
        self.pass(count as usize)?;
        self.advance()
    }

    /// The life ends, and the next one begins: all that was accepted is joined (TS 36.322 5.4).
    pub fn end_life(&mut self) -> Result<(), NoMemory>
        ensures { OnOk result (self.new ≡ flow_with LifeEnded self.old) }
    {
        let count = self.window.len();
        self.pass(count)?;
        self.window.clear();
        self.joiner.end_life();
        self.mark = 0;
        Ok(())
    }

    fn note_far(&mut self, number: u64)
        ensures { self.new ≡ numbered number self.old }
    {
        if self.window.is_far(number) {
            self.far = true;
        }
    }

    // A PDU is read as a number.
    fn land(&mut self, number: u64, pieces: Pieces) -> Result<(), NoMemory>
        ensures { OnOk result (self.new ≡ landed (Some number) pieces self.old) }
    {
        if self.window.is_dropped(number) {
            return Ok(());
        }
        let at = number.saturating_sub(self.window.edge());
        self.keep(at as usize, pieces)
    }

    // A PDU is accepted, at a place behind VR(UR).
    fn keep(&mut self, at: usize, pieces: Pieces) -> Result<(), NoMemory>
        ensures { OnOk result (self.new ≡ kept at pieces self.old) }
    {
        let fallen = self.window.fallen(at);
        self.pass(fallen)?;
        self.window.place(at - fallen, pieces)?;
        self.advance()
    }

    // VR(UR) moves by so many numbers.
    fn pass(&mut self, count: usize) -> Result<(), NoMemory>
        ensures flow { OnOk result (self.new ≡ pass count self.old) }
        ensures width { self.new.window.width ≡ self.old.window.width }
    {
        self.window.pass(count, &mut self.joiner)
    }

    // It moves past the accepted numbers that stand first.
    fn advance(&mut self) -> Result<(), NoMemory>
        ensures { OnOk result (self.new ≡ advanced self.old) }
    {
        let count = self.window.leading();
        self.pass(count)
    }
}

// UM_Window_Size (TS 36.322 7.2).
fn width(sn_bits: u32) -> u64
    requires { IsUmBits sn_bits }
    ensures { result ≡ width_of sn_bits }
{
    if sn_bits == 5 {
        u64::from(UM_SHORT_WINDOW_SIZE)
    } else {
        u64::from(UM_LONG_WINDOW_SIZE)
    }
}
