//! The receiver's rules.
ghost use Rattle.std.specs.Prelude.{◌≡◌, [], ◌∷◌, ◌++◌, ◌+◌, ◌*◌, ◌<◌, ◌≤◌, ◌^◌, ◌%◌, ◌||◌, ◌&&◌};
ghost use Rattle.std.specs.Prelude.{length, drop, OnOk, IfOk, is_none, nat_lt, slice_get};
ghost use Rattle.std.specs.Prelude.{option_map};
ghost use Rattle.l2_bits.specs.Bits.{bits_of};
ghost use Rattle.l2_num.specs.Timers.{Clock, stopped, runs, ends, begun, ceased};
ghost use Rattle.rlc_pdu.specs.Pdus.{IsSegment};
ghost use Rattle.rlc_pdu.specs.Views.{amd_of};
ghost use Rattle.rlc_pdu.specs.Status.{status_size};
ghost use Rattle.rlc_pdu.specs.Writing.{status_written};
ghost use Rattle.rlc_am_rx_window.specs.Window.{offset_of, advanced, top};
ghost use Rattle.rlc_am_rx_window.specs.Piece.{piece_of, end_of};
ghost use Rattle.rlc_am_rx.specs.State.{fresh};
ghost use Rattle.rlc_am_rx.specs.Status.{is_running, may_write, listed, chosen, ack, nacks};
ghost use Rattle.rlc_am_rx.specs.Status.{whole_size};
ghost use Rattle.rlc_am_rx.specs.Machine.{stops, mark_left, starts, mark_begun, clock_left};
ghost use Rattle.rlc_am_rx.specs.Machine.{clock_begun, turned_by, landed, window_with, bound_moved};
ghost use Rattle.rlc_am_rx.specs.Machine.{settled, arrived, turned, after_reorder, reorder_answer};
ghost use Rattle.rlc_am_rx.specs.Machine.{after_prohibit, prohibit_answer, reorder_ticked};
ghost use Rattle.rlc_am_rx.specs.Machine.{prohibit_ticked, prohibit_ends, written, taken, finished};
ghost use Rattle.rlc_pdu.specs.declared.constants.TheConstants.{AM_WINDOW_SIZE};

use crate::report::{ack_behind, choose};
use l2_bits::{Bytes, NoMemory, Packets};
use l2_num::Timer;
use l2_types::AmRxConfig;
use rlc_am_rx_window::{Output, Window};
use rlc_pdu::{AM_MODULUS, Amd, Expired, Landed, Nacks, Turned, write_status};
use std::alloc::Global;
use std::marker::Model;

#[derive(Drop)]
pub(crate) struct Receiver {
    alloc: Global,
    window: Window,
    out: Output,
    /// VR(MS).
    bound: u64,
    /// VR(X), where the reordering timer runs.
    mark: Option<u64>,
    reorder: Timer,
    prohibit: Option<Timer>,
    due: bool,
}

impl Model for Receiver {
    ghost use Rattle.rlc_am_rx.specs.State.{State};

    ghost Value = { State };

    ghost view = { λ r. record {
      window = r.window;
      out = r.out;
      bound = r.bound;
      mark = r.mark;
      reorder = r.reorder;
      prohibit = r.prohibit;
      due = r.due;
    } };
}

impl Receiver {
    pub(crate) fn new(alloc: Global, config: AmRxConfig) -> Result<Receiver, NoMemory>
        ensures { IfOk result (λ r. r ≡ fresh config) }
    {
        let window = Window::new(alloc)?;
        Ok(Receiver {
            alloc,
            window,
            out: Output::new(alloc),
            bound: 0,
            mark: None,
            reorder: Timer::new(config.reorder),
            prohibit: stopped_timer(config.prohibit),
            due: false,
        })
    }

    pub(crate) fn arrive(&mut self, pdu: &Amd<'_>) -> Result<(Landed, Turned), NoMemory>
        requires { pdu.now.sn < AM_MODULUS }
        ensures landed { IfOk result (λ r. r.0 ≡ landed self.old (amd_of pdu.now)) }
        ensures turned { IfOk result (λ r. r.1 ≡ turned self.old (amd_of pdu.now)) }
        ensures state { OnOk result (self.new ≡ arrived self.old (amd_of pdu.now)) }
    {
        let idle = Turned {
            stopped: false,
            started: false,
        };
        match self.window.landed(pdu) {
            Landed::Kept => {
                let turned = self.keep(pdu)?;
                Ok((Landed::Kept, turned))
            }
            Landed::Clash => Ok((Landed::Clash, idle)),
            dropped => {
                self.due = self.due || pdu.poll;
                Ok((dropped, idle))
            }
        }
    }

    fn keep(&mut self, pdu: &Amd<'_>) -> Result<Turned, NoMemory>
        requires sn { pdu.now.sn < AM_MODULUS }
        requires within { offset_of self.old.window.front pdu.now.sn < AM_WINDOW_SIZE }
        requires fits { end_of (piece_of (amd_of pdu.now)) ≤ 32767 }
        ensures state { OnOk result
            (self.new ≡ settled self.old (window_with self.old.window (amd_of pdu.now))
            (offset_of self.old.window.front pdu.now.sn) pdu.now.poll) }
        ensures turned { IfOk result
            (λ t. t ≡ turned_by self.old.mark
            (advanced (window_with self.old.window (amd_of pdu.now)))) }
    {
        let at = self.window.offset(pdu.sn);
        self.window.keep(at, pdu)?;
        let front = self.window.front();
        let from = self.bound.saturating_sub(front) as usize;
        let to = self.window.first_incomplete(from);
        self.due = self.due || pdu.poll && at < to || self.window.has_poll(from, to);
        self.bound = front + to as u64;
        self.window.advance(&mut self.out)?;
        let (front, top) = (self.window.front(), self.window.top());
        Ok(turn(&mut self.mark, &mut self.reorder, front, top))
    }

    pub(crate) fn up(&mut self) -> Option<Bytes>
        ensures value { result ≡ slice_get self.old.out.ready 0 }
        ensures state { self.new ≡ taken self.old }
    {
        self.out.up()
    }

    pub(crate) fn may_write(&self) -> bool
        ensures { result ≡ may_write self.now }
    {
        self.due && !runs(&self.prohibit)
    }

    #[tactic(auto, using(crate::proofs::ReportLemmas::sizes))]
    pub(crate) fn status_size(&self) -> u32
        ensures { result ≡ whole_size self.now }
    {
        if !self.may_write() {
            return 0;
        }
        (15 + self.window.missing_bits(self.bound) + 7) / 8
    }

    #[tactic(auto, using(crate::proofs::ReportLemmas::writing))]
    pub(crate) fn write_status(&mut self, size: u32) -> Result<Bytes, NoMemory>
        requires { 2 ≤ size }
        ensures bits { IfOk result (λ pdu. bits_of pdu
            ≡ status_written (ack self.old size % AM_MODULUS) (nacks self.old size)) }
        ensures size { IfOk result (λ pdu. length pdu ≡ status_size (nacks self.old size)) }
        ensures within { IfOk result (λ pdu. length pdu ≤ size) }
        ensures state { OnOk result (self.new ≡ written self.old) }
    {
        let all = self.window.missing(self.bound)?;
        let mut nacks = Nacks::new(self.alloc);
        let count = choose(&all, size, &mut nacks)?;
        let ack = ack_behind(&all, count, self.bound);
        let pdu = write_status(self.alloc, (ack % AM_MODULUS) as u32, &nacks)?;
        self.due = false;
        begin(&mut self.prohibit);
        Ok(pdu)
    }

    pub(crate) fn tick_reorder(&mut self) -> bool
        ensures answer { result ≡ ends self.old.reorder }
        ensures state { self.new ≡ reorder_ticked self.old }
    {
        self.reorder.tick()
    }

    pub(crate) fn tick_prohibit(&mut self) -> bool
        ensures answer { result ≡ prohibit_ends self.old.prohibit }
        ensures state { self.new ≡ prohibit_ticked self.old }
    {
        match &mut self.prohibit {
            None => false,
            Some(timer) => timer.tick(),
        }
    }

    pub(crate) fn expire_reorder(&mut self) -> Expired
        ensures answer { result ≡ reorder_answer self.old.mark self.old }
        ensures state { self.new ≡ after_reorder self.old.mark self.old }
    {
        let Some(mark) = self.mark else {
            return Expired::NotRunning;
        };
        self.bound = self.incomplete_from(mark);
        self.due = true;
        self.mark = None;
        self.reorder.cease();
        let again = self.bound < self.window.top();
        if again {
            self.mark = Some(self.window.top());
            self.reorder.begin();
        }
        Expired::Done { again }
    }

    /// The first number at or above another that isn't complete.
    fn incomplete_from(&self, number: u64) -> u64
        ensures { result ≡ bound_moved self.now.window number }
    {
        let front = self.window.front();
        let from = number.saturating_sub(front) as usize;
        front + self.window.first_incomplete(from) as u64
    }

    pub(crate) fn expire_prohibit(&mut self) -> Expired
        ensures answer { result ≡ prohibit_answer self.old }
        ensures state { self.new ≡ after_prohibit self.old }
    {
        if !runs(&self.prohibit) {
            return Expired::NotRunning;
        }
        cease(&mut self.prohibit);
        Expired::Done { again: false }
    }

    /// Goes on with all that is held, as the receiver ends.
    pub(crate) fn salvage(&mut self) -> Result<(), NoMemory>
        ensures { OnOk result (self.new.out.ready ≡ finished self.old) }
    {
        self.window.salvage(&mut self.out)
    }

    pub(crate) fn into_ready(self) -> Packets
        ensures { result ≡ self.out.ready }
    {
        self.out.into_ready()
    }
}

/// Stops and starts the reordering timer after an arrival.
fn turn(mark: &mut Option<u64>, reorder: &mut Timer, front: u64, top: u64) -> Turned
    ensures mark { mark.new ≡ mark_begun (mark_left mark.old front) front top }
    ensures stopped { result.stopped ≡ stops mark.old front }
    ensures started { result.started ≡ starts (mark_left mark.old front) front top }
    ensures reorder { reorder.new
        ≡ clock_begun (starts (mark_left mark.old front) front top)
        (clock_left (stops mark.old front) reorder.old) }
{
    let stopped = mark.is_some_and(|x| x <= front);
    if stopped {
        *mark = None;
        reorder.cease();
    }
    let started = mark.is_none() && front < top;
    if started {
        *mark = Some(top);
        reorder.begin();
    }
    Turned { stopped, started }
}

fn stopped_timer(length: Option<u32>) -> Option<Timer>
    ensures { result ≡ option_map stopped length }
{
    match length {
        None => None,
        Some(length) => Some(Timer::new(length)),
    }
}

fn runs(timer: &Option<Timer>) -> bool
    ensures { result ≡ is_running timer.now }
{
    match timer {
        None => false,
        Some(timer) => timer.runs(),
    }
}

fn begin(timer: &mut Option<Timer>)
    ensures { timer.new ≡ option_map begun timer.old }
{
    if let Some(timer) = timer {
        timer.begin();
    }
}

fn cease(timer: &mut Option<Timer>)
    ensures { timer.new ≡ option_map ceased timer.old }
{
    if let Some(timer) = timer {
        timer.cease();
    }
}
