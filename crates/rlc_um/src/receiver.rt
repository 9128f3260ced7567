ghost use Rattle.std.specs.Prelude.{◌≡◌, ◌-◌, ◌*◌, ◌<◌, ◌≤◌, OnOk, IfOk, slice_get, is_some};
ghost use Rattle.std.specs.Prelude.{is_none, nat_lt, ◌&&◌};
ghost use Rattle.l2_num.specs.Timers.{ends};
ghost use Rattle.rlc_pdu.specs.declared.constants.TheConstants.{UM_LONG_WINDOW_SIZE};
ghost use Rattle.rlc_pdu.specs.Views.{umd_of};
ghost use Rattle.rlc_um.specs.Joined.{parts_of, with_numbers};
ghost use Rattle.rlc_um.specs.Window.{number_of};
ghost use Rattle.rlc_um.specs.Receiver.{start, pass, advanced, landed, mark_left, mark_begun};
ghost use Rattle.rlc_um.specs.Receiver.{timed, turned_by, clock_turned, put, kept, at_mark};
ghost use Rattle.rlc_um.specs.Receiver.{counted, handed, landing, turning, arrival, expiring};
ghost use Rattle.rlc_um.specs.Receiver.{expired};

use crate::joiner::Joiner;
use crate::stored::Stored;
use crate::window::Slots;
use l2_bits::{Bytes, NoMemory, Packets};
use l2_num::Timer;
use rlc_pdu::{Expired, Landed, Turned, Umd};
use std::alloc::Global;
use std::marker::Model;

const NOT_TURNED: Turned = Turned {
    stopped: false,
    started: false,
};

/// The receiver, as long as memory is there.
#[derive(Debug, Drop)]
pub(crate) struct Receiver {
    alloc: Global,
    slots: Slots,
    joiner: Joiner,
    mark: Option<u64>,
    timer: Timer,
}

impl Model for Receiver {
    ghost use Rattle.rlc_um.specs.Receiver.{State};

    ghost Value = { State };

    ghost view = { λ r. record { window = r.slots; joined = r.joiner; mark = r.mark; clock = r.timer } };
}

impl Receiver {
    pub(crate) fn new(alloc: Global, width: usize, reorder: u32) -> Result<Receiver, NoMemory>
        requires low { 0 < width }
        requires high { width ≤ UM_LONG_WINDOW_SIZE }
        ensures { IfOk result (λ r. r ≡ start width reorder) }
    {
        Ok(Receiver {
            alloc,
            slots: Slots::new(alloc, width)?,
            joiner: Joiner::new(alloc),
            mark: None,
            timer: Timer::new(reorder),
        })
    }

    /// Takes a PDU.
    #[tactic(auto, unfolding(crate::specs::Receiver::landing, crate::specs::Receiver::turning, crate::specs::Receiver::arrival))]
    pub(crate) fn arrive(&mut self, pdu: &Umd<'_>) -> Result<(Landed, Turned), NoMemory>
        requires { pdu.now.sn < 2 * self.old.window.width }
        ensures landed { IfOk result (λ r. r.0 ≡ landing (umd_of pdu.now) self.old) }
        ensures turned { IfOk result (λ r. r.1 ≡ turning (umd_of pdu.now) self.old) }
        ensures state { OnOk result (self.new ≡ arrival (umd_of pdu.now) self.old) }
        ensures width { self.new.window.width ≡ self.old.window.width }
    {
        let number = self.slots.number(pdu.sn);
        let landed = self.landing(number);
        let turned = match landed {
            Landed::Kept => self.keep(number, pdu)?,
            _ => NOT_TURNED,
        };
        Ok((landed, turned))
    }

    fn landing(&self, number: u64) -> Landed
        ensures { result ≡ landed self.now number }
    {
        let edge = self.slots.edge();
        if number < edge || self.slots.is_kept((number - edge) as usize) {
            Landed::Repeat
        } else {
            Landed::Kept
        }
    }

    fn keep(&mut self, number: u64, pdu: &Umd<'_>) -> Result<Turned, NoMemory>
        ensures state { OnOk result
            (self.new
            ≡ timed (kept (number - self.old.window.edge) (parts_of (umd_of pdu.now)) self.old)) }
        ensures turned { IfOk result
            (λ t. t ≡ turned_by self.old.mark
            (kept (number - self.old.window.edge) (parts_of (umd_of pdu.now)) self.old).window) }
        ensures width { self.new.window.width ≡ self.old.window.width }
    {
        let at = number.saturating_sub(self.slots.edge()) as usize;
        let stored = Stored::copy_of(self.alloc, pdu)?;
        self.put(at, stored)?;
        self.advance()?;
        Ok(self.turn())
    }

    // Keeps a PDU at a place above VR(UR). What falls out of the window is passed.
    fn put(&mut self, at: usize, stored: Stored) -> Result<(), NoMemory>
        ensures state { OnOk result (self.new ≡ put at stored self.old) }
        ensures width { self.new.window.width ≡ self.old.window.width }
        ensures mark { self.new.mark ≡ self.old.mark }
    {
        let fallen = self.slots.fallen(at);
        self.pass(fallen)?;
        self.slots.place(at - fallen, stored)
    }

    // Passes so many numbers.
    fn pass(&mut self, count: usize) -> Result<(), NoMemory>
        ensures state { OnOk result (self.new ≡ pass count self.old) }
        ensures width { self.new.window.width ≡ self.old.window.width }
        ensures mark { self.new.mark ≡ self.old.mark }
    {
        self.slots.pass(count, &mut self.joiner)
    }

    // Moves VR(UR) past the received numbers that stand first.
    fn advance(&mut self) -> Result<(), NoMemory>
        ensures state { OnOk result (self.new ≡ advanced self.old) }
        ensures width { self.new.window.width ≡ self.old.window.width }
        ensures mark { self.new.mark ≡ self.old.mark }
    {
        let count = self.slots.leading();
        self.pass(count)
    }

    // Stops and starts the reordering timer.
    fn turn(&mut self) -> Turned
        ensures state { self.new ≡ timed self.old }
        ensures turned { result ≡ turned_by self.old.mark self.old.window }
    {
        let turned = turn_mark(&mut self.mark, self.slots.edge(), self.slots.top());
        turn_timer(&mut self.timer, turned);
        turned
    }

    /// The reordering timer expires.
    #[tactic(auto, unfolding(crate::specs::Receiver::expiring, crate::specs::Receiver::expired))]
    pub(crate) fn expire(&mut self) -> Result<Expired, NoMemory>
        ensures answer { IfOk result (λ e. e ≡ expiring self.old) }
        ensures state { OnOk result (self.new ≡ expired self.old) }
        ensures width { self.new.window.width ≡ self.old.window.width }
    {
        match self.mark {
            None => Ok(Expired::NotRunning),
            Some(mark) => {
                self.pass_to(mark)?;
                let again = self.turn().started;
                Ok(Expired::Done { again })
            }
        }
    }

    // Moves VR(UR) to the first number at or above VR(UX) that wasn't received.
    fn pass_to(&mut self, mark: u64) -> Result<(), NoMemory>
        ensures state { OnOk result (self.new ≡ at_mark mark self.old) }
        ensures width { self.new.window.width ≡ self.old.window.width }
    {
        let count = mark.saturating_sub(self.slots.edge()) as usize;
        self.pass(count)?;
        self.advance()?;
        self.mark = None;
        self.timer.cease();
        Ok(())
    }

    /// A TTI begins. True exactly where the reordering timer reaches its end.
    pub(crate) fn tick(&mut self) -> bool
        ensures answer { result ≡ ends self.old.clock }
        ensures state { self.new ≡ counted self.old }
    {
        self.timer.tick()
    }

    /// Takes the next SDU that goes up.
    pub(crate) fn up(&mut self) -> Option<Bytes>
        ensures value { result ≡ slice_get self.old.joined.ready 0 }
        ensures state { self.new ≡ handed self.old }
    {
        self.joiner.up()
    }

    /// Joins all that is kept.
    #[tactic(auto, using(crate::proofs::Steps::take_whole))]
    pub(crate) fn join_all(&mut self) -> Result<(), NoMemory>
        ensures state { OnOk result (self.new.joined
            ≡ with_numbers self.old.window.slots self.old.joined) }
        ensures width { self.new.window.width ≡ self.old.window.width }
    {
        let count = self.slots.len();
        self.pass(count)
    }

    /// The SDUs that may go up.
    pub(crate) fn into_ready(self) -> Packets
        ensures { result ≡ self.joined.ready }
    {
        self.joiner.into_ready()
    }
}

// Stops and starts VR(UX).
fn turn_mark(mark: &mut Option<u64>, edge: u64, top: u64) -> Turned
    ensures mark { mark.new ≡ mark_begun (mark_left mark.old edge) edge top }
    ensures stopped { result.stopped ≡ (is_some mark.old && is_none (mark_left mark.old edge)) }
    ensures started { result.started ≡ (is_none (mark_left mark.old edge) && nat_lt edge top) }
{
    let stopped = mark.is_some_and(|x| x <= edge);
    if stopped {
        *mark = None;
    }
    let started = mark.is_none() && edge < top;
    if started {
        *mark = Some(top);
    }
    Turned { stopped, started }
}

fn turn_timer(timer: &mut Timer, turned: Turned)
    ensures { timer.new ≡ clock_turned turned timer.old }
{
    if turned.started {
        timer.begin();
    } else if turned.stopped {
        timer.cease();
    }
}
