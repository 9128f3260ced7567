ghost use Rattle.std.specs.Prelude.{◌≡◌, ◌+◌, ◌-◌, ◌<◌, ◌≤◌, ◌^◌, OnOk, IfOk, IfErr, IfSome};
ghost use Rattle.std.specs.Prelude.{length, Some, true, false, slice_get, min};
ghost use Rattle.l2_num.specs.Timers.{ends};
ghost use Rattle.rlc_pdu.specs.Views.{nacks_of, status_of};
ghost use Rattle.rlc_am_tx_window.specs.Sent.{resend_size};
ghost use Rattle.rlc_am_tx_window.specs.Window.{next, leading_idle};
ghost use Rattle.rlc_am_tx.specs.Machine.{State, start, offered, confirmed, waits, is_shut};
ghost use Rattle.rlc_am_tx.specs.Machine.{is_held, again, is_quiet, read, limit_in, limit_of};
ghost use Rattle.rlc_am_tx.specs.Machine.{stops, ended, heard_of, after_status, heard, after_tick};
ghost use Rattle.rlc_am_tx.specs.Machine.{recalled_place, with_recalled, expired, spent_at};
ghost use Rattle.rlc_am_tx.specs.Machine.{expiry_limit, expiry_of, after_expiry, expiry, settled};
ghost use Rattle.rlc_am_tx.specs.Machine.{settles};
ghost use Rattle.rlc_am_tx.specs.Need.{new_need, data_need, hungry, backlog, left};

use crate::answers::{Heard, PollExpired};
use crate::polls::Polling;
use l2_bits::{Bytes, NoMemory};
use l2_types::AmTxConfig;
use rlc_am_tx_window::{Accounts, Window, is_named};
use rlc_pdu::{AM_MODULUS, AM_WINDOW_SIZE, NackReader, StatusRead};
use rlc_queue::{Queue, has_room};
use std::alloc::Global;
use std::marker::Model;

// The fixed part of an AMD PDU's header.
pub(crate) const HEAD: usize = 2;

/// A sender, apart from its want of memory.
#[derive(Drop)]
pub(crate) struct Sender {
    pub(crate) alloc: Global,
    pub(crate) window: Window,
    pub(crate) queue: Queue,
    // The place of the first SDU of the queue among those offered.
    pub(crate) place: u64,
    pub(crate) accounts: Accounts,
    pub(crate) polls: Polling,
    pub(crate) config: AmTxConfig,
    pub(crate) failed: bool,
}

impl Model for Sender {
    ghost use Rattle.rlc_am_tx.specs.Machine.{State};

    ghost Value = { State };

    ghost view = { λ s. record {
      window = s.window;
      queue = s.queue;
      place = s.place;
      accounts = s.accounts;
      polls = s.polls;
      config = s.config;
      failed = s.failed;
    } };
}

impl Sender {
    pub(crate) fn new(alloc: Global, config: AmTxConfig) -> Result<Sender, NoMemory>
        ensures { IfOk result (λ s. s ≡ start config) }
    {
        let window = Window::new(alloc)?;
        Ok(Sender {
            alloc,
            window,
            queue: Queue::new(alloc),
            place: 0,
            accounts: Accounts::new(alloc),
            polls: Polling::new(config.poll_retransmit),
            config,
            failed: false,
        })
    }

    pub(crate) fn offer(&mut self, sdu: Bytes) -> Result<(), (Bytes, NoMemory)>
        requires some { 1 ≤ length sdu }
        requires few { length sdu ≤ 8193 }
        ensures ok { OnOk result (self.new ≡ offered self.old sdu) }
        ensures back { IfErr result (λ e. e.0 ≡ sdu) }
    {
        if let Err(no_memory) = self.accounts.open(sdu.as_slice().len() as u32) {
            return Err((sdu, no_memory));
        }
        self.queue.offer(sdu)
    }

    pub(crate) fn confirmed(&mut self) -> Option<u64>
        ensures value { result ≡ slice_get self.old.accounts.news 0 }
        ensures state { self.new ≡ confirmed self.old }
    {
        self.accounts.confirmed()
    }

    pub(crate) fn failed(&self) -> bool
        ensures { result ≡ self.now.failed }
    {
        self.failed
    }

    // Whether octets wait to be resent.
    pub(crate) fn waits(&self) -> bool
        ensures { result ≡ waits self.now }
    {
        self.window.first_waiting() < self.window.len()
    }

    pub(crate) fn is_shut(&self) -> bool
        ensures value { result ≡ is_shut self.now }
        ensures room { result ≡ false → length self.now.window.slots < AM_WINDOW_SIZE }
    {
        self.window.len() == AM_WINDOW_SIZE
    }

    pub(crate) fn is_held(&self, held: Option<u64>) -> bool
        ensures { result ≡ is_held held (next self.now.window) }
    {
        match held {
            Some(held) => is_held(held, self.window.next()),
            None => false,
        }
    }

    // Whether nothing waits to be resent, and nothing is left to send or to take or the window is
    // shut.
    pub(crate) fn is_quiet(&self, more: bool) -> bool
        ensures { result ≡ is_quiet self.now more }
    {
        !self.waits() && (self.queue.is_empty() && !more || self.is_shut())
    }

    // Reads the entries of a STATUS, and answers the sequence number at which the limit comes.
    fn read(&mut self, below: usize, nacks: NackReader<'_>) -> Result<Option<u32>, NoMemory>
        ensures state { OnOk result (self.new ≡ read self.old below (nacks_of nacks.entry)) }
        ensures limit { IfOk result (λ r. r ≡ limit_of self.old below (nacks_of nacks.entry)) }
    {
        let most = self.config.max_retx;
        self.window.name_all(nacks)?;
        self.window.acknowledge(below, &mut self.accounts)?;
        self.window.consider_all(nacks, most);
        let limit = limit_in(
            self.failed,
            self.window.base(),
            self.window.spent_among(nacks, most),
        );
        self.accounts.sweep();
        self.window.advance();
        Ok(limit)
    }

    fn stops(&self, below: usize, nacks: NackReader<'_>) -> bool
        requires { below < AM_MODULUS }
        ensures { result ≡ stops self.now below (nacks_of nacks.entry) }
    {
        let base = self.window.base();
        let number = self.polls.number();
        self.polls.runs()
            && (number < base + below as u64
                || is_named(base, number.saturating_sub(base) as usize, nacks))
    }

    // The limit comes or not, and the poll timer is to stop or not.
    fn end(&mut self, limit: Option<u32>, stopped: bool)
        ensures { self.new ≡ ended limit stopped self.old }
    {
        if limit.is_some() {
            self.failed = true;
            self.polls.cease();
        } else if stopped {
            self.polls.cease();
        }
    }

    #[tactic(auto, unfolding(crate::specs::Machine::after_status, crate::specs::Machine::heard))]
    pub(crate) fn status(&mut self, status: StatusRead<'_>) -> Result<Heard, NoMemory>
        ensures state { OnOk result (self.new ≡ after_status self.old (status_of status.entry)) }
        ensures heard { IfOk result (λ h. h ≡ heard self.old (status_of status.entry)) }
    {
        let below = self.window.offset(status.ack);
        if self.window.len() < below {
            return Ok(Heard::Ignored);
        }
        let stopped = self.stops(below, status.nacks);
        let limit = self.read(below, status.nacks)?;
        self.end(limit, stopped);
        Ok(heard_of(limit, stopped))
    }

    pub(crate) fn tick(&mut self) -> bool
        ensures state { self.new ≡ after_tick self.old }
        ensures ends { result ≡ ends self.old.polls.timer }
    {
        self.polls.tick()
    }

    // The number that an expiry considers for retransmission lies so far above VT(A).
    #[tactic(auto, using(crate::proofs::SendSteps::quiet))]
    fn recalled_place(&self, more: bool) -> Option<usize>
        ensures value { result ≡ recalled_place self.now more }
        ensures within { IfSome result (λ at. at < length self.now.window.slots) }
        ensures below { IfSome result (λ at. at < AM_MODULUS) }
        ensures quiet { IfSome result (λ _. leading_idle self.now.window.slots
            ≡ length self.now.window.slots) }
    {
        if self.is_quiet(more) {
            self.window.last_open()
        } else {
            None
        }
    }

    fn recall(&mut self, place: Option<usize>)
        requires within { IfSome place (λ at. at < length self.old.window.slots) }
        requires quiet { IfSome place (λ _. leading_idle self.old.window.slots
            ≡ length self.old.window.slots) }
        ensures { self.new ≡ with_recalled place self.old }
    {
        match place {
            Some(at) => self.window.recall(at, self.config.max_retx),
            None => {}
        }
    }

    // The place, where it has reached the limit.
    fn spent_at(&self, place: Option<usize>) -> Option<usize>
        requires { IfSome place (λ at. at < AM_MODULUS) }
        ensures value { result ≡ spent_at place self.now }
        ensures below { IfSome result (λ at. at < AM_MODULUS) }
    {
        match place {
            Some(at) => {
                if self.window.is_spent(at, self.config.max_retx) {
                    Some(at)
                } else {
                    None
                }
            }
            None => None,
        }
    }

    fn expire(&mut self, more: bool) -> Option<u32>
        ensures state { self.new ≡ expired self.old more }
        ensures limit { result ≡ expiry_limit self.old more }
    {
        let place = self.recalled_place(more);
        self.polls.owe();
        self.recall(place);
        limit_in(self.failed, self.window.base(), self.spent_at(place))
    }

    #[tactic(auto, unfolding(crate::specs::Machine::after_expiry, crate::specs::Machine::expiry))]
    pub(crate) fn expire_poll(&mut self, more: bool) -> PollExpired
        ensures state { self.new ≡ after_expiry self.old more }
        ensures answer { result ≡ expiry self.old more }
    {
        if !self.polls.runs() {
            return PollExpired::NotRunning;
        }
        let limit = self.expire(more);
        self.end(limit, false);
        expiry_of(limit)
    }

    #[tactic(auto, unfolding(crate::specs::Machine::settles))]
    fn settles(&self, more: bool) -> bool
        ensures { result ≡ settles self.now more }
    {
        !more
            && self.queue.is_empty()
            && !self.waits()
            && !(self.window.len() == 0)
            && !self.failed
            && !self.polls.runs()
    }

    pub(crate) fn settle(&mut self, more: bool) -> bool
        ensures state { self.new ≡ settled self.old more }
        ensures answer { result ≡ settles self.old more }
    {
        let settles = self.settles(more);
        if settles {
            self.polls.begin(self.window.next().saturating_sub(1));
        }
        settles
    }

    #[tactic(auto, unfolding(crate::specs::Need::hungry))]
    pub(crate) fn hungry(&self, size: u32, held: Option<u64>) -> bool
        ensures { result ≡ hungry self.now size held }
    {
        !self.failed
            && !self.waits()
            && !self.is_shut()
            && !self.is_held(held)
            && has_room(&self.queue, HEAD, size as usize)
    }

    #[tactic(auto, unfolding(crate::specs::Need::data_need))]
    pub(crate) fn need(&self, waiting: u64, held: Option<u64>) -> u32
        ensures { result ≡ min (2 ^ 32 - 1) (data_need self.now waiting held) }
    {
        if self.failed {
            0
        } else if self.waits() {
            self.resend_size().saturating_add(3)
        } else if self.is_shut() || self.is_held(held) {
            0
        } else {
            new_need(self.queue.wanted(), waiting)
        }
    }

    // The octets of what is resent first.
    fn resend_size(&self) -> u32
        requires { waits self.now ≡ true }
        ensures { result ≡ resend_size (again self.now) }
    {
        match self.window.get(self.window.first_waiting()) {
            Some(slot) => slot.resend_size(),
            None => 0,
        }
    }

    pub(crate) fn backlog(&self) -> u64
        ensures { result ≡ backlog self.now }
    {
        self.queue.octets() + self.window.waiting_octets()
    }

    pub(crate) fn left(&self) -> u64
        ensures { result ≡ left self.now }
    {
        self.accounts.left()
    }
}

// The sequence number at which the limit comes, at a place above a number.
fn limit_in(failed: bool, base: u64, place: Option<usize>) -> Option<u32>
    requires base { base ≤ 2 ^ 62 + AM_WINDOW_SIZE }
    requires place { IfSome place (λ at. at < AM_MODULUS) }
    ensures { result ≡ limit_in failed base place }
{
    match place {
        Some(at) => {
            if failed {
                None
            } else {
                Some(((base + at as u64) % AM_MODULUS) as u32)
            }
        }
        None => None,
    }
}

fn heard_of(limit: Option<u32>, stopped: bool) -> Heard
    ensures { result ≡ heard_of limit stopped }
{
    match limit {
        Some(sn) => Heard::Limit(sn),
        None => Heard::Applied { stopped },
    }
}

fn expiry_of(limit: Option<u32>) -> PollExpired
    ensures { result ≡ expiry_of limit }
{
    match limit {
        Some(sn) => PollExpired::Limit(sn),
        None => PollExpired::Done,
    }
}

// The need of a new PDU: what is left of the SDUs that were offered, and what PDCP may hand over.
fn new_need(wanted: u64, waiting: u64) -> u32
    ensures { result ≡ min (2 ^ 32 - 1) (new_need (wanted + waiting)) }
{
    let most = u64::from(u32::MAX);
    let total = wanted.min(most) + waiting.min(most);
    if total == 0 {
        0
    } else {
        (total + 3).min(most) as u32
    }
}

fn is_held(held: u64, next: u64) -> bool
    ensures { result ≡ is_held (Some held) next }
{
    let window = AM_WINDOW_SIZE as u64;
    window <= next && held <= next - window
}
