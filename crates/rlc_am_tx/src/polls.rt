ghost use Rattle.std.specs.Prelude.{◌≡◌, ◌||◌, ◌+◌, ◌<◌, ◌^◌, OnOk, true, false};
ghost use Rattle.l2_num.specs.Timers.{stopped, begun, ceased, runs, ticked, ends};
ghost use Rattle.rlc_am_tx.specs.Machine.{counted, reaches};

use l2_bits::NoMemory;
use l2_num::Timer;
use std::marker::Model;

// From so many PDUs or octets without a poll on none is counted.
const LIMIT: u64 = 1 << 62;

/// When polls are due, and the poll timer.
#[derive(Clone, Copy)]
pub(crate) struct Polling {
    owed: bool,
    pdus_without_poll: u64,
    octets_without_poll: u64,
    poll_number: u64,
    timer: Timer,
}

impl Model for Polling {
    ghost use Rattle.rlc_am_tx.specs.Machine.{Polls};

    ghost Value = { Polls };

    ghost view = { λ p. record {
      owed = p.owed;
      pdus_without_poll = p.pdus_without_poll;
      octets_without_poll = p.octets_without_poll;
      poll_number = p.poll_number;
      timer = p.timer;
    } };

    ghost inverse = { λ r. record {
      owed = r.owed;
      pdus_without_poll = r.pdus_without_poll;
      octets_without_poll = r.octets_without_poll;
      poll_number = r.poll_number;
      timer = r.timer;
    } };
}

impl Polling {
    /// No poll is owed or was sent; the timer has a length in TTIs.
    pub(crate) fn new(poll_retransmit: u32) -> Polling
        ensures { result ≡ record {
          owed = false;
          pdus_without_poll = 0;
          octets_without_poll = 0;
          poll_number = 0;
          timer = stopped poll_retransmit;
        } }
    {
        Polling {
            owed: false,
            pdus_without_poll: 0,
            octets_without_poll: 0,
            poll_number: 0,
            timer: Timer::new(poll_retransmit),
        }
    }

    /// Counts a new PDU with so many octets.
    pub(crate) fn count(&mut self, octets: usize) -> Result<(), NoMemory>
        requires { octets < 2 ^ 62 }
        ensures { OnOk result (self.new ≡ counted self.old octets) }
    {
        if self.pdus_without_poll >= LIMIT || self.octets_without_poll >= LIMIT {
            return Err(NoMemory);
        }
        self.pdus_without_poll += 1;
        self.octets_without_poll += octets as u64;
        Ok(())
    }

    /// Whether so many PDUs or octets without a poll ask for one, or one is owed.
    pub(crate) fn is_due(&self, poll_pdu: Option<u32>, poll_byte: Option<u32>) -> bool
        ensures { result
            ≡ (reaches poll_pdu self.now.pdus_without_poll
            || reaches poll_byte self.now.octets_without_poll || self.now.owed) }
    {
        reaches(poll_pdu, self.pdus_without_poll)
            || reaches(poll_byte, self.octets_without_poll)
            || self.owed
    }

    /// A poll is sent, POLL_SN being as given.
    pub(crate) fn poll(&mut self, number: u64)
        ensures { self.new ≡ record {
          owed = false;
          pdus_without_poll = 0;
          octets_without_poll = 0;
          poll_number = number;
          timer = begun self.old.timer;
        } }
    {
        self.owed = false;
        self.pdus_without_poll = 0;
        self.octets_without_poll = 0;
        self.begin(number);
    }

    /// The timer starts, POLL_SN being as given.
    pub(crate) fn begin(&mut self, number: u64)
        ensures { self.new ≡ record self.old {
          poll_number = number;
          timer = begun self.old.timer;
        } }
    {
        self.poll_number = number;
        self.timer.begin();
    }

    /// The timer stops.
    pub(crate) fn cease(&mut self)
        ensures { self.new ≡ record self.old { timer = ceased self.old.timer } }
    {
        self.timer.cease();
    }

    /// The timer has expired: a poll is owed.
    pub(crate) fn owe(&mut self)
        ensures { self.new ≡ record self.old { owed = true; timer = ceased self.old.timer } }
    {
        self.owed = true;
        self.timer.cease();
    }

    /// Whether the timer runs.
    pub(crate) fn runs(&self) -> bool
        ensures { result ≡ runs self.now.timer }
    {
        self.timer.runs()
    }

    /// A TTI begins. True exactly where the timer reaches its end.
    pub(crate) fn tick(&mut self) -> bool
        ensures state { self.new ≡ record self.old { timer = ticked self.old.timer } }
        ensures ends { result ≡ ends self.old.timer }
    {
        self.timer.tick()
    }

    /// POLL_SN.
    pub(crate) fn number(&self) -> u64
        ensures { result ≡ self.now.poll_number }
    {
        self.poll_number
    }
}

// Whether a count has come to its bound.
fn reaches(bound: Option<u32>, count: u64) -> bool
    ensures { result ≡ reaches bound count }
{
    match bound {
        Some(bound) => u64::from(bound) <= count,
        None => false,
    }
}
