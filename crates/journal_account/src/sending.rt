// What the sender of a flow has heard, and where VT(A) stands.
ghost use Rattle.std.specs.Prelude.{◌≡◌, ◌+◌, ◌<◌, ◌≤◌, length, OnOk, OnErr};
ghost use Rattle.journal_account.specs.FlowSending.{octets_wait, acked_kept, namings_of};
ghost use Rattle.journal_account.specs.FlowSending.{none_sent, sent_in, with_sent, with_resent};
ghost use Rattle.journal_account.specs.FlowSending.{or_over, limited, with_status};
ghost use Rattle.journal_account.specs.FlowSending.{is_quiet, recalled_at, with_poll_expired};
ghost use Rattle.journal_account.specs.FlowConfirmed.{stream_acked};

use crate::entry::StatusEntry;
use crate::numbers::{self, Numbers};
use l2_bits::NoMemory;
use rlc_pdu::AM_WINDOW_SIZE;
use std::alloc::Global;
use std::collections::VecDeque;
use std::marker::Model;

#[derive(Drop)]
pub(crate) struct FlowSending {
    alloc: Global,
    base: u64,
    start: u64,
    numbers: Numbers,
    most: u32,
    limit: Option<u64>,
}

impl Model for FlowSending {
    ghost use Rattle.std.specs.Prelude.{◌+◌, ◌<◌, ◌^◌, length};
    ghost use Rattle.journal_account.specs.FlowSending.{FlowSending};

    ghost Value = { FlowSending };

    ghost view = { λ s. record {
      base = s.base;
      start = s.start;
      numbers = s.numbers.items;
      most = s.most;
      limit = s.limit;
    } };

    ghost invariant = { λ s. s.base + length s.numbers.items < 2 ^ 64 };
}

impl FlowSending {
    pub(crate) fn new(alloc: Global, most: u32) -> FlowSending
        ensures { result ≡ none_sent most }
    {
        FlowSending {
            alloc,
            base: 0,
            start: 0,
            numbers: VecDeque::new(alloc),
            most,
            limit: None,
        }
    }

    pub(crate) fn base(&self) -> u64
        ensures { result ≡ self.now.base }
    {
        self.base
    }

    // The place of the stream where the number VT(A) begins.
    pub(crate) fn start(&self) -> u64
        ensures { result ≡ self.now.start }
    {
        self.start
    }

    // Whether the places of the stream from one on below another are acknowledged; all before VT(A)
    // are.
    pub(crate) fn stream_acked(&self, from: u64, to: u64) -> bool
        ensures { result ≡ stream_acked self.now from to }
    {
        let from = from.saturating_sub(self.start);
        numbers::places_acked(&self.numbers, from, to.saturating_sub(self.start))
    }

    pub(crate) fn numbers(&self) -> &Numbers
        ensures { result.now.items ≡ self.now.numbers }
    {
        &self.numbers
    }

    pub(crate) fn limit(&self) -> Option<u64>
        ensures { result ≡ self.now.limit }
    {
        self.limit
    }

    pub(crate) fn octets_wait(&self, number: u64, from: u32, to: u32) -> bool
        ensures { result ≡ octets_wait number from to self.now }
    {
        if number < self.base {
            return false;
        }
        numbers::octets_wait(&self.numbers, (number - self.base) as usize, from, to)
    }

    pub(crate) fn namings(&self, number: u64) -> u32
        ensures { result ≡ namings_of number self.now }
    {
        if number < self.base {
            return 0;
        }
        numbers::namings(&self.numbers, (number - self.base) as usize)
    }

    pub(crate) fn is_acked(&self, number: u64) -> bool
        ensures { result ≡ acked_kept number self.now }
    {
        number < self.base || numbers::is_acked(&self.numbers, (number - self.base) as usize)
    }

    // The next number is written. An `Err` changes nothing.
    pub(crate) fn add_number(&mut self, size: u32) -> Result<(), NoMemory>
        requires { size ≤ 32767 }
        ensures ok { OnOk result (self.new ≡ with_sent size self.old) }
        ensures err { OnErr result (self.new ≡ self.old) }
    {
        if self.base + self.numbers.len() as u64 == u64::MAX {
            return Err(NoMemory);
        }
        numbers::push(self.alloc, &mut self.numbers, size)
    }

    // Octets of a number are written again. An `Err` changes nothing.
    pub(crate) fn resend(&mut self, number: u64, from: u32, to: u32) -> Result<(), NoMemory>
        requires written { number < sent_in self.old }
        requires some { from < to }
        requires within { to ≤ 32767 }
        ensures ok { OnOk result (self.new ≡ with_resent number from to self.old) }
        ensures err { OnErr result (self.new ≡ self.old) }
    {
        if number < self.base {
            return Ok(());
        }
        numbers::rest(&mut self.numbers, (number - self.base) as usize, from, to)
    }

    // A STATUS comes; behind an `Err` nothing is known.
    pub(crate) fn hear(&mut self, ack: u64, entries: &[StatusEntry]) -> Result<(), NoMemory>
        ensures { OnOk result (self.new ≡ with_status ack entries.now self.old) }
    {
        if ack < self.base {
            return Ok(());
        }
        numbers::hear(&mut self.numbers, ack, entries, self.base)?;
        numbers::advance(&mut self.numbers, &mut self.base, &mut self.start)?;
        self.find_limit();
        Ok(())
    }

    fn find_limit(&mut self)
        ensures { self.new ≡ limited self.old }
    {
        if self.limit.is_none() {
            self.limit = numbers::first_over(&self.numbers, self.most, self.base);
        }
    }

    // Whether nothing waits, and nothing is left or the window is shut.
    fn is_quiet(&self, left: bool) -> bool
        ensures { result ≡ is_quiet left self.now }
    {
        !numbers::some_wait(&self.numbers) && (!left || self.numbers.len() == AM_WINDOW_SIZE)
    }

    // The poll timer expires; behind an `Err` nothing is known.
    pub(crate) fn expire_poll(&mut self, left: bool) -> Result<(), NoMemory>
        ensures { OnOk result (self.new ≡ with_poll_expired left self.old) }
    {
        if !self.is_quiet(left) {
            return Ok(());
        }
        if let Some(at) = numbers::last_open(&self.numbers) {
            numbers::recall(&mut self.numbers, at)?;
            self.find_limit();
        }
        Ok(())
    }
}
