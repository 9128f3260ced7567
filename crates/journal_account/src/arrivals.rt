// What has come of a flow's numbers, and where VR(R), VR(MS), VR(H) and VR(X) stand.
ghost use Rattle.std.specs.Prelude.{◌≡◌, ◌+◌, ◌<◌, ◌≤◌, ◌^◌, length, OnOk, OnErr};
ghost use Rattle.journal_account.specs.FlowArrivals.{none_written, next_in, with_number};
ghost use Rattle.journal_account.specs.FlowArrivals.{open_number, settled_with, octets_at};
ghost use Rattle.journal_account.specs.FlowArrivals.{with_arrival, reorder_started};
ghost use Rattle.journal_account.specs.FlowArrivals.{reorder_expired, stream_gap};
ghost use Rattle.journal_account.specs.FlowStatus.{is_true_status};
ghost use Rattle.journal_account.specs.FlowWholes.{stream_came};

use crate::entry::StatusEntry;
use crate::fields::{self, Fields};
use crate::status;
use l2_bits::NoMemory;
use std::alloc::Global;
use std::collections::VecDeque;
use std::marker::Model;

#[derive(Drop)]
pub(crate) struct FlowArrivals {
    alloc: Global,
    front: u64,
    start: u64,
    written: u64,
    fields: Fields,
    top: u64,
    bound: u64,
    mark: u64,
}

impl Model for FlowArrivals {
    ghost use Rattle.std.specs.Prelude.{◌≡◌, ◌+◌, ◌<◌, ◌^◌, length};
    ghost use Rattle.journal_account.specs.FlowArrivals.{FlowArrivals, octets_of};

    ghost Value = { FlowArrivals };

    ghost view = { λ a. record {
      front = a.front;
      start = a.start;
      written = a.written;
      fields = a.fields.items;
      top = a.top;
      bound = a.bound;
      mark = a.mark;
    } };

    ghost invariant = { λ a. (a.front + length a.fields.items < 2 ^ 64)
        × (a.start + octets_of a.fields.items ≡ a.written) × (a.written < 2 ^ 64) };
}

impl FlowArrivals {
    pub(crate) fn new(alloc: Global) -> FlowArrivals
        ensures { result ≡ none_written }
    {
        FlowArrivals {
            alloc,
            front: 0,
            start: 0,
            written: 0,
            fields: VecDeque::new(alloc),
            top: 0,
            bound: 0,
            mark: 0,
        }
    }

    pub(crate) fn next(&self) -> u64
        ensures { result ≡ next_in self.now }
    {
        self.front + self.fields.len() as u64
    }

    pub(crate) fn front(&self) -> u64
        ensures { result ≡ self.now.front }
    {
        self.front
    }

    pub(crate) fn top(&self) -> u64
        ensures { result ≡ self.now.top }
    {
        self.top
    }

    pub(crate) fn bound(&self) -> u64
        ensures { result ≡ self.now.bound }
    {
        self.bound
    }

    // How many octets were written.
    pub(crate) fn written(&self) -> u64
        ensures { result ≡ self.now.written }
    {
        self.written
    }

    // The first place of the stream that hasn't come.
    pub(crate) fn stream_gap(&self) -> u64
        ensures { result ≡ stream_gap self.now }
    {
        self.start + u64::from(fields::leading(&self.fields))
    }

    // The sender writes the next number, with so many octets. An `Err` changes nothing.
    pub(crate) fn add_number(&mut self, size: u32) -> Result<(), NoMemory>
        ensures ok { OnOk result (self.new ≡ with_number size self.old) }
        ensures err { OnErr result (self.new ≡ self.old) }
    {
        if self.next() == u64::MAX {
            return Err(NoMemory);
        }
        let written = self.written.checked_add(u64::from(size)).ok_or(NoMemory)?;
        fields::push(self.alloc, &mut self.fields, size)?;
        self.written = written;
        Ok(())
    }

    // The octets of a number that was written come, from a place on below another. An `Err`
    // changes nothing.
    pub(crate) fn arrive(&mut self, number: u64, from: u32, to: u32) -> Result<(), NoMemory>
        requires written { number < next_in self.old }
        requires some { from < to }
        requires within { to ≤ 32767 }
        ensures ok { OnOk result (self.new ≡ with_arrival number from to self.old) }
        ensures err { OnErr result (self.new ≡ self.old) }
    {
        if number >= self.front {
            self.land((number - self.front) as usize, from, to)?;
        }
        self.top = self.top.max(number + 1);
        Ok(())
    }

    // The octets of the number at a place come, and VR(MS) and VR(R) move.
    fn land(&mut self, at: usize, from: u32, to: u32) -> Result<(), NoMemory>
        requires there { at < length self.old.fields }
        requires some { from < to }
        requires within { to ≤ 32767 }
        ensures ok { OnOk result
            (self.new ≡ settled_with (octets_at at from to self.old.fields) self.old) }
        ensures err { OnErr result (self.new ≡ self.old) }
    {
        fields::add(&mut self.fields, at, from, to)?;
        self.bound = self.open_number(self.bound);
        fields::drop_whole(&mut self.fields, &mut self.front, &mut self.start);
        Ok(())
    }

    // The first number at or above another that isn't complete.
    fn open_number(&self, from: u64) -> u64
        ensures { result ≡ open_number self.now.front self.now.fields from }
    {
        let at = from.saturating_sub(self.front) as usize;
        self.front + fields::first_open(&self.fields, at) as u64
    }

    // Whether the places of the stream from one on below another have come; all before the kept
    // numbers have.
    pub(crate) fn stream_came(&self, from: u64, to: u64) -> bool
        ensures { result ≡ stream_came self.now from to }
    {
        let from = from.saturating_sub(self.start);
        fields::places_came(&self.fields, from, to.saturating_sub(self.start))
    }

    // Whether entries begin what is missing below VR(MS), with the ACK that goes with them.
    #[tactic(auto, using(std::proofs::lemmas::List::take_min))]
    pub(crate) fn is_true_status(&self, ack: u64, entries: &[StatusEntry]) -> bool
        ensures { result ≡ is_true_status ack entries.now self.now }
    {
        let count = (self.bound.saturating_sub(self.front) as usize).min(self.fields.len());
        status::begin_so(&self.fields, self.front, count, entries)
            && ack == self.open_number(status::behind_named(entries))
    }

    pub(crate) fn start_reorder(&mut self)
        ensures { self.new ≡ reorder_started self.old }
    {
        self.mark = self.top;
    }

    pub(crate) fn expire_reorder(&mut self)
        ensures { self.new ≡ reorder_expired self.old }
    {
        self.bound = self.open_number(self.bound.max(self.mark));
    }
}
