// What the sender has heard of a number.
ghost use Rattle.std.specs.Prelude.{◌≡◌, ◌+◌, ◌<◌, ◌≤◌, OnOk, OnErr, IfOk, is_none};
ghost use Rattle.journal_account.specs.FlowSending.{never_named, with_rest};
ghost use Rattle.rlc_pdu.specs.Runs.{gap_in};
ghost use Rattle.journal_account.specs.Entries.{names_number, start_of, stop_of};
ghost use Rattle.journal_account.specs.FlowSending.{waits_all, names_new};
ghost use Rattle.journal_account.specs.FlowSending.{woken_between, woken_by, woken, counted};
ghost use Rattle.journal_account.specs.FlowSending.{named_number, heard_number, is_resting};
ghost use Rattle.journal_account.specs.FlowSending.{recalled};
ghost use Rattle.journal_account.specs.FlowConfirmed.{octets_acked};

use crate::entry::StatusEntry;
use l2_bits::NoMemory;
use rlc_pdu::{Intervals, Part};
use std::alloc::Global;
use std::marker::Model;

#[derive(Drop)]
pub(crate) struct SentNumber {
    size: u32,
    acked: bool,
    waiting: Intervals,
    namings: u32,
}

impl Model for SentNumber {
    ghost use Rattle.std.specs.Prelude.{◌≤◌};
    ghost use Rattle.journal_account.specs.FlowSending.{SentNumber};

    ghost Value = { SentNumber };

    ghost view = { λ h. record {
      size = h.size;
      acked = h.acked;
      waiting = h.waiting;
      namings = h.namings;
    } };

    ghost invariant = { λ h. h.size ≤ 32767 };
}

impl SentNumber {
    pub(crate) fn new(alloc: Global, size: u32) -> SentNumber
        requires { size ≤ 32767 }
        ensures { result ≡ never_named size }
    {
        SentNumber {
            size,
            acked: false,
            waiting: Intervals::new(alloc),
            namings: 0,
        }
    }

    pub(crate) fn is_acked(&self) -> bool
        ensures { result ≡ self.now.acked }
    {
        self.acked
    }

    pub(crate) fn size(&self) -> u32
        ensures { result ≡ self.now.size }
    {
        self.size
    }

    // Whether the octets from a place on below another are acknowledged, as far as the number has
    // them.
    pub(crate) fn octets_acked(&self, from: u64, to: u64) -> bool
        ensures { result ≡ octets_acked from to self.now }
    {
        self.acked || to.min(u64::from(self.size)) <= from
    }

    pub(crate) fn namings(&self) -> u32
        ensures { result ≡ self.now.namings }
    {
        self.namings
    }

    // Whether the octets from a place on below another all wait.
    pub(crate) fn octets_wait(&self, from: u32, to: u32) -> bool
        ensures { result ≡ is_none (gap_in self.now.waiting from to) }
    {
        self.waiting.gap(from, to).is_none()
    }

    // Whether no octet waits.
    pub(crate) fn is_resting(&self) -> bool
        ensures { result ≡ is_resting self.now }
    {
        self.waiting.len() == 0
    }

    // Octets wait no more. An `Err` changes nothing.
    pub(crate) fn rest(&mut self, from: u32, to: u32) -> Result<(), NoMemory>
        requires some { from < to }
        requires within { to ≤ 32767 }
        ensures ok { OnOk result (self.new ≡ with_rest from to self.old) }
        ensures err { OnErr result (self.new ≡ self.old) }
    {
        self.waiting.remove(from, to)
    }

    // A STATUS comes.
    pub(crate) fn hear(
        &mut self,
        ack: u64,
        entries: &[StatusEntry],
        number: u64,
    ) -> Result<(), NoMemory>
        ensures { OnOk result (self.new ≡ heard_number ack entries.now number self.old) }
    {
        if self.acked {
            return Ok(());
        }
        if names_number(entries, number) {
            return self.name(entries, number);
        }
        if number < ack {
            self.acked = true;
            self.waiting.clear();
        }
        Ok(())
    }

    fn name(&mut self, entries: &[StatusEntry], number: u64) -> Result<(), NoMemory>
        ensures { OnOk result (self.new ≡ named_number entries.now number self.old) }
    {
        let new = self.names_new(entries, number);
        self.namings = self.counted(new)?;
        wake(&mut self.waiting, self.size, entries, number)
    }

    // Whether entries name an octet that doesn't wait.
    fn names_new(&self, entries: &[StatusEntry], number: u64) -> bool
        ensures { result ≡ names_new entries.now number self.now }
    {
        entries
            .iter()
            .any(|entry| entry.number == number && !self.waits_all(entry))
    }

    // Whether all octets that an entry names wait.
    fn waits_all(&self, entry: &StatusEntry) -> bool
        ensures { result ≡ waits_all self.now entry.now }
    {
        let stop = stop_of(entry.part, self.size);
        self.waiting.gap(start_of(entry.part), stop).is_none()
    }

    // How often the number was named then.
    fn counted(&self, new: bool) -> Result<u32, NoMemory>
        ensures { IfOk result (λ namings. namings ≡ counted self.now new) }
    {
        if self.namings == 0 || new {
            return self.namings.checked_add(1).ok_or(NoMemory);
        }
        Ok(self.namings)
    }

    // The poll timer names all octets, of which none waits.
    pub(crate) fn recall(&mut self) -> Result<(), NoMemory>
        ensures { OnOk result (self.new ≡ recalled self.old) }
    {
        self.namings = self.namings.checked_add(1).ok_or(NoMemory)?;
        wake_between(&mut self.waiting, 0, self.size)
    }
}

// Whether an entry names a number.
fn names_number(entries: &[StatusEntry], number: u64) -> bool
    ensures { result ≡ names_number entries.now number }
{
    entries.iter().any(|entry| entry.number == number)
}

// The first octet that an entry names.
fn start_of(part: Option<Part>) -> u32
    ensures { result ≡ start_of part }
{
    match part {
        Some(part) => part.start,
        None => 0,
    }
}

// The place behind the last octet that an entry names of so many.
fn stop_of(part: Option<Part>, size: u32) -> u32
    ensures value { result ≡ stop_of part size }
    ensures below { result ≤ size }
{
    match part {
        Some(part) => { if part.end < size { part.end + 1 } else { size } }
        None => size,
    }
}

// Octets wait from now on, those that entries name of a number.
fn wake(
    waiting: &mut Intervals,
    size: u32,
    entries: &[StatusEntry],
    number: u64,
) -> Result<(), NoMemory>
    requires { size ≤ 32767 }
    ensures { OnOk result (waiting.new ≡ woken number size waiting.old entries.now) }
{
    for entry in entries {
        wake_by(waiting, size, *entry, number)?;
    }
    Ok(())
}

fn wake_by(
    waiting: &mut Intervals,
    size: u32,
    entry: StatusEntry,
    number: u64,
) -> Result<(), NoMemory>
    requires { size ≤ 32767 }
    ensures { OnOk result (waiting.new ≡ woken_by number size waiting.old entry) }
{
    if entry.number != number {
        return Ok(());
    }
    wake_between(waiting, start_of(entry.part), stop_of(entry.part, size))
}

fn wake_between(waiting: &mut Intervals, from: u32, to: u32) -> Result<(), NoMemory>
    requires { to ≤ 32767 }
    ensures { OnOk result (waiting.new ≡ woken_between from to waiting.old) }
{
    if from < to {
        waiting.add(from, to)?;
    }
    Ok(())
}
