//! What was given to RLC in a life, and what is to be given again.

ghost use Rattle.std.specs.Prelude.{◌≡◌, ◌+◌, ◌-◌, ◌<◌, ◌≤◌, ◌^◌, ◌/◌, ◌%◌, ◌*◌, ◌==◌, [], ◌∷◌};
ghost use Rattle.std.specs.Prelude.{◌++◌, length, take, drop, map, slice_get, slice_set};
ghost use Rattle.std.specs.Prelude.{slice_index, slice_index_or, is_some, Some, OnOk, OnErr, IfOk};
ghost use Rattle.std.specs.Prelude.{IsTrue, IsFalse, MatchOption};
ghost use Rattle.pdcp_pdu.specs.Grammar.{bit_of};
ghost use Rattle.pdcp_tx_store.specs.declared.given.Entry.TheVariants.{Gone, Own};
ghost use Rattle.pdcp_tx_store.specs.Given.{is_open, trimmed, closed, settled, with_entry, acked};
ghost use Rattle.pdcp_tx_store.specs.Given.{acked_at, entry_at, with_ack, is_own, open_length};
ghost use Rattle.pdcp_tx_store.specs.Given.{open_octets, first_open, first_unacked, sent_octets};
ghost use Rattle.pdcp_tx_store.specs.Given.{tells, heard, with_report, untold, from_unacked};
ghost use Rattle.pdcp_tx_store.specs.Given.{data_of};

use crate::again::Again;
use crate::sdu::Sdu;
use l2_bits::NoMemory;
use std::alloc::Global;
use std::collections::VecDeque;
use std::marker::Model;

/// No life has more places, and no more octets are kept.
const LIMIT: u64 = 1 << 62;

/// An SDU with its COUNT, and whether RLC has acknowledged it.
#[derive(Drop)]
pub struct Sent {
    pub count: u32,
    pub octets: Sdu,
    pub acked: bool,
}

/// What was given at a place: an SDU, the own status report, or what is confirmed and needed no
/// more.
#[derive(Drop)]
pub enum Entry {
    Data(Sent),
    Own,
    Gone,
}

impl Entry {
    /// Whether it is neither acknowledged nor confirmed by a report.
    pub fn is_open(&self) -> bool
        ensures { result ≡ is_open self.now }
    {
        match self {
            Entry::Data(sent) => !sent.acked,
            Entry::Own => true,
            Entry::Gone => false,
        }
    }

    /// The octets of an SDU that is open.
    pub fn open_length(&self) -> u64
        ensures { result ≡ open_length self.now }
    {
        match self {
            Entry::Data(sent) => {
                if sent.acked {
                    0
                } else {
                    u64::from(sent.octets.len())
                }
            }
            Entry::Own => 0,
            Entry::Gone => 0,
        }
    }

    /// RLC has acknowledged it. Returns whether it was the own report.
    pub fn acknowledge(&mut self) -> bool
        ensures state { self.new ≡ acked self.old }
        ensures own { result ≡ is_own (Some self.old) }
    {
        match self {
            Entry::Data(sent) => {
                sent.acked = true;
                false
            }
            Entry::Own => {
                *self = Entry::Gone;
                true
            }
            Entry::Gone => false,
        }
    }

    /// A status report has come, whose FMS has the COUNT `from`.
    pub fn hear(&mut self, from: u64, bitmap: &[u8])
        ensures { self.new ≡ heard from bitmap.now self.old }
    {
        if self.is_told(from, bitmap) {
            *self = Entry::Gone;
        }
    }

    fn is_told(&self, from: u64, bitmap: &[u8]) -> bool
        ensures told { IsTrue result → heard from bitmap.now self.now ≡ Gone }
        ensures untold { IsFalse result → heard from bitmap.now self.now ≡ self.now }
    {
        match self {
            Entry::Data(sent) => tells(from, bitmap, sent.count),
            Entry::Own => false,
            Entry::Gone => false,
        }
    }
}

// A bit of a report's bitmap; 0 past its end.
fn bit(bitmap: &[u8], at: usize) -> bool
    ensures { result ≡ bit_of bitmap.now at }
{
    if at / 8 >= bitmap.len() {
        return false;
    }
    has_bit(bitmap[at / 8], at % 8)
}

fn has_bit(octet: u8, at: usize) -> bool
    requires { at < 8 }
    ensures { result ≡ (octet / 2 ^ (7 - at) % 2 == 1) }
{
    match at {
        0 => octet / 128 % 2 == 1,
        1 => octet / 64 % 2 == 1,
        2 => octet / 32 % 2 == 1,
        3 => octet / 16 % 2 == 1,
        4 => octet / 8 % 2 == 1,
        5 => octet / 4 % 2 == 1,
        6 => octet / 2 % 2 == 1,
        _ => octet % 2 == 1,
    }
}

// Whether a report, whose FMS has the COUNT `from`, confirms a COUNT.
fn tells(from: u64, bitmap: &[u8], count: u32) -> bool
    ensures { result ≡ tells from bitmap.now count }
{
    let count = count as u64;
    count < from || from < count && bit(bitmap, (count - from - 1) as usize)
}

/// What was given to RLC in this life, by place.
#[derive(Drop)]
pub struct Ledger {
    gone: u64,
    entries: VecDeque<Entry>,
    unacked: u64,
}

impl Model for Ledger {
    ghost use Rattle.std.specs.Prelude.{◌≡◌, ◌+◌, ◌≤◌, ◌^◌, length};
    ghost use Rattle.pdcp_tx_store.specs.Given.{Given, open_octets};

    ghost Value = { Given };

    ghost view = { λ l. record { gone = l.gone; entries = l.entries.items } };

    ghost invariant = { λ l. (l.unacked ≡ open_octets l.entries.items)
        × (l.gone + length l.entries.items ≤ 2 ^ 62) × (l.unacked ≤ 2 ^ 62) };
}

impl Ledger {
    /// Nothing. It takes no memory.
    pub fn new(alloc: Global) -> Ledger
        ensures { result ≡ record { gone = 0; entries = [] } }
    {
        Ledger {
            gone: 0,
            entries: VecDeque::new(alloc),
            unacked: 0,
        }
    }

    /// The octets of the SDUs that aren't confirmed.
    pub fn octets(&self) -> u64
        ensures value { result ≡ open_octets self.now.entries }
        ensures below { result ≤ 2 ^ 62 }
    {
        self.unacked
    }

    /// The COUNT of the first SDU that isn't confirmed.
    pub fn first_open(&self) -> Option<u32>
        ensures { result ≡ first_open self.now.entries }
    {
        first_open(&self.entries)
    }

    /// Adds what was given at the next place. An `Err` changes nothing.
    #[tactic(auto, using(crate::proofs::GivenSteps::open_more))]
    pub fn push(&mut self, entry: Entry) -> Result<(), NoMemory>
        ensures ok { OnOk result (self.new ≡ with_entry self.old entry) }
        ensures err { OnErr result (self.new ≡ self.old) }
    {
        let open = self.unacked.saturating_add(entry.open_length());
        if open >= LIMIT || self.gone + self.entries.len() as u64 >= LIMIT {
            return Err(NoMemory);
        }
        self.entries.push_back(entry)?;
        self.unacked = open;
        Ok(())
    }

    /// RLC has acknowledged what was given at a place. Returns whether that was the own report.
    #[tactic(auto, using(crate::proofs::GivenSteps::acks))]
    pub fn acknowledge(&mut self, place: u64) -> bool
        ensures state { self.new ≡ with_ack self.old place }
        ensures own { result ≡ is_own (entry_at self.old place) }
    {
        if place < self.gone {
            return false;
        }
        acknowledge_at(
            &mut self.entries,
            &mut self.unacked,
            (place - self.gone) as usize,
        )
    }

    /// A status report has come, whose FMS has the COUNT `from`. It goes over all entries, once for
    /// each report.
    pub fn hear(&mut self, from: u64, bitmap: &[u8])
        ensures { self.new ≡ with_report self.old from bitmap.now }
    {
        hear_open(&mut self.entries, from, bitmap);
        self.unacked = open_sum(&self.entries);
    }

    /// Puts all that was given before those SDUs that are to be given again, from the first on that
    /// RLC hasn't acknowledged. An `Err` changes nothing.
    pub fn move_before(&mut self, again: &mut Again) -> Result<(), NoMemory>
        ensures ok { OnOk result (again.new ≡ from_unacked (data_of self.old.entries ++ again.old)) }
        ensures err { OnErr result (again.new ≡ again.old) }
        ensures same { OnErr result (self.new ≡ self.old) }
    {
        again.put_behind(&mut self.entries)?;
        self.unacked = 0;
        Ok(())
    }

    /// Forgets what is confirmed at the front.
    pub fn settle(&mut self)
        ensures { self.new ≡ settled self.old }
    {
        trim(&mut self.entries, &mut self.gone)
    }
}

fn first_open(entries: &VecDeque<Entry>) -> Option<u32>
    ensures { result ≡ first_open entries.now.items }
{
    for entry in entries.iter() {
        if let Some(count) = open_count(entry) {
            return Some(count);
        }
    }
    None
}

fn open_count(entry: &Entry) -> Option<u32>
    ensures { result ≡ first_open (entry.now ∷ []) }
{
    match entry {
        Entry::Data(sent) => { if sent.acked { None } else { Some(sent.count) } }
        Entry::Own => None,
        Entry::Gone => None,
    }
}

#[tactic(auto, using(crate::proofs::GivenSteps::acks))]
fn acknowledge_at(entries: &mut VecDeque<Entry>, unacked: &mut u64, at: usize) -> bool
    requires { unacked.old ≡ open_octets entries.old.items }
    ensures entries { entries.new.items
        ≡ acked_at (slice_get entries.old.items at) entries.old.items at }
    ensures open { unacked.new ≡ open_octets entries.new.items }
    ensures less { unacked.new ≤ unacked.old }
    ensures own { result ≡ is_own (slice_get entries.old.items at) }
{
    match entries.get_mut(at) {
        Some(entry) => {
            *unacked = unacked.saturating_sub(entry.open_length());
            entry.acknowledge()
        }
        None => false,
    }
}

#[tactic(auto, using(crate::proofs::GivenSteps::trims))]
fn trim(entries: &mut VecDeque<Entry>, gone: &mut u64)
    requires { gone.old + length entries.old.items < 2 ^ 63 }
    ensures entries { entries.new.items ≡ trimmed entries.old.items }
    ensures gone { gone.new ≡ gone.old + closed entries.old.items }
    ensures sum { gone.new + length entries.new.items ≡ gone.old + length entries.old.items }
    ensures open { open_octets entries.new.items ≡ open_octets entries.old.items }
{
    while let Some(entry) = entries.front() {
        if entry.is_open() {
            break;
        }
        entries.pop_front();
        *gone += 1;
    }
}

#[tactic(auto, using(crate::proofs::GivenSteps::maps))]
pub(crate) fn hear_all(entries: &mut VecDeque<Entry>, from: u64, bitmap: &[u8])
    ensures { entries.new.items ≡ map (heard from bitmap.now) entries.old.items }
{
    let mut at = 0;
    while at < entries.len() {
        hear_at(entries, at, from, bitmap);
        at += 1;
    }
}

#[tactic(auto, using(crate::proofs::GivenSteps::set_at))]
fn hear_at(entries: &mut VecDeque<Entry>, at: usize, from: u64, bitmap: &[u8])
    requires { at < length entries.old.items }
    ensures { entries.new.items
        ≡ slice_set entries.old.items at
        (heard from bitmap.now (slice_index_or entries.old.items at Own)) }
{
    if let Some(entry) = entries.get_mut(at) {
        entry.hear(from, bitmap);
    }
}

fn open_sum(entries: &VecDeque<Entry>) -> u64
    requires { open_octets entries.now.items ≤ 2 ^ 62 }
    ensures { result ≡ open_octets entries.now.items }
{
    let mut sum = 0;
    for entry in entries.iter() {
        sum += entry.open_length();
    }
    sum
}

#[tactic(auto, using(crate::proofs::GivenSteps::hears))]
fn hear_open(entries: &mut VecDeque<Entry>, from: u64, bitmap: &[u8])
    ensures entries { entries.new.items ≡ map (heard from bitmap.now) entries.old.items }
    ensures len { length entries.new.items ≡ length entries.old.items }
    ensures octets { open_octets entries.new.items ≤ open_octets entries.old.items }
{
    hear_all(entries, from, bitmap);
}
