//! SDUs that are to be given to RLC again.

ghost use Rattle.std.specs.Prelude.{◌≡◌, ◌+◌, ◌≤◌, ◌^◌, [], ◌∷◌, ◌++◌, ◌==◌, length, slice_get};
ghost use Rattle.std.specs.Prelude.{option_map, true, OnOk, OnErr, IfSome, MatchOption};
ghost use Rattle.pdcp_tx_store.specs.Given.{first_unacked, sent_octets, untold, data_of};
ghost use Rattle.pdcp_tx_store.specs.Given.{is_unacked, from_unacked};

use crate::given::{Entry, Sent, hear_all};
use l2_bits::NoMemory;
use l2_types::GREATEST_SDU;
use std::alloc::Global;
use std::collections::VecDeque;
use std::marker::Model;
use std::mem;

/// Fewer octets than this are ever kept.
const LIMIT: u64 = 1 << 61;

/// SDUs in the order of their COUNTs. One that a report confirmed stays as `Gone` until it comes to
/// the front; a contract sees only the others.
#[derive(Drop)]
pub struct Again {
    ring: VecDeque<Entry>,
    count: u64,
    octets: u64,
}

impl Model for Again {
    ghost use Rattle.std.specs.Prelude.{◌≡◌, ◌≤◌, ◌^◌, List, length};
    ghost use Rattle.pdcp_tx_store.specs.declared.given.Sent.{Sent as Kept};
    ghost use Rattle.pdcp_tx_store.specs.Given.{data_of, sent_octets};

    ghost Value = { List Kept };

    ghost view = { λ a. data_of a.ring.items };

    ghost invariant = { λ a. (a.count ≡ length (data_of a.ring.items))
        × (a.octets ≡ sent_octets (data_of a.ring.items)) × (a.count ≤ 2 ^ 32)
        × (a.octets ≤ 2 ^ 61) };
}

impl Again {
    /// No SDU. It takes no memory.
    pub fn new(alloc: Global) -> Again
        ensures { result ≡ [] }
    {
        Again {
            ring: VecDeque::new(alloc),
            count: 0,
            octets: 0,
        }
    }

    /// The number of SDUs.
    pub fn len(&self) -> u64
        ensures value { result ≡ length self.now }
        ensures below { result ≤ 2 ^ 32 }
    {
        self.count
    }

    /// The octets of all SDUs.
    pub fn octets(&self) -> u64
        ensures value { result ≡ sent_octets self.now }
        ensures below { result ≤ 2 ^ 61 }
    {
        self.octets
    }

    /// The first COUNT that isn't confirmed.
    pub fn first_unacked(&self) -> Option<u32>
        ensures { result ≡ first_unacked self.now }
    {
        first_unacked(&self.ring)
    }

    /// The first COUNT.
    pub fn first(&self) -> Option<u32>
        ensures { result ≡ option_map (λ s. s.count) (slice_get self.now 0) }
    {
        first_data(&self.ring)
    }

    /// Puts what was given before these SDUs, and keeps all from the first on that RLC hasn't
    /// acknowledged. Nothing is left in `given`. An `Err` changes nothing.
    #[tactic(auto, using(crate::proofs::AgainSteps::joins))]
    pub fn put_behind(&mut self, given: &mut VecDeque<Entry>) -> Result<(), NoMemory>
        ensures ok { OnOk result (self.new ≡ from_unacked (data_of given.old.items ++ self.old)) }
        ensures rest { OnOk result (given.new.items ≡ []) }
        ensures err { OnErr result (self.new ≡ self.old) }
        ensures same { OnErr result (given.new.items ≡ given.old.items) }
    {
        let room = has_room(given, self.count, self.octets);
        if !room {
            return Err(NoMemory);
        }
        given.append(&mut self.ring)?;
        mem::swap(given, &mut self.ring);
        trim(&mut self.ring);
        self.octets = octets_all(&self.ring);
        self.count = count_all(&self.ring);
        Ok(())
    }

    /// Takes out the first SDU.
    #[tactic(auto, using(crate::proofs::AgainSteps::pops))]
    pub fn pop(&mut self) -> Option<Sent>
        ensures { MatchOption result ((self.old ≡ []) × (self.new ≡ []))
            (λ s. self.old ≡ s ∷ self.new) }
    {
        let sent = pop_data(&mut self.ring)?;
        self.octets = self.octets.saturating_sub(u64::from(sent.octets.len()));
        self.count = self.count.saturating_sub(1);
        Some(sent)
    }

    /// A status report has come: what it confirms isn't taken again.
    pub fn hear(&mut self, from: u64, bitmap: &[u8])
        ensures { self.new ≡ untold from bitmap.now self.old }
    {
        hear_data(&mut self.ring, from, bitmap);
        self.octets = octets_all(&self.ring);
        self.count = count_all(&self.ring);
    }
}

fn pop_data(ring: &mut VecDeque<Entry>) -> Option<Sent>
    ensures { MatchOption result ((data_of ring.old.items ≡ []) × (data_of ring.new.items ≡ []))
        (λ s. data_of ring.old.items ≡ s ∷ data_of ring.new.items) }
{
    while let Some(entry) = ring.pop_front() {
        if let Entry::Data(sent) = entry {
            return Some(sent);
        }
    }
    None
}

fn first_unacked(ring: &VecDeque<Entry>) -> Option<u32>
    ensures { result ≡ first_unacked (data_of ring.now.items) }
{
    for entry in ring.iter() {
        if let Entry::Data(sent) = entry {
            if !sent.acked {
                return Some(sent.count);
            }
        }
    }
    None
}

fn data_octets(entry: &Entry) -> u64
    ensures value { result ≡ sent_octets (data_of (entry.now ∷ [])) }
    ensures few { result ≤ GREATEST_SDU }
{
    match entry {
        Entry::Data(sent) => u64::from(sent.octets.len()),
        Entry::Own => 0,
        Entry::Gone => 0,
    }
}

fn data_count(entry: &Entry) -> u64
    ensures value { result ≡ length (data_of (entry.now ∷ [])) }
    ensures few { result ≤ 1 }
{
    match entry {
        Entry::Data(_) => 1,
        Entry::Own => 0,
        Entry::Gone => 0,
    }
}

#[tactic(auto, using(crate::proofs::AgainSteps::sums))]
fn octets_all(ring: &VecDeque<Entry>) -> u64
    requires { sent_octets (data_of ring.now.items) ≤ 2 ^ 62 }
    ensures { result ≡ sent_octets (data_of ring.now.items) }
{
    let mut sum = 0;
    for entry in ring.iter() {
        sum += data_octets(entry);
    }
    sum
}

#[tactic(auto, using(crate::proofs::AgainSteps::sums))]
fn count_all(ring: &VecDeque<Entry>) -> u64
    requires { length (data_of ring.now.items) ≤ 2 ^ 62 }
    ensures { result ≡ length (data_of ring.now.items) }
{
    let mut sum = 0;
    for entry in ring.iter() {
        sum += data_count(entry);
    }
    sum
}

#[tactic(auto, using(crate::proofs::AgainSteps::hears))]
fn hear_data(ring: &mut VecDeque<Entry>, from: u64, bitmap: &[u8])
    ensures data { data_of ring.new.items ≡ untold from bitmap.now (data_of ring.old.items) }
    ensures octets { sent_octets (data_of ring.new.items) ≤ sent_octets (data_of ring.old.items) }
    ensures count { length (data_of ring.new.items) ≤ length (data_of ring.old.items) }
{
    hear_all(ring, from, bitmap);
}

// Whether so many more SDUs and octets than a ring has stay within what may be kept.
fn has_room(ring: &VecDeque<Entry>, count: u64, octets: u64) -> bool
    requires count { count ≤ 2 ^ 32 }
    requires octets { octets ≤ 2 ^ 61 }
    ensures count { result ≡ true → length (data_of ring.now.items) + count ≤ 2 ^ 32 }
    ensures octets { result ≡ true → sent_octets (data_of ring.now.items) + octets ≤ 2 ^ 61 }
{
    match (count_within(ring), octets_within(ring)) {
        (Some(more), Some(further)) => more <= (1 << 32) - count && further <= LIMIT - octets,
        _ => false,
    }
}

// The octets of the SDUs, if they are few enough to be told.
#[tactic(auto, using(crate::proofs::AgainSteps::sums))]
fn octets_within(ring: &VecDeque<Entry>) -> Option<u64>
    ensures { IfSome result (λ n. n ≡ sent_octets (data_of ring.now.items)) }
{
    let mut sum = 0;
    for entry in ring.iter() {
        if sum > LIMIT {
            return None;
        }
        sum += data_octets(entry);
    }
    Some(sum)
}

// The number of the SDUs, if they are few enough to be told.
#[tactic(auto, using(crate::proofs::AgainSteps::sums))]
fn count_within(ring: &VecDeque<Entry>) -> Option<u64>
    ensures { IfSome result (λ n. n ≡ length (data_of ring.now.items)) }
{
    let mut sum = 0;
    for entry in ring.iter() {
        if sum > LIMIT {
            return None;
        }
        sum += data_count(entry);
    }
    Some(sum)
}

// Drops all before the first SDU that RLC hasn't acknowledged.
#[tactic(auto, using(crate::proofs::AgainSteps::trims))]
fn trim(ring: &mut VecDeque<Entry>)
    ensures data { data_of ring.new.items ≡ from_unacked (data_of ring.old.items) }
    ensures octets { sent_octets (data_of ring.new.items) ≤ sent_octets (data_of ring.old.items) }
    ensures count { length (data_of ring.new.items) ≤ length (data_of ring.old.items) }
{
    while let Some(entry) = ring.front() {
        if is_unacked(entry) {
            break;
        }
        ring.pop_front();
    }
}

fn is_unacked(entry: &Entry) -> bool
    ensures { result ≡ is_unacked entry.now }
{
    match entry {
        Entry::Data(sent) => !sent.acked,
        Entry::Own => false,
        Entry::Gone => false,
    }
}

fn first_data(ring: &VecDeque<Entry>) -> Option<u32>
    ensures { result ≡ option_map (λ s. s.count) (slice_get (data_of ring.now.items) 0) }
{
    for entry in ring.iter() {
        if let Entry::Data(sent) = entry {
            return Some(sent.count);
        }
    }
    None
}
