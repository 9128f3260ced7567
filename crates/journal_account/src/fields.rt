// The fields of the numbers from VR(R) on.
ghost use Rattle.std.specs.Prelude.{◌≡◌, [], ◌∷◌, ◌++◌, ◌+◌, ◌<◌, ◌≤◌, ◌^◌, length, drop, max};
ghost use Rattle.std.specs.Prelude.{OnOk, OnErr};
ghost use Rattle.journal_account.specs.FlowArrivals.{nothing_came, octets_at, is_whole, field_at};
ghost use Rattle.journal_account.specs.FlowArrivals.{first_open, whole_first, octets_first};
ghost use Rattle.journal_account.specs.FlowArrivals.{octets_of, leading_octets, places_came};

use crate::field::FieldArrivals;
use l2_bits::NoMemory;
use std::alloc::Global;
use std::collections::VecDeque;

pub(crate) type Fields = VecDeque<FieldArrivals>;

// Adds a number with so many octets, of which none has come. An `Err` changes nothing.
#[tactic(auto, using(crate::proofs::ByPlace::counting))]
pub(crate) fn push(alloc: Global, fields: &mut Fields, size: u32) -> Result<(), NoMemory>
    ensures ok { OnOk result (fields.new.items ≡ fields.old.items ++ nothing_came size ∷ []) }
    ensures len { OnOk result (length fields.new.items ≡ length fields.old.items + 1) }
    ensures sum { OnOk result (octets_of fields.new.items
        ≡ octets_of fields.old.items + size) }
    ensures err { OnErr result (fields.new.items ≡ fields.old.items) }
{
    fields.push_back(FieldArrivals::new(alloc, size))?;
    Ok(())
}

// Octets of the number at a place come. An `Err` changes nothing.
#[tactic(auto, using(crate::proofs::ByPlace::counting))]
pub(crate) fn add(fields: &mut Fields, at: usize, from: u32, to: u32) -> Result<(), NoMemory>
    requires there { at < length fields.old.items }
    requires some { from < to }
    requires within { to ≤ 32767 }
    ensures ok { OnOk result (fields.new.items ≡ octets_at at from to fields.old.items) }
    ensures len { length fields.new.items ≡ length fields.old.items }
    ensures sum { octets_of fields.new.items ≡ octets_of fields.old.items }
    ensures err { OnErr result (fields.new.items ≡ fields.old.items) }
{
    add_at(fields, at, from, to)
}

fn add_at(fields: &mut Fields, at: usize, from: u32, to: u32) -> Result<(), NoMemory>
    requires there { at < length fields.old.items }
    requires some { from < to }
    requires within { to ≤ 32767 }
    ensures ok { OnOk result (fields.new.items ≡ octets_at at from to fields.old.items) }
    ensures err { OnErr result (fields.new.items ≡ fields.old.items) }
{
    match fields.get_mut(at) {
        Some(field) => field.add(from, to),
        None => unreachable!(),
    }
}

fn is_whole_at(fields: &Fields, at: usize) -> bool
    requires { at < length fields.now.items }
    ensures { result ≡ is_whole (field_at fields.now.items at) }
{
    match fields.get(at) {
        Some(field) => field.is_whole(),
        None => false,
    }
}

// The first place at or above another whose field isn't whole.
pub(crate) fn first_open(fields: &Fields, from: usize) -> usize
    ensures value { result ≡ first_open fields.now.items from }
    ensures within { result ≤ max from (length fields.now.items) }
{
    let mut at = from;
    while at < fields.len() && is_whole_at(fields, at) {
        at += 1;
    }
    at
}

// How many octets of the first field have come before the first that hasn't.
#[tactic(auto, using(crate::proofs::ByPlace::leading_low))]
pub(crate) fn leading(fields: &Fields) -> u32
    ensures value { result ≡ leading_octets (field_at fields.now.items 0) }
    ensures within { result ≤ octets_of fields.now.items }
{
    leading_of_first(fields)
}

fn leading_of_first(fields: &Fields) -> u32
    ensures { result ≡ leading_octets (field_at fields.now.items 0) }
{
    match fields.front() {
        Some(field) => field.leading(),
        None => 0,
    }
}

// Takes out the whole fields that stand first: `front` and `start` are the number of the first
// field, and the place where it begins.
pub(crate) fn drop_whole(fields: &mut Fields, front: &mut u64, start: &mut u64)
    requires numbers { front.old + length fields.old.items < 2 ^ 64 }
    requires octets { start.old + octets_of fields.old.items < 2 ^ 64 }
    ensures front { front.new ≡ front.old + whole_first fields.old.items }
    ensures start { start.new ≡ start.old + octets_first fields.old.items }
    ensures rest { fields.new.items ≡ drop (whole_first fields.old.items) fields.old.items }
    ensures numbers { front.new + length fields.new.items
        ≡ front.old + length fields.old.items }
    ensures octets { start.new + octets_of fields.new.items
        ≡ start.old + octets_of fields.old.items }
{
    while let Some(field) = fields.front() {
        if !field.is_whole() {
            break;
        }
        *start += u64::from(field.size());
        *front += 1;
        let _ = fields.pop_front();
    }
}

// Whether octets at places from one on below another, counted from where the fields begin, have all
// come.
#[tactic(auto, using(crate::proofs::Wholes::fields_left))]
pub(crate) fn places_came(fields: &Fields, from: u64, to: u64) -> bool
    ensures { result ≡ places_came fields.now.items from to }
{
    let mut from = from;
    let mut to = to;
    let mut at = 0;
    while let Some(field) = fields.get(at) {
        if !field.octets_came(from, to) {
            return false;
        }
        from = from.saturating_sub(u64::from(field.size()));
        to = to.saturating_sub(u64::from(field.size()));
        at += 1;
    }
    to <= from
}
