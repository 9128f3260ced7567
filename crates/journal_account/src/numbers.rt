// The numbers from VT(A) on.
ghost use Rattle.std.specs.Prelude.{◌≡◌, [], ◌∷◌, ◌++◌, ◌+◌, ◌<◌, ◌≤◌, ◌^◌, length, drop, None};
ghost use Rattle.std.specs.Prelude.{nat_lt, is_none};
ghost use Rattle.std.specs.Prelude.{Some, slice_set, OnOk, OnErr, IfSome, if◌then◌else◌};
ghost use Rattle.rlc_pdu.specs.Runs.{gap_in};
ghost use Rattle.journal_account.specs.FlowSending.{never_named, with_rest, number_at};
ghost use Rattle.journal_account.specs.FlowSending.{heard_number, heard_all, acked_first};
ghost use Rattle.journal_account.specs.FlowSending.{acked_octets};
ghost use Rattle.journal_account.specs.FlowConfirmed.{places_acked};
ghost use Rattle.journal_account.specs.FlowSending.{first_over, some_wait, last_open, recalled};

use crate::entry::StatusEntry;
use crate::number::SentNumber;
use l2_bits::NoMemory;
use std::alloc::Global;
use std::collections::VecDeque;

pub(crate) type Numbers = VecDeque<SentNumber>;

// Adds a number with so many octets. An `Err` changes nothing.
pub(crate) fn push(alloc: Global, numbers: &mut Numbers, size: u32) -> Result<(), NoMemory>
    requires { size ≤ 32767 }
    ensures ok { OnOk result (numbers.new.items ≡ numbers.old.items ++ never_named size ∷ []) }
    ensures err { OnErr result (numbers.new.items ≡ numbers.old.items) }
{
    numbers.push_back(SentNumber::new(alloc, size))?;
    Ok(())
}

// Octets of the number at a place wait no more. An `Err` changes nothing.
pub(crate) fn rest(numbers: &mut Numbers, at: usize, from: u32, to: u32) -> Result<(), NoMemory>
    requires there { at < length numbers.old.items }
    requires some { from < to }
    requires within { to ≤ 32767 }
    ensures ok { OnOk result (numbers.new.items
        ≡ slice_set numbers.old.items at (with_rest from to (number_at numbers.old.items at))) }
    ensures err { OnErr result (numbers.new.items ≡ numbers.old.items) }
{
    match numbers.get_mut(at) {
        Some(number) => number.rest(from, to),
        None => unreachable!(),
    }
}

// Whether octets of the number at a place all wait.
pub(crate) fn octets_wait(numbers: &Numbers, at: usize, from: u32, to: u32) -> bool
    ensures { result ≡ is_none (gap_in (number_at numbers.now.items at).waiting from to) }
{
    match numbers.get(at) {
        Some(one) => one.octets_wait(from, to),
        None => to <= from,
    }
}

// How often the number at a place was named.
pub(crate) fn namings(numbers: &Numbers, at: usize) -> u32
    ensures { result ≡ (number_at numbers.now.items at).namings }
{
    match numbers.get(at) {
        Some(one) => one.namings(),
        None => 0,
    }
}

// Whether the number at a place is acknowledged.
pub(crate) fn is_acked(numbers: &Numbers, at: usize) -> bool
    ensures { result ≡ (number_at numbers.now.items at).acked }
{
    match numbers.get(at) {
        Some(one) => one.is_acked(),
        None => false,
    }
}

fn hear_at(
    numbers: &mut Numbers,
    at: usize,
    ack: u64,
    entries: &[StatusEntry],
    number: u64,
) -> Result<(), NoMemory>
    requires { at < length numbers.old.items }
    ensures len { length numbers.new.items ≡ length numbers.old.items }
    ensures items { OnOk result (numbers.new.items ≡ slice_set numbers.old.items at
        (heard_number ack entries.now number (number_at numbers.old.items at))) }
{
    match numbers.get_mut(at) {
        Some(one) => one.hear(ack, entries, number),
        None => unreachable!(),
    }
}

// A STATUS comes to all numbers, of which the first is `base`.
#[tactic(auto, using(crate::proofs::Sent::hears))]
pub(crate) fn hear(
    numbers: &mut Numbers,
    ack: u64,
    entries: &[StatusEntry],
    base: u64,
) -> Result<(), NoMemory>
    requires { base + length numbers.old.items < 2 ^ 64 }
    ensures len { length numbers.new.items ≡ length numbers.old.items }
    ensures items { OnOk result
        (numbers.new.items ≡ heard_all ack entries.now base numbers.old.items) }
{
    let mut at = 0;
    while at < numbers.len() {
        hear_at(numbers, at, ack, entries, base + at as u64)?;
        at += 1;
    }
    Ok(())
}

// Takes out the acknowledged numbers that stand first; `base` is the first number, and `start` the
// place of the stream where it begins.
pub(crate) fn advance(
    numbers: &mut Numbers,
    base: &mut u64,
    start: &mut u64,
) -> Result<(), NoMemory>
    requires { base.old + length numbers.old.items < 2 ^ 64 }
    ensures base { OnOk result (base.new ≡ base.old + acked_first numbers.old.items) }
    ensures start { OnOk result (start.new ≡ start.old + acked_octets numbers.old.items) }
    ensures rest { OnOk result
        (numbers.new.items ≡ drop (acked_first numbers.old.items) numbers.old.items) }
    ensures sum { base.new + length numbers.new.items ≡ base.old + length numbers.old.items }
{
    while let Some(one) = numbers.front() {
        if !one.is_acked() {
            break;
        }
        *start = start.checked_add(u64::from(one.size())).ok_or(NoMemory)?;
        let _ = numbers.pop_front();
        *base += 1;
    }
    Ok(())
}

// Whether octets at places from one on below another, counted from where the numbers begin, are all
// acknowledged.
pub(crate) fn places_acked(numbers: &Numbers, from: u64, to: u64) -> bool
    ensures { result ≡ places_acked numbers.now.items from to }
{
    places_acked_from(numbers, 0, from, to)
}

// The same of the numbers from a place on.
#[tactic(auto, using(crate::proofs::Confirms::numbers_walked))]
pub(crate) fn places_acked_from(numbers: &Numbers, first: usize, from: u64, to: u64) -> bool
    requires { first ≤ length numbers.now.items }
    ensures { result ≡ places_acked (drop first numbers.now.items) from to }
{
    let mut from = from;
    let mut to = to;
    let mut at = first;
    while from < to {
        let Some(one) = numbers.get(at) else {
            return false;
        };
        if !one.octets_acked(from, to) {
            return false;
        }
        from = from.saturating_sub(u64::from(one.size()));
        to = to.saturating_sub(u64::from(one.size()));
        at += 1;
    }
    true
}

fn is_over(numbers: &Numbers, at: usize, most: u32) -> bool
    requires { at < length numbers.now.items }
    ensures { result ≡ nat_lt most (number_at numbers.now.items at).namings }
{
    match numbers.get(at) {
        Some(one) => most < one.namings(),
        None => false,
    }
}

// The first number that was named more often than so many times.
#[tactic(auto, using(crate::proofs::Sent::overs))]
pub(crate) fn first_over(numbers: &Numbers, most: u32, base: u64) -> Option<u64>
    requires { base + length numbers.now.items < 2 ^ 64 }
    ensures { result ≡ first_over most base numbers.now.items }
{
    let mut at = 0;
    while at < numbers.len() {
        if is_over(numbers, at, most) {
            return Some(base + at as u64);
        }
        at += 1;
    }
    None
}

// Whether an octet waits.
pub(crate) fn some_wait(numbers: &Numbers) -> bool
    ensures { result ≡ some_wait numbers.now.items }
{
    numbers.iter().any(|one| !one.is_resting())
}

// The place of the greatest number that isn't acknowledged.
#[tactic(auto, using(crate::proofs::Sent::opens))]
pub(crate) fn last_open(numbers: &Numbers) -> Option<usize>
    ensures value { result ≡ last_open 0 None numbers.now.items }
    ensures within { IfSome result (λ at. at < length numbers.now.items) }
{
    let mut found = None;
    let mut at = 0;
    while at < numbers.len() {
        found = or_open(is_acked_at(numbers, at), found, at);
        at += 1;
    }
    found
}

fn is_acked_at(numbers: &Numbers, at: usize) -> bool
    requires { at < length numbers.now.items }
    ensures { result ≡ (number_at numbers.now.items at).acked }
{
    match numbers.get(at) {
        Some(one) => one.is_acked(),
        None => false,
    }
}

fn or_open(acked: bool, found: Option<usize>, at: usize) -> Option<usize>
    ensures { result ≡ (if acked then found else Some at) }
{
    if acked { found } else { Some(at) }
}

// The poll timer names all octets of the number at a place.
pub(crate) fn recall(numbers: &mut Numbers, at: usize) -> Result<(), NoMemory>
    requires { at < length numbers.old.items }
    ensures len { length numbers.new.items ≡ length numbers.old.items }
    ensures items { OnOk result (numbers.new.items
        ≡ slice_set numbers.old.items at (recalled (number_at numbers.old.items at))) }
{
    match numbers.get_mut(at) {
        Some(one) => one.recall(),
        None => unreachable!(),
    }
}
