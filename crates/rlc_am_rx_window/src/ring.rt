//! The ring of what is held of the numbers from VR(R) below VR(H).
ghost use Rattle.std.specs.Prelude.{◌≡◌, [], ◌∷◌, ◌++◌, ◌+◌, ◌<◌, ◌≤◌, ◌^◌, length, drop, OnOk};
ghost use Rattle.std.specs.Prelude.{IfOk, max};
ghost use Rattle.circular_buffer.specs.Buffer.{buffer};
ghost use Rattle.rlc_am_rx_window.specs.Held.{nothing, is_complete, has_end};
ghost use Rattle.rlc_am_rx_window.specs.Joined.{joined};
ghost use Rattle.rlc_am_rx_window.specs.Cells.{leading};
ghost use Rattle.rlc_am_rx_window.specs.Window.{first_incomplete, polled_in, widened, slot_at};
ghost use Rattle.rlc_am_rx_window.specs.Window.{handed_on, complete_first, given_after, salvaged};
ghost use Rattle.rlc_am_rx_window.specs.Window.{broken_unless};
ghost use Rattle.rlc_am_rx_window.specs.Missing.{missing_of, missing_below, AreRanges};
ghost use Rattle.rlc_am_rx_window.specs.Missing.{entries_bits};
ghost use Rattle.rlc_pdu.specs.declared.constants.TheConstants.{AM_WINDOW_SIZE};

use crate::missing::{self, Missing};
use crate::output::Output;
use crate::slot::Slot;
use circular_buffer::HeapCircularBuffer;
use l2_bits::NoMemory;
use std::alloc::Global;

/// The first place at or above another whose number isn't complete.
pub(crate) fn first_incomplete(ring: &HeapCircularBuffer<Slot>, from: usize) -> usize
    ensures value { result ≡ first_incomplete ring.now.items from }
    ensures within { result ≤ max from (length ring.now.items) }
{
    let mut at = from;
    while at < ring.len() && is_complete_at(ring, at) {
        at += 1;
    }
    at
}

fn is_complete_at(ring: &HeapCircularBuffer<Slot>, at: usize) -> bool
    requires { at < length ring.now.items }
    ensures { result ≡ is_complete (slot_at ring.now.items at) }
{
    match ring.get(at) {
        Some(slot) => slot.is_complete(),
        None => false,
    }
}

/// Whether a poll came with one of the numbers from a place on below another.
#[tactic(auto, using(crate::proofs::RingLemmas::polls))]
pub(crate) fn has_poll(ring: &HeapCircularBuffer<Slot>, from: usize, to: usize) -> bool
    ensures { result ≡ polled_in ring.now.items from to }
{
    for at in from..to.min(ring.len()) {
        if is_polled_at(ring, at) {
            return true;
        }
    }
    false
}

fn is_polled_at(ring: &HeapCircularBuffer<Slot>, at: usize) -> bool
    requires { at < length ring.now.items }
    ensures { result ≡ (slot_at ring.now.items at).polled }
{
    match ring.get(at) {
        Some(slot) => slot.is_polled(),
        None => false,
    }
}

/// Adds numbers of which nothing has arrived, up to so many.
#[tactic(auto, using(crate::proofs::RingLemmas::grows))]
pub(crate) fn widen(alloc: Global, ring: &mut HeapCircularBuffer<Slot>, size: usize)
    requires { size ≤ ring.old.capacity }
    ensures ring { ring.new ≡ buffer (widened ring.old.items size) ring.old.capacity }
    ensures wide { size ≤ length ring.new.items }
{
    'growth: while ring.len() < size {
        add_empty(alloc, ring);
    }
}

fn add_empty(alloc: Global, ring: &mut HeapCircularBuffer<Slot>)
    requires { length ring.old.items < ring.old.capacity }
    ensures { ring.new ≡ buffer (ring.old.items ++ nothing ∷ []) ring.old.capacity }
{
    let _ = ring.try_push_back(Slot::new(alloc));
}

/// Hands on the octets that are in sequence, and takes out the complete numbers that stand first.
#[tactic(auto, using(crate::proofs::RingLemmas::stops))]
pub(crate) fn hand_on(
    ring: &mut HeapCircularBuffer<Slot>,
    front: &mut u64,
    given: &mut usize,
    out: &mut Output,
) -> Result<(), NoMemory>
    requires { front.old + length ring.old.items < 2 ^ 64 }
    ensures sum { front.new + length ring.new.items ≡ front.old + length ring.old.items }
    ensures capacity { ring.new.capacity ≡ ring.old.capacity }
    ensures fewer { length ring.new.items ≤ length ring.old.items }
    ensures front { OnOk result (front.new ≡ front.old + complete_first ring.old.items) }
    ensures slots { OnOk result (ring.new.items
        ≡ drop (complete_first ring.old.items) ring.old.items) }
    ensures given { OnOk result (given.new ≡ given_after ring.old.items given.old) }
    ensures out { OnOk result (out.new ≡ handed_on out.old ring.old.items given.old) }
{
    while let Some(slot) = ring.front() {
        if !slot.is_complete() {
            *given = slot.give(*given, out)?;
            break;
        }
        let passed = pass_front(ring, *given, out);
        *front += 1;
        *given = 0;
        passed?;
    }
    Ok(())
}

/// Takes out the first number, and hands on its octets from a place on up to the first that hasn't
/// arrived.
fn pass_front(
    ring: &mut HeapCircularBuffer<Slot>,
    given: usize,
    out: &mut Output,
) -> Result<(), NoMemory>
    ensures ring { ring.new ≡ buffer (drop 1 ring.old.items) ring.old.capacity }
    ensures out { OnOk result
        (out.new ≡ joined out.old (leading (drop given (slot_at ring.old.items 0).cells))) }
{
    match ring.pop_front() {
        Some(slot) => slot.hand_on(given, out),
        None => Ok(()),
    }
}

/// Goes on with all octets that are held, from a place of the first number on, and leaves out gaps.
pub(crate) fn salvage(
    ring: &HeapCircularBuffer<Slot>,
    given: usize,
    out: &mut Output,
) -> Result<(), NoMemory>
    ensures { OnOk result (out.new ≡ salvaged out.old ring.now.items given) }
{
    let mut from = given;
    for slot in ring.iter() {
        slot.salvage(from, out)?;
        from = 0;
    }
    Ok(())
}

/// What is said of the numbers from the front on below a bound.
#[tactic(auto, using(crate::proofs::RingLemmas::adding))]
pub(crate) fn missing(
    alloc: Global,
    ring: &HeapCircularBuffer<Slot>,
    front: u64,
    bound: u64,
) -> Result<Vec<Missing>, NoMemory>
    requires { front + length ring.now.items < 2 ^ 64 }
    ensures value { IfOk result (λ all. all.items ≡ missing_below ring.now.items front bound) }
    ensures ranges { IfOk result (λ all. AreRanges all.items) }
{
    let mut all = Vec::new(alloc);
    let mut at = 0;
    'numbers: while at < ring.len() && front + (at as u64) < bound {
        add_missing_at(ring, at, front + at as u64, &mut all)?;
        at += 1;
    }
    Ok(all)
}

fn add_missing_at(
    ring: &HeapCircularBuffer<Slot>,
    at: usize,
    number: u64,
    out: &mut Vec<Missing>,
) -> Result<(), NoMemory>
    requires { at < length ring.now.items }
    ensures added { OnOk result (out.new.items ≡ out.old.items
        ++ missing_of number (slot_at ring.now.items at)) }
    ensures ranges { AreRanges (missing_of number (slot_at ring.now.items at)) }
{
    match ring.get(at) {
        Some(slot) => missing::add(number, slot, out),
        None => unreachable!(),
    }
}

/// How many bits the entries of the numbers from the front on below a bound take.
#[tactic(auto, using(crate::proofs::RingLemmas::bits_stop))]
pub(crate) fn missing_bits(ring: &HeapCircularBuffer<Slot>, front: u64, bound: u64) -> u32
    requires fits { front + length ring.now.items < 2 ^ 64 }
    requires few { length ring.now.items ≤ AM_WINDOW_SIZE }
    ensures value { result ≡ entries_bits (missing_below ring.now.items front bound) }
    ensures few { result ≤ 2 ^ 31 }
{
    let mut at = 0;
    let mut bits = 0;
    'numbers: while at < ring.len() && front + (at as u64) < bound {
        bits += missing_bits_at(ring, at, front + at as u64);
        at += 1;
    }
    bits
}

fn missing_bits_at(ring: &HeapCircularBuffer<Slot>, at: usize, number: u64) -> u32
    requires { at < length ring.now.items }
    ensures value { result ≡ entries_bits (missing_of number (slot_at ring.now.items at)) }
    ensures few { result < 2 ^ 22 }
{
    match ring.get(at) {
        Some(slot) => missing::bits(number, slot),
        None => 0,
    }
}
