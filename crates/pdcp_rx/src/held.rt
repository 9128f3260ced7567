//! SDUs that are held, one place for each COUNT from the next on.
ghost use Rattle.std.specs.Prelude.{◌≡◌, ◌+◌, ◌-◌, ◌*◌, ◌<◌, ◌≤◌, ◌^◌, [], ◌∷◌, ◌++◌, length, take};
ghost use Rattle.std.specs.Prelude.{drop, slice_set, Some, None, OnOk, IfOk, max};
ghost use Rattle.pdcp_rx.specs.Held.{is_held, stored, widened, present, leading_held, bit, octet};
ghost use Rattle.pdcp_rx.specs.Held.{bitmap};

use l2_bits::{Bytes, NoMemory, Packets};
use std::alloc::Global;
use std::collections::VecDeque;

/// Whether an SDU is held at a place.
pub fn is_held(held: &VecDeque<Option<Bytes>>, at: usize) -> bool
    ensures { result ≡ is_held held.now.items at }
{
    match held.get(at) {
        Some(place) => place.is_some(),
        None => false,
    }
}

/// Keeps an SDU at a place.
#[tactic(auto, using(crate::proofs::HeldLemmas::stored_long))]
pub fn store(held: &mut VecDeque<Option<Bytes>>, at: usize, sdu: Bytes) -> Result<(), NoMemory>
    requires { at < 2 ^ 32 }
    ensures items { OnOk result (held.new.items ≡ stored held.old.items at sdu) }
    ensures reaches { OnOk result (at + 1 ≤ length held.new.items) }
    ensures len { length held.new.items ≤ max (length held.old.items) (at + 1) }
{
    widen(held, at + 1)?;
    put_at(held, at, sdu);
    Ok(())
}

fn put_at(held: &mut VecDeque<Option<Bytes>>, at: usize, sdu: Bytes)
    requires { at < length held.old.items }
    ensures { held.new.items ≡ slice_set held.old.items at (Some sdu) }
{
    match held.get_mut(at) {
        Some(place) => *place = Some(sdu),
        None => unreachable!(),
    }
}

#[tactic(auto, using(crate::proofs::HeldLemmas::grows))]
fn widen(held: &mut VecDeque<Option<Bytes>>, size: usize) -> Result<(), NoMemory>
    ensures items { OnOk result (held.new.items ≡ widened held.old.items size) }
    ensures len { length held.new.items ≤ max (length held.old.items) size }
{
    'growth: while held.len() < size {
        add_none(held)?;
    }
    Ok(())
}

fn add_none(held: &mut VecDeque<Option<Bytes>>) -> Result<(), NoMemory>
    ensures items { OnOk result (held.new.items ≡ held.old.items ++ None ∷ []) }
    ensures len { length held.new.items ≤ length held.old.items + 1 }
{
    held.push_back(None)?;
    Ok(())
}

/// The first place from one on at which nothing is held.
pub fn first_gap(held: &VecDeque<Option<Bytes>>, from: usize) -> usize
    requires { from ≤ length held.now.items }
    ensures value { result ≡ from + leading_held (drop from held.now.items) }
    ensures within { result ≤ length held.now.items }
{
    let mut at = from;
    while at < held.len() && is_held(held, at) {
        at += 1;
    }
    at
}

/// Hands up the SDUs of the first places, so many of them.
#[tactic(auto, using(crate::proofs::HeldLemmas::pops))]
pub fn hand_up(
    held: &mut VecDeque<Option<Bytes>>,
    ready: &mut Packets,
    count: usize,
) -> Result<(), NoMemory>
    requires { count ≤ length held.old.items }
    ensures held { OnOk result (held.new.items ≡ drop count held.old.items) }
    ensures ready { OnOk result (ready.new ≡ ready.old ++ present (take count held.old.items)) }
    ensures len { length held.new.items ≤ length held.old.items }
{
    let mut left = count;
    while left > 0 {
        pop_up(held, ready)?;
        left -= 1;
    }
    Ok(())
}

#[tactic(auto, using(crate::proofs::HeldLemmas::first))]
fn pop_up(held: &mut VecDeque<Option<Bytes>>, ready: &mut Packets) -> Result<(), NoMemory>
    ensures held { held.new.items ≡ drop 1 held.old.items }
    ensures ready { OnOk result (ready.new ≡ ready.old ++ present (take 1 held.old.items)) }
{
    match held.pop_front() {
        Some(place) => put(place, ready),
        None => Ok(()),
    }
}

fn put(place: Option<Bytes>, ready: &mut Packets) -> Result<(), NoMemory>
    ensures { OnOk result (ready.new ≡ ready.old ++ present (place ∷ [])) }
{
    match place {
        Some(sdu) => ready.push(sdu),
        None => Ok(()),
    }
}

fn bit(held: &VecDeque<Option<Bytes>>, at: usize) -> u8
    ensures value { result ≡ bit held.now.items at }
    ensures below { result ≤ 1 }
{
    if is_held(held, at) { 1 } else { 0 }
}

fn octet(held: &VecDeque<Option<Bytes>>, at: usize) -> u8
    requires { at < 2 ^ 62 }
    ensures { result ≡ octet held.now.items at }
{
    128 * bit(held, at)
        + 64 * bit(held, at + 1)
        + 32 * bit(held, at + 2)
        + 16 * bit(held, at + 3)
        + 8 * bit(held, at + 4)
        + 4 * bit(held, at + 5)
        + 2 * bit(held, at + 6)
        + bit(held, at + 7)
}

/// The bits of what is held from place 1 on, in so many octets.
#[tactic(auto, using(crate::proofs::HeldLemmas::bitmap_more))]
pub fn bitmap(
    alloc: Global,
    held: &VecDeque<Option<Bytes>>,
    count: usize,
) -> Result<Vec<u8>, NoMemory>
    requires { count < 2 ^ 32 }
    ensures { IfOk result (λ bits. bits.items ≡ bitmap held.now.items 1 count) }
{
    let mut out = Vec::with_capacity(alloc, count)?;
    let mut at = 1;
    let mut left = count;
    while left > 0 {
        out.push(octet(held, at))?;
        at += 8;
        left -= 1;
    }
    Ok(out)
}
