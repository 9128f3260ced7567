ghost use Rattle.std.specs.Prelude.{◌≡◌, ◌++◌, ◌+◌, ◌≤◌, ◌<◌, ◌^◌, OnOk, IfOk, length, false};
ghost use Rattle.std.specs.List.{sum};
ghost use Rattle.rlc_am_tx_window.specs.Cut.{cost, goes_on, cut, some_length, clip, is_cut};

use l2_bits::NoMemory;
use std::alloc::Global;

/// The longest element that another may follow, by the 11 bits of its LI.
const LONGEST: u32 = 2047;

// What one element more costs in the header.
fn cost(half: bool) -> u32
    ensures { result ≡ cost half }
{
    if half { 1 } else { 2 }
}

// Whether an octet of a further element fits behind a whole one.
fn goes_on(half: bool, room: u32, len: u32) -> bool
    ensures { result ≡ goes_on half room len }
{
    len <= LONGEST && len + cost(half) < room
}

/// The element lengths that fit into a room.
pub(crate) fn cut(alloc: Global, lens: &[u32], size: u32) -> Result<Vec<u32>, NoMemory>
    ensures { IfOk result (λ v. v.items ≡ cut false size lens.now) }
{
    let mut out = Vec::new(alloc);
    let mut half = false;
    let mut room = size;
    for len in lens {
        out.push((*len).min(room))?;
        if !goes_on(half, room, *len) {
            break;
        }
        room = room.saturating_sub(*len + cost(half));
        half = !half;
    }
    Ok(out)
}

fn push_some(lens: &mut Vec<u32>, len: u32) -> Result<(), NoMemory>
    ensures { OnOk result (lens.new.items ≡ lens.old.items ++ some_length len) }
{
    if len != 0 {
        lens.push(len)?;
    }
    Ok(())
}

/// The lengths of the elements' parts that lie at or above a place and below another.
pub(crate) fn clip(alloc: Global, lens: &[u32], from: u32, to: u32) -> Result<Vec<u32>, NoMemory>
    ensures { IfOk result (λ v. v.items ≡ clip from to lens.now) }
{
    let mut out = Vec::new(alloc);
    let mut start = from;
    let mut end = to;
    for len in lens {
        push_some(&mut out, end.min(*len).saturating_sub(start))?;
        start = start.saturating_sub(*len);
        end = end.saturating_sub(*len);
    }
    Ok(out)
}

/// How many elements lie at or above a place and below another.
pub(crate) fn clip_count(lens: &[u32], from: u32, to: u32) -> usize
    ensures value { result ≡ length (clip from to lens.now) }
    ensures few { result ≤ length lens.now }
{
    let mut count = 0;
    let mut start = from;
    let mut end = to;
    for len in lens {
        count += some(end.min(*len).saturating_sub(start));
        start = start.saturating_sub(*len);
        end = end.saturating_sub(*len);
    }
    count
}

fn some(len: u32) -> usize
    ensures value { result ≡ length (some_length len) }
    ensures few { result ≤ 1 }
{
    if len == 0 { 0 } else { 1 }
}

/// Whether an element begins at a place, or the last one ends there.
pub(crate) fn is_cut(lens: &[u32], place: u32) -> bool
    ensures { result ≡ is_cut place lens.now }
{
    let mut left = place;
    for len in lens {
        if left < *len {
            return left == 0;
        }
        left -= *len;
    }
    left == 0
}

/// The sum of lengths that don't pass a data field.
pub(crate) fn total(lens: &[u32]) -> u32
    requires { sum lens.now < 2 ^ 31 }
    ensures { result ≡ sum lens.now }
{
    let mut total = 0;
    for len in lens {
        total += *len;
    }
    total
}
