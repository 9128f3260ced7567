//! What the stretches of a field tell.
ghost use Rattle.std.specs.Prelude.{◌≡◌, ◌+◌, ◌≤◌, length, drop, OnOk};
ghost use Rattle.rlc_am_rx_window.specs.Cells.{leading, edge_behind};
ghost use Rattle.rlc_am_rx_window.specs.Spread.{spread, ends_within};
ghost use Rattle.rlc_am_rx_window.specs.Joined.{joined};

use crate::output::Output;
use crate::stretch::Stretch;
use l2_bits::NoMemory;
use std::collections::VecDeque;

/// The first place at or above another that isn't held.
#[tactic(auto, using(crate::proofs::SpreadLemmas::reaching))]
pub(crate) fn reach(stretches: &VecDeque<Stretch>, from: usize) -> usize
    requires { length (spread stretches.now.items 0) ≤ 32767 }
    ensures { result ≡ from + length (leading (drop from (spread stretches.now.items 0))) }
{
    let mut left = from;
    let mut count = 0;
    for stretch in stretches.iter() {
        if left < stretch.gap() {
            return from + count;
        }
        let end = stretch.gap() + stretch.len();
        count += end.saturating_sub(left);
        left = left.saturating_sub(end);
    }
    from + count
}

/// Whether an SDU ends behind a place, if that is known.
#[tactic(auto, using(crate::proofs::EdgeLemmas::edges))]
pub(crate) fn edge_behind(stretches: &VecDeque<Stretch>, at: usize) -> Option<bool>
    requires { length (spread stretches.now.items 0) ≤ 32767 }
    ensures { result ≡ edge_behind (spread stretches.now.items 0) at }
{
    let mut left = at;
    for stretch in stretches.iter() {
        let gap = stretch.gap();
        let end = gap + stretch.len();
        if left < gap {
            return if left + 1 == gap {
                Some(stretch.begins())
            } else {
                None
            };
        }
        if left < end {
            return Some(stretch.ends() && left + 1 == end);
        }
        left -= end;
    }
    None
}

/// Whether an SDU is known to end behind a place at or above one and below another.
#[tactic(auto, using(crate::proofs::EdgeLemmas::within))]
pub(crate) fn ends_within(stretches: &VecDeque<Stretch>, from: usize, to: usize) -> bool
    requires { length (spread stretches.now.items 0) ≤ 32767 }
    ensures { result ≡ ends_within (spread stretches.now.items 0) from to }
{
    let mut low = from;
    let mut high = to;
    for stretch in stretches.iter() {
        let end = stretch.gap() + stretch.len();
        if stretch.ends_within(low, high) {
            return true;
        }
        low = low.saturating_sub(end);
        high = high.saturating_sub(end);
    }
    false
}

/// Goes on with the octets from a place on up to the first that hasn't arrived.
#[tactic(auto, using(crate::proofs::SpreadLemmas::giving))]
pub(crate) fn give(
    stretches: &VecDeque<Stretch>,
    from: usize,
    out: &mut Output,
) -> Result<(), NoMemory>
    requires { length (spread stretches.now.items 0) ≤ 32767 }
    ensures { OnOk result
        (out.new ≡ joined out.old (leading (drop from (spread stretches.now.items 0)))) }
{
    let mut left = from;
    for stretch in stretches.iter() {
        let gap = stretch.gap();
        if left < gap {
            break;
        }
        stretch.join(left - gap, out)?;
        left = left.saturating_sub(gap + stretch.len());
    }
    Ok(())
}
