//! What a STATUS may say of the numbers of a window.
ghost use Rattle.std.specs.Prelude.{◌≡◌, if◌then◌else◌, ℕ, [], ◌∷◌, ◌++◌, ◌+◌, ◌*◌, ◌-◌, ◌<◌, ◌≤◌};
ghost use Rattle.std.specs.Prelude.{◌^◌, map, length, drop, OnOk, IfOk, IfSome, Some, None};
ghost use Rattle.rlc_am_rx_window.specs.Held.{is_complete};
ghost use Rattle.rlc_am_rx_window.specs.Missing.{runs, of_part, missing_of, AreRanges};
ghost use Rattle.rlc_am_rx_window.specs.Missing.{entries_bits};

use crate::field::Field;
use crate::slot::Slot;
use l2_bits::NoMemory;
use rlc_pdu::Part;

/// A number that isn't complete, of which nothing has arrived, or a range of its octets that
/// haven't.
#[derive(Clone, Copy, Debug, PartialEq, Eq)]
pub struct Missing {
    /// The number, counted from 0.
    pub number: u64,
    /// `None` where nothing has arrived. An end of 32767 is the field's last octet.
    pub part: Option<Part>,
}

/// Adds what is said of a number.
#[tactic(auto, using(crate::proofs::MissingLemmas::ranges))]
pub(crate) fn add(number: u64, slot: &Slot, out: &mut Vec<Missing>) -> Result<(), NoMemory>
    ensures ranges { AreRanges (missing_of number slot.now) }
    ensures added { OnOk result (out.new.items ≡ out.old.items ++ missing_of number slot.now) }
{
    if slot.is_complete() {
        return Ok(());
    }
    if slot.field().len() == 0 {
        out.push(Missing { number, part: None })?;
        return Ok(());
    }
    add_runs(number, slot.field(), slot.has_end(), out)
}

#[tactic(auto, using(crate::proofs::MissingLemmas::adding))]
fn add_runs(number: u64, field: &Field, ended: bool, out: &mut Vec<Missing>) -> Result<(), NoMemory>
    ensures { OnOk result (out.new.items ≡ out.old.items
        ++ map (of_part number) (runs field.now 0 None ended)) }
{
    let (stretches, tail) = field.parts();
    let mut at = 0;
    for stretch in stretches.iter() {
        let behind = at + stretch.gap();
        add_run(number, at, behind.saturating_sub(1), stretch.gap() > 0, out)?;
        at = behind + stretch.len();
    }
    if tail > 0 {
        return add_run(number, at, 32767, true, out);
    }
    add_run(number, at, 32767, !ended, out)
}

/// Adds a run of missing places, if there is one.
fn add_run(
    number: u64,
    start: usize,
    end: usize,
    is_missing: bool,
    out: &mut Vec<Missing>,
) -> Result<(), NoMemory>
    requires start { start ≤ 32767 }
    requires end { end ≤ 32767 }
    ensures { OnOk result (out.new.items ≡ out.old.items
        ++ (if is_missing then of_part number (record { start = start; end = end }) ∷ [] else [])) }
{
    if is_missing {
        let part = Part {
            start: start as u32,
            end: end as u32,
        };
        out.push(Missing {
            number,
            part: Some(part),
        })?;
    }
    Ok(())
}

/// How many bits the entries of a number take.
#[tactic(auto, using(crate::proofs::MissingLemmas::bits_of_parts))]
pub(crate) fn bits(number: u64, slot: &Slot) -> u32
    ensures value { result ≡ entries_bits (missing_of number slot.now) }
    ensures few { result < 2 ^ 22 }
{
    if slot.is_complete() {
        return 0;
    }
    if slot.field().len() == 0 {
        return 12;
    }
    42 * count_runs(slot.field(), slot.has_end())
}

#[tactic(auto, using(crate::proofs::MissingLemmas::counting))]
fn count_runs(field: &Field, ended: bool) -> u32
    ensures value { result ≡ length (runs field.now 0 None ended) }
    ensures few { result ≤ 32768 }
{
    let (stretches, tail) = field.parts();
    let mut at = 0;
    let mut count = 0;
    for stretch in stretches.iter() {
        count += (stretch.gap() > 0) as u32;
        at += stretch.gap() + stretch.len();
    }
    if tail > 0 {
        return count + 1;
    }
    if ended { count } else { count + 1 }
}
