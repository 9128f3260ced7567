// Whether a STATUS tells what is missing of the numbers from VR(R) on.
ghost use Rattle.std.specs.Prelude.{◌≡◌, ◌+◌, ◌<◌, ◌≤◌, ◌^◌, length, map, take, slice_get};
ghost use Rattle.std.specs.Prelude.{true, IfSome};
ghost use Rattle.rlc_pdu.specs.Runs.{run_between};
ghost use Rattle.journal_account.specs.FlowArrivals.{field_at};
ghost use Rattle.journal_account.specs.TrueStatus.{range_of};
ghost use Rattle.journal_account.specs.FlowStatus.{is_all, is_same_part, is_same_entry};
ghost use Rattle.journal_account.specs.FlowStatus.{behind_wanted, behind_said, gaps_in};
ghost use Rattle.journal_account.specs.FlowStatus.{said_of_field, said_of_fields, begin_so};
ghost use Rattle.journal_account.specs.FlowStatus.{behind_named};

use crate::entry::StatusEntry;
use crate::field::FieldArrivals;
use crate::fields::Fields;
use rlc_pdu::Part;

// The end of a range that reaches the last octet of its number (TS 36.322 6.2.2.18).
const LAST: u32 = 32767;

fn is_same_part(a: Option<Part>, b: Option<Part>) -> bool
    ensures { result ≡ is_same_part a b }
{
    match (a, b) {
        (None, None) => true,
        (Some(a), Some(b)) => a.start == b.start && a.end == b.end,
        _ => false,
    }
}

fn is_same_entry(a: &StatusEntry, b: &StatusEntry) -> bool
    ensures { result ≡ is_same_entry a.now b.now }
{
    a.number == b.number && is_same_part(a.part, b.part)
}

// The place behind the entry at a place, if it is the one that is wanted; where the entries end
// nothing more is wanted.
fn behind_wanted(entries: &[StatusEntry], wanted: &StatusEntry, at: usize) -> Option<usize>
    requires { at ≤ length entries.now }
    ensures value { result ≡ behind_wanted (slice_get entries.now at) wanted.now at }
    ensures within { IfSome result (λ next. next ≤ length entries.now) }
{
    match entries.get(at) {
        None => Some(at),
        Some(entry) => {
            if is_same_entry(entry, wanted) {
                Some(at + 1)
            } else {
                None
            }
        }
    }
}

// The entry of octets that are missing.
fn range_of(number: u64, size: u32, gap: Part) -> StatusEntry
    requires { gap.end < size }
    ensures { result ≡ range_of number size (run_between gap.start (gap.end + 1)) }
{
    let end = if gap.end + 1 < size { gap.end } else { LAST };
    let part = Part {
        start: gap.start,
        end,
    };
    StatusEntry {
        number,
        part: Some(part),
    }
}

fn is_all(gap: Option<Part>, size: u32) -> bool
    requires { IfSome gap (λ gap. gap.end < size) }
    ensures { result ≡ is_all gap size }
{
    match gap {
        Some(gap) => gap.start == 0 && size <= gap.end + 1,
        None => false,
    }
}

// The place behind the ranges of a number, from a place on, if those are its next entries.
#[tactic(auto, using(crate::proofs::Said::ranges))]
fn behind_ranges(
    field: &FieldArrivals,
    number: u64,
    entries: &[StatusEntry],
    at: usize,
) -> Option<usize>
    requires { at ≤ length entries.now }
    ensures value { result ≡ behind_said
        (map (range_of number field.now.size) (gaps_in field.now.came 0 field.now.size))
        entries.now at }
    ensures within { IfSome result (λ next. next ≤ length entries.now) }
{
    let mut at = at;
    let mut from = 0;
    while let Some(gap) = field.gap(from) {
        match behind_wanted(entries, &range_of(number, field.size(), gap), at) {
            Some(next) => at = next,
            None => return None,
        }
        from = gap.end + 1;
    }
    Some(at)
}

// The place behind what is said of a number, from a place on, if that is what the entries say.
#[tactic(auto, using(crate::proofs::Said::of_field))]
fn behind_field(
    field: &FieldArrivals,
    number: u64,
    entries: &[StatusEntry],
    at: usize,
) -> Option<usize>
    requires { at ≤ length entries.now }
    ensures value { result ≡ behind_said (said_of_field number field.now) entries.now at }
    ensures within { IfSome result (λ next. next ≤ length entries.now) }
{
    if is_all(field.gap(0), field.size()) {
        return behind_wanted(entries, &StatusEntry { number, part: None }, at);
    }
    behind_ranges(field, number, entries, at)
}

fn behind_field_at(
    fields: &Fields,
    place: usize,
    number: u64,
    entries: &[StatusEntry],
    at: usize,
) -> Option<usize>
    requires there { place < length fields.now.items }
    requires within { at ≤ length entries.now }
    ensures value { result
        ≡ behind_said (said_of_field number (field_at fields.now.items place)) entries.now at }
    ensures within { IfSome result (λ next. next ≤ length entries.now) }
{
    match fields.get(place) {
        Some(field) => behind_field(field, number, entries, at),
        None => unreachable!(),
    }
}

// Whether entries begin what is said of the first fields, of so many, the first with a number.
pub(crate) fn begin_so(fields: &Fields, front: u64, count: usize, entries: &[StatusEntry]) -> bool
    requires numbers { front + length fields.now.items < 2 ^ 64 }
    requires within { count ≤ length fields.now.items }
    ensures value { result
        ≡ begin_so entries.now (said_of_fields front (take count fields.now.items)) }
    ensures named { result ≡ true → behind_named entries.now ≤ front + count }
{
    let mut at = 0;
    let mut place = 0;
    while place < count {
        match behind_field_at(fields, place, front + place as u64, entries, at) {
            Some(next) => at = next,
            None => return false,
        }
        place += 1;
    }
    at == entries.len()
}

// The number behind those that have an entry.
#[tactic(auto, using(crate::proofs::Saids::last_is))]
pub(crate) fn behind_named(entries: &[StatusEntry]) -> u64
    requires { behind_named entries.now < 2 ^ 64 }
    ensures { result ≡ behind_named entries.now }
{
    match entries.last() {
        Some(entry) => entry.number + 1,
        None => 0,
    }
}
