ghost use Rattle.std.specs.Prelude.{◌≡◌, ◌+◌, ◌<◌, ◌≤◌, ◌^◌, [], ◌∷◌, length, None, Some};
ghost use Rattle.std.specs.Prelude.{MatchOption, option_map, is_some, true, false, IfSome, IfNone};
ghost use Rattle.std.specs.Prelude.{if◌then◌else◌, ◌==◌};
ghost use Rattle.rlc_pdu.specs.Units.{li_of, more_of, unit_at, field_at, or_zero, scanned, past_in};
ghost use Rattle.rlc_pdu.specs.Units.{is_sound, elements_in, units as units_of};
ghost use Rattle.l2_bits.specs.declared.limits.TheConstants.{OCTETS_LIMIT};

/// The elements of a data PDU that haven't been taken.
#[derive(Clone, Copy)]
pub struct Elements<'a> {
    /// The next unit begins in the middle of an octet.
    odd: bool,
    /// A unit follows.
    more: bool,
    /// The octets from the next unit on.
    units: &'a [u8],
    /// What is left of the data field; nothing after the last element.
    field: &'a [u8],
    ghost sound: { is_sound odd more units.now field.now ≡ true },
    ghost short: { length field.now < OCTETS_LIMIT },
}

impl<'a> Elements<'a> {
    ghost use Rattle.rlc_pdu.specs.Views.{elements_of};

    // The elements of a field, by units that are whole and leave something of it to each.
    pub(crate) fn of(more: bool, units: &'a [u8], field: &'a [u8]) -> Elements<'a>
        requires sound { is_sound false more units.now field.now ≡ true }
        requires short { length field.now < OCTETS_LIMIT }
        ensures { elements_of result ≡ elements_in false more units.now field.now }
    {
        Elements {
            odd: false,
            more,
            units,
            field,
        }
    }

    /// Takes the next element, `None` exactly after the last.
    pub fn next(&mut self) -> Option<&'a [u8]>
        ensures element { MatchOption result ((elements_of self.old ≡ [])
            × (elements_of self.new ≡ [])) (λ one. elements_of self.old
            ≡ one.now ∷ elements_of self.new) }
        ensures short { IfSome result (λ one. length one.now < OCTETS_LIMIT) }
    {
        if self.field.is_empty() {
            return None;
        }
        if !self.more {
            let last = self.field;
            self.field = &[];
            return Some(last);
        }
        let Some((len, more, units)) = unit(self.odd, self.units) else {
            return None;
        };
        let (one, field) = self.field.split_at(len);
        *self = Elements {
            odd: !self.odd,
            more,
            units,
            field,
        };
        Some(one)
    }
}

// The LI of a unit.
fn li(odd: bool, first: u8, second: u8) -> usize
    ensures len { result ≡ li_of odd first second }
    ensures fits { result < 2 ^ 11 }
{
    if odd {
        ((first as usize & 7) << 8) | second as usize
    } else {
        ((first as usize & 0x7f) << 4) | (second as usize >> 4)
    }
}

// Whether another unit follows.
fn more_at(odd: bool, first: u8) -> bool
    ensures { result ≡ more_of odd first }
{
    if odd {
        (first >> 3) & 1 == 1
    } else {
        (first >> 7) & 1 == 1
    }
}

// The unit that begins in the first octet: its LI, whether another follows, and the octets from
// there on.
#[tactic(auto, unfolding(crate::specs::Units::unit_at))]
fn unit(odd: bool, octets: &[u8]) -> Option<(usize, bool, &[u8])>
    ensures read { option_map (λ x. record { len = x.0; more = x.1; rest = x.2.now }) result
        ≡ unit_at odd octets.now }
    ensures less { IfSome result (λ x. (length x.2.now < length octets.now) × (x.0 < 2 ^ 11)) }
{
    match (odd, octets) {
        (false, [a, rest @ ..]) if !rest.is_empty() => {
            Some((li(false, *a, rest[0]), more_at(false, *a), rest))
        }
        (true, [a, b, rest @ ..]) => Some((li(true, *a, *b), more_at(true, *a), rest)),
        _ => None,
    }
}

// The octets behind the last unit.
#[tactic(auto, unfolding(crate::specs::Units::field_at))]
fn field(odd: bool, octets: &[u8]) -> Option<&[u8]>
    ensures read { option_map (λ x. x.now) result ≡ field_at odd octets.now }
    ensures within { IfSome result (λ x. length x.now ≤ length octets.now) }
{
    if !odd {
        return Some(octets);
    }
    match octets {
        [] => None,
        [_, rest @ ..] => Some(rest),
    }
}

// The first LI of 0, where the k-th LI is the next.
fn first_zero(found: Option<usize>, k: usize, len: usize) -> Option<usize>
    ensures first { result ≡ or_zero found (if len == 0 then Some k else None) }
    ensures within { IfSome result (λ z. (IfSome found (λ f. z ≡ f)) × (IfNone found (z ≡ k))) }
{
    match found {
        Some(_) => found,
        None if len == 0 => Some(k),
        None => None,
    }
}

// The first LI of 0 and the octets behind the units, or nothing where they are cut.
pub(crate) fn scan(more: bool, units: &[u8]) -> Option<(Option<usize>, &[u8])>
    ensures read { option_map (λ x. (x.0, x.1.now)) result
        ≡ scanned None 0 (units_of false more units.now) }
    ensures within { IfSome result (λ x. (IfSome x.0 (λ k. k ≤ length units.now))
        × (length x.1.now ≤ length units.now)) }
{
    let mut odd = false;
    let mut follows = more;
    let mut rest = units;
    let mut k = 0;
    let mut zero = None;
    while follows {
        let Some((len, more, behind)) = unit(odd, rest) else {
            return None;
        };
        zero = first_zero(zero, k, len);
        follows = more;
        rest = behind;
        odd = !odd;
        k += 1;
    }
    match field(odd, rest) {
        None => None,
        Some(field) => Some((zero, field)),
    }
}

// The first LI that leaves nothing of a field of so many octets to the element behind it.
pub(crate) fn first_past(more: bool, units: &[u8], field: usize) -> Option<usize>
    requires { is_some (units_of false more units.now) ≡ true }
    ensures read { result ≡ past_in 0 (units_of false more units.now) field }
    ensures within { IfSome result (λ k. k ≤ length units.now) }
{
    let mut odd = false;
    let mut follows = more;
    let mut rest = units;
    let mut k = 0;
    let mut left = field;
    while follows {
        let Some((len, more, behind)) = unit(odd, rest) else {
            return None;
        };
        if left <= len {
            return Some(k);
        }
        left -= len;
        follows = more;
        rest = behind;
        odd = !odd;
        k += 1;
    }
    None
}
