ghost use Rattle.std.specs.Prelude.{◌≡◌, ◌+◌, ◌*◌, ◌<◌, ◌≤◌, ◌^◌, [], ◌∷◌, drop, length, None};
ghost use Rattle.std.specs.Prelude.{Some, MatchOption, IfSome, option_map, true, is_some};
ghost use Rattle.std.specs.Prelude.{if◌then◌else◌};
ghost use Rattle.l2_bits.specs.Bits.{bits_of, take_field};
ghost use Rattle.rlc_pdu.specs.Pdus.{IsWide};
ghost use Rattle.rlc_pdu.specs.Status.{nack_size};
ghost use Rattle.rlc_pdu.specs.Entries.{part_at, nack_at, ack_at, entries, is_backwards, or_place};
ghost use Rattle.rlc_pdu.specs.Entries.{gone_through};
ghost use Rattle.l2_bits.specs.declared.limits.TheConstants.{OCTETS_LIMIT};

use crate::pdu::{Nack, Part};
use l2_bits::field;

/// The entries of a STATUS that haven't been taken.
#[derive(Clone, Copy)]
pub struct NackReader<'a> {
    octets: &'a [u8],
    /// The bit with which the next entry begins.
    at: usize,
    /// An entry follows.
    more: bool,
    ghost sound: { is_some (entries 0 more (drop at (bits_of octets.now))) ≡ true },
    ghost within: { at ≤ 8 * length octets.now },
    ghost short: { length octets.now < OCTETS_LIMIT },
}

impl<'a> NackReader<'a> {
    ghost use Rattle.rlc_pdu.specs.Views.{nacks_of};

    // The entries from a bit on.
    pub(crate) fn from(octets: &'a [u8], at: usize, more: bool) -> NackReader<'a>
        requires sound { is_some (entries 0 more (drop at (bits_of octets.now))) ≡ true }
        requires within { at ≤ 8 * length octets.now }
        requires short { length octets.now < OCTETS_LIMIT }
        ensures octets { result.octets.now ≡ octets.now }
        ensures at { result.at ≡ at }
        ensures more { result.more ≡ more }
    {
        NackReader { octets, at, more }
    }

    /// Takes the next entry, `None` exactly after the last.
    pub fn next(&mut self) -> Option<Nack>
        ensures entry { MatchOption result ((nacks_of self.old ≡ []) × (nacks_of self.new ≡ []))
            (λ nack. nacks_of self.old ≡ nack ∷ nacks_of self.new) }
        ensures wide { IfSome result IsWide }
    {
        if !self.more {
            return None;
        }
        let Some(entry) = entry(self.octets, self.at) else {
            return None;
        };
        *self = NackReader {
            octets: self.octets,
            at: entry.next,
            more: entry.more,
        };
        Some(entry.nack)
    }
}

// An entry, whether another follows, and the bit behind it.
#[derive(Clone, Copy)]
pub(crate) struct Found {
    nack: Nack,
    more: bool,
    next: usize,
}

// The number of `n` bits from a place on, where they are there.
fn take(octets: &[u8], at: usize, n: u32) -> Option<u32>
    requires few { n ≤ 32 }
    requires within { at ≤ 8 * length octets.now }
    requires short { length octets.now < OCTETS_LIMIT }
    ensures read { option_map (λ v. (v, drop (at + n) (bits_of octets.now))) result
        ≡ take_field n (drop at (bits_of octets.now)) }
    ensures below { IfSome result (λ v. v < 2 ^ n) }
    ensures behind { IfSome result (λ _. at + n ≤ 8 * length octets.now) }
{
    if 8 * octets.len() < at + n as usize {
        return None;
    }
    Some(field(octets, at, n))
}

// SOstart and SOend, where they are there, and the bit behind them.
#[tactic(auto, unfolding(crate::specs::Entries::part_at))]
fn part(has: bool, octets: &[u8], at: usize) -> Option<(Option<Part>, usize)>
    requires within { at ≤ 8 * length octets.now }
    requires short { length octets.now < OCTETS_LIMIT }
    ensures read { option_map (λ x. (x.0, drop x.1 (bits_of octets.now))) result
        ≡ part_at has (drop at (bits_of octets.now)) }
    ensures wide { IfSome result (λ x. IfSome x.0 (λ p. (p.start < 2 ^ 15) × (p.end < 2 ^ 15))) }
    ensures behind { IfSome result (λ x. (at ≤ x.1) × (x.1 ≤ 8 * length octets.now)) }
    ensures size { IfSome result (λ x. MatchOption x.0 (x.1 ≡ at) (λ _. x.1 ≡ at + 30)) }
{
    if !has {
        return Some((None, at));
    }
    let start = take(octets, at, 15)?;
    let middle = at + 15;
    let end = take(octets, middle, 15)?;
    Some((Some(Part { start, end }), middle + 15))
}

// The entry that begins with a bit.
#[tactic(auto, unfolding(crate::specs::Entries::nack_at))]
fn entry(octets: &[u8], at: usize) -> Option<Found>
    requires within { at ≤ 8 * length octets.now }
    requires short { length octets.now < OCTETS_LIMIT }
    ensures read { option_map (λ e. ((e.nack, e.more), drop e.next (bits_of octets.now))) result
        ≡ nack_at (drop at (bits_of octets.now)) }
    ensures wide { IfSome result (λ e. IsWide e.nack) }
    ensures behind { IfSome result (λ e. (at + 12 ≤ e.next) × (e.next ≤ 8 * length octets.now)) }
    ensures size { IfSome result (λ e. e.next ≡ at + nack_size e.nack) }
{
    let sn = take(octets, at, 10)?;
    let behind_sn = at + 10;
    let more = take(octets, behind_sn, 1)?;
    let behind_more = behind_sn + 1;
    let has = take(octets, behind_more, 1)?;
    let (part, next) = part(has == 1, octets, behind_more + 1)?;
    Some(Found {
        nack: Nack { sn, part },
        more: more == 1,
        next,
    })
}

// The ACK_SN that begins with a bit, and whether an entry follows it.
#[tactic(auto, unfolding(crate::specs::Entries::ack_at))]
pub(crate) fn ack(octets: &[u8], at: usize) -> Option<(u32, bool)>
    requires within { at ≤ 8 * length octets.now }
    requires short { length octets.now < OCTETS_LIMIT }
    ensures read { option_map (λ x. (x, drop (at + 10 + 1) (bits_of octets.now))) result
        ≡ ack_at (drop at (bits_of octets.now)) }
    ensures below { IfSome result (λ x. x.0 < 2 ^ 10) }
    ensures behind { IfSome result (λ _. at + 11 ≤ 8 * length octets.now) }
{
    let ack = take(octets, at, 10)?;
    let more = take(octets, at + 10, 1)?;
    Some((ack, more == 1))
}

// Whether an SOend lies below its SOstart.
fn is_backwards(part: Option<Part>) -> bool
    ensures { result ≡ is_backwards part }
{
    match part {
        None => false,
        Some(part) => part.end < part.start,
    }
}

// The first SOstart above its SOend, where the entry that begins with a bit is the next.
fn first_backwards(found: Option<usize>, at: usize, nack: Nack) -> Option<usize>
    requires { at + 12 < 2 ^ 32 }
    ensures first { result
        ≡ or_place found (if is_backwards nack.part then Some (at + 12) else None) }
    ensures within { IfSome result (λ z. MatchOption found (z ≡ at + 12) (λ f. z ≡ f)) }
{
    match found {
        Some(_) => found,
        None if is_backwards(nack.part) => Some(at + 12),
        None => None,
    }
}

// The first SOstart above its SOend, and the bit behind the entries; nothing where they are cut.
pub(crate) fn go_through(octets: &[u8], at: usize, more: bool) -> Option<(Option<usize>, usize)>
    requires within { at ≤ 8 * length octets.now }
    requires short { length octets.now < OCTETS_LIMIT }
    ensures read { result ≡ gone_through None at (entries 0 more (drop at (bits_of octets.now))) }
    ensures bounds { IfSome result (λ x. (IfSome x.0 (λ b. b ≤ 8 * length octets.now))
        × (x.1 ≤ 8 * length octets.now)) }
{
    let mut backwards = None;
    let mut next = at;
    let mut follows = more;
    while follows {
        let Some(found) = entry(octets, next) else {
            return None;
        };
        backwards = first_backwards(backwards, next, found.nack);
        next = found.next;
        follows = found.more;
    }
    Some((backwards, next))
}
