//! What a PDU brings of its number's data field.
ghost use Rattle.std.specs.Prelude.{◌≡◌, ℕ, [], ◌∷◌, ◌+◌, ◌<◌, ◌≤◌, ◌^◌, ◌||◌, not, List, length};
ghost use Rattle.std.specs.Prelude.{MatchOption, IfSome, IfNone, Some, None};
ghost use Rattle.rlc_pdu.specs.Views.{elements_of, amd_of};
ghost use Rattle.rlc_am_rx_window.specs.Piece.{begins_in, ends_in, so_of, is_last, piece_of};
ghost use Rattle.rlc_am_rx_window.specs.Piece.{end_of, octets_in, is_end};

use rlc_pdu::{Amd, Elements, Segment};
use std::marker::Model;

/// No field has more octets.
pub(crate) const LONGEST: usize = 32767;

/// Whether the data begins an SDU, by its FI.
pub(crate) fn begins_in(fi: u8) -> bool
    ensures { result ≡ begins_in fi }
{
    fi / 2 % 2 == 0
}

/// Whether the data ends an SDU, by its FI.
pub(crate) fn ends_in(fi: u8) -> bool
    ensures { result ≡ ends_in fi }
{
    fi % 2 == 0
}

/// Whether an SDU ends with an element: with each but the last, and with the last where FI says so.
pub(crate) fn ends_with(last: bool, ends: bool) -> bool
    ensures { result ≡ (not last || ends) }
{
    !last || ends
}

/// The place of the first octet.
pub(crate) fn so_of(segment: Option<Segment>) -> usize
    ensures value { result ≡ so_of segment }
    ensures fits { result < 2 ^ 32 }
{
    match segment {
        None => 0,
        Some(segment) => segment.so as usize,
    }
}

/// Whether the field ends with the last octet.
pub(crate) fn is_last(segment: Option<Segment>) -> bool
    ensures { result ≡ is_last segment }
{
    match segment {
        None => true,
        Some(segment) => segment.last,
    }
}

/// The place behind the last octet; `None` where an octet lies past the last place that a field may
/// have.
#[tactic(auto, using(crate::proofs::PieceLemmas::length_data))]
pub(crate) fn end_of(pdu: &Amd<'_>) -> Option<usize>
    ensures some { IfSome result (λ end. end ≡ end_of (piece_of (amd_of pdu.now))) }
    ensures within { IfSome result (λ end. end ≤ 32767) }
    ensures none { IfNone result (32767 < end_of (piece_of (amd_of pdu.now))) }
{
    let mut end = so_of(pdu.segment);
    let mut elements = pdu.elements;
    while let Some(element) = elements.next() {
        if end > LONGEST {
            return None;
        }
        end += element.len();
    }
    if end > LONGEST { None } else { Some(end) }
}

/// The elements of a PDU one after the other, each with whether it is the last.
#[derive(Drop)]
pub(crate) struct Walk<'a> {
    next: Option<&'a [u8]>,
    rest: Elements<'a>,
}

impl<'a> Model for Walk<'a> {
    ghost use Rattle.std.specs.Prelude.{ℕ, List, option_map};
    ghost use Rattle.rlc_pdu.specs.Views.{elements_of};
    ghost use Rattle.rlc_am_rx_window.specs.Piece.{and_rest};

    ghost Value = { List (List ℕ) };

    ghost view = { λ w. and_rest (option_map (λ x. x.now) w.next) (elements_of w.rest) };
}

impl<'a> Walk<'a> {
    pub(crate) fn new(elements: &Elements<'a>) -> Walk<'a>
        ensures { result ≡ elements_of elements.now }
    {
        let mut rest = *elements;
        Walk {
            next: rest.next(),
            rest,
        }
    }

    pub(crate) fn next(&mut self) -> Option<(&'a [u8], bool)>
        ensures { MatchOption result ((self.old ≡ []) × (self.new ≡ []))
            (λ one. (self.old ≡ one.0.now ∷ self.new) × (one.1 ≡ is_end self.new)) }
    {
        let one = self.next?;
        self.next = self.rest.next();
        Some((one, self.next.is_none()))
    }
}
