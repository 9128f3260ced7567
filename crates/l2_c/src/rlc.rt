ghost use Rattle.std.specs.Prelude.{◌≡◌, ◌≤◌, ◌<◌, length, map, take, MatchOption};
ghost use Rattle.rlc_pdu.specs.Views.{elements_of, nacks_of};
ghost use Rattle.l2_c.specs.Rlc.{why_seen, refusal_seen, element_seen, nack_seen, segment_seen};
ghost use Rattle.l2_c.specs.Rlc.{IsFramed};

use crate::mac::PlainRefusal;
use rlc_pdu::{Elements, Nack, NackReader, Part, RlcRefusal, RlcWhy, Segment};

/// A UMD PDU.
pub const UMD: u32 = 0;

/// A whole AMD PDU.
pub const AMD: u32 = 1;

/// A segment of an AMD PDU.
pub const SEGMENT: u32 = 2;

/// A STATUS PDU.
pub const STATUS: u32 = 3;

/// The fixed part of an RLC PDU's header.
#[repr(C)]
#[derive(Clone, Copy, Debug, PartialEq, Eq)]
pub struct PlainRlc {
    /// 0 a UMD PDU, 1 an AMD PDU, 2 a segment of one, 3 a STATUS PDU.
    pub kind: u32,
    /// The number, or the ACK_SN of a STATUS PDU.
    pub sn: u32,
    /// The framing info, below 4: its upper bit is 0 exactly where the field begins an SDU, its
    /// lower bit exactly where it ends one.
    pub fi: u8,
    /// 1 where an AMD PDU asks for a STATUS, else 0.
    pub poll: u8,
    /// 1 where a segment ends the AMD PDU's data field, else 0.
    pub last: u8,
    /// The place of a segment's first octet in the AMD PDU's data field, below 2^15.
    pub so: u32,
}

/// An element of a data field.
#[repr(C)]
#[derive(Clone, Copy)]
pub struct PlainElement<'a> {
    /// Its octets. Those that are read lie in the PDU.
    pub octets: &'a [u8],
}

/// An entry of a STATUS PDU: an AMD PDU that is missing, or a part of one.
#[repr(C)]
#[derive(Clone, Copy, Debug, PartialEq, Eq)]
pub struct PlainNack {
    /// The number, of 10 bits.
    pub sn: u32,
    /// 1 where it is a part that is missing, else 0.
    pub has_part: u32,
    /// The places of the first and of the last missing octet in the data field, each below 2^15; an
    /// end of 32767 is the field's last octet.
    pub start: u32,
    pub end: u32,
}

fn why_number(why: RlcWhy) -> u32
    ensures { why_seen result ≡ why }
{
    match why {
        RlcWhy::Short => 1,
        RlcWhy::ZeroLi => 2,
        RlcWhy::LiPast => 3,
        RlcWhy::EmptyData => 4,
        RlcWhy::ReservedCpt => 5,
        RlcWhy::SoBackwards => 6,
        RlcWhy::Trailing => 7,
    }
}

/// A refusal as C sees it.
pub fn refusal_shown(refused: &RlcRefusal) -> PlainRefusal
    ensures { refusal_seen result ≡ refused.now }
{
    PlainRefusal {
        at: refused.at,
        why: why_number(refused.why),
    }
}

/// Fills the front of `elements` with those that are left, and tells how many; `None` exactly where
/// there are more than go in.
pub fn fill_elements<'a>(left: Elements<'a>, elements: &mut [PlainElement<'a>]) -> Option<usize>
    ensures filled { MatchOption result
        (length elements.old < length (elements_of left.entry))
        (λ n. (n ≤ length elements.new)
        × (map element_seen (take n elements.new) ≡ elements_of left.entry)) }
{
    let mut rest = left;
    let mut at = 0;
    while let Some(octets) = rest.next() {
        if at == elements.len() {
            return None;
        }
        elements[at] = PlainElement { octets };
        at += 1;
    }
    Some(at)
}

fn nack_shown(nack: &Nack) -> PlainNack
    ensures { nack_seen result ≡ nack.now }
{
    match nack.part {
        None => PlainNack {
            sn: nack.sn,
            has_part: 0,
            start: 0,
            end: 0,
        },
        Some(Part { start, end }) => PlainNack {
            sn: nack.sn,
            has_part: 1,
            start,
            end,
        },
    }
}

/// Fills the front of `nacks` with the entries that are left, as `fill_elements` does.
pub fn fill_nacks(left: NackReader<'_>, nacks: &mut [PlainNack]) -> Option<usize>
    ensures filled { MatchOption result
        (length nacks.old < length (nacks_of left.entry))
        (λ n. (n ≤ length nacks.new) × (map nack_seen (take n nacks.new) ≡ nacks_of left.entry)) }
{
    let mut rest = left;
    let mut at = 0;
    while let Some(nack) = rest.next() {
        if at == nacks.len() {
            return None;
        }
        nacks[at] = nack_shown(&nack);
        at += 1;
    }
    Some(at)
}

/// The header of an AMD PDU as C sees it, or of a segment.
pub fn amd_shown(sn: u32, poll: bool, fi: u8, segment: Option<Segment>) -> PlainRlc
    ensures { IsFramed sn poll fi segment result }
{
    let whole = PlainRlc {
        kind: AMD,
        sn,
        fi,
        poll: u8::from(poll),
        last: 0,
        so: 0,
    };
    match segment {
        None => whole,
        Some(Segment { last, so }) => PlainRlc {
            kind: SEGMENT,
            last: u8::from(last),
            so,
            ..whole
        },
    }
}

/// What the header of a segment says beyond that of an AMD PDU.
pub fn segment_of(header: &PlainRlc) -> Option<Segment>
    ensures { result ≡ segment_seen header.now }
{
    if header.kind == SEGMENT {
        Some(Segment {
            last: header.last == 1,
            so: header.so,
        })
    } else {
        None
    }
}
