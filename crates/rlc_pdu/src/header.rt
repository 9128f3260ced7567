ghost use Rattle.std.specs.Prelude.{◌≡◌, ◌+◌, ◌<◌, ◌^◌, length, IfSome, MatchResult, Ok, Err};
ghost use Rattle.std.specs.Prelude.{option_map, false};
ghost use Rattle.rlc_pdu.specs.Pdus.{IsUmBits};
ghost use Rattle.rlc_pdu.specs.Units.{units as units_of};
ghost use Rattle.rlc_pdu.specs.Refusals.{umd_front, amd_front, short_front, long_front};
ghost use Rattle.rlc_pdu.specs.Reading.{elements_at};
ghost use Rattle.rlc_pdu.specs.Views.{elements_of, front_of, IsHeader};
ghost use Rattle.l2_bits.specs.declared.limits.TheConstants.{OCTETS_LIMIT};

use crate::elements::{Elements, first_past, scan};
use crate::fault::{RlcRefusal, RlcWhy};
use crate::pdu::Segment;

// The fixed part of a data PDU's header, and the octets behind it.
#[derive(Clone, Copy)]
pub(crate) struct Header<'a> {
    pub(crate) sn: u32,
    pub(crate) poll: bool,
    pub(crate) fi: u8,
    pub(crate) segment: Option<Segment>,
    pub(crate) more: bool,
    pub(crate) size: usize,
    pub(crate) units: &'a [u8],
}

#[tactic(auto, unfolding(crate::specs::Refusals::short_front))]
fn short_header(from: &[u8]) -> Option<Header<'_>>
    ensures read { option_map front_of result ≡ short_front from.now }
    ensures fields { IfSome result (λ h. IsHeader 5 (length from.now) h) }
{
    let [a, units @ ..] = from else {
        return None;
    };
    Some(Header {
        sn: u32::from(*a & 0x1f),
        poll: false,
        fi: *a >> 6,
        segment: None,
        more: (a >> 5) & 1 == 1,
        size: 1,
        units,
    })
}

#[tactic(auto, unfolding(crate::specs::Refusals::long_front))]
fn long_header(from: &[u8]) -> Option<Header<'_>>
    ensures read { option_map front_of result ≡ long_front from.now }
    ensures fields { IfSome result (λ h. IsHeader 10 (length from.now) h) }
{
    let [a, b, units @ ..] = from else {
        return None;
    };
    Some(Header {
        sn: u32::from(*a & 3) << 8 | u32::from(*b),
        poll: false,
        fi: (*a >> 3) & 3,
        segment: None,
        more: (a >> 2) & 1 == 1,
        size: 2,
        units,
    })
}

// That of a UMD PDU.
pub(crate) fn umd_header(bits: u32, from: &[u8]) -> Option<Header<'_>>
    requires { IsUmBits bits }
    ensures read { option_map front_of result ≡ umd_front bits from.now }
    ensures fields { IfSome result (λ h. IsHeader bits (length from.now) h) }
{
    if bits == 5 {
        short_header(from)
    } else {
        long_header(from)
    }
}

// That of an AMD PDU or of a segment.
#[tactic(auto, unfolding(crate::specs::Refusals::amd_front, crate::specs::Refusals::segment_front))]
pub(crate) fn amd_header(from: &[u8]) -> Option<Header<'_>>
    ensures read { option_map front_of result ≡ amd_front from.now }
    ensures fields { IfSome result (λ h. IsHeader 10 (length from.now) h) }
{
    let [a, b, rest @ ..] = from else {
        return None;
    };
    let whole = Header {
        sn: u32::from(*a & 3) << 8 | u32::from(*b),
        poll: (a >> 5) & 1 == 1,
        fi: (*a >> 3) & 3,
        segment: None,
        more: (a >> 2) & 1 == 1,
        size: 2,
        units: rest,
    };
    if (a >> 6) & 1 == 0 {
        return Some(whole);
    }
    let [c, d, units @ ..] = rest else {
        return None;
    };
    let segment = Segment {
        last: *c >> 7 == 1,
        so: u32::from(*c & 0x7f) << 8 | u32::from(*d),
    };
    Some(Header {
        segment: Some(segment),
        size: 4,
        units,
        ..whole
    })
}

// The elements behind the fixed part of the header, in a PDU of so many octets.
pub(crate) fn elements_behind<'a>(
    total: usize,
    header: &Header<'a>,
) -> Result<Elements<'a>, RlcRefusal>
    requires whole { header.now.size + length header.now.units.now ≡ total }
    requires short { total < OCTETS_LIMIT }
    ensures { MatchResult result
        (λ e. elements_at total header.now.size
        (units_of false header.now.more header.now.units.now) ≡ Ok (elements_of e))
        (λ e. elements_at total header.now.size
        (units_of false header.now.more header.now.units.now) ≡ Err e) }
{
    let Some((zero, field)) = scan(header.more, header.units) else {
        return Err(RlcRefusal::new(total, RlcWhy::Short));
    };
    if let Some(k) = zero {
        return Err(RlcRefusal::new(header.size + 3 * k / 2, RlcWhy::ZeroLi));
    }
    if field.is_empty() {
        return Err(RlcRefusal::new(total, RlcWhy::EmptyData));
    }
    if let Some(k) = first_past(header.more, header.units, field.len()) {
        return Err(RlcRefusal::new(header.size + 3 * k / 2, RlcWhy::LiPast));
    }
    Ok(Elements::of(header.more, header.units, field))
}
