ghost use Rattle.std.specs.Prelude.{◌≡◌, ◌<◌, ◌≤◌, ◌^◌, length, slice_index, None, Some, Ok, Err};
ghost use Rattle.std.specs.Prelude.{IfOk, IsOkAnd, MatchResult};
ghost use Rattle.rlc_pdu.specs.Pdus.{UmdPdu, AcknowledgedPdu, IsUmBits, IsSegment};
ghost use Rattle.rlc_pdu.specs.Grammar.{IsUmdPdu, IsAmPdu};
ghost use Rattle.rlc_pdu.specs.Refusals.{umd_refusal, am_refusal};
ghost use Rattle.rlc_pdu.specs.Reading.{umd_at, amd_at, control_at, am_at};
ghost use Rattle.rlc_pdu.specs.Views.{umd_of, amd_of, status_of, am_of, HasRanges};
ghost use Rattle.l2_bits.specs.declared.limits.TheConstants.{OCTETS_LIMIT};

use crate::entries::{NackReader, ack, go_through};
use crate::fault::{RlcRefusal, RlcWhy};
use crate::header::{amd_header, elements_behind, umd_header};
use crate::pdu::{AmPdu, Amd, StatusRead, Umd};

fn umd_of_octets(bits: u32, from: &[u8]) -> Result<Umd<'_>, RlcRefusal>
    requires bits { IsUmBits bits }
    requires short { length from.now < OCTETS_LIMIT }
    ensures exact { MatchResult result (λ umd. umd_at bits from.now ≡ Ok (umd_of umd))
        (λ e. umd_at bits from.now ≡ Err e) }
    ensures number { IfOk result (λ umd. umd.sn < 2 ^ bits) }
    ensures framing { IfOk result (λ umd. umd.fi < 4) }
{
    let Some(header) = umd_header(bits, from) else {
        return Err(RlcRefusal::new(from.len(), RlcWhy::Short));
    };
    let elements = elements_behind(from.len(), &header)?;
    Ok(Umd {
        sn: header.sn,
        fi: header.fi,
        elements,
    })
}

// An AMD PDU or a segment, D/C being 1.
fn amd_of_octets(from: &[u8]) -> Result<Amd<'_>, RlcRefusal>
    requires { length from.now < OCTETS_LIMIT }
    ensures exact { MatchResult result (λ amd. amd_at from.now ≡ Ok (amd_of amd))
        (λ e. amd_at from.now ≡ Err e) }
    ensures number { IfOk result (λ amd. amd.sn < 2 ^ 10) }
    ensures framing { IfOk result (λ amd. amd.fi < 4) }
    ensures segment { IfOk result (λ amd. IsSegment amd.segment) }
{
    let Some(header) = amd_header(from) else {
        return Err(RlcRefusal::new(from.len(), RlcWhy::Short));
    };
    let elements = elements_behind(from.len(), &header)?;
    Ok(Amd {
        sn: header.sn,
        poll: header.poll,
        fi: header.fi,
        segment: header.segment,
        elements,
    })
}

/// Reads a UMD PDU of fewer than 2^28 octets, whose number has 5 or 10 bits (TS 36.322 6.2.1.3).
/// Reserved bits and padding are passed over. It takes no memory.
#[inline(always)]
pub fn read_umd(bits: u32, from: &[u8]) -> Result<Umd<'_>, RlcRefusal>
    requires bits { IsUmBits bits }
    requires short { length from.now < OCTETS_LIMIT }
    ensures found { IfOk result (λ umd. IsUmdPdu bits (umd_of umd) from.now) }
    ensures only { (pdu : UmdPdu) → IsUmdPdu bits pdu from.now
        → IsOkAnd result (λ umd. umd_of umd ≡ pdu) }
    ensures refused { MatchResult result (λ _. umd_refusal bits from.now ≡ None)
        (λ e. umd_refusal bits from.now ≡ Some e) }
    ensures exact { MatchResult result (λ umd. umd_at bits from.now ≡ Ok (umd_of umd))
        (λ e. umd_at bits from.now ≡ Err e) }
    ensures number { IfOk result (λ umd. umd.sn < 2 ^ bits) }
    ensures framing { IfOk result (λ umd. umd.fi < 4) }
{
    umd_of_octets(bits, from)
}

// A control PDU of one octet or more, D/C being 0.
fn status_of_octets(from: &[u8]) -> Result<StatusRead<'_>, RlcRefusal>
    requires some { 1 ≤ length from.now }
    requires short { length from.now < OCTETS_LIMIT }
    ensures exact { MatchResult result (λ status. control_at (slice_index from.now 0) from.now
        ≡ Ok (status_of status)) (λ e. control_at (slice_index from.now 0) from.now ≡ Err e) }
    ensures number { IfOk result (λ status. status.ack < 2 ^ 10) }
{
    if from[0] >> 4 != 0 {
        return Err(RlcRefusal::new(0, RlcWhy::ReservedCpt));
    }
    let Some((ack, more)) = ack(from, 4) else {
        return Err(RlcRefusal::new(from.len(), RlcWhy::Short));
    };
    let Some((backwards, end)) = go_through(from, 15, more) else {
        return Err(RlcRefusal::new(from.len(), RlcWhy::Short));
    };
    if let Some(at) = backwards {
        return Err(RlcRefusal::new(at / 8, RlcWhy::SoBackwards));
    }
    let size = (end + 7) / 8;
    if size < from.len() {
        return Err(RlcRefusal::new(size, RlcWhy::Trailing));
    }
    let nacks = NackReader::from(from, 15, more);
    Ok(StatusRead { ack, nacks })
}

fn am_of_octets(from: &[u8]) -> Result<AmPdu<'_>, RlcRefusal>
    requires { length from.now < OCTETS_LIMIT }
    ensures exact { MatchResult result (λ pdu. am_at from.now ≡ Ok (am_of pdu))
        (λ e. am_at from.now ≡ Err e) }
    ensures ranges { IfOk result HasRanges }
{
    if from.is_empty() {
        return Err(RlcRefusal::new(0, RlcWhy::Short));
    }
    if from[0] < 128 {
        let status = status_of_octets(from)?;
        return Ok(AmPdu::Status(status));
    }
    let amd = amd_of_octets(from)?;
    Ok(AmPdu::Payload(amd))
}

/// Reads a PDU of an acknowledged bearer, of fewer than 2^28 octets: an AMD PDU, a segment of one,
/// or a STATUS PDU (TS 36.322 6.2.1.4 to 6.2.1.6). Padding is passed over. It takes no memory.
#[inline(always)]
pub fn read_am(from: &[u8]) -> Result<AmPdu<'_>, RlcRefusal>
    requires { length from.now < OCTETS_LIMIT }
    ensures found { IfOk result (λ pdu. IsAmPdu (am_of pdu) from.now) }
    ensures only { (pdu : AcknowledgedPdu) → IsAmPdu pdu from.now
        → IsOkAnd result (λ read. am_of read ≡ pdu) }
    ensures refused { MatchResult result (λ _. am_refusal from.now ≡ None)
        (λ e. am_refusal from.now ≡ Some e) }
    ensures exact { MatchResult result (λ pdu. am_at from.now ≡ Ok (am_of pdu))
        (λ e. am_at from.now ≡ Err e) }
    ensures ranges { IfOk result HasRanges }
{
    am_of_octets(from)
}
