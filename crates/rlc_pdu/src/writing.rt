ghost use Rattle.std.specs.Prelude.{◌≡◌, ◌+◌, ◌<◌, ◌^◌, ◌++◌, length, drop, IfOk, OnOk};
ghost use Rattle.std.specs.List.{sum};
ghost use Rattle.rlc_pdu.specs.Pdus.{IsUmBits, AreLens, IsSegment, but_last};
ghost use Rattle.rlc_pdu.specs.Units.{follows, pair_octets, units_octets, AreLis};
ghost use Rattle.rlc_pdu.specs.Grammar.{has_units, body_octets};
ghost use Rattle.rlc_pdu.specs.Writing.{umd_written, amd_written};
ghost use Rattle.l2_bits.specs.declared.limits.TheConstants.{OCTETS_LIMIT};

use crate::pdu::Segment;
use l2_bits::{Bytes, NoMemory};
use std::alloc::Global;

// Adds two units, in three octets.
fn put_pair(out: &mut Bytes, first: u32, second: u32, more: u8) -> Result<(), NoMemory>
    requires first { first < 2 ^ 11 }
    requires second { second < 2 ^ 11 }
    requires more { more < 2 }
    ensures { OnOk result (out.new ≡ out.old ++ pair_octets first second more) }
{
    let middle = ((first & 15) << 4) + (u32::from(more) << 3) + (second >> 8);
    out.append(&[
        0x80 + (first >> 4) as u8,
        middle as u8,
        (second & 0xff) as u8,
    ])
}

// E in front of units of these LIs.
fn follows(lis: &[u32]) -> u8
    ensures bit { result ≡ follows lis.now }
    ensures below { result < 2 }
{
    match lis {
        [] => 0,
        _ => 1,
    }
}

// Adds units of these LIs.
#[tactic(auto, using(crate::proofs::UnitsWritten::written))]
fn put_units(out: &mut Bytes, lis: &[u32]) -> Result<(), NoMemory>
    requires { AreLis lis.now }
    ensures { OnOk result (out.new ≡ out.old ++ units_octets 0 lis.now) }
{
    let mut rest = lis;
    while rest.len() >= 2 {
        let behind = rest.split_at(2).1;
        put_pair(out, rest[0], rest[1], follows(behind))?;
        rest = behind;
    }
    if rest.is_empty() {
        return Ok(());
    }
    out.append(&[(rest[0] >> 4) as u8, ((rest[0] & 15) << 4) as u8])
}

// All but the last.
fn but_last(lens: &[u32]) -> &[u32]
    ensures { result.now ≡ but_last lens.now }
{
    match lens.split_last() {
        None => lens,
        Some((_, rest)) => rest,
    }
}

// A data PDU of the fixed part of its header and of what follows it.
fn behind(alloc: Global, fixed: &[u8], lens: &[u32], field: &[u8]) -> Result<Bytes, NoMemory>
    requires lens { AreLens lens.now }
    requires short { length fixed.now < OCTETS_LIMIT }
    ensures { IfOk result (λ pdu. pdu ≡ fixed.now ++ body_octets 0 lens.now field.now) }
{
    let lis = but_last(lens);
    let units = (3 * lis.len() + 1) / 2;
    let mut out = Bytes::with_capacity(alloc, fixed.len() + units + field.len())?;
    out.append(fixed)?;
    put_units(&mut out, lis)?;
    out.append(field)?;
    Ok(out)
}

/// Writes a UMD PDU with a number of 5 or 10 bits (TS 36.322 6.2.1.3), of one element or more,
/// whose lengths add up to the field's. None is 0, and each but the last is below 2^11.
pub fn write_umd(
    alloc: Global,
    bits: u32,
    sn: u32,
    fi: u8,
    lens: &[u32],
    field: &[u8],
) -> Result<Bytes, NoMemory>
    requires bits { IsUmBits bits }
    requires number { sn < 2 ^ bits }
    requires framing { fi < 4 }
    requires lens { AreLens lens.now }
    requires whole { sum lens.now ≡ length field.now }
    ensures { IfOk result (λ pdu. pdu ≡ umd_written bits sn fi lens.now field.now) }
{
    let more = follows(but_last(lens));
    if bits == 5 {
        return behind(alloc, &[(fi << 6) + (more << 5) + sn as u8], lens, field);
    }
    let first = (fi << 3) + (more << 2) + (sn >> 8) as u8;
    behind(alloc, &[first, (sn & 0xff) as u8], lens, field)
}

/// Writes an AMD PDU, or a segment of one (TS 36.322 6.2.1.4, 6.2.1.5). The number has 10 bits;
/// lengths and field are as in `write_umd`.
pub fn write_amd(
    alloc: Global,
    sn: u32,
    poll: bool,
    fi: u8,
    segment: Option<Segment>,
    lens: &[u32],
    field: &[u8],
) -> Result<Bytes, NoMemory>
    requires number { sn < 2 ^ 10 }
    requires framing { fi < 4 }
    requires segment { IsSegment segment }
    requires lens { AreLens lens.now }
    requires whole { sum lens.now ≡ length field.now }
    ensures { IfOk result (λ pdu. pdu ≡ amd_written sn poll fi segment lens.now field.now) }
{
    let more = follows(but_last(lens));
    let flags = 0x80 + ((segment.is_some() as u8) << 6) + ((poll as u8) << 5);
    let first = flags + (fi << 3) + (more << 2) + (sn >> 8) as u8;
    let second = (sn & 0xff) as u8;
    match segment {
        None => behind(alloc, &[first, second], lens, field),
        Some(Segment { last, so }) => {
            let third = ((last as u8) << 7) + (so >> 8) as u8;
            behind(
                alloc,
                &[first, second, third, (so & 0xff) as u8],
                lens,
                field,
            )
        }
    }
}
