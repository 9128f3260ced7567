ghost use Rattle.std.specs.Prelude.{◌≡◌, ◌≢◌, ◌⊎◌, ◌++◌, true, Some, length, drop, IfOk};
ghost use Rattle.pdcp_pdu.specs.Pdus.{user_of, srb_of};
ghost use Rattle.pdcp_pdu.specs.Grammar.{IsUserPdu, IsSrbPdu, user_spelling, srb_spelling};
ghost use Rattle.pdcp_pdu.specs.Refusals.{user_refusal, srb_refusal};
ghost use Rattle.l2_c.specs.Pdcp.{user_seen, srb_seen, why_seen, refusal_seen, numbers};
ghost use Rattle.l2_c.specs.Pdcp.{bitmap_fits, user_fits, user_read_answer, srb_read_answer};
ghost use Rattle.l2_c.specs.Pdcp.{user_write_answer, srb_write_answer};
ghost use Rattle.c_answers.specs.declared.TheConstants.{DONE, REFUSED, ROOM, NO_MEMORY};

use crate::mac::PlainRefusal;
use crate::room::put;
use c_answers::{DONE, NO_MEMORY, RANGE, REFUSED};
use l2_bits::{Bytes, NoMemory};
use pdcp_pdu::{
    PdcpRefusal, PdcpWhy, User, read_srb, read_user, write_long_report, write_report, write_srb,
    write_user,
};
use std::alloc::Global;

/// A data PDU.
pub const DATA: u32 = 0;

/// A status report.
pub const REPORT: u32 = 1;

/// A PDU of a signalling bearer.
pub const SIGNALLING: u32 = 2;

/// A PDCP PDU.
#[repr(C)]
#[derive(Clone, Copy)]
pub struct PlainPdcp<'a> {
    /// 0 a data PDU, 1 a status report, 2 a PDU of a signalling bearer.
    pub kind: u32,
    /// The sequence number, or the first missing one of a status report.
    pub sn: u32,
    /// The data part, or the bitmap of a status report. What is read lies in the PDU.
    pub octets: &'a [u8],
    /// The MAC-I of a PDU of a signalling bearer.
    pub tag: [u8; 4],
}

fn why_number(why: PdcpWhy) -> u32
    ensures { why_seen result ≡ why }
{
    match why {
        PdcpWhy::Short => 1,
        PdcpWhy::ReservedType => 2,
        PdcpWhy::EmptyData => 3,
    }
}

fn refusal_shown(refused: &PdcpRefusal) -> PlainRefusal
    ensures { refusal_seen result ≡ refused.now }
{
    PlainRefusal {
        at: refused.at,
        why: why_number(refused.why),
    }
}

fn user_shown<'a>(user: &User<'a>) -> PlainPdcp<'a>
    ensures { user_seen result ≡ user_of user.now }
{
    match user {
        User::Sdu { sn, octets } => PlainPdcp {
            kind: DATA,
            sn: *sn,
            octets,
            tag: [0; 4],
        },
        User::Report { fms, bitmap } => PlainPdcp {
            kind: REPORT,
            sn: *fms,
            octets: bitmap,
            tag: [0; 4],
        },
    }
}

/// Reads a PDU of a data bearer (TS 36.323 6.2.3, 6.2.4, 6.2.6), whose numbers have 7, 12 or 15
/// bits. The data part or the bitmap lies in the PDU. It takes no memory.
///
/// `REFUSED` sets `refusal`: `why` is 1 for a PDU that ends within its header, 2 for a control PDU
/// that is no status report, 3 for a data PDU without data.
#[unsafe(no_mangle)]
pub extern "C" fn zubhanit_pdcp_user_read<'a>(
    bits: u32,
    pdu: &'a [u8],
    fields: &mut PlainPdcp<'a>,
    refusal: &mut PlainRefusal,
) -> u32
    ensures answer { result ≡ user_read_answer bits pdu.now }
    ensures fields { result ≡ DONE → IsUserPdu bits (user_seen fields.new) pdu.now }
    ensures refused { result ≡ REFUSED
        → user_refusal bits pdu.now ≡ Some (refusal_seen refusal.new) }
{
    if numbers(bits) == 0 {
        return RANGE;
    }
    match read_user(bits, pdu) {
        Ok(user) => {
            *fields = user_shown(&user);
            DONE
        }
        Err(refused) => {
            *refusal = refusal_shown(&refused);
            REFUSED
        }
    }
}

/// Reads a PDU of a signalling bearer (TS 36.323 6.2.2). The data part lies in the PDU. It takes no
/// memory.
///
/// `REFUSED` sets `refusal`: `why` is 1 for a PDU of fewer than five octets, 3 for one without
/// data.
#[unsafe(no_mangle)]
pub extern "C" fn zubhanit_pdcp_srb_read<'a>(
    pdu: &'a [u8],
    fields: &mut PlainPdcp<'a>,
    refusal: &mut PlainRefusal,
) -> u32
    ensures answer { result ≡ srb_read_answer pdu.now }
    ensures fields { result ≡ DONE → IsSrbPdu (srb_seen fields.new) pdu.now }
    ensures refused { result ≡ REFUSED → srb_refusal pdu.now ≡ Some (refusal_seen refusal.new) }
{
    match read_srb(pdu) {
        Ok(srb) => {
            *fields = PlainPdcp {
                kind: SIGNALLING,
                sn: srb.sn,
                octets: srb.octets,
                tag: srb.tag,
            };
            DONE
        }
        Err(refused) => {
            *refusal = refusal_shown(&refused);
            REFUSED
        }
    }
}

// How many sequence numbers of so many bits there are; 0 for bits that no data bearer has.
fn numbers(bits: u32) -> u32
    ensures { result ≡ numbers bits }
{
    match bits {
        7 => 1 << 7,
        12 => 1 << 12,
        15 => 1 << 15,
        _ => 0,
    }
}

// Whether a bitmap is one that is written: empty, or its last octet isn't 0.
fn bitmap_fits(bitmap: &[u8]) -> bool
    ensures { result ≡ bitmap_fits bitmap.now }
{
    match bitmap.last() {
        None => true,
        Some(last) => *last != 0,
    }
}

fn user_fits(bits: u32, fields: &PlainPdcp<'_>) -> bool
    ensures { result ≡ user_fits bits fields.now }
{
    if fields.sn >= numbers(bits) {
        return false;
    }
    match fields.kind {
        DATA => !fields.octets.is_empty(),
        REPORT => bits != 7 && bitmap_fits(fields.octets),
        _ => false,
    }
}

// The octets of a PDU of a data bearer.
fn user_written(alloc: Global, bits: u32, fields: &PlainPdcp<'_>) -> Result<Bytes, NoMemory>
    requires { user_fits bits fields.now ≡ true }
    ensures { IfOk result (λ octets. octets ≡ user_spelling bits (user_seen fields.now)) }
{
    if fields.kind == DATA {
        write_user(alloc, bits, fields.sn, fields.octets)
    } else if bits == 12 {
        write_report(alloc, fields.sn, fields.octets)
    } else {
        write_long_report(alloc, fields.sn, fields.octets)
    }
}

/// Writes a PDU of a data bearer to the front of `pdu` (TS 36.323 6.2.3, 6.2.4, 6.2.6), whose
/// numbers have 7, 12 or 15 bits; `size` tells how many octets it has.
///
/// A data PDU has a data part of 1 octet or more. A status report has 12 or 15 bits, and the last
/// octet of its bitmap isn't 0. `ROOM` tells the size too.
#[unsafe(no_mangle)]
pub extern "C" fn zubhanit_pdcp_user_write(
    alloc: Global,
    bits: u32,
    fields: &PlainPdcp<'_>,
    pdu: &mut [u8],
    size: &mut usize,
) -> u32
    ensures answer { (result ≡ NO_MEMORY)
        ⊎ (result ≡ user_write_answer bits fields.now (length pdu.old)) }
    ensures written { result ≡ DONE → pdu.new
        ≡ user_spelling bits (user_seen fields.now) ++ drop size.new pdu.old }
    ensures size { (result ≡ DONE) ⊎ (result ≡ ROOM)
        → size.new ≡ length (user_spelling bits (user_seen fields.now)) }
    ensures kept { result ≢ DONE → pdu.new ≡ pdu.old }
{
    *size = 0;
    if !user_fits(bits, fields) {
        return RANGE;
    }
    let Ok(octets) = user_written(alloc, bits, fields) else {
        return NO_MEMORY;
    };
    put(octets.as_slice(), pdu, size)
}

/// Writes a PDU of a signalling bearer to the front of `pdu` (TS 36.323 6.2.2), with a number below
/// 32, a data part of 1 octet or more, and the MAC-I; `size` tells how many octets it has.
///
/// `ROOM` tells the size too.
#[unsafe(no_mangle)]
pub extern "C" fn zubhanit_pdcp_srb_write(
    alloc: Global,
    fields: &PlainPdcp<'_>,
    pdu: &mut [u8],
    size: &mut usize,
) -> u32
    ensures answer { (result ≡ NO_MEMORY)
        ⊎ (result ≡ srb_write_answer fields.now (length pdu.old)) }
    ensures written { result ≡ DONE → pdu.new
        ≡ srb_spelling (srb_seen fields.now) ++ drop size.new pdu.old }
    ensures size { (result ≡ DONE) ⊎ (result ≡ ROOM)
        → size.new ≡ length (srb_spelling (srb_seen fields.now)) }
    ensures kept { result ≢ DONE → pdu.new ≡ pdu.old }
{
    *size = 0;
    if fields.kind != SIGNALLING || fields.sn >= 32 || fields.octets.is_empty() {
        return RANGE;
    }
    let Ok(octets) = write_srb(alloc, fields.sn, fields.octets, &fields.tag) else {
        return NO_MEMORY;
    };
    put(octets.as_slice(), pdu, size)
}
