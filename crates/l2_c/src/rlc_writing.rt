ghost use Rattle.std.specs.Prelude.{◌≡◌, ◌≢◌, ◌⊎◌, ◌<◌, ◌++◌, length, map, take, drop};
ghost use Rattle.std.specs.Prelude.{IfOk, true};
ghost use Rattle.std.specs.List.{concat};
ghost use Rattle.l2_bits.specs.Bits.{bits_of};
ghost use Rattle.rlc_pdu.specs.Status.{status_size};
ghost use Rattle.rlc_pdu.specs.Writing.{umd_canonical, amd_canonical, status_written};
ghost use Rattle.l2_c.specs.Rlc.{element_seen, nack_seen, umd_seen, amd_seen, elements_fit};
ghost use Rattle.l2_c.specs.Rlc.{AreShort, nack_fits, nacks_fit, umd_fits, amd_fits, header_fits};
ghost use Rattle.l2_c.specs.Rlc.{umd_write_answer, amd_write_answer, status_write_answer};
ghost use Rattle.c_answers.specs.declared.TheConstants.{DONE, ROOM, NO_MEMORY};

use crate::rlc::{AMD, PlainElement, PlainNack, PlainRlc, SEGMENT, UMD, segment_of};
use crate::room::put;
use c_answers::{DONE, NO_MEMORY, RANGE};
use l2_bits::{Bytes, NoMemory, OCTETS_LIMIT};
use rlc_pdu::{Nack, Nacks, Part, write_amd, write_status, write_umd};
use std::alloc::Global;

/// An element that another follows has fewer octets than this.
const LI_LIMIT: usize = 1 << 11;

// Whether there is an element, none is empty, and each but the last has a length indicator.
fn elements_fit(elements: &[PlainElement<'_>]) -> bool
    ensures { result ≡ elements_fit (map element_seen elements.now) }
{
    let mut rest = elements;
    while let [first, others @ ..] = rest {
        let limit = if others.is_empty() {
            OCTETS_LIMIT
        } else {
            LI_LIMIT
        };
        if first.octets.is_empty() || first.octets.len() >= limit {
            return false;
        }
        if others.is_empty() {
            return true;
        }
        rest = others;
    }
    false
}

// The lengths of elements.
fn lens_of(alloc: Global, elements: &[PlainElement<'_>]) -> Result<Vec<u32>, NoMemory>
    requires short { AreShort (map element_seen elements.now) }
    ensures { IfOk result (λ lens. lens.items ≡ map length (map element_seen elements.now)) }
{
    let mut lens = Vec::new(alloc);
    let mut rest = elements;
    while let [first, others @ ..] = rest {
        lens.push(first.octets.len() as u32)?;
        rest = others;
    }
    Ok(lens)
}

// The octets of elements, one behind the other.
fn field_of(alloc: Global, elements: &[PlainElement<'_>]) -> Result<Bytes, NoMemory>
    ensures { IfOk result (λ field. field ≡ concat (map element_seen elements.now)) }
{
    let mut field = Bytes::new(alloc);
    let mut rest = elements;
    while let [first, others @ ..] = rest {
        field.append(first.octets)?;
        rest = others;
    }
    Ok(field)
}

fn header_fits(header: &PlainRlc, numbers: u32) -> bool
    ensures { result ≡ header_fits header.now numbers }
{
    header.sn < numbers && header.fi < 4
}

fn umd_fits(bits: u32, header: &PlainRlc) -> bool
    ensures { result ≡ umd_fits bits header.now }
{
    match bits {
        5 => header.kind == UMD && header_fits(header, 1 << 5),
        10 => header.kind == UMD && header_fits(header, 1 << 10),
        _ => false,
    }
}

fn amd_fits(header: &PlainRlc) -> bool
    ensures { result ≡ amd_fits header.now }
{
    if !header_fits(header, 1 << 10) || header.poll > 1 {
        return false;
    }
    match header.kind {
        AMD => true,
        SEGMENT => header.last < 2 && header.so < 1 << 15,
        _ => false,
    }
}

#[tactic(auto, using(crate::proofs::Elements::fitting))]
fn umd_written(
    alloc: Global,
    bits: u32,
    header: &PlainRlc,
    elements: &[PlainElement<'_>],
) -> Result<Bytes, NoMemory>
    requires header { umd_fits bits header.now ≡ true }
    requires elements { elements_fit (map element_seen elements.now) ≡ true }
    ensures { IfOk result
        (λ octets. octets ≡ umd_canonical bits (umd_seen header.now elements.now)) }
{
    let lens = lens_of(alloc, elements)?;
    let field = field_of(alloc, elements)?;
    write_umd(alloc, bits, header.sn, header.fi, &lens, field.as_slice())
}

#[tactic(auto, using(crate::proofs::Elements::fitting))]
fn amd_written(
    alloc: Global,
    header: &PlainRlc,
    elements: &[PlainElement<'_>],
) -> Result<Bytes, NoMemory>
    requires header { amd_fits header.now ≡ true }
    requires elements { elements_fit (map element_seen elements.now) ≡ true }
    ensures { IfOk result (λ octets. octets ≡ amd_canonical (amd_seen header.now elements.now)) }
{
    let lens = lens_of(alloc, elements)?;
    let field = field_of(alloc, elements)?;
    write_amd(
        alloc,
        header.sn,
        header.poll == 1,
        header.fi,
        segment_of(header),
        &lens,
        field.as_slice(),
    )
}

/// Writes a UMD PDU to the front of `pdu` (TS 36.322 6.2.1.3), whose number has 5 or 10 bits;
/// `size` tells how many octets it has.
///
/// There is an element, none is empty, each but the last has fewer than 2^11 octets and the last
/// fewer than 2^28. `ROOM` tells the size too.
#[unsafe(no_mangle)]
pub extern "C" fn zubhanit_umd_write(
    alloc: Global,
    bits: u32,
    header: &PlainRlc,
    elements: &[PlainElement<'_>],
    pdu: &mut [u8],
    size: &mut usize,
) -> u32
    ensures answer { (result ≡ NO_MEMORY)
        ⊎ (result ≡ umd_write_answer bits header.now elements.now (length pdu.old)) }
    ensures written { result ≡ DONE → pdu.new
        ≡ umd_canonical bits (umd_seen header.now elements.now) ++ drop size.new pdu.old }
    ensures size { (result ≡ DONE) ⊎ (result ≡ ROOM)
        → size.new ≡ length (umd_canonical bits (umd_seen header.now elements.now)) }
    ensures kept { result ≢ DONE → pdu.new ≡ pdu.old }
{
    *size = 0;
    if !umd_fits(bits, header) || !elements_fit(elements) {
        return RANGE;
    }
    let Ok(octets) = umd_written(alloc, bits, header, elements) else {
        return NO_MEMORY;
    };
    put(octets.as_slice(), pdu, size)
}

/// Writes an AMD PDU, or a segment of one, to the front of `pdu` (TS 36.322 6.2.1.4, 6.2.1.5);
/// `size` tells how many octets it has. Elements are as in [`zubhanit_umd_write`].
#[unsafe(no_mangle)]
pub extern "C" fn zubhanit_amd_write(
    alloc: Global,
    header: &PlainRlc,
    elements: &[PlainElement<'_>],
    pdu: &mut [u8],
    size: &mut usize,
) -> u32
    ensures answer { (result ≡ NO_MEMORY)
        ⊎ (result ≡ amd_write_answer header.now elements.now (length pdu.old)) }
    ensures written { result ≡ DONE → pdu.new
        ≡ amd_canonical (amd_seen header.now elements.now) ++ drop size.new pdu.old }
    ensures size { (result ≡ DONE) ⊎ (result ≡ ROOM)
        → size.new ≡ length (amd_canonical (amd_seen header.now elements.now)) }
    ensures kept { result ≢ DONE → pdu.new ≡ pdu.old }
{
    *size = 0;
    if !amd_fits(header) || !elements_fit(elements) {
        return RANGE;
    }
    let Ok(octets) = amd_written(alloc, header, elements) else {
        return NO_MEMORY;
    };
    put(octets.as_slice(), pdu, size)
}

fn nack_fits(nack: &PlainNack) -> bool
    ensures { result ≡ nack_fits nack.now }
{
    if nack.sn >= 1 << 10 {
        return false;
    }
    match nack.has_part {
        0 => true,
        1 => nack.start <= nack.end && nack.end < 1 << 15,
        _ => false,
    }
}

fn nacks_fit(nacks: &[PlainNack]) -> bool
    ensures { result ≡ nacks_fit nacks.now }
{
    nacks.iter().all(|nack| nack_fits(nack))
}

fn nack_of(nack: &PlainNack) -> Nack
    ensures { result ≡ nack_seen nack.now }
{
    let part = if nack.has_part == 1 {
        Some(Part {
            start: nack.start,
            end: nack.end,
        })
    } else {
        None
    };
    Nack { sn: nack.sn, part }
}

fn entries_of(alloc: Global, nacks: &[PlainNack]) -> Result<Nacks, NoMemory>
    ensures { IfOk result (λ entries. entries ≡ map nack_seen nacks.now) }
{
    let mut entries = Nacks::new(alloc);
    let mut rest = nacks;
    while let [first, others @ ..] = rest {
        entries.push(nack_of(first))?;
        rest = others;
    }
    Ok(entries)
}

#[tactic(auto, using(crate::proofs::Elements::fitting))]
fn status_octets(alloc: Global, ack: u32, nacks: &[PlainNack]) -> Result<Bytes, NoMemory>
    requires number { ack < 1024 }
    requires entries { nacks_fit nacks.now ≡ true }
    ensures bits { IfOk result
        (λ octets. bits_of octets ≡ status_written ack (map nack_seen nacks.now)) }
    ensures size { IfOk result (λ octets. length octets ≡ status_size (map nack_seen nacks.now)) }
{
    let entries = entries_of(alloc, nacks)?;
    write_status(alloc, ack, &entries)
}

/// Writes a STATUS PDU to the front of `pdu` (TS 36.322 6.2.1.6), with an ACK_SN below 1024 and
/// these entries in their order, each with a number below 1024, and a start not above its end,
/// which is below 2^15; `size` tells how many octets it has. `ROOM` tells the size too.
#[unsafe(no_mangle)]
pub extern "C" fn zubhanit_status_write(
    alloc: Global,
    ack: u32,
    nacks: &[PlainNack],
    pdu: &mut [u8],
    size: &mut usize,
) -> u32
    ensures answer { (result ≡ NO_MEMORY)
        ⊎ (result ≡ status_write_answer ack nacks.now (length pdu.old)) }
    ensures written { result ≡ DONE → bits_of (take size.new pdu.new)
        ≡ status_written ack (map nack_seen nacks.now) }
    ensures behind { result ≡ DONE → drop size.new pdu.new ≡ drop size.new pdu.old }
    ensures size { (result ≡ DONE) ⊎ (result ≡ ROOM)
        → size.new ≡ status_size (map nack_seen nacks.now) }
    ensures kept { result ≢ DONE → pdu.new ≡ pdu.old }
{
    *size = 0;
    if ack >= 1 << 10 || !nacks_fit(nacks) {
        return RANGE;
    }
    let Ok(octets) = status_octets(alloc, ack, nacks) else {
        return NO_MEMORY;
    };
    put(octets.as_slice(), pdu, size)
}
