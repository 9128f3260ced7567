// PDUs of RLC: each is the canonical writing of what is read of it (TS 36.322 6.2.1).
ghost use Rattle.std.specs.Prelude.{◌≡◌, ◌<◌, ◌≤◌, ◌^◌, ◌+◌, ◌-◌, ◌*◌, ◌/◌, ◌&&◌, ◌||◌, length};
ghost use Rattle.std.specs.Prelude.{nat_lt, is_none, IfOk};
ghost use Rattle.l2_bits.specs.declared.limits.TheConstants.{OCTETS_LIMIT};
ghost use Rattle.rlc_pdu.specs.Pdus.{IsUmBits};
ghost use Rattle.rlc_pdu.specs.Grammar.{IsUmdPdu, IsAmdPdu, has_segment};
ghost use Rattle.rlc_pdu.specs.Status.{IsStatusPdu, nacks_size};
ghost use Rattle.rlc_pdu.specs.Views.{elements_of, nacks_of, umd_of, amd_of, status_of};
ghost use Rattle.pdu_show.specs.Kinds.{IsPdcp};
ghost use Rattle.promises.specs.Names.{whole_sdus};
ghost use Rattle.journal_form.specs.Tests.{is_pdcp, are_pdcp, is_umd, is_amd, is_status};
ghost use Rattle.journal_form.specs.Tests.{is_amd_written, is_status_written};
ghost use Rattle.journal_form.specs.Tests.{is_filled, umd_size, is_clear, is_umd_written};

use crate::pdcp::is_pdcp;
use l2_bits::{NoMemory, field};
use pdcp_pdu::PdcpKind;
use rlc_pdu::{AmPdu, Amd, Elements, NackReader, Segment, StatusRead, Umd, read_am, read_umd};
use std::alloc::Global;

// How many elements a data field has.
fn count_of(elements: Elements<'_>) -> usize
    requires { length (elements_of elements) < OCTETS_LIMIT }
    ensures { result ≡ length (elements_of elements.entry) }
{
    let mut elements = elements;
    let mut count = 0;
    while let Some(_element) = elements.next() {
        count += 1;
    }
    count
}

// Whether what fills the octet behind an odd number of units is 0, behind a header of so many
// octets, where each of so many elements but the last has a unit.
fn is_filled(octets: &[u8], header: usize, count: usize) -> bool
    requires some { 1 ≤ count }
    requires short { count < OCTETS_LIMIT }
    requires within { header + (3 * (count - 1) + 1) / 2 ≤ length octets.now }
    ensures { result ≡ is_filled octets.now header count }
{
    let units = count - 1;
    units % 2 == 0 || octets[header + units / 2 * 3 + 1] % 16 == 0
}

// Whether an element may stand where so many are no whole SDUs before it.
fn may_stand(alloc: Global, kind: PdcpKind, before: usize, element: &[u8]) -> Result<bool, NoMemory>
    requires { IsPdcp kind }
    ensures { IfOk result (λ yes. yes ≡ (nat_lt 0 before || is_pdcp kind element.now)) }
{
    if before > 0 {
        return Ok(true);
    }
    is_pdcp(alloc, kind, element)
}

// Whether the whole SDUs among so many elements, by FI, are PDUs of PDCP.
fn are_pdcp(
    alloc: Global,
    kind: PdcpKind,
    fi: u8,
    count: usize,
    elements: Elements<'_>,
) -> Result<bool, NoMemory>
    requires kind { IsPdcp kind }
    requires count { count ≡ length (elements_of elements) }
    ensures { IfOk result
        (λ yes. yes ≡ are_pdcp kind (whole_sdus fi (elements_of elements.entry))) }
{
    let mut elements = elements;
    let mut before = fi as usize / 2;
    let mut end = count.saturating_sub(fi as usize % 2);
    while let Some(element) = elements.next() {
        if end == 0 {
            return Ok(true);
        }
        if !may_stand(alloc, kind, before, element)? {
            return Ok(false);
        }
        before = before.saturating_sub(1);
        end -= 1;
    }
    Ok(true)
}

// The octets of a UMD PDU's header (TS 36.322 6.2.1.3).
fn umd_size(bits: u32) -> usize
    ensures { result ≡ umd_size bits }
{
    if bits == 5 { 1 } else { 2 }
}

// Whether the reserved bits of a UMD PDU's header are 0.
fn is_clear(bits: u32, octets: &[u8]) -> bool
    requires { 1 ≤ length octets.now }
    ensures { result ≡ is_clear bits octets.now }
{
    bits == 5 || octets[0] / 32 == 0
}

// Whether the reserved bits of a UMD PDU of so many elements, and what fills its units, are 0.
fn is_umd_filled(bits: u32, octets: &[u8], count: usize) -> bool
    requires some { 1 ≤ count }
    requires short { count < OCTETS_LIMIT }
    requires within { umd_size bits + (3 * (count - 1) + 1) / 2 ≤ length octets.now }
    ensures { result ≡ (is_clear bits octets.now && is_filled octets.now (umd_size bits) count) }
{
    is_clear(bits, octets) && is_filled(octets, umd_size(bits), count)
}

// Whether a UMD PDU is written so, and its whole SDUs are PDUs of PDCP.
fn is_umd_written(
    alloc: Global,
    kind: PdcpKind,
    bits: u32,
    umd: Umd<'_>,
    octets: &[u8],
) -> Result<bool, NoMemory>
    requires kind { IsPdcp kind }
    requires bits { IsUmBits bits }
    requires short { length octets.now < OCTETS_LIMIT }
    requires read { IsUmdPdu bits (umd_of umd) octets.now }
    ensures { IfOk result
        (λ yes. yes ≡ is_umd_written kind bits octets.now (umd_of umd.entry)) }
{
    let count = count_of(umd.elements);
    if !is_umd_filled(bits, octets, count) {
        return Ok(false);
    }
    are_pdcp(alloc, kind, umd.fi, count, umd.elements)
}

// Whether octets are the UMD PDU of a number.
pub(crate) fn is_umd(
    alloc: Global,
    kind: PdcpKind,
    bits: u32,
    sn: u32,
    octets: &[u8],
) -> Result<bool, NoMemory>
    requires kind { IsPdcp kind }
    requires bits { IsUmBits bits }
    requires short { length octets.now < OCTETS_LIMIT }
    ensures { IfOk result (λ yes. yes ≡ is_umd kind bits sn octets.now) }
{
    let Ok(umd) = read_umd(bits, octets) else {
        return Ok(false);
    };
    if umd.sn != sn || umd.fi >= 4 {
        return Ok(false);
    }
    is_umd_written(alloc, kind, bits, umd, octets)
}

// A segment is sent only where it is sent again.
fn may_be(again: bool, segment: Option<Segment>) -> bool
    ensures { result ≡ (again || is_none segment) }
{
    again || segment.is_none()
}

// The octets of an AMD PDU's header, or of that of a segment (TS 36.322 6.2.1.4, 6.2.1.5).
fn amd_size(segment: Option<Segment>) -> usize
    ensures { result ≡ 2 + 2 * has_segment segment }
{
    match segment {
        None => 2,
        Some(_) => 4,
    }
}

// Whether an AMD PDU is written so, and its whole SDUs are PDUs of PDCP.
fn is_amd_written(
    alloc: Global,
    kind: PdcpKind,
    amd: Amd<'_>,
    octets: &[u8],
) -> Result<bool, NoMemory>
    requires kind { IsPdcp kind }
    requires short { length octets.now < OCTETS_LIMIT }
    requires read { IsAmdPdu (amd_of amd) octets.now }
    ensures { IfOk result
        (λ yes. yes ≡ is_amd_written kind octets.now (amd_of amd.entry)) }
{
    let count = count_of(amd.elements);
    if !is_filled(octets, amd_size(amd.segment), count) {
        return Ok(false);
    }
    are_pdcp(alloc, kind, amd.fi, count, amd.elements)
}

// Whether octets are an AMD PDU of a number; where `again` it may be a segment of it.
pub(crate) fn is_amd(
    alloc: Global,
    kind: PdcpKind,
    again: bool,
    sn: u32,
    octets: &[u8],
) -> Result<bool, NoMemory>
    requires kind { IsPdcp kind }
    requires short { length octets.now < OCTETS_LIMIT }
    ensures { IfOk result (λ yes. yes ≡ is_amd kind again sn octets.now) }
{
    let Ok(AmPdu::Payload(amd)) = read_am(octets) else {
        return Ok(false);
    };
    if amd.sn != sn || !may_be(again, amd.segment) || amd.fi >= 4 {
        return Ok(false);
    }
    is_amd_written(alloc, kind, amd, octets)
}

// The bits of a STATUS up to those that fill its last octet (TS 36.322 6.2.1.6).
fn used_bits(entries: NackReader<'_>) -> usize
    requires { nacks_size (nacks_of entries) < 2 ^ 32 }
    ensures { result ≡ 15 + nacks_size (nacks_of entries.entry) }
{
    let mut entries = entries;
    let mut bits = 15;
    while let Some(nack) = entries.next() {
        bits += 12;
        if nack.part.is_some() {
            bits += 30;
        }
    }
    bits
}

// Whether what fills the last octet of a STATUS is 0.
fn is_status_written(status: StatusRead<'_>, octets: &[u8]) -> bool
    requires short { length octets.now < OCTETS_LIMIT }
    requires read { IsStatusPdu (status_of status) octets.now }
    ensures { result ≡ is_status_written octets.now (status_of status.entry) }
{
    let bits = used_bits(status.nacks);
    field(octets, bits, (8 * octets.len() - bits) as u32) == 0
}

// Whether octets are a STATUS with this ACK_SN.
pub(crate) fn is_status(ack: u32, octets: &[u8]) -> bool
    requires { length octets.now < OCTETS_LIMIT }
    ensures { result ≡ is_status ack octets.now }
{
    let Ok(AmPdu::Status(status)) = read_am(octets) else {
        return false;
    };
    status.ack == ack && is_status_written(status, octets)
}
