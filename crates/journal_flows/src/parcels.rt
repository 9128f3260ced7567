// PDUs by true numbers, and those of acknowledged bearers as they are read.
ghost use Rattle.std.specs.Prelude.{◌≡◌, ◌<◌, ◌+◌, ◌||◌, length, drop, map, IfOk, Ok};
ghost use Rattle.l2_bits.specs.declared.limits.TheConstants.{OCTETS_LIMIT};
ghost use Rattle.rlc_pdu.specs.declared.constants.TheConstants.{AM_MODULUS};
ghost use Rattle.rlc_pdu.specs.Pdus.{Payload, Status};
ghost use Rattle.rlc_pdu.specs.Reading.{am_at};
ghost use Rattle.rlc_pdu.specs.Views.{elements_of, nacks_of, amd_of, status_of};
ghost use Rattle.rlc_am_rx_window.specs.Piece.{octets_in, so_of};
ghost use Rattle.law_words.specs.Passing.{last_with};
ghost use Rattle.journal_flows.specs.NumberedPdus.{with_sn_from, entry_from, parcel_by};
ghost use Rattle.journal_flows.specs.NumberedPdus.{is_status_on, carries_status};

use crate::entries::Entries;
use journal_account::StatusEntry;
use journal_um::Pieces;
use l2_bits::{Items, NoMemory};
use l2_types::How;
use rlc_pdu::{AM_MODULUS, AmPdu, Amd, Elements, NackReader, Segment, StatusRead, read_am};
use std::alloc::Global;

/// What a PDU is to its flows, by true numbers (TS 36.322 6.2.1.3 to 6.2.1.6). `lcid` is the
/// channel.
#[derive(Drop)]
pub enum Parcel {
    /// Octets of a number of the flow of the side that sends it: those of its data field from a
    /// place on and below another.
    Octets {
        lcid: u8,
        number: u64,
        from: u32,
        to: u32,
    },
    /// A number of an unacknowledged flow of that side, with so many octets in its data field, and
    /// its pieces.
    Pieces {
        lcid: u8,
        number: u64,
        size: u32,
        pieces: Pieces,
    },
    /// A STATUS of the flow that goes the other way: its ACK and its entries.
    Report {
        lcid: u8,
        ack: u64,
        entries: Entries,
    },
}

fn is_status_on(parcel: &Parcel, lcid: u8) -> bool
    ensures { result ≡ is_status_on lcid parcel.now }
{
    match parcel {
        Parcel::Report { lcid: own, .. } => *own == lcid,
        Parcel::Octets { .. } | Parcel::Pieces { .. } => false,
    }
}

// Whether the one at a place is a STATUS of a channel.
#[tactic(auto, using(crate::proofs::Statuses::is_first))]
fn is_status_at(parcels: &Items<Parcel>, at: usize, lcid: u8) -> bool
    requires { at < length parcels.now }
    ensures { carries_status lcid (drop at parcels.now)
        ≡ (result || carries_status lcid (drop (at + 1) parcels.now)) }
{
    match parcels.get(at) {
        Some(parcel) => is_status_on(parcel, lcid),
        None => unreachable!(),
    }
}

// Whether one of some PDUs is a STATUS of a channel.
#[tactic(auto, using(crate::proofs::Statuses::none_left))]
pub(crate) fn carry_status(parcels: &Items<Parcel>, lcid: u8) -> bool
    ensures { result ≡ carries_status lcid parcels.now }
{
    let mut at = 0;
    while at < parcels.len() {
        if is_status_at(parcels, at, lcid) {
            return true;
        }
        at += 1;
    }
    false
}

// The first number from one on that has an SN.
fn with_sn_from(low: u64, sn: u32) -> Result<u64, NoMemory>
    requires { sn < AM_MODULUS }
    ensures { IfOk result (λ n. n ≡ with_sn_from low sn) }
{
    let above = (u64::from(sn) + AM_MODULUS - low % AM_MODULUS) % AM_MODULUS;
    low.checked_add(above).ok_or(NoMemory)
}

// The last of so many numbers that has an SN.
fn last_with(sn: u32, count: u64) -> Result<u64, NoMemory>
    requires { sn < AM_MODULUS }
    ensures { IfOk result (λ n. n ≡ last_with sn count) }
{
    let Some(past) = count.checked_add(AM_MODULUS - 1) else {
        return Err(NoMemory);
    };
    let back = (past - u64::from(sn)) % AM_MODULUS;
    Ok(count.saturating_sub(1).saturating_sub(back))
}

// The octets of elements; 2^32 or more find no memory.
pub(crate) fn octets_in(elements: Elements<'_>) -> Result<u32, NoMemory>
    ensures { IfOk result (λ n. n ≡ octets_in (elements_of elements.entry)) }
{
    let mut elements = elements;
    let mut count: u32 = 0;
    while let Some(element) = elements.next() {
        count = count.checked_add(element.len() as u32).ok_or(NoMemory)?;
    }
    Ok(count)
}

fn so_of(segment: Option<Segment>) -> u32
    ensures { result ≡ so_of segment }
{
    match segment {
        Some(segment) => segment.so,
        None => 0,
    }
}

// The entries of a STATUS, from a number on.
fn entries(alloc: Global, front: u64, nacks: NackReader<'_>) -> Result<Entries, NoMemory>
    ensures { IfOk result (λ es. es ≡ map (entry_from front) (nacks_of nacks.entry)) }
{
    let mut nacks = nacks;
    let mut found = Entries::new(alloc);
    while let Some(nack) = nacks.next() {
        found.push(StatusEntry {
            number: with_sn_from(front, nack.sn)?,
            part: nack.part,
        })?;
    }
    Ok(found)
}

// A data PDU, or a segment of one.
fn payload(next: u64, lcid: u8, how: How, amd: Amd<'_>) -> Result<Option<Parcel>, NoMemory>
    requires { amd.sn < AM_MODULUS }
    ensures { IfOk result (λ p. p ≡ parcel_by next 0 lcid how (Ok (Payload (amd_of amd.entry)))) }
{
    match how {
        How::New => Ok(Some(Parcel::Octets {
            lcid,
            number: next,
            from: 0,
            to: octets_in(amd.elements)?,
        })),
        How::Re => {
            let from = so_of(amd.segment);
            let to = from.checked_add(octets_in(amd.elements)?).ok_or(NoMemory)?;
            Ok(Some(Parcel::Octets {
                lcid,
                number: last_with(amd.sn, next)?,
                from,
                to,
            }))
        }
        How::Tm | How::Status => Ok(None),
    }
}

// A STATUS.
fn report(
    alloc: Global,
    front: u64,
    lcid: u8,
    how: How,
    status: StatusRead<'_>,
) -> Result<Option<Parcel>, NoMemory>
    requires { status.ack < AM_MODULUS }
    ensures { IfOk result
        (λ p. p ≡ parcel_by 0 front lcid how (Ok (Status (status_of status.entry)))) }
{
    match how {
        How::Status => Ok(Some(Parcel::Report {
            lcid,
            ack: with_sn_from(front, status.ack)?,
            entries: entries(alloc, front, status.nacks)?,
        })),
        How::Tm | How::New | How::Re => Ok(None),
    }
}

// What a PDU of an acknowledged bearer is that its `send` names so, where its flow writes the
// number `next` next, and VR(R) of the flow that goes the other way is `front`. `None` where the
// octets are no such PDU.
pub(crate) fn numbered(
    alloc: Global,
    next: u64,
    front: u64,
    lcid: u8,
    how: How,
    octets: &[u8],
) -> Result<Option<Parcel>, NoMemory>
    requires { length octets.now < OCTETS_LIMIT }
    ensures { IfOk result (λ p. p ≡ parcel_by next front lcid how (am_at octets.now)) }
{
    match read_am(octets) {
        Ok(AmPdu::Payload(amd)) => payload(next, lcid, how, amd),
        Ok(AmPdu::Status(status)) => report(alloc, front, lcid, how, status),
        Err(_) => Ok(None),
    }
}
