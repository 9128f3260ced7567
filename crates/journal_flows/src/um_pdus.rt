// UMD PDUs, by true numbers and places.
ghost use Rattle.std.specs.Prelude.{◌≡◌, ◌<◌, nat_lt, length, IfOk, Ok};
ghost use Rattle.l2_bits.specs.declared.limits.TheConstants.{OCTETS_LIMIT};
ghost use Rattle.l2_types.specs.declared.event.How.TheVariants.{New};
ghost use Rattle.rlc_pdu.specs.Pdus.{IsUmBits};
ghost use Rattle.rlc_pdu.specs.Reading.{umd_at};
ghost use Rattle.rlc_pdu.specs.Views.{elements_of, umd_of};
ghost use Rattle.journal_flows.specs.UmPdus.{pieces_from, um_parcel_by};

use crate::parcels::{Parcel, octets_in};
use journal_um::{Piece, Pieces};
use l2_bits::{Bytes, Items, NoMemory};
use l2_types::How;
use rlc_pdu::{Elements, Umd, read_umd};
use std::alloc::Global;

fn has_more(elements: Elements<'_>) -> bool
    ensures { result ≡ nat_lt 0 (length (elements_of elements.entry)) }
{
    let mut elements = elements;
    elements.next().is_some()
}

// The pieces of a data field. The first is of the SDU with this place; whether it begins one, and
// whether the last ends one.
fn pieces_from(
    alloc: Global,
    place: u64,
    begins: bool,
    ends: bool,
    elements: Elements<'_>,
) -> Result<Pieces, NoMemory>
    ensures { IfOk result
        (λ pieces. pieces ≡ pieces_from place begins ends (elements_of elements.entry)) }
{
    let mut elements = elements;
    let mut place = place;
    let mut begins = begins;
    let mut pieces = Items::new(alloc);
    while let Some(octets) = elements.next() {
        let one = Piece {
            octets: Bytes::from_slice(alloc, octets)?,
            begins,
            ends: ends || has_more(elements),
            place,
        };
        pieces.push(one)?;
        place = place.checked_add(1).ok_or(NoMemory)?;
        begins = true;
    }
    Ok(pieces)
}

// A new PDU, of a flow that writes this number next, and octets of the SDU with this place.
fn parcel(
    alloc: Global,
    next: u64,
    place: u64,
    lcid: u8,
    umd: Umd<'_>,
) -> Result<Option<Parcel>, NoMemory>
    ensures { IfOk result
        (λ p. p ≡ um_parcel_by next place lcid New (Ok (umd_of umd.entry))) }
{
    let (begins, ends) = (umd.fi / 2 % 2 == 0, umd.fi % 2 == 0);
    Ok(Some(Parcel::Pieces {
        lcid,
        number: next,
        size: octets_in(umd.elements)?,
        pieces: pieces_from(alloc, place, begins, ends, umd.elements)?,
    }))
}

// What a PDU of an unacknowledged bearer is that its `send` names so. `None` where the octets are
// no such PDU.
pub(crate) fn um_numbered(
    alloc: Global,
    bits: u32,
    next: u64,
    place: u64,
    lcid: u8,
    how: How,
    octets: &[u8],
) -> Result<Option<Parcel>, NoMemory>
    requires bits { IsUmBits bits }
    requires short { length octets.now < OCTETS_LIMIT }
    ensures { IfOk result (λ p. p ≡ um_parcel_by next place lcid how (umd_at bits octets.now)) }
{
    match (how, read_umd(bits, octets)) {
        (How::New, Ok(umd)) => parcel(alloc, next, place, lcid, umd),
        _ => Ok(None),
    }
}
