// New blocks: what they carry is what is told of as sent, canonically written (TS 36.321 6.1.2).
ghost use Rattle.std.specs.Prelude.{◌≡◌, ◌<◌, length, IfOk};
ghost use Rattle.l2_bits.specs.declared.limits.TheConstants.{OCTETS_LIMIT};
ghost use Rattle.promises.specs.RightForm.{sdus_in};
ghost use Rattle.journal_form.specs.Tests.{are_named, carries, is_next, names_by};
ghost use Rattle.mac_pdu.specs.Reading.{reading};

use crate::canonical::is_canonical;
use crate::pdus::{Sent, is_named};
use l2_bits::{Items, NoMemory, OCTETS_LIMIT};
use mac_pdu::{Direction, Item, MacReader};
use pdu_show::Kinds;
use std::alloc::Global;

// Whether the SDU is the PDU that comes next.
fn is_next(
    alloc: Global,
    kinds: &Kinds,
    sent: Option<Sent>,
    lcid: u8,
    octets: &[u8],
) -> Result<bool, NoMemory>
    requires { length octets.now < OCTETS_LIMIT }
    ensures { IfOk result (λ yes. yes ≡ is_next kinds.now sent lcid octets.now) }
{
    let Some(first) = sent else {
        return Ok(false);
    };
    if lcid != first.lcid {
        return Ok(false);
    }
    is_named(alloc, kinds.of(first.lcid), first.how, first.sn, octets)
}

// Whether the SDUs of a block are the PDUs that are named, in their order.
#[tactic(auto, using(crate::proofs::Lists::none_named))]
fn are_named(
    alloc: Global,
    kinds: &Kinds,
    sent: &mut Items<Sent>,
    reader: MacReader<'_>,
) -> Result<bool, NoMemory>
    ensures { IfOk result (λ yes. yes ≡ are_named kinds.now sent.old (sdus_in reader.entry)) }
{
    let mut reader = reader;
    while let Some(item) = reader.next() {
        if let Item::Sdu { lcid, octets } = item {
            if !is_next(alloc, kinds, sent.pop_front(), lcid, octets)? {
                return Ok(false);
            }
        }
    }
    Ok(sent.is_empty())
}

// Whether a block that is sent names its PDUs.
fn names(
    alloc: Global,
    direction: Direction,
    kinds: &Kinds,
    sent: &mut Items<Sent>,
    octets: &[u8],
) -> Result<bool, NoMemory>
    requires { length octets.now < OCTETS_LIMIT }
    ensures { IfOk result
        (λ yes. yes ≡ names_by kinds.now sent.old (reading direction octets.now)) }
{
    match MacReader::parse(direction, octets) {
        Ok(reader) => are_named(alloc, kinds, sent, reader),
        Err(_) => Ok(false),
    }
}

// Whether a new block carries the PDUs that are named, and is canonical. Those that it carries are
// taken out.
pub(crate) fn carries(
    alloc: Global,
    direction: Direction,
    kinds: &Kinds,
    sent: &mut Items<Sent>,
    octets: &[u8],
) -> Result<bool, NoMemory>
    requires { length octets.now < OCTETS_LIMIT }
    ensures { IfOk result (λ yes. yes ≡ carries direction kinds.now sent.old octets.now) }
{
    if !names(alloc, direction, kinds, sent, octets)? {
        return Ok(false);
    }
    is_canonical(direction, octets)
}
