ghost use Rattle.std.specs.Prelude.{◌≡◌, ◌<◌, ◌^◌, ◌++◌, ◌∷◌, [], IfOk, OnOk, IfSome, is_some};
ghost use Rattle.std.specs.Prelude.{length, map};
ghost use Rattle.rlc_pdu.specs.Pdus.{IsUmBits};
ghost use Rattle.rlc_pdu.specs.Reading.{umd_at, am_at};
ghost use Rattle.rlc_pdu.specs.Views.{elements_of, nacks_of, amd_of};
ghost use Rattle.pdu_show.specs.Kinds.{IsLayout, IsPdcp};
ghost use Rattle.pdu_show.specs.Show.{whole, whole_by, one_where, listed, begins, ends, pdcp_shown};
ghost use Rattle.pdu_show.specs.Show.{wholes_shown, tm_shown, um_shown, amd_shown, am_shown};
ghost use Rattle.pdu_show.specs.Show.{rlc_shown};
ghost use Rattle.l2_bits.specs.declared.limits.TheConstants.{OCTETS_LIMIT};

use crate::kinds::Layout;
use crate::pdcp::show_pdcp;
use crate::show::Records;
use crate::spares::Spares;
use air_text::{Lens, Record};
use l2_bits::NoMemory;
use pdcp_pdu::PdcpKind;
use rlc_pdu::{AmPdu, Amd, Elements, NackReader, Nacks, RlcRefusal, RlcWhy, read_am, read_umd};

// The lengths of elements.
fn lens(spares: &mut Spares, elements: Elements<'_>) -> Result<Lens, NoMemory>
    ensures { IfOk result (λ lens. lens ≡ map length (elements_of elements.entry)) }
{
    let mut elements = elements;
    let mut lens = spares.lens();
    while let Some(element) = elements.next() {
        lens.push(element.len() as u32)?;
    }
    Ok(lens)
}

// The entries of a STATUS.
fn nacks(spares: &mut Spares, entries: NackReader<'_>) -> Result<Nacks, NoMemory>
    ensures { IfOk result (λ nacks. nacks ≡ nacks_of entries.entry) }
{
    let mut entries = entries;
    let mut nacks = spares.nacks();
    while let Some(nack) = entries.next() {
        nacks.push(nack)?;
    }
    Ok(nacks)
}

// Takes the next element, `None` after the last.
fn take<'a>(elements: &mut Elements<'a>) -> Option<&'a [u8]>
    ensures rest { elements_of elements.old ≡ listed result (elements_of elements.new) }
    ensures short { IfSome result (λ one. length one.now < OCTETS_LIMIT) }
{
    elements.next()
}

// Whether an element is a whole SDU: it begins one, and another follows or it ends one.
fn is_whole(first: bool, last: bool, next: Option<&[u8]>) -> bool
    ensures { result ≡ whole_by first last (is_some next.entry) }
{
    if first { next.is_some() || last } else { false }
}

// Shows an element where it is a whole SDU.
fn show_one(
    spares: &mut Spares,
    records: &mut Records,
    kind: PdcpKind,
    is_whole: bool,
    element: &[u8],
) -> Result<(), NoMemory>
    requires kind { IsPdcp kind }
    requires short { length element.now < OCTETS_LIMIT }
    ensures { OnOk result (records.new ≡ records.old
        ++ map (pdcp_shown kind) (one_where is_whole element.now)) }
{
    if is_whole {
        records.push(show_pdcp(spares, kind, element)?)?;
    }
    Ok(())
}

// Shows the elements that are whole SDUs.
fn show_wholes(
    spares: &mut Spares,
    records: &mut Records,
    kind: PdcpKind,
    fi: u8,
    elements: Elements<'_>,
) -> Result<(), NoMemory>
    requires { IsPdcp kind }
    ensures { OnOk result (records.new ≡ records.old
        ++ wholes_shown kind fi (elements_of elements.entry)) }
{
    let last = fi % 2 == 0;
    let mut first = fi < 2;
    let mut elements = elements;
    let mut next = take(&mut elements);
    while let Some(element) = next {
        next = take(&mut elements);
        show_one(spares, records, kind, is_whole(first, last, next), element)?;
        first = true;
    }
    Ok(())
}

fn show_tm(octets: &[u8]) -> Record
    requires { length octets.now < OCTETS_LIMIT }
    ensures { result ∷ [] ≡ tm_shown octets.now }
{
    if octets.is_empty() {
        return Record::BadRlc {
            fault: RlcRefusal {
                at: 0,
                why: RlcWhy::Short,
            },
        };
    }
    Record::RlcTm {
        len: octets.len() as u32,
    }
}

fn show_um(
    spares: &mut Spares,
    records: &mut Records,
    bits: u32,
    kind: PdcpKind,
    octets: &[u8],
) -> Result<(), NoMemory>
    requires bits { IsUmBits bits }
    requires kind { IsPdcp kind }
    requires short { length octets.now < OCTETS_LIMIT }
    ensures { OnOk result (records.new ≡ records.old ++ um_shown kind (umd_at bits octets.now)) }
{
    match read_umd(bits, octets) {
        Ok(umd) => {
            records.push(Record::RlcUm {
                sn: umd.sn,
                fi: umd.fi,
                lens: lens(spares, umd.elements)?,
            })?;
            show_wholes(spares, records, kind, umd.fi, umd.elements)
        }
        Err(fault) => records.push(Record::BadRlc { fault }),
    }
}

fn show_amd(
    spares: &mut Spares,
    records: &mut Records,
    kind: PdcpKind,
    amd: Amd<'_>,
) -> Result<(), NoMemory>
    requires { IsPdcp kind }
    ensures { OnOk result (records.new ≡ records.old
        ++ amd_shown kind (amd_of amd.entry) amd.entry.segment) }
{
    let lens = lens(spares, amd.elements)?;
    if let Some(segment) = amd.segment {
        return records.push(Record::RlcSeg {
            sn: amd.sn,
            poll: amd.poll,
            fi: amd.fi,
            last: segment.last,
            so: segment.so,
            lens,
        });
    }
    records.push(Record::RlcAm {
        sn: amd.sn,
        poll: amd.poll,
        fi: amd.fi,
        lens,
    })?;
    show_wholes(spares, records, kind, amd.fi, amd.elements)
}

fn show_am(
    spares: &mut Spares,
    records: &mut Records,
    kind: PdcpKind,
    octets: &[u8],
) -> Result<(), NoMemory>
    requires kind { IsPdcp kind }
    requires short { length octets.now < OCTETS_LIMIT }
    ensures { OnOk result (records.new ≡ records.old ++ am_shown kind (am_at octets.now)) }
{
    match read_am(octets) {
        Ok(AmPdu::Payload(amd)) => show_amd(spares, records, kind, amd),
        Ok(AmPdu::Status(status)) => records.push(Record::RlcStatus {
            ack: status.ack,
            nacks: nacks(spares, status.nacks)?,
        }),
        Err(fault) => records.push(Record::BadRlc { fault }),
    }
}

/// Shows an RLC PDU of fewer than 2^28 octets by its layout, behind other records: nothing where no
/// bearer is known.
#[tactic(auto, unfolding(crate::specs::Show::rlc_shown))]
pub fn show_rlc(
    spares: &mut Spares,
    records: &mut Records,
    layout: Option<Layout>,
    octets: &[u8],
) -> Result<(), NoMemory>
    requires layout { IfSome layout IsLayout }
    requires short { length octets.now < OCTETS_LIMIT }
    ensures { OnOk result (records.new ≡ records.old ++ rlc_shown layout octets.now) }
{
    match layout {
        None => Ok(()),
        Some(Layout::Tm) => records.push(show_tm(octets)),
        Some(Layout::Um { rlc_bits, pdcp }) => show_um(spares, records, rlc_bits, pdcp, octets),
        Some(Layout::Am { pdcp }) => show_am(spares, records, pdcp, octets),
    }
}
