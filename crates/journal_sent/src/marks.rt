// The marks of octets: where SDUs begin and end in them.
ghost use Rattle.std.specs.Prelude.{◌≡◌, ◌++◌, nat_lt, length, IfOk, OnOk};
ghost use Rattle.std.specs.List.{concat};
ghost use Rattle.rlc_pdu.specs.Views.{elements_of};
ghost use Rattle.journal_sent.specs.Marks.{mark, part_marks, sdu_marks, field_marks};
ghost use Rattle.journal_sent.specs.SentFlows.{marks_in};

use l2_bits::{Bytes, NoMemory, OCTETS_LIMIT};
use rlc_pdu::Elements;
use std::alloc::Global;

// Of an octet.
fn mark(begins: bool, ends: bool) -> u8
    ensures { result ≡ mark begins ends }
{
    match (begins, ends) {
        (false, false) => 0,
        (true, false) => 1,
        (false, true) => 2,
        (true, true) => 3,
    }
}

// Adds those of so many octets of one SDU. Behind an `Err` nothing is known.
#[tactic(auto, using(crate::proofs::PartMarks::adds))]
fn append_part(marks: &mut Bytes, begins: bool, ends: bool, many: u32) -> Result<(), NoMemory>
    ensures { OnOk result (marks.new ≡ marks.old ++ part_marks begins ends many) }
{
    if many == 0 {
        return Ok(());
    }
    if many == 1 {
        return marks.push(mark(begins, ends));
    }
    marks.push(mark(begins, false))?;
    marks.append_times(0, many - 2)?;
    marks.push(mark(false, ends))
}

// Those of a whole SDU of so many octets, or of 2^28 no memory.
pub(crate) fn sdu_marks(alloc: Global, many: usize) -> Result<Bytes, NoMemory>
    ensures { IfOk result (λ marks. marks ≡ sdu_marks many) }
{
    if many >= OCTETS_LIMIT {
        return Err(NoMemory);
    }
    let mut marks = Bytes::with_capacity(alloc, many)?;
    append_part(&mut marks, true, true, many as u32)?;
    Ok(marks)
}

fn has_more(elements: Elements<'_>) -> bool
    ensures { result ≡ nat_lt 0 (length (elements_of elements.entry)) }
{
    let mut elements = elements;
    elements.next().is_some()
}

fn append_field(
    marks: &mut Bytes,
    begins: bool,
    ends: bool,
    elements: Elements<'_>,
) -> Result<(), NoMemory>
    ensures { OnOk result
        (marks.new ≡ marks.old ++ field_marks begins ends (elements_of elements.entry)) }
{
    let mut elements = elements;
    let mut begins = begins;
    while let Some(octets) = elements.next() {
        let is_end = ends || has_more(elements);
        append_part(marks, begins, is_end, octets.len() as u32)?;
        begins = true;
    }
    Ok(())
}

// Those of the elements of a PDU with this FI, which have at most so many octets.
pub(crate) fn marks_in(
    alloc: Global,
    fi: u8,
    elements: Elements<'_>,
    most: usize,
) -> Result<Bytes, NoMemory>
    ensures { IfOk result (λ marks. marks ≡ marks_in fi (elements_of elements.entry)) }
{
    let mut marks = Bytes::with_capacity(alloc, most)?;
    append_field(&mut marks, fi / 2 % 2 == 0, fi % 2 == 0, elements)?;
    Ok(marks)
}

// The octets of elements, which are at most so many.
pub(crate) fn joined(alloc: Global, elements: Elements<'_>, most: usize) -> Result<Bytes, NoMemory>
    ensures { IfOk result (λ field. field ≡ concat (elements_of elements.entry)) }
{
    let mut elements = elements;
    let mut field = Bytes::with_capacity(alloc, most)?;
    while let Some(octets) = elements.next() {
        field.append(octets)?;
    }
    Ok(field)
}
