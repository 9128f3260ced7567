// Tags in the place of octets.
ghost use Rattle.std.specs.Prelude.{◌≡◌, ◌<◌, true, length, replicate, IfOk};
ghost use Rattle.std.specs.List.{concat};
ghost use Rattle.l2_bits.specs.declared.limits.TheConstants.{OCTETS_LIMIT};
ghost use Rattle.rlc_pdu.specs.Pdus.{IsUmBits};
ghost use Rattle.rlc_pdu.specs.Writing.{umd_canonical};
ghost use Rattle.um_losses.specs.Pdus.{is_pdu};
ghost use Rattle.um_losses.specs.Tags.{octets_of, last_tag, tags, elements, tagged};

use crate::pdu::Pdu;
use l2_bits::{Bytes, NoMemory};
use rlc_pdu::write_umd;
use std::alloc::Global;

// The octets of a PDU whose elements are tags: of SDUs with COUNTs from `first` on, or of none.
#[tactic(auto, using(crate::proofs::TagLemmas::written))]
pub(crate) fn tagged(
    alloc: Global,
    bits: u32,
    first: Option<u64>,
    pdu: Pdu,
) -> Result<Bytes, NoMemory>
    requires bits { IsUmBits bits }
    requires pdu { is_pdu bits pdu ≡ true }
    ensures octets { IfOk result (λ octets. octets ≡ umd_canonical bits (tagged first pdu)) }
    ensures short { IfOk result (λ octets. length octets < OCTETS_LIMIT) }
{
    let field = field_of(alloc, first, pdu.elements)?;
    let lens = vec![in alloc; 8; pdu.elements]?;
    write_umd(
        alloc,
        bits,
        pdu.sn,
        pdu.fi,
        lens.as_slice(),
        field.as_slice(),
    )
}

fn field_of(alloc: Global, first: Option<u64>, count: usize) -> Result<Bytes, NoMemory>
    ensures { IfOk result (λ field. field ≡ concat (elements first count)) }
{
    match first {
        Some(first) => {
            let tag = first.checked_add(1).ok_or(NoMemory)?;
            tags_of(alloc, tag, 1, count)
        }
        None => tags_of(alloc, 0, 0, count),
    }
}

fn tags_of(alloc: Global, mut tag: u64, step: u64, count: usize) -> Result<Bytes, NoMemory>
    ensures { IfOk result (λ field. field ≡ concat (tags tag step count)) }
{
    let mut field = Bytes::new(alloc);
    let mut left = count;
    while left > 0 {
        field.append(&octets_of(tag))?;
        tag = tag.checked_add(step).ok_or(NoMemory)?;
        left -= 1;
    }
    Ok(field)
}

#[tactic(auto, unfolding(crate::specs::Tags::octets_of))]
fn octets_of(tag: u64) -> [u8; 8]
    ensures { result ≡ octets_of tag }
{
    tag.to_be_bytes()
}

// The tag that ends an SDU.
#[tactic(auto, unfolding(crate::specs::Tags::last_tag))]
pub(crate) fn last_tag(sdu: &[u8]) -> u64
    ensures { result ≡ last_tag sdu.now }
{
    match sdu.last_chunk::<8>() {
        Some(octets) => u64::from_be_bytes(*octets),
        None => 0,
    }
}
