ghost use Rattle.std.specs.Prelude.{◌≡◌, ◌≢◌, ◌<◌, ◌^◌, ◌++◌, [], None, Some, Ok, Err, IfOk};
ghost use Rattle.std.specs.Prelude.{IsOkAnd, MatchResult};
ghost use Rattle.pdcp_pdu.specs.Pdus.{SrbPdu, srb_of};
ghost use Rattle.pdcp_pdu.specs.Grammar.{IsSrbPdu, srb_spelling};
ghost use Rattle.pdcp_pdu.specs.Refusals.{srb_refusal};
ghost use Rattle.pdcp_pdu.specs.Reading.{srb_at};

use crate::pdu::{PdcpRefusal, PdcpWhy, Srb};
use l2_bits::{Bytes, NoMemory};
use std::alloc::Global;

/// The octets of a MAC-I.
const TAG: usize = 4;

#[tactic(auto, unfolding(crate::specs::Reading::srb_at))]
fn read(from: &[u8]) -> Result<Srb<'_>, PdcpRefusal>
    ensures { MatchResult result (λ srb. srb_at from.now ≡ Ok (srb_of srb))
        (λ e. srb_at from.now ≡ Err e) }
{
    if from.len() <= TAG {
        return Err(PdcpRefusal::new(from.len() as u32, PdcpWhy::Short));
    }
    if from.len() == TAG + 1 {
        return Err(PdcpRefusal::new(1, PdcpWhy::EmptyData));
    }
    let (front, tag) = from.split_at(from.len() - TAG);
    let (header, octets) = front.split_at(1);
    Ok(Srb {
        sn: u32::from(header[0] & 0x1f),
        octets,
        tag: [tag[0], tag[1], tag[2], tag[3]],
    })
}

/// Reads a PDU of a signalling bearer (TS 36.323 6.2.2). Reserved bits are passed over. It takes no
/// memory.
pub fn read_srb(from: &[u8]) -> Result<Srb<'_>, PdcpRefusal>
    ensures found { IfOk result (λ srb. IsSrbPdu (srb_of srb) from.now) }
    ensures only { (pdu : SrbPdu) → IsSrbPdu pdu from.now
        → IsOkAnd result (λ srb. srb_of srb ≡ pdu) }
    ensures refused { MatchResult result (λ _. srb_refusal from.now ≡ None)
        (λ e. srb_refusal from.now ≡ Some e) }
    ensures exact { MatchResult result (λ srb. srb_at from.now ≡ Ok (srb_of srb))
        (λ e. srb_at from.now ≡ Err e) }
{
    read(from)
}

/// Writes a PDU of a signalling bearer (TS 36.323 6.2.2), with a number of 5 bits, a data part of 1
/// octet or more, and the MAC-I, which goes over the header and the plain data part. What stands
/// behind the header may then be ciphered where it stands.
pub fn write_srb(alloc: Global, sn: u32, octets: &[u8], tag: &[u8; 4]) -> Result<Bytes, NoMemory>
    requires number { sn < 2 ^ 5 }
    requires some { octets.now ≢ [] }
    ensures { IfOk result
        (λ pdu. pdu ≡ srb_spelling (record { sn = sn; octets = octets.now; tag = tag.now })) }
{
    let mut pdu = Bytes::with_capacity(alloc, 1 + octets.len() + TAG)?;
    pdu.append(&[sn as u8])?;
    pdu.append(octets)?;
    pdu.append(tag)?;
    Ok(pdu)
}
