//! How an SDU is ciphered and protected in its PDU (TS 36.323 5.6, 5.7). It is copied once, as its
//! PDU is written.

ghost use Rattle.std.specs.Prelude.{◌≡◌, ◌≢◌, ◌<◌, ◌≤◌, ◌^◌, ◌%◌, ◌+◌, ◌++◌, length, take, IfOk};
ghost use Rattle.pdcp_pdu.specs.Kinds.{IsKind};
ghost use Rattle.pdcp_pdu.specs.Pdus.{IsUserBits, Sdu as Data};
ghost use Rattle.pdcp_pdu.specs.Grammar.{srb_header, user_spelling};
ghost use Rattle.pdcp_sec.specs.Protection.{ciphered_with, tag_of};
ghost use Rattle.pdcp_tx.specs.Pdus.{mac_i, pdu};
ghost use Rattle.pdcp_tx.specs.State.{IsShort};

use l2_bits::{Bytes, NoMemory};
use l2_types::GREATEST_SDU;
use pdcp_pdu::{PdcpKind, write_srb, write_user};
use pdcp_sec::Security;
use std::alloc::Global;

/// Writes the PDU of an SDU of 1 to 8188 octets with its COUNT: its header, and the SDU ciphered,
/// with a MAC-I on a signalling bearer (TS 36.323 5.6, 5.7, 6.2.2 to 6.2.4).
#[tactic(auto, unfolding(crate::specs::Pdus::pdu))]
pub fn write_pdu(
    security: &Security,
    alloc: Global,
    kind: PdcpKind,
    count: u32,
    sdu: &[u8],
) -> Result<Bytes, NoMemory>
    requires kind { IsKind kind }
    requires some { 1 ≤ length sdu.now }
    requires few { length sdu.now ≤ GREATEST_SDU }
    ensures pdu { IfOk result (λ written. written ≡ pdu kind security.now count sdu.now) }
    ensures short { IfOk result IsShort }
{
    match kind {
        PdcpKind::Srb => write_signalling(security, alloc, count, sdu),
        PdcpKind::Um { bits } => write_data(security, alloc, bits, count, sdu),
        PdcpKind::Am { bits } => write_data(security, alloc, bits, count, sdu),
    }
}

#[tactic(auto, using(crate::proofs::PduSteps::data_steps))]
fn write_data(
    security: &Security,
    alloc: Global,
    bits: u32,
    count: u32,
    sdu: &[u8],
) -> Result<Bytes, NoMemory>
    requires bits { IsUserBits bits }
    requires some { 1 ≤ length sdu.now }
    requires few { length sdu.now ≤ GREATEST_SDU }
    ensures pdu { IfOk result (λ written. written
        ≡ user_spelling bits (Data (count % 2 ^ bits) (ciphered_with security.now count sdu.now))) }
    ensures short { IfOk result IsShort }
{
    let mut pdu = write_user(alloc, bits, count % (1 << bits), sdu)?.into_vec();
    let header = pdu.len() - sdu.len();
    security.apply_behind(count, header, &mut pdu);
    Ok(Bytes::from_vec(pdu))
}

// The MAC-I goes over the header and the plain SDU as they stand in the PDU, and is ciphered with
// the SDU.
#[tactic(auto, unfolding(crate::specs::Pdus::mac_i), using(crate::proofs::PduSteps::srb_short))]
fn write_signalling(
    security: &Security,
    alloc: Global,
    count: u32,
    sdu: &[u8],
) -> Result<Bytes, NoMemory>
    requires some { 1 ≤ length sdu.now }
    requires few { length sdu.now ≤ GREATEST_SDU }
    ensures pdu { IfOk result (λ written. written ≡ srb_header 0 (count % 32)
        ++ ciphered_with security.now count (sdu.now ++ mac_i security.now count sdu.now)) }
    ensures short { IfOk result IsShort }
{
    let mut pdu = write_srb(alloc, count % 32, sdu, &[0; 4])?.into_vec();
    set_tag(security, count, &mut pdu, 1 + sdu.len());
    security.apply_behind(count, 1, &mut pdu);
    Ok(Bytes::from_vec(pdu))
}

// Puts the MAC-I of the first octets, so many of them, in the place of the last four.
fn set_tag(security: &Security, count: u32, pdu: &mut [u8], len: usize)
    requires { length pdu.old ≡ len + 4 }
    ensures { pdu.new ≡ take len pdu.old ++ tag_of security.now count (take len pdu.old) }
{
    let (message, tag) = pdu.split_at_mut(len);
    tag.copy_from_slice(&security.tag(count, message));
}
