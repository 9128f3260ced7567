//! Deciphering, and the MAC-I of signalling (TS 36.323 5.6, 5.7).
ghost use Rattle.std.specs.Prelude.{◌≡◌, ◌-◌, ◌≤◌, length, take, drop, bytes_eq, IfOk};
ghost use Rattle.pdcp_sec.specs.Protection.{ciphered_with};
ghost use Rattle.pdcp_rx.specs.Opening.{plain_srb, checked, opened, IsLong};
ghost use Rattle.pdcp_rx.specs.declared.security.Opened.TheVariants.{Sdu};

use l2_bits::{Bytes, NoMemory};
use pdcp_pdu::PdcpKind;
use pdcp_sec::Security;
use std::alloc::Global;

/// The octets of a MAC-I.
const TAG: usize = 4;

/// What a PDU holds.
#[derive(Debug, Drop)]
pub enum Opened {
    /// An SDU, deciphered.
    Sdu(Bytes),
    /// The MAC-I that the PDU has, and the one that it should have.
    Differs { found: [u8; 4], wanted: [u8; 4] },
}

/// Opens what a PDU brings: the data part of a data bearer's PDU, or the whole PDU of a signalling
/// bearer.
#[tactic(auto, unfolding(crate::specs::Opening::opened))]
pub fn open(
    security: &Security,
    alloc: Global,
    kind: PdcpKind,
    count: u32,
    body: &[u8],
) -> Result<Opened, NoMemory>
    requires { IsLong kind body.now }
    ensures { IfOk result (λ o. o ≡ opened kind security.now count body.now) }
{
    match kind {
        PdcpKind::Srb => open_srb(security, alloc, count, body),
        PdcpKind::Um { bits: _ } => open_user(security, alloc, count, body),
        PdcpKind::Am { bits: _ } => open_user(security, alloc, count, body),
    }
}

fn open_user(
    security: &Security,
    alloc: Global,
    count: u32,
    text: &[u8],
) -> Result<Opened, NoMemory>
    ensures { IfOk result (λ o. o ≡ Sdu (ciphered_with security.now count text.now)) }
{
    let mut sdu = Vec::from_slice(alloc, text)?;
    security.apply(count, &mut sdu);
    Ok(Opened::Sdu(Bytes::from_vec(sdu)))
}

#[tactic(auto, unfolding(crate::specs::Opening::plain_srb))]
fn open_srb(security: &Security, alloc: Global, count: u32, pdu: &[u8]) -> Result<Opened, NoMemory>
    requires { 6 ≤ length pdu.now }
    ensures { IfOk result
        (λ o. o ≡ checked security.now count (plain_srb security.now count pdu.now)) }
{
    let mut plain = Vec::from_slice(alloc, pdu)?;
    security.apply_behind(count, 1, &mut plain);
    Ok(check(security, count, plain))
}

#[tactic(auto, unfolding(crate::specs::Opening::checked))]
fn check(security: &Security, count: u32, plain: Vec<u8>) -> Opened
    requires { 6 ≤ length plain.items }
    ensures { result ≡ checked security.now count plain.items }
{
    let (message, tag) = plain.split_at(plain.len() - TAG);
    let wanted = security.tag(count, message);
    if !is_same(tag, &wanted) {
        let found = [tag[0], tag[1], tag[2], tag[3]];
        return Opened::Differs { found, wanted };
    }
    Opened::Sdu(without_ends(plain))
}

// What stands between the header and the MAC-I, in the buffer that it is in.
#[tactic(auto, using(crate::proofs::ReadLemmas::drop_first))]
fn without_ends(mut plain: Vec<u8>) -> Bytes
    requires { 6 ≤ length plain.items }
    ensures { result ≡ drop 1 (take (length plain.items - 4) plain.items) }
{
    plain.truncate(plain.len() - TAG);
    plain.remove(0);
    Bytes::from_vec(plain)
}

fn is_same(found: &[u8], wanted: &[u8]) -> bool
    ensures { result ≡ bytes_eq found.now wanted.now }
{
    found == wanted
}
