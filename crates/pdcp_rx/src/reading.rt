//! Reading a PDU as the kind of its bearer says.
ghost use Rattle.std.specs.Prelude.{◌≡◌, ◌≤◌, length, IfOk, MatchResult};
ghost use Rattle.pdcp_pdu.specs.Pdus.{IsUserBits};
ghost use Rattle.pdcp_pdu.specs.Reading.{user_at, srb_at};
ghost use Rattle.pdcp_pdu.specs.declared.PdcpKind.TheVariants.{Srb};
ghost use Rattle.pdcp_pdu.specs.Kinds.{IsKind, bits_of};
ghost use Rattle.pdcp_rx.specs.Heard.{Bad, heard, heard_user, heard_srb, heard_as, IsBelow};
ghost use Rattle.pdcp_rx.specs.Heard.{IsReadLong};

use pdcp_pdu::{PdcpKind, PdcpRefusal, User, read_srb, read_user};

/// A PDU as it was read.
#[derive(Clone, Copy, Debug, PartialEq, Eq)]
pub enum Read<'a> {
    /// A status report.
    Report { fms: u32, bitmap: &'a [u8] },
    /// Its sequence number and what is to be opened: the data part, or the whole PDU of a
    /// signalling bearer, whose MAC-I goes over the header too.
    Data { sn: u32, body: &'a [u8] },
}

/// Reads a PDU of a bearer.
#[tactic(auto, unfolding(crate::specs::Heard::heard))]
pub fn read_pdu(kind: PdcpKind, pdu: &[u8]) -> Result<Read<'_>, PdcpRefusal>
    requires { IsKind kind }
    ensures heard { MatchResult result (λ r. heard kind pdu.now ≡ heard_as r)
        (λ e. heard kind pdu.now ≡ Bad e) }
    ensures number { IfOk result (IsBelow (bits_of kind)) }
    ensures long { IfOk result (IsReadLong kind) }
{
    match kind {
        PdcpKind::Srb => read_signalling(pdu),
        PdcpKind::Um { bits } => read_data(bits, pdu),
        PdcpKind::Am { bits } => read_data(bits, pdu),
    }
}

#[tactic(auto, using(crate::proofs::ReadLemmas::srb_long))]
fn read_signalling(pdu: &[u8]) -> Result<Read<'_>, PdcpRefusal>
    ensures heard { MatchResult result (λ r. heard_srb pdu.now (srb_at pdu.now) ≡ heard_as r)
        (λ e. heard_srb pdu.now (srb_at pdu.now) ≡ Bad e) }
    ensures number { IfOk result (IsBelow 5) }
    ensures long { IfOk result (IsReadLong Srb) }
{
    let srb = read_srb(pdu)?;
    Ok(Read::Data {
        sn: srb.sn,
        body: pdu,
    })
}

fn read_data(bits: u32, pdu: &[u8]) -> Result<Read<'_>, PdcpRefusal>
    requires { IsUserBits bits }
    ensures heard { MatchResult result (λ r. heard_user (user_at bits pdu.now) ≡ heard_as r)
        (λ e. heard_user (user_at bits pdu.now) ≡ Bad e) }
    ensures number { IfOk result (IsBelow bits) }
{
    match read_user(bits, pdu)? {
        User::Sdu { sn, octets } => Ok(Read::Data { sn, body: octets }),
        User::Report { fms, bitmap } => Ok(Read::Report { fms, bitmap }),
    }
}
