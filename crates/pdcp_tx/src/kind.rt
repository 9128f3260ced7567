//! What the kind of an entity settles.

ghost use Rattle.std.specs.Prelude.{◌≡◌, ◌-◌, ◌<◌, ◌≤◌, ◌^◌};
ghost use Rattle.pdcp_pdu.specs.Kinds.{IsKind};
ghost use Rattle.pdcp_tx.specs.Pdus.{modulus, extra, width};

use pdcp_pdu::PdcpKind;

/// The octets of a PDU beside those of its SDU.
pub(crate) fn extra(kind: PdcpKind) -> u64
    ensures value { result ≡ extra kind }
    ensures below { result ≤ 5 }
{
    match kind {
        PdcpKind::Srb => 5,
        PdcpKind::Um { bits } => { if bits == 7 { 1 } else { 2 } }
        PdcpKind::Am { bits: _ } => 2,
    }
}

/// How many sequence numbers there are.
pub(crate) fn modulus(kind: PdcpKind) -> u64
    requires { IsKind kind }
    ensures { result ≡ modulus kind }
{
    1 << kind.bits()
}

/// How far above the first unconfirmed COUNT an SDU is taken.
pub(crate) fn width(kind: PdcpKind) -> u64
    requires { IsKind kind }
    ensures value { result ≡ width kind }
    ensures below { result ≤ 2 ^ 32 }
{
    match kind {
        PdcpKind::Srb => 1 << 32,
        PdcpKind::Um { bits: _ } => 1 << 32,
        PdcpKind::Am { bits } => half(bits),
    }
}

fn half(bits: u32) -> u64
    requires some { 0 < bits }
    requires below { bits < 16 }
    ensures value { result ≡ 2 ^ (bits - 1) }
    ensures below { result ≤ 2 ^ 32 }
{
    1 << (bits - 1)
}
