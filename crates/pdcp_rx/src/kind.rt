//! What a receiver takes from its kind.
ghost use Rattle.std.specs.Prelude.{◌≡◌, ◌≤◌, ◌^◌};
ghost use Rattle.pdcp_pdu.specs.Kinds.{IsKind};
ghost use Rattle.pdcp_rx.specs.State.{width, waits};

use crate::got::Cause;
use pdcp_pdu::PdcpKind;

/// How far above the next COUNT a PDU's COUNT is looked for.
pub fn width(kind: PdcpKind) -> u64
    requires { IsKind kind }
    ensures value { result ≡ width kind }
    ensures few { result ≤ 2 ^ 15 }
{
    match kind {
        PdcpKind::Srb => 1 << 5,
        PdcpKind::Um { bits } => 1 << bits,
        PdcpKind::Am { bits } => 1 << (bits - 1),
    }
}

/// Whether an SDU so far above the next COUNT waits for those below it.
pub fn waits(kind: PdcpKind, cause: Cause, at: usize) -> bool
    ensures { result ≡ waits kind cause at }
{
    match cause {
        Cause::Arrived => false,
        Cause::Reestablished => kind.is_am() && at > 0,
    }
}
