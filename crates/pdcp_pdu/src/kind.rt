ghost use Rattle.std.specs.Prelude.{◌≡◌, ◌≤◌};
ghost use Rattle.pdcp_pdu.specs.Kinds.{IsKind, bits_of, is_am};

use crate::pdu::PdcpKind;

impl PdcpKind {
    /// The bits of the sequence number (TS 36.323 6.3.2).
    pub fn bits(self) -> u32
        requires { IsKind self }
        ensures value { result ≡ bits_of self }
        ensures some { 5 ≤ result }
        ensures few { result ≤ 15 }
    {
        match self {
            PdcpKind::Srb => 5,
            PdcpKind::Um { bits } => bits,
            PdcpKind::Am { bits } => bits,
        }
    }

    /// Whether it is a data bearer over acknowledged RLC.
    pub fn is_am(self) -> bool
        ensures { result ≡ is_am self }
    {
        matches!(self, PdcpKind::Am { bits: _ })
    }
}
