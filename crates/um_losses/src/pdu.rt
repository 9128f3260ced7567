// UMD PDUs as records show them.
ghost use Rattle.std.specs.Prelude.{◌≡◌};
ghost use Rattle.rlc_pdu.specs.Pdus.{IsUmBits};
ghost use Rattle.um_losses.specs.Pdus.{is_pdu, ends_in};

use l2_types::GREATEST_GRANT;
use rlc_pdu::{UM_LONG_MODULUS, UM_SHORT_MODULUS};

/// A UMD PDU without its octets: its number, framing info and count of elements (TS 36.322
/// 6.2.1.3).
#[derive(Clone, Copy)]
pub struct Pdu {
    pub(crate) sn: u32,
    pub(crate) fi: u8,
    pub(crate) elements: usize,
}

impl Pdu {
    // Whether a block may have such a PDU, with a number of so many bits.
    pub(crate) fn is_pdu(self, bits: u32) -> bool
        requires { IsUmBits bits }
        ensures { result ≡ is_pdu bits self }
    {
        let numbers = if bits == 5 {
            UM_SHORT_MODULUS
        } else {
            UM_LONG_MODULUS
        };
        let fits = self.elements <= GREATEST_GRANT as usize;
        self.sn < numbers && self.fi < 4 && self.elements > 0 && fits
    }

    // The SDUs that end in it.
    pub(crate) fn ends(self) -> usize
        ensures { result ≡ ends_in self }
    {
        self.elements.saturating_sub((self.fi % 2) as usize)
    }
}
