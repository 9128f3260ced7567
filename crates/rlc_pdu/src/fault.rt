ghost use Rattle.std.specs.Prelude.{◌≡◌, ◌<◌, ◌^◌};

/// Why a PDU is refused, numbered from 1.
#[derive(Clone, Copy, Debug, PartialEq, Eq)]
pub enum RlcWhy {
    /// The header, or the entries of a STATUS, end behind the PDU.
    Short = 1,
    /// A length indicator is 0.
    ZeroLi = 2,
    /// A length indicator leaves nothing of the data field to the element behind it.
    LiPast = 3,
    /// No octet follows the header of a data PDU.
    EmptyData = 4,
    /// The type of a control PDU isn't 0.
    ReservedCpt = 5,
    /// An entry of a STATUS has an SOend below its SOstart.
    SoBackwards = 6,
    /// Octets follow a STATUS.
    Trailing = 7,
}

/// Why a PDU is refused, and at which of its octets, counted from 0.
#[derive(Clone, Copy, Debug, PartialEq, Eq)]
pub struct RlcRefusal {
    /// The octet that holds the first bit of the field at fault; for `Short` and `EmptyData` the
    /// length of the PDU.
    pub at: u32,
    /// What is wrong there.
    pub why: RlcWhy,
}

impl RlcRefusal {
    pub(crate) fn new(at: usize, why: RlcWhy) -> RlcRefusal
        requires { at < 2 ^ 32 }
        ensures { result ≡ record { at = at; why = why } }
    {
        RlcRefusal { at: at as u32, why }
    }
}
