ghost use Rattle.std.specs.Prelude.{◌≡◌};

/// The PDCP entities by their bearers. `bits` is the length of the sequence number.
#[derive(Clone, Copy, Debug, PartialEq, Eq)]
pub enum PdcpKind {
    /// A signalling bearer, with 5 bits.
    Srb,
    /// A data bearer over unacknowledged RLC, with 7 or 12 bits.
    Um { bits: u32 },
    /// A data bearer over acknowledged RLC, with 12 or 15 bits.
    Am { bits: u32 },
}

/// A PDU of a data bearer.
#[derive(Clone, Copy, Debug, PartialEq, Eq)]
pub enum User<'a> {
    /// A data PDU: its sequence number and its data part, of 1 octet or more.
    Sdu { sn: u32, octets: &'a [u8] },
    /// A status report: the first number that is missing, and the bits of the numbers behind it.
    Report { fms: u32, bitmap: &'a [u8] },
}

/// A PDU of a signalling bearer: its sequence number of 5 bits, its data part, of 1 octet or more,
/// and its MAC-I.
#[derive(Clone, Copy, Debug, PartialEq, Eq)]
pub struct Srb<'a> {
    pub sn: u32,
    pub octets: &'a [u8],
    pub tag: [u8; 4],
}

/// Why a PDU is refused.
#[derive(Clone, Copy, Debug, PartialEq, Eq)]
pub enum PdcpWhy {
    /// The PDU ends within its header, or before its MAC-I and one octet of data.
    Short = 1,
    /// A control PDU is no status report, or the numbers have 7 bits, with which there is none.
    ReservedType = 2,
    /// No data follows the header.
    EmptyData = 3,
}

/// Why a PDU is refused, and at which of its octets, counted from 0. For `Short` that is its
/// length.
#[derive(Clone, Copy, Debug, PartialEq, Eq)]
pub struct PdcpRefusal {
    pub at: u32,
    pub why: PdcpWhy,
}

impl PdcpRefusal {
    pub(crate) fn new(at: u32, why: PdcpWhy) -> PdcpRefusal
        ensures { result ≡ record { at = at; why = why } }
    {
        PdcpRefusal { at, why }
    }
}
