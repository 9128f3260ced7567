use l2_types::{AmRxConfig, AmTxConfig, Channel, Kind};

/// A bearer as both ends are configured with it.
///
/// A field for which the kind has no option holds its default.
#[derive(Clone, Copy, Debug, PartialEq, Eq)]
pub struct BearerConfig {
    /// The logical channel.
    pub channel: Channel,
    /// The kind.
    pub kind: Kind,
    /// The bits of an RLC number: 5 or 10, and 0 for a transparent bearer.
    pub rlc_bits: u32,
    /// The bits of a PDCP number: 5, 7, 12 or 15, and 0 for a transparent bearer.
    pub pdcp_bits: u32,
    /// The first COUNT of both directions of an acknowledged data bearer.
    pub first: u32,
    /// The acknowledged sender.
    pub tx: AmTxConfig,
    /// The receiver.
    pub rx: AmRxConfig,
}
