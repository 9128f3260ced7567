use l2_bits::{Bytes, Items};

/// A piece of an SDU, as a UMD PDU carries it (TS 36.322 6.2.1.3, 6.2.2.6).
#[derive(Debug, Drop)]
pub struct Piece {
    pub octets: Bytes,
    /// Whether it begins its SDU.
    pub begins: bool,
    /// Whether it ends its SDU.
    pub ends: bool,
    /// The place of its SDU among those of the life, counted from 0: its COUNT.
    pub place: u64,
}

/// Pieces, one behind the other.
pub type Pieces = Items<Piece>;

/// An SDU that was joined.
#[derive(Debug, Drop)]
pub struct JoinedSdu {
    /// The place that the piece which ends it has.
    pub place: u64,
    pub octets: Bytes,
}
