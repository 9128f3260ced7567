/// Octets that are read bit by bit are fewer than so many: the place of each bit is then a number
/// of 31 bits.
pub const OCTETS_LIMIT: usize = 1 << 28;
