/// The most octets of a grant, and so of a block.
pub const GREATEST_GRANT: u32 = 9422;

/// The most octets of an SDU (TS 36.323 4.3.1).
pub const GREATEST_SDU: usize = 8188;

/// The most SDUs that wait at an end of a bearer.
pub const MOST_WAITING: usize = 1024;
