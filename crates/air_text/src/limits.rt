/// The most octets of a line, without its line feed.
pub const LONGEST_LINE: usize = 20_000;

/// The most lines of an input.
pub const MOST_LINES: u32 = 1_000_000;
