/// The most octets of a record's text, without its line feed.
pub const LONGEST_RECORD: usize = 32_768;

/// The most records of a journal.
pub const MOST_RECORDS: u32 = 100_000_000;
