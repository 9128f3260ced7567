use rlc_pdu::Part;

/// An entry of a STATUS, with its true number (TS 36.322 6.2.1.6).
#[derive(Clone, Copy, Debug, PartialEq, Eq)]
pub struct StatusEntry {
    pub number: u64,
    /// `None` for all octets of the number. An end of 32767 is its last octet.
    pub part: Option<Part>,
}
