use l2_bits::Bytes;
use pdcp_pdu::PdcpRefusal;

/// How a PDU comes: it arrived, or RLC hands it up as it is re-established (TS 36.323 5.1.2.1.2).
#[derive(Clone, Copy, Debug, PartialEq, Eq)]
pub enum Cause {
    Arrived,
    Reestablished,
}

/// What a receiver made of a PDU.
#[derive(Debug, Drop)]
pub enum Got {
    /// Its SDU goes up, with all that were held below it and those that follow without a gap.
    Up,
    /// Its SDU is held until those below it have come.
    Stored,
    /// Its COUNT lies outside the window, or an SDU is held at it.
    Old,
    /// Its COUNT would be 2^32 or more.
    OutOfRange,
    /// Its MAC-I, deciphered, isn't the one that it should have.
    Integrity { found: [u8; 4], wanted: [u8; 4] },
    /// It is a status report for the sender of this end.
    Report { fms: u32, bitmap: Bytes },
    /// It can't be read.
    Unreadable(PdcpRefusal),
}
