/// A timer of RLC (TS 36.322 7.3).
#[derive(Clone, Copy, Debug, PartialEq, Eq)]
pub enum Clock {
    /// t-PollRetransmit, of an acknowledged sender.
    Poll,
    /// t-Reordering, of a receiver.
    Reorder,
    /// t-StatusProhibit, of an acknowledged receiver.
    Prohibit,
}

/// What a PDU is to its sender.
#[derive(Clone, Copy, Debug, PartialEq, Eq)]
pub enum How {
    /// Transparent.
    Tm,
    /// A new data PDU.
    New,
    /// A data PDU, or a part of one, that is sent again.
    Re,
    /// A STATUS.
    Status,
}

/// Why a bearer with data waiting writes no data PDU.
#[derive(Clone, Copy, Debug, PartialEq, Eq)]
pub enum Waits {
    /// The retransmission limit was reached.
    Stopped,
    /// The window is shut.
    Shut,
    /// HARQ holds a PDU so old that a new number could be misread.
    Held,
    /// No PDU fits.
    Small,
}

/// Why a PDU or an SDU that an end has is dropped.
#[derive(Clone, Copy, Debug, PartialEq, Eq)]
pub enum Lost {
    /// A PDU arrives on a logical channel that has no bearer.
    NoBearer,
    /// An RLC data PDU brings nothing new.
    Repeat,
    /// The number of an RLC data PDU lies outside the receiving window.
    Outside,
    /// An RLC data PDU contradicts what is held of its number.
    Clash,
    /// A PDCP PDU has a COUNT that was handed up or is held, or one that no COUNT awaited can be.
    Old,
    /// A PDCP PDU has a COUNT of 2^32 or more.
    Range,
    /// The ACK_SN of a STATUS lies outside what was sent and isn't acknowledged.
    Ignored,
    /// A handover ends the life in which an SDU of a signalling bearer was completed.
    Handover,
    /// The bearer doesn't take an SDU that a test loop returns.
    Loop,
    /// A PDCP status report has an FMS that no COUNT can be, or comes where there are none.
    Report,
}
