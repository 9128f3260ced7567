/// What a call of `AmTx::take` comes to. Contracts speak of it.
#[derive(Clone, Copy, Debug, PartialEq, Eq)]
pub enum Turn {
    /// Nothing is to be sent.
    Idle,
    /// The retransmission limit was reached.
    Stopped,
    /// A PDU is sent again.
    Whole,
    /// A segment of a PDU is sent again.
    Part,
    /// What is to be sent doesn't fit.
    Small,
    /// The window has no room for a new number.
    Shut,
    /// HARQ holds a number so far back that a new one could be misread.
    Held,
    /// A new PDU is sent.
    New,
}
