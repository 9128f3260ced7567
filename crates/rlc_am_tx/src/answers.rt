/// What a STATUS that is heard comes to.
#[derive(Clone, Copy, Debug, PartialEq, Eq)]
pub enum Heard {
    /// It is applied, and stopped a running poll timer or not.
    Applied { stopped: bool },
    /// Its ACK_SN doesn't lie from VT(A) to VT(S), and nothing changes.
    Ignored,
    /// It is applied, and the retransmission limit is reached by the PDU with this sequence number.
    Limit(u32),
}

/// What an expiry of the poll timer comes to.
#[derive(Clone, Copy, Debug, PartialEq, Eq)]
pub enum PollExpired {
    /// The timer doesn't run, and nothing changes.
    NotRunning,
    /// A poll is owed from now on.
    Done,
    /// The retransmission limit is reached by the PDU with this sequence number.
    Limit(u32),
}
