/// An acknowledged sender (TS 36.322 7.3, 7.4).
#[derive(Clone, Copy, Debug, PartialEq, Eq)]
pub struct AmTxConfig {
    /// New PDUs that bring a poll (pollPDU), 1 to 65535; `None` is infinite.
    pub poll_pdu: Option<u32>,
    /// Octets of new PDUs that bring a poll (pollByte), 1 to 4000000; `None` is infinite.
    pub poll_byte: Option<u32>,
    /// The poll timer (t-PollRetransmit) in TTIs, 0 to 65535; at 0 it never ends by itself.
    pub poll_retransmit: u32,
    /// The retransmission limit (maxRetxThreshold), 1 to 32.
    pub max_retx: u32,
}

/// An acknowledged receiver (TS 36.322 7.3).
#[derive(Clone, Copy, Debug, PartialEq, Eq)]
pub struct AmRxConfig {
    /// The reordering timer (t-Reordering) in TTIs, 0 to 65535; at 0 it never ends by itself.
    pub reorder: u32,
    /// The prohibit timer (t-StatusProhibit) in TTIs, 0 to 65535; `None` is off.
    pub prohibit: Option<u32>,
}

/// When a terminal listens (DRX, TS 36.321 5.7); each length is in TTIs.
#[derive(Clone, Copy, Debug, PartialEq, Eq)]
pub struct DrxConfig {
    /// At the beginning of each cycle it listens so long, 1 to 200.
    pub on: u32,
    /// After a TTI with a new block, so long, 0 to 2560.
    pub inactivity: u32,
    /// From 8 TTIs after a damaged block on, so long, 0 to 33.
    pub retransmit: u32,
    /// The length of a cycle, 1 to 2560.
    pub cycle: u32,
    /// Where the cycles begin, below `cycle`.
    pub offset: u32,
}
