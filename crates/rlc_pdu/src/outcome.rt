use l2_bits::Bytes;

/// What a sender answers where it is asked for a PDU.
#[derive(Debug, Drop)]
pub enum Taken {
    /// A PDU of the number: whether it is sent for the first time, whether it asks for a STATUS,
    /// and its octets.
    Piece {
        number: u64,
        fresh: bool,
        polled: bool,
        octets: Bytes,
    },
    /// Nothing is to be sent.
    Idle,
    /// What is to be sent doesn't fit.
    Small,
    /// The window has no room for a new number.
    Shut,
    /// A block that HARQ still holds has a number too far back.
    Held,
    /// The sender has given up.
    Stopped,
}

/// What a receiver does with a PDU.
#[derive(Clone, Copy, Debug, PartialEq, Eq)]
pub enum Landed {
    /// It is kept.
    Kept,
    /// It has nothing new.
    Repeat,
    /// Its number lies outside the window.
    Outside,
    /// It contradicts what is held of its number.
    Clash,
}

/// What an arrival did to the reordering timer: first stopped it, then started it.
#[derive(Clone, Copy, Debug, PartialEq, Eq)]
pub struct Turned {
    pub stopped: bool,
    pub started: bool,
}

/// What a timer's expiry did.
#[derive(Clone, Copy, Debug, PartialEq, Eq)]
pub enum Expired {
    /// The timer expired, and was started again or not.
    Done { again: bool },
    /// The timer wasn't running, and nothing was done.
    NotRunning,
}
