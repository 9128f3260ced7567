use bearer_types::BearerConfig;
use eps_sec::{Key, Keys};
use l2_bits::Bytes;
use l2_types::{Clock, DrxConfig, Side};

/// What becomes of a block on its way.
#[derive(Clone, Copy, Debug, PartialEq, Eq)]
pub enum Fate {
    /// It arrives intact.
    Ok,
    /// It arrives damaged, which is always detected.
    Bad,
    /// The other end doesn't see it, or not the grant for it.
    Miss,
}

/// What becomes of a block, and whether its feedback is misread.
#[derive(Clone, Copy, Debug, PartialEq, Eq)]
pub struct Outcome {
    pub fate: Fate,
    /// The feedback is read as its opposite, which a script writes as `~`.
    pub flipped: bool,
}

/// A line of a script. Grants, blocks and SDUs are in octets, `lcid` is 0 to 10.
#[derive(Debug, Drop)]
pub enum Line {
    /// The most visits of a block by HARQ, 1 to 28.
    Harq {
        visits: u32,
    },
    /// The terminal adds buffer status reports where there is padding.
    Bsr,
    /// The cipher and the keys.
    Keys {
        keys: Keys,
    },
    /// A bearer, with the words of its options as they were given, single spaces between.
    Bearer {
        config: BearerConfig,
        options: Bytes,
    },
    /// An SDU of 1 to 8188 octets is handed to an end.
    Submit {
        side: Side,
        lcid: u8,
        octets: Bytes,
    },
    /// A TTI with grants of 0 to 9422 octets.
    Tti {
        up_grant: u32,
        up: Outcome,
        down_grant: u32,
        down: Outcome,
    },
    /// A running timer expires at once.
    Expire {
        side: Side,
        lcid: u8,
        clock: Clock,
    },
    /// A handover to new keys.
    Handover {
        user: Key,
        rrc: Key,
        integrity: Key,
    },
    /// The terminal returns nothing.
    LoopOff,
    /// Test loop mode A (TS 36.509): SDUs come back cut or repeated to the size, 0 to 8188; as they
    /// are at 0.
    LoopA {
        size: u32,
    },
    /// Test loop mode B: SDUs come back together, 0 to 65535 TTIs after the first was kept.
    LoopB {
        delay: u32,
    },
    /// TTIs with both grants of 0 to 9422 octets until nothing is left.
    Drain {
        grant: u32,
    },
    /// A block of 1 to 9422 octets arrives at an end as if it were intact.
    Forge {
        side: Side,
        octets: Bytes,
    },
    /// What follows isn't read.
    End,
    /// The discard timer of a bearer, 2 to 65535 TTIs.
    Discard {
        lcid: u8,
        ttis: u32,
    },
    /// When the terminal listens.
    Drx {
        config: DrxConfig,
    },
}
