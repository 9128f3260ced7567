/// The direction of a block.
#[derive(Clone, Copy, Debug, PartialEq, Eq)]
pub enum Direction {
    /// From the base station to the terminal.
    Down,
    /// From the terminal to the base station.
    Up,
}

/// A buffer status report (TS 36.321 6.1.3.1). A group is 0 to 3, a Buffer Size level 0 to 63.
#[derive(Clone, Copy, Debug, PartialEq, Eq)]
pub enum Bsr {
    /// One group where others have data too.
    Truncated { group: u8, level: u8 },
    /// One group.
    Short { group: u8, level: u8 },
    /// All groups, group 0 first.
    Long { levels: [u8; 4] },
}

/// A control element (TS 36.321 6.1.3).
#[derive(Clone, Copy, Debug, PartialEq, Eq)]
pub enum Control {
    /// The contention resolution identity, downlink.
    Contention([u8; 6]),
    /// The timing advance command, 0 to 63, downlink.
    Advance(u8),
    /// The DRX command, downlink.
    Drx,
    /// The power headroom level, 0 to 63, uplink.
    Phr(u8),
    /// The terminal's C-RNTI, uplink.
    Crnti(u16),
    /// A buffer status report, uplink.
    Report(Bsr),
}

/// An item of a block, in the order of subheaders.
#[derive(Clone, Copy, Debug, PartialEq, Eq)]
pub enum Item<'a> {
    /// A padding subheader in front of the others.
    Front,
    /// A control element.
    Element(Control),
    /// An SDU on a logical channel, 0 to 10.
    Sdu { lcid: u8, octets: &'a [u8] },
    /// Padding at the end, with the number of octets behind its subheader.
    Padding(u32),
}
