/// The kind of a bearer: how RLC carries it, and whether PDCP stands above (TS 36.322 4.2.1).
#[derive(Clone, Copy, Debug, PartialEq, Eq)]
pub enum Kind {
    /// Transparent, on LCID 0.
    Tm,
    /// A signalling bearer, acknowledged, on LCID 1 and 2.
    Srb,
    /// An unacknowledged data bearer, on LCID 3 to 10.
    Um,
    /// An acknowledged data bearer, on LCID 3 to 10.
    Am,
}

/// A logical channel as MAC shares a grant among them (TS 36.321 5.4.3.1).
#[derive(Clone, Copy, Debug, PartialEq, Eq)]
pub struct Channel {
    /// The logical channel's identity, 0 to 10.
    pub lcid: u8,
    /// 1 to 16; a lower number comes first.
    pub priority: u8,
    /// The prioritised bit rate in octets a TTI, up to 65535; `None` is infinite.
    pub pbr: Option<u32>,
    /// The bucket's duration, 1 to 1000 TTIs.
    pub bucket: u32,
    /// The group whose buffer is reported, 0 to 3.
    pub group: u8,
}

impl Default for Channel {
    fn default() -> Channel {
        Channel {
            lcid: 0,
            priority: 1,
            pbr: None,
            bucket: 100,
            group: 0,
        }
    }
}
