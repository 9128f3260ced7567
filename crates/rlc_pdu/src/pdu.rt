use crate::elements::Elements;
use crate::entries::NackReader;
use l2_bits::Items;

/// What the header of an AMD PDU segment says beyond that of an AMD PDU (TS 36.322 6.2.1.5).
#[derive(Clone, Copy, Debug, PartialEq, Eq)]
pub struct Segment {
    /// Whether the segment ends the AMD PDU's data field.
    pub last: bool,
    /// The place of the segment's first octet in the AMD PDU's data field, below 2^15.
    pub so: u32,
}

/// A UMD PDU (TS 36.322 6.2.1.3).
#[derive(Clone, Copy)]
pub struct Umd<'a> {
    /// The number, of 5 or 10 bits.
    pub sn: u32,
    /// The framing info, below 4: its upper bit is 0 exactly where the field begins an SDU, its
    /// lower bit exactly where it ends one.
    pub fi: u8,
    pub elements: Elements<'a>,
}

/// An AMD PDU, or a segment of one (TS 36.322 6.2.1.4, 6.2.1.5).
#[derive(Clone, Copy)]
pub struct Amd<'a> {
    /// The number, of 10 bits.
    pub sn: u32,
    /// Whether a STATUS is asked for.
    pub poll: bool,
    /// The framing info, as in `Umd`.
    pub fi: u8,
    /// `None` for a whole AMD PDU.
    pub segment: Option<Segment>,
    pub elements: Elements<'a>,
}

/// A range of octets of an AMD PDU's data field, each place below 2^15; an end of 32767 is the
/// field's last octet.
#[derive(Clone, Copy, Debug, PartialEq, Eq)]
pub struct Part {
    pub start: u32,
    /// The place of the last octet, not below `start`.
    pub end: u32,
}

/// An entry of a STATUS: an AMD PDU that is missing, or a part of one (TS 36.322 6.2.1.6).
#[derive(Clone, Copy, Debug, PartialEq, Eq)]
pub struct Nack {
    /// The number, of 10 bits.
    pub sn: u32,
    pub part: Option<Part>,
}

/// Entries of a STATUS, in their order.
pub type Nacks = Items<Nack>;

/// A STATUS PDU (TS 36.322 6.2.1.6).
#[derive(Clone, Copy)]
pub struct StatusRead<'a> {
    /// ACK_SN, of 10 bits: the number of the next AMD PDU that is neither received nor reported as
    /// missing.
    pub ack: u32,
    pub nacks: NackReader<'a>,
}

/// A PDU of an acknowledged bearer.
#[derive(Clone, Copy)]
pub enum AmPdu<'a> {
    Payload(Amd<'a>),
    Status(StatusRead<'a>),
}
