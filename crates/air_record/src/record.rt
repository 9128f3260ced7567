use crate::boxed::BoxedLine;
use bearer_types::Event;
use l2_bits::{Bytes, Items};
use l2_types::Side;
use mac_pdu::{Control, Direction, MacRefusal};
use pdcp_pdu::PdcpRefusal;
use rlc_pdu::{Nacks, RlcRefusal};

/// The lengths in octets of the elements of an RLC data PDU.
pub type Lens = Items<u32>;

/// What arrived of a block.
#[derive(Clone, Copy, Debug, PartialEq, Eq)]
pub enum Arrived {
    /// The block, intact.
    Got,
    /// A block that was decoded before.
    Dup,
    /// A damaged block.
    Bad,
    /// Nothing.
    Nothing,
}

/// Why a bearer did not take an SDU.
#[derive(Clone, Copy, Debug, PartialEq, Eq)]
pub enum NoPlace {
    /// As many SDUs wait as may wait.
    Full,
    /// Every COUNT has been given out.
    Count,
}

/// How a direction of a bearer ended.
#[derive(Clone, Copy, Debug, PartialEq, Eq)]
pub enum State {
    /// As it should.
    Ok,
    /// The retransmission limit was reached in the last life.
    Failed,
    /// Unacknowledged, with short losses alone.
    Short,
    /// Unacknowledged, with losses so long that numbers could be misread.
    Long,
}

/// A record: one line of a journal, or of what is shown of a block.
///
/// Lengths are in octets, `sn` and `fms` are as the PDU has them, and `fi` is below 4 (TS 36.322
/// 6.2.2.6).
#[derive(Debug, Drop)]
pub enum Record {
    /// A line was accepted.
    Line {
        number: u32,
        line: BoxedLine,
    },
    /// A TTI begins.
    Tti {
        tti: u64,
    },
    /// The terminal sleeps in the TTI that began.
    Sleep,
    /// What happened at one end.
    Of {
        side: Side,
        event: Event,
    },
    /// A block is sent by a HARQ process, 0 to 7: a new one where `fresh`, with its redundancy
    /// version, 0 to 3.
    Block {
        direction: Direction,
        process: u32,
        fresh: bool,
        rv: u8,
        octets: Bytes,
    },
    /// What arrived of a block, and the feedback as its sender reads it: `None` where none is
    /// awaited.
    Air {
        direction: Direction,
        what: Arrived,
        heard: Option<bool>,
    },
    /// A submitted SDU was not accepted.
    Refused {
        side: Side,
        lcid: u8,
        why: NoPlace,
    },
    /// The test loop submits an SDU.
    Looped {
        lcid: u8,
        octets: Bytes,
    },
    /// A drain ended after so many rounds.
    Drained {
        rounds: u64,
    },
    /// The SDUs submitted and delivered on one direction of a bearer.
    Sum {
        direction: Direction,
        lcid: u8,
        submitted: u64,
        delivered: u64,
        state: State,
    },
    /// A padding subheader at the front of a block.
    MacFront,
    /// An SDU of a block.
    MacSdu {
        lcid: u8,
        len: u32,
    },
    /// The padding at the end of a block, without its subheader.
    MacPad {
        octets: u32,
    },
    /// A control element of a block.
    MacControl {
        element: Control,
    },
    /// A transparent PDU.
    RlcTm {
        len: u32,
    },
    /// A UMD PDU.
    RlcUm {
        sn: u32,
        fi: u8,
        lens: Lens,
    },
    /// An AMD PDU.
    RlcAm {
        sn: u32,
        poll: bool,
        fi: u8,
        lens: Lens,
    },
    /// An AMD PDU segment.
    RlcSeg {
        sn: u32,
        poll: bool,
        fi: u8,
        last: bool,
        so: u32,
        lens: Lens,
    },
    /// A STATUS.
    RlcStatus {
        ack: u32,
        nacks: Nacks,
    },
    /// A PDCP data PDU of a data bearer, with the length of its data part.
    PdcpData {
        sn: u32,
        len: u32,
    },
    /// A PDCP PDU of a signalling bearer, with the length of its data part and its MAC-I.
    PdcpSrb {
        sn: u32,
        len: u32,
        tag: [u8; 4],
    },
    /// A PDCP status report.
    PdcpReport {
        fms: u32,
        bitmap: Bytes,
    },
    /// A block is shown: the `number`-th, of `len` octets.
    Shown {
        number: u32,
        direction: Direction,
        len: u32,
    },
    /// A shown block that can't be read.
    BadMac {
        fault: MacRefusal,
    },
    /// A shown RLC PDU that can't be read.
    BadRlc {
        fault: RlcRefusal,
    },
    /// A shown PDCP PDU that can't be read.
    BadPdcp {
        fault: PdcpRefusal,
    },
}
