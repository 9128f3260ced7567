use l2_bits::{Bytes, Items};
use l2_types::{Clock, How, Lost, Waits};
use mac_pdu::MacRefusal;
use pdcp_pdu::PdcpRefusal;
use rlc_pdu::RlcRefusal;

/// What happens at one end. `lcid` is the logical channel, 0 to 10; lengths are in octets.
#[derive(Debug, Drop)]
pub enum Event {
    /// RLC takes an SDU of `len` octets, to which PDCP gave a COUNT; a transparent one has none.
    Take {
        lcid: u8,
        count: Option<u32>,
        len: u32,
    },
    /// RLC takes a PDCP status report (TS 36.323 6.2.6): its FMS, and the bits of the numbers
    /// behind it.
    Report {
        lcid: u8,
        fms: u32,
        bitmap: Bytes,
    },
    /// A PDU is written: its number, which is 0 for a transparent one and ACK_SN for a STATUS.
    Send {
        lcid: u8,
        how: How,
        sn: u32,
    },
    /// Data waits and no data PDU is written.
    Wait {
        lcid: u8,
        why: Waits,
    },
    /// A timer is started, or started again.
    Start {
        lcid: u8,
        clock: Clock,
    },
    /// A timer is stopped.
    Stop {
        lcid: u8,
        clock: Clock,
    },
    /// A timer expires.
    Expired {
        lcid: u8,
        clock: Clock,
    },
    /// An SDU is handed up.
    Up {
        lcid: u8,
        octets: Bytes,
    },
    /// The PDU of this number reaches the retransmission limit (TS 36.322 5.2.1).
    Fail {
        lcid: u8,
        sn: u32,
    },
    /// A PDU that arrived, or an SDU, is dropped.
    Drop {
        lcid: u8,
        why: Lost,
    },
    /// A PDU of a signalling bearer is dropped, since the MAC-I that it has isn't the one that is
    /// wanted.
    Integrity {
        lcid: u8,
        found: [u8; 4],
        wanted: [u8; 4],
    },
    /// A block arrives that can't be read.
    BadMac(MacRefusal),
    /// An RLC PDU arrives that can't be read.
    BadRlc {
        lcid: u8,
        fault: RlcRefusal,
    },
    /// A PDCP PDU arrives that can't be read.
    BadPdcp {
        lcid: u8,
        fault: PdcpRefusal,
    },
    /// The discard timer of the first waiting SDU, of `len` octets, ends (TS 36.323 5.4).
    Discard {
        lcid: u8,
        len: u32,
    },
}

/// Events in the order in which they happened.
pub type Events = Items<Event>;
