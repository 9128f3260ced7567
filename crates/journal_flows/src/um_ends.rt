// Both ends of an unacknowledged flow, through its lives.
ghost use Rattle.std.specs.Prelude.{◌≡◌, ◌^◌, ◌≤◌, OnOk, slice_get};
ghost use Rattle.rlc_pdu.specs.Pdus.{IsUmBits};
ghost use Rattle.journal_um.specs.UmEvents.{PduArrived};
ghost use Rattle.journal_um.specs.UmFlow.{sdu_taken};
ghost use Rattle.journal_um.specs.UmWindow.{width_of};
ghost use Rattle.journal_flows.specs.UmPdus.{AtReceiver};
ghost use Rattle.journal_flows.specs.UmKept.{nothing_come, ends_with, um_event_of};

use crate::um_sender::UmSender;
use journal_um::{JoinedSdu, Pieces, UmFlow};
use l2_bits::NoMemory;
use std::alloc::Global;
use std::marker::Model;

// What happens to a flow, but for a PDU that comes.
#[derive(Clone, Copy)]
pub(crate) enum UmHappening {
    SduTaken { size: u32 },
    NumberWritten { size: u32 },
    ReorderStarted,
    ReorderExpired,
    LifeEnded,
}

#[derive(Drop)]
pub(crate) struct UmEnds {
    alloc: Global,
    sender: UmSender,
    flow: UmFlow,
}

impl Model for UmEnds {
    ghost use Rattle.journal_flows.specs.UmKept.{UmEnds as Ends};

    ghost Value = { Ends };

    ghost view = { λ e. record { sender = e.sender; flow = e.flow } };
}

impl UmEnds {
    // As the bearer begins, with the bits of RLC's SNs and of PDCP's.
    pub(crate) fn new(alloc: Global, sn_bits: u32, pdcp_bits: u32) -> UmEnds
        requires sn_bits { IsUmBits sn_bits }
        requires pdcp_bits { pdcp_bits ≤ 31 }
        ensures { result ≡ nothing_come (width_of sn_bits) (2 ^ pdcp_bits) }
    {
        UmEnds {
            alloc,
            sender: UmSender::new(alloc),
            flow: UmFlow::new(alloc, sn_bits, pdcp_bits),
        }
    }

    pub(crate) fn flow(&self) -> &UmFlow
        ensures { result.now ≡ self.now.flow }
    {
        &self.flow
    }

    // The number that is written next.
    pub(crate) fn next(&self) -> u64
        ensures { result ≡ self.now.sender.next }
    {
        self.sender.next()
    }

    // The place of the SDU of the octets that are written next.
    pub(crate) fn place(&self) -> u64
        ensures { result ≡ self.now.sender.ended }
    {
        self.sender.place()
    }

    // Takes the next SDU that goes up.
    pub(crate) fn next_joined(&mut self) -> Option<JoinedSdu>
        ensures value { result ≡ slice_get self.old.flow.joiner.ready 0 }
        ensures rest { self.new
            ≡ record { sender = self.old.sender; flow = sdu_taken self.old.flow } }
    {
        self.flow.next_joined()
    }

    pub(crate) fn change(&mut self, what: UmHappening) -> Result<(), NoMemory>
        ensures { OnOk result (self.new ≡ ends_with (um_event_of what) self.old) }
    {
        match what {
            UmHappening::SduTaken { size } => self.sender.take(size),
            UmHappening::NumberWritten { size } => self.sender.write(size),
            UmHappening::ReorderStarted => {
                self.flow.start_reorder();
                Ok(())
            }
            UmHappening::ReorderExpired => self.flow.expire_reorder(),
            UmHappening::LifeEnded => {
                self.sender = UmSender::new(self.alloc);
                self.flow.end_life()
            }
        }
    }

    // A PDU comes to the receiver.
    pub(crate) fn arrive(&mut self, number: u64, pieces: Pieces) -> Result<(), NoMemory>
        ensures { OnOk result
            (self.new ≡ ends_with (AtReceiver (PduArrived number pieces)) self.old) }
    {
        self.flow.arrive(number, pieces)
    }
}
