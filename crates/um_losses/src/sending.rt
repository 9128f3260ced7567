// What the sender of a flow has written in this life.
ghost use Rattle.std.specs.Prelude.{◌≡◌, OnOk, slice_index_or, slice_set, None};
ghost use Rattle.um_losses.specs.Sending.{nothing_written, renewed, written};

use crate::pdu::Pdu;
use l2_bits::NoMemory;
use std::marker::Model;

// A PDU of the sender, with its whole number and the COUNT of the SDU of its first element.
#[derive(Clone, Copy)]
pub(crate) struct InFlight {
    pub(crate) number: u64,
    pub(crate) first: u64,
    pub(crate) pdu: Pdu,
}

#[derive(Drop)]
pub(crate) struct Sending {
    sent: u64,
    ended: u64,
    under_way: [Option<InFlight>; 8],
}

impl Model for Sending {
    ghost use Rattle.std.specs.Prelude.{◌≡◌, length};
    ghost use Rattle.um_losses.specs.Sending.{Sending as Machine};

    ghost Value = { Machine };

    ghost view = { λ s. record { sent = s.sent; ended = s.ended; under_way = s.under_way } };

    ghost invariant = { λ s. length s.under_way ≡ 8 };
}

impl Sending {
    pub(crate) fn new() -> Sending
        ensures { result ≡ nothing_written }
    {
        Sending {
            sent: 0,
            ended: 0,
            under_way: [None; 8],
        }
    }

    // A process begins a new block.
    pub(crate) fn renew(&mut self, process: u32)
        ensures { self.new ≡ renewed process self.old }
    {
        self.put(process, None);
    }

    // The next PDU is written into a block of a process.
    pub(crate) fn write(&mut self, process: u32, pdu: Pdu) -> Result<(), NoMemory>
        ensures { OnOk result (self.new ≡ written process pdu self.old) }
    {
        let sent = InFlight {
            number: self.sent,
            first: self.ended,
            pdu,
        };
        self.put(process, Some(sent));
        self.sent = self.sent.checked_add(1).ok_or(NoMemory)?;
        self.ended = self.ended.checked_add(pdu.ends() as u64).ok_or(NoMemory)?;
        Ok(())
    }

    #[tactic(auto, using(crate::proofs::Processes::past))]
    fn put(&mut self, process: u32, sent: Option<InFlight>)
        ensures { self.new ≡ record self.old {
          under_way =
              slice_set self.old.under_way process sent;
        } }
    {
        if process < 8 {
            self.under_way[process as usize] = sent;
        }
    }

    // The PDU in the last new block of a process.
    #[tactic(auto, using(crate::proofs::Processes::past))]
    pub(crate) fn under_way(&self, process: u32) -> Option<InFlight>
        ensures { result ≡ slice_index_or self.now.under_way process None }
    {
        if process < 8 {
            self.under_way[process as usize]
        } else {
            None
        }
    }
}
