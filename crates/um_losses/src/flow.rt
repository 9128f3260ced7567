// One direction of an unacknowledged bearer.
ghost use Rattle.std.specs.Prelude.{◌≡◌, OnOk, IfOk};
ghost use Rattle.rlc_pdu.specs.Pdus.{IsUmBits};
ghost use Rattle.rlc_um.specs.Receiver.{State as Receiver};
ghost use Rattle.um_losses.specs.Gaps.{all_counted};
ghost use Rattle.um_losses.specs.Flow.{begun, none_ready, all_gone, heard, arrived, expires};
ghost use Rattle.um_losses.specs.Flow.{restarts, written_in, after, is_of, concerns};

use crate::gaps::Gaps;
use crate::pdu::Pdu;
use crate::sending::{InFlight, Sending};
use crate::tags::{last_tag, tagged};
use l2_bits::NoMemory;
use mac_pdu::Direction;
use rlc_pdu::read_umd;
use rlc_um::UmRx;
use std::alloc::Global;
use std::marker::Model;
use std::mem;

/// What happens to a flow, as records tell it.
#[derive(Clone, Copy)]
pub enum Happening {
    /// A HARQ process of the sender begins a new block.
    BlockRenewed { process: u32 },
    /// A PDU is written into it.
    PduWritten { process: u32, pdu: Pdu },
    /// The block of a process arrives.
    BlockArrived { process: u32 },
    /// A forged PDU arrives.
    PduForged { pdu: Pdu },
    /// The reordering timer of the receiver expires.
    TimerExpired,
    /// Both ends begin another life.
    LifeRestarted,
}

// Which flows.
#[derive(Clone, Copy)]
pub(crate) enum Whose {
    All,
    Each { direction: Direction },
    One { direction: Direction, lcid: u8 },
}

#[derive(Drop)]
pub(crate) struct Flow {
    alloc: Global,
    direction: Direction,
    lcid: u8,
    bits: u32,
    sending: Sending,
    receiver: UmRx,
    gaps: Gaps,
}

impl Model for Flow {
    ghost use Rattle.std.specs.Prelude.{◌≡◌};
    ghost use Rattle.rlc_pdu.specs.Pdus.{IsUmBits};
    ghost use Rattle.rlc_um.specs.Sender.{width_of};
    ghost use Rattle.um_losses.specs.Flow.{Flow as Machine};

    ghost Value = { Machine };

    ghost view = { λ f. record {
      direction = f.direction;
      lcid = f.lcid;
      bits = f.bits;
      sending = f.sending;
      receiver = f.receiver.state;
      gaps = f.gaps;
    } };

    ghost invariant = { λ f. IsUmBits f.bits × (f.receiver.state.window.width ≡ width_of f.bits) };
}

impl Flow {
    // A flow of PDUs with numbers of so many bits, whose PDCP has so many sequence numbers.
    pub(crate) fn new(
        alloc: Global,
        direction: Direction,
        lcid: u8,
        bits: u32,
        counts: u64,
    ) -> Result<Flow, NoMemory>
        requires { IsUmBits bits }
        ensures { IfOk result (λ f. f ≡ begun direction lcid bits counts) }
    {
        Ok(Flow {
            alloc,
            direction,
            lcid,
            bits,
            sending: Sending::new(),
            receiver: UmRx::new(alloc, bits, 0)?,
            gaps: Gaps::new(bits, counts),
        })
    }

    pub(crate) fn is_of(&self, direction: Direction, lcid: u8) -> bool
        ensures { result ≡ is_of direction lcid self.now }
    {
        self.direction == direction && self.lcid == lcid
    }

    // Whether its losses were long.
    pub(crate) fn is_long(&self) -> bool
        ensures { result ≡ self.now.gaps.long }
    {
        self.gaps.long
    }

    pub(crate) fn concerns(&self, whose: Whose) -> bool
        ensures { result ≡ concerns whose self.now }
    {
        match whose {
            Whose::All => true,
            Whose::Each { direction } => self.direction == direction,
            Whose::One { direction, lcid } => self.is_of(direction, lcid),
        }
    }

    pub(crate) fn change(&mut self, what: Happening) -> Result<(), NoMemory>
        ensures { OnOk result (self.new ≡ after what self.old) }
    {
        match what {
            Happening::BlockRenewed { process } => {
                self.sending.renew(process);
                Ok(())
            }
            Happening::PduWritten { process, pdu } => self.write(process, pdu),
            Happening::BlockArrived { process } => match self.sending.under_way(process) {
                Some(sent) => self.arrive(sent),
                None => Ok(()),
            },
            Happening::PduForged { pdu } => self.hear(None, pdu),
            Happening::TimerExpired => {
                self.receiver.expire()?;
                self.hand_up();
                Ok(())
            }
            Happening::LifeRestarted => self.restart(),
        }
    }

    fn write(&mut self, process: u32, pdu: Pdu) -> Result<(), NoMemory>
        ensures { OnOk result (self.new ≡ written_in process pdu self.old) }
    {
        if pdu.is_pdu(self.bits) {
            self.sending.write(process, pdu)
        } else {
            Ok(())
        }
    }

    fn arrive(&mut self, sent: InFlight) -> Result<(), NoMemory>
        ensures { OnOk result (self.new ≡ arrived sent self.old) }
    {
        self.gaps.number(sent.number)?;
        self.hear(Some(sent.first), sent.pdu)
    }

    // The receiver hears a PDU, whose first element is of the SDU with this COUNT.
    fn hear(&mut self, first: Option<u64>, pdu: Pdu) -> Result<(), NoMemory>
        ensures { OnOk result (self.new ≡ heard first pdu self.old) }
    {
        if !pdu.is_pdu(self.bits) {
            return Ok(());
        }
        let octets = tagged(self.alloc, self.bits, first, pdu)?;
        let Ok(umd) = read_umd(self.bits, octets.as_slice()) else {
            unreachable!()
        };
        self.receiver.arrive(&umd)?;
        self.hand_up();
        Ok(())
    }

    fn hand_up(&mut self)
        ensures { self.new ≡ all_gone self.old }
    {
        hand_up(&mut self.receiver, &mut self.gaps);
    }

    // What can be put together is handed up, and all begins again.
    fn restart(&mut self) -> Result<(), NoMemory>
        ensures { OnOk result (self.new ≡ restarts self.old) }
    {
        let receiver = UmRx::new(self.alloc, self.bits, 0)?;
        let ended = mem::replace(&mut self.receiver, receiver);
        let Ok(sdus) = ended.finish() else {
            return Err(NoMemory);
        };
        self.gaps.count_all(sdus);
        self.gaps.restart();
        self.sending = Sending::new();
        Ok(())
    }
}

// What a receiver has ready is handed up.
fn hand_up(receiver: &mut UmRx, gaps: &mut Gaps)
    ensures gaps { gaps.new ≡ all_counted receiver.old.state.joined.ready gaps.old }
    ensures receiver { receiver.new.state ≡ none_ready receiver.old.state }
{
    while let Some(sdu) = receiver.up() {
        gaps.count(last_tag(sdu.as_slice()));
    }
}
