ghost use Rattle.std.specs.Prelude.{◌≡◌, ◌<◌, ◌≤◌, ◌^◌, ◌%◌, length, slice_get, OnOk, OnErr, IfOk};
ghost use Rattle.std.specs.Prelude.{IfErr, IsErr, IsTrue};
ghost use Rattle.l2_bits.specs.Bits.{bits_of};
ghost use Rattle.l2_num.specs.Timers.{ends};
ghost use Rattle.rlc_pdu.specs.Views.{amd_of};
ghost use Rattle.rlc_pdu.specs.Status.{status_size};
ghost use Rattle.rlc_pdu.specs.Writing.{status_written};
ghost use Rattle.rlc_am_rx.specs.State.{fresh};
ghost use Rattle.rlc_am_rx.specs.Status.{may_write, ack, nacks, whole_size};
ghost use Rattle.rlc_am_rx.specs.Machine.{landed, arrived, turned, after_reorder, reorder_answer};
ghost use Rattle.rlc_am_rx.specs.Machine.{after_prohibit, prohibit_answer, reorder_ticked};
ghost use Rattle.rlc_am_rx.specs.Machine.{prohibit_ticked, prohibit_ends, written, taken, finished};
ghost use Rattle.rlc_am_rx.specs.Entity.{alive};
ghost use Rattle.rlc_pdu.specs.declared.constants.TheConstants.{AM_MODULUS};

use crate::receiver::Receiver;
use l2_bits::{Bytes, NoMemory, Packets};
use l2_types::AmRxConfig;
use rlc_pdu::{Amd, Expired, Landed, Turned};
use std::alloc::Global;
use std::marker::Model;

/// The receiving side of an acknowledged RLC entity.
///
/// Where memory runs out in a call, it answers `NoMemory` from then on to each call that can, and
/// of its other answers nothing is said.
#[derive(Drop)]
pub struct AmRx {
    receiver: Receiver,
    dead: bool,
}

impl Model for AmRx {
    ghost use Rattle.rlc_am_rx.specs.Entity.{Entity};

    ghost Value = { Entity };

    ghost view = { λ r. record { state = r.receiver; dead = r.dead } };
}

impl AmRx {
    /// A receiver to which nothing has come, with room for a window of 512 numbers.
    pub fn new(alloc: Global, config: AmRxConfig) -> Result<AmRx, NoMemory>
        ensures { IfOk result (λ r. r ≡ alive (fresh config)) }
    {
        Ok(AmRx {
            receiver: Receiver::new(alloc, config)?,
            dead: false,
        })
    }

    /// Takes an AMD PDU or a segment of one, whose number has 10 bits (TS 36.322 5.1.3.2.2,
    /// 5.1.3.2.3).
    ///
    /// It is `Outside` where its number isn't one of the 512 from VR(R) on; else a `Repeat` where
    /// no octet of it is new; else a `Clash` where octets that are held disagree on the field's
    /// length or on a place where an SDU ends, or where an octet lies past place 32766 of its
    /// field. Else it is `Kept`. A poll in a PDU that is dropped makes a STATUS due, but not in a
    /// `Clash`. Also told is what became of the reordering timer.
    pub fn arrive(&mut self, pdu: &Amd<'_>) -> Result<(Landed, Turned), NoMemory>
        requires { pdu.now.sn < AM_MODULUS }
        ensures landed { IfOk result (λ r. r.0 ≡ landed self.old.state (amd_of pdu.now)) }
        ensures turned { IfOk result (λ r. r.1 ≡ turned self.old.state (amd_of pdu.now)) }
        ensures state { OnOk result (self.new ≡ alive (arrived self.old.state (amd_of pdu.now))) }
        ensures dead { IsTrue self.old.dead → IsErr result }
        ensures err { OnErr result (IsTrue self.new.dead) }
    {
        if self.dead {
            return Err(NoMemory);
        }
        let answer = self.receiver.arrive(pdu);
        self.dead = answer.is_err();
        answer
    }

    /// Takes out the next SDU that goes up; `None` exactly where none is ready.
    pub fn up(&mut self) -> Option<Bytes>
        ensures value { result ≡ slice_get self.old.state.out.ready 0 }
        ensures state { self.new ≡ record self.old { state = taken self.old.state } }
    {
        self.receiver.up()
    }

    /// Whether a STATUS is due and the prohibit timer doesn't run.
    pub fn status_due(&self) -> bool
        ensures { result ≡ may_write self.now.state }
    {
        self.receiver.may_write()
    }

    /// How many octets a STATUS with all its entries has, where one may be written; else 0.
    pub fn status_size(&self) -> u32
        ensures { result ≡ whole_size self.now.state }
    {
        self.receiver.status_size()
    }

    /// Writes a STATUS of at most so many octets, 2 or more, where one may be written (TS 36.322
    /// 5.2.3).
    ///
    /// It has the longest beginning of its entries that fits. Its ACK_SN is the next number that
    /// isn't complete and has no entry. The prohibit timer starts, if it isn't off.
    pub fn write_status(&mut self, size: u32) -> Result<Bytes, NoMemory>
        requires due { IsTrue (may_write self.old.state) }
        requires size { 2 ≤ size }
        ensures bits { IfOk result (λ pdu. bits_of pdu
            ≡ status_written (ack self.old.state size % AM_MODULUS) (nacks self.old.state size)) }
        ensures size { IfOk result (λ pdu. length pdu ≡ status_size (nacks self.old.state size)) }
        ensures within { IfOk result (λ pdu. length pdu ≤ size) }
        ensures state { OnOk result (self.new ≡ alive (written self.old.state)) }
        ensures dead { IsTrue self.old.dead → IsErr result }
        ensures err { OnErr result (IsTrue self.new.dead) }
    {
        if self.dead {
            return Err(NoMemory);
        }
        let answer = self.receiver.write_status(size);
        self.dead = answer.is_err();
        answer
    }

    /// A TTI begins. True exactly where the reordering timer reaches its end.
    pub fn tick_reorder(&mut self) -> bool
        ensures answer { result ≡ ends self.old.state.reorder }
        ensures state { self.new ≡ record self.old { state = reorder_ticked self.old.state } }
    {
        self.receiver.tick_reorder()
    }

    /// A TTI begins. True exactly where the prohibit timer reaches its end.
    pub fn tick_prohibit(&mut self) -> bool
        ensures answer { result ≡ prohibit_ends self.old.state.prohibit }
        ensures state { self.new ≡ record self.old { state = prohibit_ticked self.old.state } }
    {
        self.receiver.tick_prohibit()
    }

    /// The reordering timer expires (TS 36.322 5.1.3.2.4): VR(MS) becomes the first number at or
    /// above VR(X) that isn't complete, a STATUS is due, and the timer starts again where VR(H)
    /// lies above VR(MS).
    pub fn expire_reorder(&mut self) -> Expired
        ensures answer { result ≡ reorder_answer self.old.state.mark self.old.state }
        ensures state { self.new ≡ record self.old {
          state =
              after_reorder self.old.state.mark self.old.state;
        } }
    {
        self.receiver.expire_reorder()
    }

    /// The prohibit timer expires: a STATUS that is due may be written.
    pub fn expire_prohibit(&mut self) -> Expired
        ensures answer { result ≡ prohibit_answer self.old.state }
        ensures state { self.new ≡ record self.old { state = after_prohibit self.old.state } }
    {
        self.receiver.expire_prohibit()
    }

    /// Ends the receiver (TS 36.322 5.4): the SDUs that are ready, and those that can still be put
    /// together from what is held behind gaps.
    pub fn finish(mut self) -> Result<Packets, (AmRx, NoMemory)>
        ensures sdus { IfOk result (λ sdus. sdus ≡ finished self.state) }
        ensures dead { IsTrue self.dead → IsErr result }
        ensures err { IfErr result (λ e. IsTrue e.0.dead) }
    {
        if self.dead {
            return Err((self, NoMemory));
        }
        match self.receiver.salvage() {
            Ok(()) => Ok(self.receiver.into_ready()),
            Err(e) => {
                self.dead = true;
                Err((self, e))
            }
        }
    }
}
