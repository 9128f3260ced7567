ghost use Rattle.std.specs.Prelude.{◌≡◌, ◌-◌, ◌≤◌, ◌^◌, min, length, OnOk, OnErr, IfOk, IfErr};
ghost use Rattle.std.specs.Prelude.{IsTrue, IsErr, slice_get};
ghost use Rattle.rlc_queue.specs.NewPdu.{IsWithin};
ghost use Rattle.l2_num.specs.Timers.{ends};
ghost use Rattle.rlc_am_tx.specs.Machine.{start, offered, confirmed, after_take, answer};
ghost use Rattle.rlc_am_tx.specs.Machine.{after_status, heard, after_tick, after_expiry, expiry};
ghost use Rattle.rlc_am_tx.specs.Machine.{settled, settles};
ghost use Rattle.rlc_am_tx.specs.Need.{data_need, hungry, backlog, left};
ghost use Rattle.rlc_am_tx.specs.Entity.{alive};

use crate::answers::{Heard, PollExpired};
use crate::sender::Sender;
use l2_bits::{Bytes, NoMemory};
use l2_types::AmTxConfig;
use rlc_pdu::{StatusRead, Taken};
use std::alloc::Global;
use std::marker::Model;

/// The sending side of an acknowledged RLC entity.
///
/// One that has answered `NoMemory` is dead: from then on each call that can answers `NoMemory`.
/// The calls that take no memory stay exact. Numbers of PDUs, and places of SDUs among those
/// offered, are counted from 0 and aren't reduced.
#[derive(Drop)]
pub struct AmTx {
    sender: Sender,
    dead: bool,
}

impl Model for AmTx {
    ghost use Rattle.rlc_am_tx.specs.Entity.{Entity};

    ghost Value = { Entity };

    ghost view = { λ t. record { state = t.sender; dead = t.dead } };
}

impl AmTx {
    ghost use Rattle.rlc_pdu.specs.Views.{status_of};

    /// A sender that hasn't sent anything. It takes the memory of the window's ring.
    pub fn new(alloc: Global, config: AmTxConfig) -> Result<AmTx, NoMemory>
        ensures { IfOk result (λ t. t ≡ alive (start config)) }
    {
        Ok(AmTx {
            sender: Sender::new(alloc, config)?,
            dead: false,
        })
    }

    /// Whether a new PDU of at most `size` octets may be built and has room for an octet of a
    /// further SDU. `held` is the lowest number of this bearer that HARQ holds.
    pub fn hungry(&self, size: u32, held: Option<u64>) -> bool
        ensures { result ≡ hungry self.now.state size held }
    {
        self.sender.hungry(size, held)
    }

    /// Offers an SDU of 1 to 8193 octets, which isn't copied. An `Err` gives it back.
    pub fn offer(&mut self, sdu: Bytes) -> Result<(), (Bytes, NoMemory)>
        requires some { 1 ≤ length sdu }
        requires few { length sdu ≤ 8193 }
        ensures state { OnOk result (self.new ≡ alive (offered self.old.state sdu)) }
        ensures back { IfErr result (λ e. e.0 ≡ sdu) }
        ensures dead { IsTrue self.old.dead → IsErr result }
        ensures err { OnErr result (IsTrue self.new.dead) }
    {
        if self.dead {
            return Err((sdu, NoMemory));
        }
        let answer = self.sender.offer(sdu);
        self.dead = answer.is_err();
        answer
    }

    /// The octets that are reckoned for the next data PDU, `waiting` being the sum of (length + 2)
    /// over what PDCP may hand over. More than 2^32 - 1 are told as 2^32 - 1.
    pub fn need(&self, waiting: u64, held: Option<u64>) -> u32
        ensures { result ≡ min (2 ^ 32 - 1) (data_need self.now.state waiting held) }
    {
        self.sender.need(waiting, held)
    }

    /// Takes a data PDU of at most `size` octets, 9421 at most; `more` says that PDCP may hand over
    /// another SDU. All answers but `Piece` change nothing.
    pub fn take(&mut self, size: u32, held: Option<u64>, more: bool) -> Result<Taken, NoMemory>
        requires { size ≤ 9421 }
        ensures state { OnOk result (self.new ≡ alive (after_take self.old.state size held more)) }
        ensures taken { IfOk result (λ t. t ≡ answer self.old.state size held more) }
        ensures within { IfOk result (λ t. IsWithin size t) }
        ensures dead { IsTrue self.old.dead → IsErr result }
        ensures err { OnErr result (IsTrue self.new.dead) }
    {
        if self.dead {
            return Err(NoMemory);
        }
        let answer = self.sender.take(size, held, more);
        self.dead = answer.is_err();
        answer
    }

    /// Hears a STATUS. It costs the PDUs below its ACK_SN and its entries, however long the window
    /// is.
    pub fn status(&mut self, status: StatusRead<'_>) -> Result<Heard, NoMemory>
        ensures state { OnOk result
            (self.new ≡ alive (after_status self.old.state (status_of status.entry))) }
        ensures heard { IfOk result (λ h. h ≡ heard self.old.state (status_of status.entry)) }
        ensures dead { IsTrue self.old.dead → IsErr result }
        ensures err { OnErr result (IsTrue self.new.dead) }
    {
        if self.dead {
            return Err(NoMemory);
        }
        let answer = self.sender.status(status);
        self.dead = answer.is_err();
        answer
    }

    /// A TTI begins. True exactly where the poll timer reaches its end; it runs until
    /// `expire_poll`.
    pub fn tick(&mut self) -> bool
        ensures state { self.new ≡ record self.old { state = after_tick self.old.state } }
        ensures ends { result ≡ ends self.old.state.polls.timer }
    {
        self.sender.tick()
    }

    /// The poll timer expires.
    pub fn expire_poll(&mut self, more: bool) -> PollExpired
        ensures state { self.new ≡ record self.old { state = after_expiry self.old.state more } }
        ensures answer { result ≡ expiry self.old.state more }
    {
        self.sender.expire_poll(more)
    }

    /// Starts the poll timer without a poll, exactly where nothing is left to send or to take or
    /// waits to be resent, something isn't acknowledged, the limit isn't reached and the timer
    /// doesn't run. Answers whether it does.
    pub fn settle(&mut self, more: bool) -> bool
        ensures state { self.new ≡ record self.old { state = settled self.old.state more } }
        ensures answer { result ≡ settles self.old.state more }
    {
        self.sender.settle(more)
    }

    /// Takes the place of an SDU that is wholly acknowledged, each once, in the order of their
    /// acknowledgement.
    pub fn confirmed(&mut self) -> Option<u64>
        ensures value { result ≡ slice_get self.old.state.accounts.news 0 }
        ensures state { self.new ≡ record self.old { state = confirmed self.old.state } }
    {
        self.sender.confirmed()
    }

    /// Whether the retransmission limit was reached.
    pub fn failed(&self) -> bool
        ensures { result ≡ self.now.state.failed }
    {
        self.sender.failed()
    }

    /// The octets of the SDUs offered that aren't sent yet, and those that wait to be resent.
    pub fn backlog(&self) -> u64
        ensures { result ≡ backlog self.now.state }
    {
        self.sender.backlog()
    }

    /// The octets of the SDUs offered that aren't wholly acknowledged.
    pub fn left(&self) -> u64
        ensures { result ≡ left self.now.state }
    {
        self.sender.left()
    }

    /// Ends the life of the sender.
    pub fn finish(self) {}
}
