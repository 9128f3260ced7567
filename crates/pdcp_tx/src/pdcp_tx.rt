//! The sender, and what of it is kept between two lives.

ghost use Rattle.std.specs.Prelude.{◌≡◌, ◌+◌, ◌*◌, ◌<◌, ◌≤◌, ◌^◌, Some, None, Err, is_some, length};
ghost use Rattle.std.specs.Prelude.{slice_get, OnOk, OnErr, IfOk, IfErr, IfSome, IsTrue, IsFalse};
ghost use Rattle.std.specs.Prelude.{IsErr, false};
ghost use Rattle.l2_bits.specs.declared.fault.SubmitRefusal.TheVariants as refusals;
ghost use Rattle.pdcp_pdu.specs.Kinds.{IsKind};
ghost use Rattle.pdcp_sec.specs.Protection.{protection_of};
ghost use Rattle.pdcp_tx.specs.State.{HasSize, IsShort, start, refusal, IsAnswer, submitted};
ghost use Rattle.pdcp_tx.specs.State.{offers, sizes, left, taking, took, confirmed, fms_count};
ghost use Rattle.pdcp_tx.specs.State.{reported, owing, ticked, late_length, after_late, restarted};
ghost use Rattle.pdcp_tx.specs.Entity.{alive, KeepsOrDies};

use crate::sender::{Next, Sender};
use eps_sec::Keys;
use l2_bits::{Bytes, NoMemory, SubmitRefusal};
use pdcp_pdu::PdcpKind;
use pdcp_sec::Security;
use std::alloc::Global;
use std::marker::Model;

/// The sending side of a PDCP entity.
///
/// One that has run out of memory answers so from then on to every call that can, and its other
/// answers say nothing.
#[derive(Drop)]
pub struct PdcpTx {
    sender: Sender,
    dead: bool,
}

impl Model for PdcpTx {
    ghost use Rattle.pdcp_tx.specs.Entity.{Entity};

    ghost Value = { Entity };

    ghost view = { λ p. record { state = p.sender; dead = p.dead } };
}

/// What is kept of a sender between two lives (TS 36.323 5.2.1).
#[derive(Drop)]
pub struct Kept {
    sender: Sender,
    dead: bool,
}

impl Model for Kept {
    ghost use Rattle.pdcp_tx.specs.Entity.{Entity};

    ghost Value = { Entity };

    ghost view = { λ k. record { state = k.sender; dead = k.dead } };
}

impl PdcpTx {
    /// A sender whose first SDU gets the COUNT `first`. It takes no memory.
    ///
    /// `bearer`, below 32, is the radio bearer's identity less 1; `direction` is 0 on the uplink
    /// and 1 on the downlink.
    pub fn new(
        alloc: Global,
        kind: PdcpKind,
        first: u32,
        keys: &Keys,
        bearer: u32,
        direction: u32,
    ) -> PdcpTx
        requires kind { IsKind kind }
        requires bearer { bearer < 32 }
        requires direction { direction < 2 }
        ensures { result ≡ alive (start kind (protection_of kind keys.now bearer direction) first) }
    {
        let security = Security::new(kind, keys, bearer, direction);
        PdcpTx {
            sender: Sender::new(alloc, kind, security, first),
            dead: false,
        }
    }

    /// Takes over a copy of an SDU, which then waits, and starts its discard timer.
    ///
    /// Refused are, in this order: no octets, more than 8188 octets, any SDU where 1024 wait, and
    /// any where its COUNT would be 2^32. A refusal other than `NoMemory` changes nothing.
    pub fn submit(&mut self, sdu: &[u8]) -> Result<(), SubmitRefusal>
        ensures fits { OnOk result (refusal self.old.state sdu.now ≡ None) }
        ensures state { OnOk result (self.new ≡ alive (submitted self.old.state sdu.now)) }
        ensures answer { IsFalse self.old.dead
            → IfErr result (λ e. IsAnswer e (refusal self.old.state sdu.now)) }
        ensures dead { IsTrue self.old.dead → result ≡ Err refusals.NoMemory }
        ensures refused { IfErr result (λ e. KeepsOrDies e self.old self.new) }
    {
        if self.dead {
            return Err(SubmitRefusal::NoMemory);
        }
        let answer = self.sender.submit(sdu);
        self.dead = answer == Err(SubmitRefusal::NoMemory);
        answer
    }

    /// Whether something may be taken: the own status report, an SDU that is taken again, or one
    /// that waits, whose COUNT on an acknowledged data bearer is less than half the sequence
    /// numbers above the first unconfirmed one.
    pub fn may_take(&self) -> bool
        ensures { result ≡ is_some (slice_get (offers self.now.state) 0) }
    {
        self.sender.may_take()
    }

    /// The octets of the PDUs that may be taken, and 2 for each.
    pub fn waiting(&self) -> u64
        ensures { result ≡ sizes self.now.state.kind (offers self.now.state)
            + 2 * length (offers self.now.state) }
    {
        self.sender.waiting()
    }

    /// The octets of the PDUs that may be taken.
    pub fn octets(&self) -> u64
        ensures { result ≡ sizes self.now.state.kind (offers self.now.state) }
    {
        self.sender.octets()
    }

    /// The octets of the SDUs that wait and, on an acknowledged data bearer, of those that were
    /// taken and either aren't confirmed or are still to be taken again in this life.
    pub fn left(&self) -> u64
        ensures { result ≡ left self.now.state }
    {
        self.sender.left()
    }

    /// Takes the first of what may be taken; `None` exactly where nothing may be. A PDU has 1 to
    /// 8193 octets, if the report that is owed has.
    pub fn next_pdu(&mut self) -> Result<Option<Next>, NoMemory>
        ensures answer { IfOk result (λ next. next ≡ taking self.old.state) }
        ensures size { IfSome self.old.state.owed IsShort
            → IfOk result (λ next. IfSome next HasSize) }
        ensures state { OnOk result (self.new ≡ alive (took self.old.state)) }
        ensures dead { IsTrue self.old.dead → IsErr result }
        ensures err { OnErr result (IsTrue self.new.dead) }
    {
        if self.dead {
            return Err(NoMemory);
        }
        let answer = self.sender.next_pdu();
        self.dead = answer.is_err();
        answer
    }

    /// RLC has acknowledged all of what was taken at a place in this life, places being counted
    /// from 0. A place where nothing was taken changes nothing.
    pub fn confirm(&mut self, place: u64)
        ensures { self.new ≡ record self.old { state = confirmed self.old.state place } }
    {
        self.sender.confirm(place)
    }

    /// A status report has come, with its FMS and its bitmap. False exactly where no COUNT fits the
    /// FMS; nothing then changes.
    pub fn report(&mut self, fms: u32, bitmap: &[u8]) -> bool
        ensures answer { result ≡ is_some (fms_count self.old.state.kind self.old.state.base fms) }
        ensures state { self.new ≡ record self.old {
          state =
              reported self.old.state fms bitmap.now;
        } }
    {
        self.sender.report(fms, bitmap)
    }

    /// The own status report is to be taken, before any SDU. It replaces one that isn't taken yet.
    pub fn owe(&mut self, report: Bytes)
        ensures { self.new ≡ record self.old { state = owing self.old.state report } }
    {
        self.sender.owe(report)
    }

    /// Sets the length of the discard timers in TTIs.
    pub fn set_discard(&mut self, ttis: u32)
        ensures { self.new ≡ record self.old {
          state =
              record self.old.state { discard = Some ttis };
        } }
    {
        self.sender.set_discard(ttis)
    }

    /// A TTI begins.
    pub fn tick(&mut self)
        ensures { self.new ≡ record self.old { state = ticked self.old.state } }
    {
        self.sender.tick()
    }

    /// Drops the first SDU that waits, where its discard timer has ended, and answers its length;
    /// `None` exactly where there is no such SDU.
    pub fn late(&mut self) -> Option<u32>
        ensures value { result ≡ late_length self.old.state }
        ensures state { self.new ≡ record self.old { state = after_late self.old.state } }
    {
        self.sender.late()
    }

    /// Begins the next life where the sender lies, under other keys, as `restart` does. An `Err`
    /// changes nothing.
    pub fn renew(&mut self, keys: &Keys) -> Result<(), NoMemory>
        ensures state { OnOk result (self.new ≡ alive (restarted self.old.state keys.now)) }
        ensures dead { IsTrue self.old.dead → IsErr result }
        ensures err { OnErr result (self.new ≡ self.old) }
    {
        if self.dead {
            return Err(NoMemory);
        }
        self.sender.restart(keys)
    }

    /// Ends the life.
    pub fn stop(self) -> Kept
        ensures { result ≡ self }
    {
        let PdcpTx { sender, dead } = self;
        Kept { sender, dead }
    }

    /// Begins the next life, under other keys.
    ///
    /// An acknowledged data bearer keeps its COUNTs, what waits, and the SDUs from the first
    /// unconfirmed one on, which are taken again. Others begin with COUNT 0, and a signalling
    /// bearer drops what waits.
    ///
    /// An `Err` gives back what was kept as it was.
    pub fn restart(kept: Kept, keys: &Keys) -> Result<PdcpTx, (Kept, NoMemory)>
        ensures state { IfOk result (λ p. p ≡ alive (restarted kept.state keys.now)) }
        ensures dead { IsTrue kept.dead → IsErr result }
        ensures err { IfErr result (λ e. e.0 ≡ kept) }
    {
        let Kept { sender, dead } = kept;
        let mut tx = PdcpTx { sender, dead };
        match tx.renew(keys) {
            Ok(()) => Ok(tx),
            Err(no_memory) => Err((tx.stop(), no_memory)),
        }
    }
}
