ghost use Rattle.std.specs.Prelude.{◌≡◌, ◌<◌, ◌≤◌, ◌^◌, length, true, false, drop, slice_get, OnOk};
ghost use Rattle.std.specs.Prelude.{OnErr, IfOk, IsErr, IsTrue, MatchResult};
ghost use Rattle.pdcp_rx.specs.Entity.{alive};
ghost use Rattle.pdcp_sec.specs.Protection.{protection_of};
ghost use Rattle.pdcp_pdu.specs.Kinds.{IsKind, is_am};
ghost use Rattle.pdcp_rx.specs.State.{fresh, got, arrived, report, restarted};

use crate::got::{Cause, Got};
use crate::receiver::Receiver;
use eps_sec::Keys;
use l2_bits::{Bytes, NoMemory};
use pdcp_pdu::PdcpKind;
use std::alloc::Global;
use std::marker::Model;

/// The receiving PDCP entity of a bearer.
///
/// Where memory runs out in a call, it answers `NoMemory` from then on to each call that can, and
/// of its other answers nothing is said.
#[derive(Debug, Drop)]
pub struct PdcpRx {
    receiver: Receiver,
    dead: bool,
}

impl Model for PdcpRx {
    ghost use Rattle.pdcp_rx.specs.Entity.{Entity, IsWhole};

    ghost Value = { Entity };

    ghost view = { λ r. record { state = r.receiver; dead = r.dead } };

    ghost invariant = { λ r. IsWhole r.dead r.receiver.held };
}

/// A receiver between two lives: what it holds, and its next COUNT.
#[derive(Debug, Drop)]
pub struct Held {
    receiver: Receiver,
    dead: bool,
}

impl Model for Held {
    ghost use Rattle.pdcp_rx.specs.Entity.{Entity, IsWhole};

    ghost Value = { Entity };

    ghost view = { λ h. record { state = h.receiver; dead = h.dead } };

    ghost invariant = { λ h. IsWhole h.dead h.receiver.held };
}

impl Held {
    /// Whether memory ran out, so that `PdcpRx::restart` fails.
    pub fn is_dead(&self) -> bool
        ensures { result ≡ self.now.dead }
    {
        self.dead
    }
}

impl PdcpRx {
    /// A receiver that holds nothing and whose next COUNT is `first`.
    ///
    /// `bearer` is below 32, `direction` 0 on the uplink and 1 on the downlink. Of `kind` the bits
    /// are 7 or 12 for `Um`, 12 or 15 for `Am`.
    #[tactic(auto, using(crate::proofs::EndLemmas::fresh_ends), unfolding(crate::specs::State::fresh))]
    pub fn new(
        alloc: Global,
        kind: PdcpKind,
        first: u32,
        keys: &Keys,
        bearer: u32,
        direction: u32,
    ) -> PdcpRx
        requires kind { IsKind kind }
        requires bearer { bearer < 32 }
        requires direction { direction < 2 }
        ensures state { result
            ≡ alive (fresh kind (protection_of kind keys.now bearer direction) first) }
        ensures kind { result.state.kind ≡ kind }
    {
        PdcpRx {
            receiver: Receiver::new(alloc, kind, first, keys, bearer, direction),
            dead: false,
        }
    }

    /// Takes a PDU (TS 36.323 5.1.2.1). SDUs that go up are then given by `up`.
    ///
    /// The first that holds is answered: `Unreadable`, `Report`, `Old`, `OutOfRange`, `Integrity`
    /// (a signalling bearer alone), `Stored` (over acknowledged RLC, at a re-establishment, above
    /// the next COUNT), `Up`. All but the last two change nothing.
    #[tactic(auto, using(crate::proofs::EndLemmas::arrived_ends))]
    pub fn arrive(&mut self, pdu: &[u8], cause: Cause) -> Result<Got, NoMemory>
        ensures got { IfOk result (λ g. g ≡ got self.old.state pdu.now cause) }
        ensures state { OnOk result (self.new ≡ alive (arrived self.old.state pdu.now cause)) }
        ensures kind { self.new.state.kind ≡ self.old.state.kind }
        ensures dead { IsTrue self.old.dead → IsErr result }
        ensures err { OnErr result (IsTrue self.new.dead) }
    {
        if self.dead {
            return Err(NoMemory);
        }
        let answer = self.receiver.arrive(pdu, cause);
        self.dead = answer.is_err();
        answer
    }

    /// Takes the next SDU that goes up; `None` exactly where none is ready. It takes no memory.
    pub fn up(&mut self) -> Option<Bytes>
        ensures value { result ≡ slice_get self.old.state.ready 0 }
        ensures state { self.new ≡ record self.old {
          state =
              record self.old.state { ready = drop 1 self.old.state.ready };
        } }
    {
        self.receiver.up()
    }

    /// Writes the status report (TS 36.323 5.3.1): FMS is the next COUNT's SN, and a bit stands for
    /// each COUNT behind it up to the greatest that is held. For kind `Am` alone.
    pub fn make_report(&self) -> Result<Bytes, NoMemory>
        requires { IsTrue (is_am self.now.state.kind) }
        ensures pdu { IfOk result (λ pdu. pdu ≡ report self.now.state) }
        ensures some { IfOk result (λ pdu. 1 ≤ length pdu) }
        ensures few { IfOk result (λ pdu. length pdu ≤ 8193) }
        ensures dead { IsTrue self.now.dead → IsErr result }
    {
        if self.dead {
            return Err(NoMemory);
        }
        self.receiver.make_report()
    }

    /// Whether memory ran out in a call, so that `renew` fails.
    pub fn is_dead(&self) -> bool
        ensures { result ≡ self.now.dead }
    {
        self.dead
    }

    /// Begins the next life where the receiver lies, under other keys, as `restart` does. It fails
    /// exactly where memory had run out before, and then changes nothing.
    #[tactic(auto, using(crate::proofs::EndLemmas::restarted_ends))]
    pub fn renew(&mut self, keys: &Keys) -> Result<(), NoMemory>
        ensures state { MatchResult result
            (λ _. (self.old.dead ≡ false)
            × (self.new ≡ alive (restarted self.old.state keys.now)))
            (λ _. (self.old.dead ≡ true) × (self.new ≡ self.old)) }
        ensures kind { self.new.state.kind ≡ self.old.state.kind }
    {
        if self.dead {
            return Err(NoMemory);
        }
        self.receiver.restart(keys);
        Ok(())
    }

    /// Ends the life, and keeps everything. It takes no memory.
    pub fn stop(self) -> Held
        ensures { result ≡ self }
    {
        Held {
            receiver: self.receiver,
            dead: self.dead,
        }
    }

    /// Begins the next life under other keys (TS 36.323 5.2.2): over acknowledged RLC the next
    /// COUNT and what is held stay, on other bearers COUNT begins at 0 again. What is ready to go
    /// up stays.
    ///
    /// It fails exactly where memory had run out before, and then gives back what it was given.
    pub fn restart(held: Held, keys: &Keys) -> Result<PdcpRx, (Held, NoMemory)>
        ensures state { MatchResult result
            (λ r. (held.dead ≡ false) × (r ≡ alive (restarted held.state keys.now)))
            (λ e. (held.dead ≡ true) × (e.0 ≡ held)) }
        ensures kind { IfOk result (λ r. r.state.kind ≡ held.state.kind) }
    {
        let Held { receiver, dead } = held;
        let mut rx = PdcpRx { receiver, dead };
        match rx.renew(keys) {
            Ok(()) => Ok(rx),
            Err(no_memory) => Err((rx.stop(), no_memory)),
        }
    }
}
