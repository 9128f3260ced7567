ghost use Rattle.std.specs.Prelude.{◌≡◌, ◌*◌, ◌<◌, ◌≤◌, OnOk, OnErr, IfOk, IfErr, IsTrue, IsErr};
ghost use Rattle.std.specs.Prelude.{slice_get};
ghost use Rattle.l2_num.specs.Timers.{ends};
ghost use Rattle.rlc_pdu.specs.declared.constants.TheConstants.{UM_LONG_WINDOW_SIZE};
ghost use Rattle.rlc_pdu.specs.Pdus.{IsUmBits};
ghost use Rattle.rlc_pdu.specs.Views.{umd_of};
ghost use Rattle.rlc_um.specs.Sender.{width_of};
ghost use Rattle.rlc_um.specs.Receiver.{start, alive, landing, turning, arrival, expiring, expired};
ghost use Rattle.rlc_um.specs.Receiver.{counted, handed, all_joined};

use crate::receiver::Receiver;
use l2_bits::{Bytes, NoMemory, Packets};
use rlc_pdu::{Expired, Landed, Turned, UM_LONG_WINDOW_SIZE, UM_SHORT_WINDOW_SIZE, Umd};
use std::alloc::Global;
use std::marker::Model;

/// The receiving unacknowledged mode entity of a bearer (TS 36.322 5.1.2.2).
///
/// Where memory runs out in a call, it answers `NoMemory` from then on to each call that can.
#[derive(Debug, Drop)]
pub struct UmRx {
    receiver: Receiver,
    dead: bool,
}

impl Model for UmRx {
    ghost use Rattle.rlc_um.specs.Receiver.{Entity};

    ghost Value = { Entity };

    ghost view = { λ r. record { state = r.receiver; dead = r.dead } };
}

impl UmRx {
    /// A receiver of PDUs with numbers of 5 or 10 bits, of which none has arrived. `reorder` is the
    /// length of the reordering timer in TTIs. Its window has 16 or 512 numbers.
    pub fn new(alloc: Global, bits: u32, reorder: u32) -> Result<UmRx, NoMemory>
        requires { IsUmBits bits }
        ensures { IfOk result (λ r. r ≡ alive (start (width_of bits) reorder)) }
    {
        Ok(UmRx {
            receiver: Receiver::new(alloc, width(bits) as usize, reorder)?,
            dead: false,
        })
    }

    /// Takes a PDU. It is dropped as `Repeat` where its number lies below VR(UR) or was received
    /// before, else `Kept`; SDUs that go up are then given by `up`.
    ///
    /// The number of the PDU has as many bits as `new` was told.
    pub fn arrive(&mut self, pdu: &Umd<'_>) -> Result<(Landed, Turned), NoMemory>
        requires { pdu.now.sn < 2 * self.old.state.window.width }
        ensures landed { IfOk result (λ r. r.0 ≡ landing (umd_of pdu.now) self.old.state) }
        ensures turned { IfOk result (λ r. r.1 ≡ turning (umd_of pdu.now) self.old.state) }
        ensures state { OnOk result (self.new ≡ alive (arrival (umd_of pdu.now) self.old.state)) }
        ensures width { self.new.state.window.width ≡ self.old.state.window.width }
        ensures dead { IsTrue self.old.dead → IsErr result }
        ensures err { OnErr result (IsTrue self.new.dead) }
    {
        if self.dead {
            return Err(NoMemory);
        }
        let answer = self.receiver.arrive(pdu);
        self.dead = answer.is_err();
        answer
    }

    /// A TTI begins. True exactly where the reordering timer reaches its end; `expire` is to
    /// follow.
    pub fn tick(&mut self) -> bool
        ensures answer { result ≡ ends self.old.state.clock }
        ensures state { self.new ≡ record self.old { state = counted self.old.state } }
    {
        self.receiver.tick()
    }

    /// The reordering timer expires (TS 36.322 5.1.2.2.4). `NotRunning` comes exactly where it
    /// doesn't run, and nothing then changes.
    pub fn expire(&mut self) -> Result<Expired, NoMemory>
        ensures answer { IfOk result (λ e. e ≡ expiring self.old.state) }
        ensures state { OnOk result (self.new ≡ alive (expired self.old.state)) }
        ensures width { self.new.state.window.width ≡ self.old.state.window.width }
        ensures dead { IsTrue self.old.dead → IsErr result }
        ensures err { OnErr result (IsTrue self.new.dead) }
    {
        if self.dead {
            return Err(NoMemory);
        }
        let answer = self.receiver.expire();
        self.dead = answer.is_err();
        answer
    }

    /// Takes the next SDU that goes up; `None` exactly where none is ready. It takes no memory.
    pub fn up(&mut self) -> Option<Bytes>
        ensures value { result ≡ slice_get self.old.state.joined.ready 0 }
        ensures state { self.new ≡ record self.old { state = handed self.old.state } }
    {
        self.receiver.up()
    }

    /// Ends the receiver, as at a re-establishment (TS 36.322 5.4): all SDUs that can be joined
    /// from what is kept, behind those that were ready.
    #[tactic(auto, unfolding(crate::specs::Receiver::all_joined))]
    pub fn finish(mut self) -> Result<Packets, (UmRx, NoMemory)>
        ensures found { IfOk result (λ found. found ≡ all_joined self.state) }
        ensures dead { IsTrue self.dead → IsErr result }
        ensures err { IfErr result (λ e. IsTrue e.0.dead) }
        ensures width { IfErr result (λ e. e.0.state.window.width ≡ self.state.window.width) }
    {
        if self.dead {
            return Err((self, NoMemory));
        }
        match self.receiver.join_all() {
            Ok(()) => {
                let UmRx { receiver, dead: _ } = self;
                Ok(receiver.into_ready())
            }
            Err(e) => {
                self.dead = true;
                Err((self, e))
            }
        }
    }
}

// UM_Window_Size.
pub(crate) fn width(bits: u32) -> u32
    ensures value { result ≡ width_of bits }
    ensures low { 0 < result }
    ensures high { result ≤ UM_LONG_WINDOW_SIZE }
{
    if bits == 5 {
        UM_SHORT_WINDOW_SIZE
    } else {
        UM_LONG_WINDOW_SIZE
    }
}
