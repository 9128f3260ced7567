ghost use Rattle.std.specs.Prelude.{◌≡◌, IfOk, IfErr};
ghost use Rattle.bearer.specs.Unacknowledged.Lives.{stopped, stopping, restarted};

use crate::unacknowledged::running::{BoxedUm, UmBearer};
use bearer_types::Events;
use eps_sec::Keys;
use l2_bits::NoMemory;
use std::marker::Model;

/// An unacknowledged data bearer between two lives. It lies where it did in its life, and the RLC
/// entities of its next life stand in it already.
#[derive(Drop)]
pub struct StoppedUm {
    bearer: Box<UmBearer>,
}

impl Model for StoppedUm {
    ghost use Rattle.std.specs.Prelude.{◌≡◌};
    ghost use Rattle.rlc_um.specs.Sender.{width_of, idle_sender};
    ghost use Rattle.rlc_um.specs.Receiver.{start};
    ghost use Rattle.bearer.specs.Unacknowledged.Lives.{Stopped};

    ghost Value = { Stopped };

    ghost view = { λ b. record {
      bits = b.bearer.value.bits;
      reorder = b.bearer.value.reorder;
      pdcp = b.bearer.value.pdcp;
    } };

    ghost invariant = { λ b. (b.bearer.value.tx ≡ idle_sender b.bearer.value.bits)
        × (b.bearer.value.rx ≡ start (width_of b.bearer.value.bits) b.bearer.value.reorder) };
}

impl BoxedUm {
    /// Ends the life (TS 36.322 5.4, TS 36.323 5.2): all that RLC can put together is handed up,
    /// and told. An `Err` gives back a bearer of which nothing is said.
    #[tactic(auto, unfolding(crate::specs::Unacknowledged::Lives::stopped))]
    pub fn stop(self) -> Result<(StoppedUm, Events), (BoxedUm, NoMemory)>
        ensures told { IfOk result (λ r. r.1 ≡ stopping self) }
        ensures state { IfOk result (λ r. r.0 ≡ stopped self) }
    {
        let BoxedUm { mut bearer } = self;
        match bearer.end_life() {
            Ok(events) => Ok((StoppedUm { bearer }, events)),
            Err(no_memory) => Err((BoxedUm { bearer }, no_memory)),
        }
    }
}

impl StoppedUm {
    /// Begins the next life, under other keys. An `Err` gives back what it was given as it was.
    #[tactic(auto, unfolding(crate::specs::Unacknowledged::Lives::restarted))]
    pub fn restart(self, keys: &Keys) -> Result<BoxedUm, (StoppedUm, NoMemory)>
        ensures ok { IfOk result (λ b. b ≡ restarted self keys.now) }
        ensures err { IfErr result (λ e. e.0 ≡ self) }
    {
        let StoppedUm { mut bearer } = self;
        match bearer.begin_life(keys) {
            Ok(()) => Ok(BoxedUm { bearer }),
            Err(no_memory) => Err((StoppedUm { bearer }, no_memory)),
        }
    }
}
