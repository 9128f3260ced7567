//! The end of a life and the beginning of the next, by kinds.

ghost use Rattle.std.specs.Prelude.{◌≡◌, IfOk, IfErr};
ghost use Rattle.bearer.specs.Lives.{stopped, stopping, restarted};

use crate::flow::{Flow, StoppedFlow};
use crate::transparent::TmBearer;
use bearer_types::Events;
use eps_sec::Keys;
use l2_bits::NoMemory;
use std::alloc::Global;

impl Flow {
    #[tactic(auto, unfolding(crate::specs::Lives::stopped, crate::specs::Lives::stopping))]
    pub fn stop(self, alloc: Global) -> Result<(StoppedFlow, Events), (Flow, NoMemory)>
        ensures told { IfOk result (λ r. r.1 ≡ stopping self) }
        ensures state { IfOk result (λ r. r.0 ≡ stopped self) }
    {
        match self {
            Flow::Tm(_) => Ok((StoppedFlow::Tm, Events::new(alloc))),
            Flow::Um(bearer) => match bearer.stop() {
                Ok((bearer, events)) => Ok((StoppedFlow::Um(bearer), events)),
                Err((bearer, no_memory)) => Err((Flow::Um(bearer), no_memory)),
            },
            Flow::Am(bearer) => match bearer.stop() {
                Ok((bearer, events)) => Ok((StoppedFlow::Am(bearer), events)),
                Err((bearer, no_memory)) => Err((Flow::Am(bearer), no_memory)),
            },
        }
    }
}

impl StoppedFlow {
    #[tactic(auto, unfolding(crate::specs::Lives::restarted))]
    pub fn restart(self, alloc: Global, keys: &Keys) -> Result<Flow, (StoppedFlow, NoMemory)>
        ensures ok { IfOk result (λ f. f ≡ restarted self keys.now) }
        ensures err { IfErr result (λ e. e.0 ≡ self) }
    {
        match self {
            StoppedFlow::Tm => Ok(Flow::Tm(TmBearer::new(alloc))),
            StoppedFlow::Um(bearer) => match bearer.restart(keys) {
                Ok(bearer) => Ok(Flow::Um(bearer)),
                Err((bearer, no_memory)) => Err((StoppedFlow::Um(bearer), no_memory)),
            },
            StoppedFlow::Am(bearer) => match bearer.restart(keys) {
                Ok(bearer) => Ok(Flow::Am(bearer)),
                Err((bearer, no_memory)) => Err((StoppedFlow::Am(bearer), no_memory)),
            },
        }
    }
}
