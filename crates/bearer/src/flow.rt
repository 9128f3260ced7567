//! The kinds of bearers, by one name for each call.

ghost use Rattle.std.specs.Prelude.{◌≡◌, ◌≤◌, ◌+◌, ◌<◌, ◌^◌, None, length, IfOk, IfErr, OnOk};
ghost use Rattle.bearer_pdcp.specs.Shares.{FitsShare};
ghost use Rattle.bearer_pdcp.specs.Submitting.{Answers, StaysOrDies};
ghost use Rattle.bearer_types.specs.Configs.{IsConfig};
ghost use Rattle.pdcp_pdu.specs.Kinds.{IsKind};
ghost use Rattle.bearer.specs.Bearer.{flow_of};
ghost use Rattle.bearer.specs.Acknowledged.State.{fresh as fresh_am};
ghost use Rattle.bearer.specs.declared.flow.Flow.TheVariants.{Am};
ghost use Rattle.bearer.specs.Submitting.{refusal, submitted};
ghost use Rattle.bearer.specs.Sums.{need, backlog, left, is_drained};
ghost use Rattle.bearer.specs.Taking.{pdus, number, told, after};
ghost use Rattle.bearer.specs.Hearing.{arriving, arrived, expiry, expired, ticking, ticked};
ghost use Rattle.bearer.specs.Hearing.{with_discard};
ghost use Rattle.l2_bits.specs.declared.limits.TheConstants.{OCTETS_LIMIT};

use crate::acknowledged::{AmBearer, BoxedAm, StoppedAm};
use crate::transparent::TmBearer;
use crate::unacknowledged::{BoxedUm, StoppedUm, UmBearer};
use bearer_pdcp::Written;
use bearer_types::{BearerConfig, Events};
use eps_sec::Keys;
use l2_bits::{NoMemory, SubmitRefusal};
use l2_types::{Clock, GREATEST_GRANT, Kind, Side};
use pdcp_pdu::PdcpKind;
use std::alloc::Global;

/// A bearer in a life, by its kind; signalling and acknowledged data share one.
#[derive(Drop)]
pub enum Flow {
    Tm(TmBearer),
    Um(BoxedUm),
    Am(BoxedAm),
}

/// A bearer between two lives.
#[derive(Drop)]
pub enum StoppedFlow {
    Tm,
    Um(StoppedUm),
    Am(StoppedAm),
}

impl Flow {
    pub fn new(
        alloc: Global,
        config: &BearerConfig,
        keys: &Keys,
        side: Side,
    ) -> Result<Flow, NoMemory>
        requires { IsConfig config.now }
        ensures { IfOk result (λ f. f ≡ flow_of config.now.kind config.now keys.now side) }
    {
        match config.kind {
            Kind::Tm => Ok(Flow::Tm(TmBearer::new(alloc))),
            Kind::Srb => new_am(alloc, config, PdcpKind::Srb, keys, side),
            Kind::Um => {
                let bearer = UmBearer::new(alloc, config, keys, side)?;
                Ok(Flow::Um(BoxedUm::new(alloc, bearer)?))
            }
            Kind::Am => {
                let kind = PdcpKind::Am {
                    bits: config.pdcp_bits,
                };
                new_am(alloc, config, kind, keys, side)
            }
        }
    }

    #[tactic(auto, unfolding(crate::specs::Submitting::refusal, crate::specs::Submitting::submitted))]
    pub fn submit(&mut self, sdu: &[u8]) -> Result<(), SubmitRefusal>
        ensures fits { OnOk result (refusal self.old sdu.now ≡ None) }
        ensures state { OnOk result (self.new ≡ submitted self.old sdu.now) }
        ensures answer { IfErr result (λ e. Answers e (refusal self.old sdu.now)) }
        ensures refused { IfErr result (λ e. StaysOrDies e (self.new ≡ self.old)) }
    {
        match self {
            Flow::Tm(bearer) => bearer.tx.submit(sdu),
            Flow::Um(boxed) => boxed.bearer.submit(sdu),
            Flow::Am(boxed) => boxed.bearer.submit(sdu),
        }
    }

    #[tactic(auto, unfolding(crate::specs::Sums::need))]
    pub fn need(&self, grant: u32, held: Option<u64>) -> u32
        ensures { result ≡ need self.now grant held }
    {
        match self {
            Flow::Tm(bearer) => bearer.tx.need(grant),
            Flow::Um(boxed) => boxed.bearer.need(held),
            Flow::Am(boxed) => boxed.bearer.need(held),
        }
    }

    #[tactic(auto, unfolding(crate::specs::Sums::backlog))]
    pub fn backlog(&self) -> u64
        ensures { result ≡ backlog self.now }
    {
        match self {
            Flow::Tm(bearer) => bearer.tx.backlog(),
            Flow::Um(boxed) => boxed.bearer.backlog(),
            Flow::Am(boxed) => boxed.bearer.backlog(),
        }
    }

    #[tactic(auto, unfolding(crate::specs::Sums::left))]
    pub fn left(&self) -> u64
        ensures { result ≡ left self.now }
    {
        match self {
            Flow::Tm(bearer) => bearer.tx.backlog(),
            Flow::Um(boxed) => boxed.bearer.left(),
            Flow::Am(boxed) => boxed.bearer.left(),
        }
    }

    #[tactic(auto, unfolding(crate::specs::Sums::is_drained))]
    pub fn drained(&self) -> bool
        ensures { result ≡ is_drained self.now }
    {
        match self {
            Flow::Tm(_) => true,
            Flow::Um(_) => true,
            Flow::Am(boxed) => boxed.bearer.drained(),
        }
    }

    #[tactic(auto, unfolding(crate::specs::Taking::pdus, crate::specs::Taking::number, crate::specs::Taking::told, crate::specs::Taking::after))]
    pub fn take(&mut self, lcid: u8, share: u32, held: Option<u64>) -> Result<Written, NoMemory>
        requires { share ≤ GREATEST_GRANT + 2 }
        ensures pdus { IfOk result (λ w. w.pdus ≡ pdus self.old share held) }
        ensures number { IfOk result (λ w. w.number ≡ number self.old share held) }
        ensures told { IfOk result (λ w. w.events ≡ told lcid self.old share held) }
        ensures fits { IfOk result (λ w. FitsShare share w.pdus) }
        ensures state { OnOk result (self.new ≡ after self.old share held) }
    {
        match self {
            Flow::Tm(bearer) => bearer.take(lcid, share),
            Flow::Um(boxed) => boxed.bearer.take(share, held),
            Flow::Am(boxed) => boxed.bearer.take(share, held),
        }
    }

    #[tactic(auto, unfolding(crate::specs::Hearing::arriving, crate::specs::Hearing::arrived))]
    pub fn arrive(&mut self, lcid: u8, pdu: &[u8]) -> Result<Events, NoMemory>
        requires { length pdu.now < OCTETS_LIMIT }
        ensures told { IfOk result (λ events. events ≡ arriving lcid self.old pdu.now) }
        ensures state { OnOk result (self.new ≡ arrived self.old pdu.now) }
    {
        match self {
            Flow::Tm(bearer) => bearer.arrive(lcid, pdu),
            Flow::Um(boxed) => boxed.bearer.arrive(pdu),
            Flow::Am(boxed) => boxed.bearer.arrive(pdu),
        }
    }

    #[tactic(auto, unfolding(crate::specs::Hearing::expiry, crate::specs::Hearing::expired))]
    pub fn expire(&mut self, clock: Clock) -> Result<Option<Events>, NoMemory>
        ensures told { IfOk result (λ events. events ≡ expiry self.old clock) }
        ensures state { OnOk result (self.new ≡ expired self.old clock) }
    {
        match self {
            Flow::Tm(_) => Ok(None),
            Flow::Um(boxed) => boxed.bearer.expire(clock),
            Flow::Am(boxed) => boxed.bearer.expire(clock),
        }
    }

    #[tactic(auto, unfolding(crate::specs::Hearing::ticking, crate::specs::Hearing::ticked))]
    pub fn tick(&mut self, alloc: Global) -> Result<Events, NoMemory>
        ensures told { IfOk result (λ events. events ≡ ticking self.old) }
        ensures state { OnOk result (self.new ≡ ticked self.old) }
    {
        match self {
            Flow::Tm(_) => Ok(Events::new(alloc)),
            Flow::Um(boxed) => boxed.bearer.tick(),
            Flow::Am(boxed) => boxed.bearer.tick(),
        }
    }

    #[tactic(auto, unfolding(crate::specs::Hearing::with_discard))]
    pub fn set_discard(&mut self, ttis: u32)
        ensures { self.new ≡ with_discard self.old ttis }
    {
        match self {
            Flow::Tm(_) => {}
            Flow::Um(boxed) => boxed.bearer.set_discard(ttis),
            Flow::Am(boxed) => boxed.bearer.set_discard(ttis),
        }
    }
}

fn new_am(
    alloc: Global,
    config: &BearerConfig,
    kind: PdcpKind,
    keys: &Keys,
    side: Side,
) -> Result<Flow, NoMemory>
    requires low { 1 ≤ config.now.channel.lcid }
    requires high { config.now.channel.lcid ≤ 10 }
    requires kind { IsKind kind }
    ensures { IfOk result (λ f. f ≡ Am (fresh_am config.now kind keys.now side)) }
{
    let bearer = AmBearer::new(alloc, config, kind, keys, side)?;
    Ok(Flow::Am(BoxedAm::new(alloc, bearer)?))
}
