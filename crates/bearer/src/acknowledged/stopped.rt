ghost use Rattle.std.specs.Prelude.{◌≡◌, ◌++◌, map, OnOk, OnErr, IfOk, IfErr};
ghost use Rattle.bearer_types.specs.declared.Event.TheVariants as events_of;
ghost use Rattle.l2_types.specs.declared.Lost.TheVariants.{Handover};
ghost use Rattle.pdcp_pdu.specs.Kinds.{is_am};
ghost use Rattle.rlc_am_rx.specs.State.{fresh as fresh_receiver};
ghost use Rattle.rlc_am_rx.specs.Machine.{finished};
ghost use Rattle.rlc_am_tx.specs.Machine.{start};
ghost use Rattle.bearer_pdcp.specs.Lives.{restarted as restarted_pdcp};
ghost use Rattle.bearer.specs.Acknowledged.State.{with_new_rlc};
ghost use Rattle.bearer.specs.Acknowledged.Lives.{hears_last, ends_with, last_ups, stopped};
ghost use Rattle.bearer.specs.Acknowledged.Lives.{stopping, restarted};

use crate::acknowledged::running::{AmBearer, BoxedAm};
use bearer_pdcp::Pdcp;
use bearer_types::{Event, Events};
use eps_sec::Keys;
use l2_bits::{NoMemory, Packets};
use l2_types::{AmRxConfig, AmTxConfig, Lost};
use pdcp_rx::Cause;
use rlc_am_rx::AmRx;
use rlc_am_tx::AmTx;
use std::alloc::Global;
use std::marker::Model;
use std::mem;

/// A bearer over acknowledged RLC between two lives. It lies where it did in its life, and the RLC
/// entities of its next life stand in it already.
#[derive(Drop)]
pub struct StoppedAm {
    bearer: Box<AmBearer>,
}

impl Model for StoppedAm {
    ghost use Rattle.std.specs.Prelude.{◌≡◌};
    ghost use Rattle.rlc_am_rx.specs.State.{fresh as fresh_receiver};
    ghost use Rattle.rlc_am_tx.specs.Machine.{start};
    ghost use Rattle.bearer.specs.Acknowledged.Lives.{Stopped};

    ghost Value = { Stopped };

    ghost view = { λ b. record {
      pdcp = b.bearer.value.pdcp;
      tx_config = b.bearer.value.tx_config;
      rx_config = b.bearer.value.rx_config;
    } };

    ghost invariant = { λ b. (b.bearer.value.tx ≡ start b.bearer.value.tx_config)
        × (b.bearer.value.rx ≡ fresh_receiver b.bearer.value.rx_config) };
}

impl BoxedAm {
    /// Ends the life (TS 36.322 5.4, TS 36.323 5.2): all that RLC can put together goes up, or is
    /// dropped on a signalling bearer, and is told. An `Err` gives back a bearer of which nothing
    /// is said.
    #[tactic(auto, unfolding(crate::specs::Acknowledged::Lives::stopped))]
    pub fn stop(self) -> Result<(StoppedAm, Events), (BoxedAm, NoMemory)>
        ensures told { IfOk result (λ r. r.1 ≡ stopping self) }
        ensures state { IfOk result (λ r. r.0 ≡ stopped self) }
    {
        let BoxedAm { mut bearer } = self;
        match bearer.end_life() {
            Ok(events) => Ok((StoppedAm { bearer }, events)),
            Err(no_memory) => Err((BoxedAm { bearer }, no_memory)),
        }
    }
}

impl StoppedAm {
    /// Begins the next life, under other keys. An `Err` gives back what it was given as it was.
    #[tactic(auto, unfolding(crate::specs::Acknowledged::Lives::restarted))]
    pub fn restart(self, keys: &Keys) -> Result<BoxedAm, (StoppedAm, NoMemory)>
        ensures ok { IfOk result (λ b. b ≡ restarted self keys.now) }
        ensures err { IfErr result (λ e. e.0 ≡ self) }
    {
        let StoppedAm { mut bearer } = self;
        match bearer.begin_life(keys) {
            Ok(()) => Ok(BoxedAm { bearer }),
            Err(no_memory) => Err((StoppedAm { bearer }, no_memory)),
        }
    }
}

impl AmBearer {
    // What RLC can put together goes up, or is dropped, and RLC begins anew.
    #[tactic(auto, unfolding(crate::specs::Acknowledged::Lives::stopping))]
    fn end_life(&mut self) -> Result<Events, NoMemory>
        ensures told { IfOk result (λ events. events ≡ stopping self.old) }
        ensures state { OnOk result
            (self.new
            ≡ with_new_rlc self.old.tx_config self.old.rx_config (last_ups self.old).pdcp) }
    {
        let (tx, rx) = fresh_rlc(self.alloc, self.tx_config, self.rx_config)?;
        let mut events = Events::new(self.alloc);
        let old = mem::replace(&mut self.rx, rx);
        end_with(old, &mut self.pdcp, &mut events)?;
        self.tx = tx;
        Ok(events)
    }

    fn begin_life(&mut self, keys: &Keys) -> Result<(), NoMemory>
        requires sender { self.old.tx ≡ start self.old.tx_config }
        requires receiver { self.old.rx ≡ fresh_receiver self.old.rx_config }
        ensures ok { OnOk result
            (self.new
            ≡ with_new_rlc self.old.tx_config self.old.rx_config
            (restarted_pdcp self.old.pdcp keys.now)) }
        ensures err { OnErr result (self.new ≡ self.old) }
    {
        self.pdcp.renew(keys)
    }
}

fn fresh_rlc(
    alloc: Global,
    tx_config: AmTxConfig,
    rx_config: AmRxConfig,
) -> Result<(AmTx, AmRx), NoMemory>
    ensures sender { IfOk result (λ r. r.0.state ≡ start tx_config) }
    ensures receiver { IfOk result (λ r. r.1.state ≡ fresh_receiver rx_config) }
{
    let tx = AmTx::new(alloc, tx_config)?;
    let rx = AmRx::new(alloc, rx_config)?;
    Ok((tx, rx))
}

// All that a receiver can put together as it ends goes up, or is dropped.
fn end_with(rx: AmRx, pdcp: &mut Pdcp, events: &mut Events) -> Result<(), NoMemory>
    ensures { OnOk result (record { pdcp = pdcp.new; events = events.new }
        ≡ ends_with (is_am pdcp.old.kind) (finished rx.state)
        (record { pdcp = pdcp.old; events = events.old })) }
{
    match rx.finish() {
        Ok(sdus) if pdcp.is_am() => hear_last(sdus, pdcp, events),
        Ok(sdus) => drop_last(sdus, pdcp.lcid(), events),
        Err((_dead, no_memory)) => Err(no_memory),
    }
}

fn hear_last(mut sdus: Packets, pdcp: &mut Pdcp, events: &mut Events) -> Result<(), NoMemory>
    ensures { OnOk result (record { pdcp = pdcp.new; events = events.new }
        ≡ hears_last sdus (record { pdcp = pdcp.old; events = events.old })) }
{
    while let Some(sdu) = sdus.pop_front() {
        pdcp.hear(sdu.as_slice(), Cause::Reestablished, events)?;
    }
    Ok(())
}

#[tactic(auto, using(crate::proofs::AmTimings::appends))]
fn drop_last(mut sdus: Packets, lcid: u8, events: &mut Events) -> Result<(), NoMemory>
    ensures { OnOk result (events.new ≡ events.old
        ++ map (λ sdu. events_of.Drop lcid Handover) sdus) }
{
    'drops: while let Some(_sdu) = sdus.pop_front() {
        events.push(Event::Drop {
            lcid,
            why: Lost::Handover,
        })?;
    }
    Ok(())
}
