ghost use Rattle.std.specs.Prelude.{◌≡◌, ◌⊎◌, ◌+◌, ◌*◌, ◌-◌, ◌%◌, ◌^◌, ◌<◌, ◌≤◌, ◌++◌, length, min};
ghost use Rattle.std.specs.Prelude.{Some, None, OnOk, OnErr, IfOk, IfErr};
ghost use Rattle.pdcp_tx.specs.State.{refusal, submitted, offers, sizes, left};
ghost use Rattle.rlc_pdu.specs.Pdus.{IsUmBits};
ghost use Rattle.rlc_queue.specs.Waiting.{total};
ghost use Rattle.l2_types.specs.declared.Clock.TheVariants.{Reorder};
ghost use Rattle.pdcp_rx.specs.declared.Cause.TheVariants.{Reestablished};
ghost use Rattle.rlc_pdu.specs.Views.{umd_of};
ghost use Rattle.rlc_um.specs.Sender.{need, width_of, idle_sender};
ghost use Rattle.rlc_um.specs.Receiver.{arrival, landing, turning, expiring, all_joined, start};
ghost use Rattle.bearer_pdcp.specs.Lives.{restarted as restarted_pdcp};
ghost use Rattle.bearer_pdcp.specs.Shares.{FitsShare};
ghost use Rattle.bearer_pdcp.specs.Submitting.{Answers, StaysOrDies};
ghost use Rattle.bearer_pdcp.specs.Telling.{pdus_of, number_of, landed_told};
ghost use Rattle.bearer.specs.Unacknowledged.State.{fresh, with_new_rlc};
ghost use Rattle.bearer.specs.Unacknowledged.Taking.{answer, taking, after_taking, data_told};
ghost use Rattle.bearer.specs.Unacknowledged.Taking.{idle_told, has_more, why_idle};
ghost use Rattle.bearer.specs.Unacknowledged.Hearing.{hears_all, all_handed, handing, arriving};
ghost use Rattle.bearer.specs.Unacknowledged.Hearing.{after_arrival, up_left, up_told, expiry};
ghost use Rattle.bearer.specs.Unacknowledged.Hearing.{after_expiry, expiry_told, expiry_left};
ghost use Rattle.bearer.specs.Unacknowledged.Hearing.{told_of, ticking, after_ticking};
ghost use Rattle.bearer.specs.Unacknowledged.Lives.{stopping, last_ups};
ghost use Rattle.l2_bits.specs.declared.limits.TheConstants.{OCTETS_LIMIT};

use crate::unacknowledged::feeding::feed;
use bearer_pdcp::{Pdcp, Written, tell_expired, tell_landed, tell_wait};
use bearer_types::{BearerConfig, Event, Events};
use eps_sec::Keys;
use l2_bits::{NoMemory, Packets, SubmitRefusal};
use l2_types::{Clock, How, Side, Waits};
use pdcp_pdu::PdcpKind;
use pdcp_rx::Cause;
use rlc_pdu::{Expired, Taken, Umd, read_umd};
use rlc_um::{UmRx, UmTx};
use std::alloc::Global;
use std::marker::Model;
use std::mem;

/// An unacknowledged data bearer in a life. Of a bearer that has answered `NoMemory` nothing is
/// said.
#[derive(Drop)]
pub struct UmBearer {
    alloc: Global,
    bits: u32,
    reorder: u32,
    pdcp: Pdcp,
    tx: UmTx,
    rx: UmRx,
}

impl Model for UmBearer {
    ghost use Rattle.std.specs.Prelude.{◌≡◌};
    ghost use Rattle.rlc_pdu.specs.Pdus.{IsUmBits};
    ghost use Rattle.rlc_um.specs.Sender.{width_of};
    ghost use Rattle.bearer.specs.Unacknowledged.State.{State};

    ghost Value = { State };

    ghost view = { λ b. record {
      bits = b.bits;
      reorder = b.reorder;
      pdcp = b.pdcp;
      tx = b.tx.state;
      rx = b.rx.state;
    } };

    ghost invariant = { λ b. IsUmBits b.bits × (b.rx.state.window.width ≡ width_of b.bits) };
}

/// An unacknowledged data bearer in a life that lies apart, so that what holds it is moved without
/// it. Contracts see the bearer.
#[derive(Drop)]
pub struct BoxedUm {
    pub(crate) bearer: Box<UmBearer>,
}

impl Model for BoxedUm {
    ghost use Rattle.bearer.specs.Unacknowledged.State.{State};

    ghost Value = { State };

    ghost view = { λ b. b.bearer.value };
}

impl BoxedUm {
    /// Takes over a bearer.
    pub fn new(alloc: Global, bearer: UmBearer) -> Result<BoxedUm, NoMemory>
        ensures { IfOk result (λ boxed. boxed ≡ bearer) }
    {
        Ok(BoxedUm {
            bearer: Box::new(alloc, bearer)?,
        })
    }
}

impl UmBearer {
    /// A bearer on LCID 3 to 10, as both ends are configured with it, and under the keys of its
    /// first life.
    #[tactic(auto, unfolding(crate::specs::Unacknowledged::State::fresh))]
    pub fn new(
        alloc: Global,
        config: &BearerConfig,
        keys: &Keys,
        side: Side,
    ) -> Result<UmBearer, NoMemory>
        requires low { 3 ≤ config.now.channel.lcid }
        requires high { config.now.channel.lcid ≤ 10 }
        requires rlc { IsUmBits config.now.rlc_bits }
        requires pdcp { (config.now.pdcp_bits ≡ 7) ⊎ (config.now.pdcp_bits ≡ 12) }
        ensures { IfOk result (λ b. b ≡ fresh config.now keys.now side) }
    {
        let bits = config.rlc_bits;
        let reorder = config.rx.reorder;
        let kind = PdcpKind::Um {
            bits: config.pdcp_bits,
        };
        let rx = UmRx::new(alloc, bits, reorder)?;
        Ok(UmBearer {
            alloc,
            bits,
            reorder,
            pdcp: Pdcp::new(alloc, config.channel.lcid, kind, config.first, keys, side),
            tx: UmTx::new(alloc, bits),
            rx,
        })
    }

    /// Takes over a copy of an SDU, which then waits. The refusals are those of `PdcpTx::submit`.
    pub fn submit(&mut self, sdu: &[u8]) -> Result<(), SubmitRefusal>
        ensures fits { OnOk result (refusal self.old.pdcp.tx sdu.now ≡ None) }
        ensures state { OnOk result
            (self.new ≡ record self.old {
              pdcp =
                  record self.old.pdcp { tx = submitted self.old.pdcp.tx sdu.now };
            }) }
        ensures answer { IfErr result (λ e. Answers e (refusal self.old.pdcp.tx sdu.now)) }
        ensures refused { IfErr result (λ e. StaysOrDies e (self.new ≡ self.old)) }
    {
        self.pdcp.submit(sdu)
    }

    /// What the bearer needs of a grant, in octets, with 3 for a subheader; more than 2^32 - 1 is
    /// told as that. `held` is the lowest number of this bearer that HARQ holds.
    pub fn need(&self, held: Option<u64>) -> u32
        ensures { result
            ≡ need self.now.tx (sizes self.now.pdcp.tx.kind (offers self.now.pdcp.tx)
            + 2 * length (offers self.now.pdcp.tx)) held }
    {
        self.tx.need(self.pdcp.waiting(), held)
    }

    /// The octets that a buffer status report counts: what RLC has left, and what it may take.
    pub fn backlog(&self) -> u64
        ensures { result
            ≡ min (total self.now.tx.waiting.sdus
            + sizes self.now.pdcp.tx.kind (offers self.now.pdcp.tx)) (2 ^ 64 - 1) }
    {
        self.tx.backlog().saturating_add(self.pdcp.octets())
    }

    /// The octets of the SDUs that wait.
    pub fn left(&self) -> u64
        ensures { result ≡ left self.now.pdcp.tx }
    {
        self.pdcp.left()
    }

    /// Writes at most one data PDU within a share of a grant, of which 3 octets are for its
    /// subheader. Where data waits and none is written, the reason is told.
    #[tactic(auto, using(bearer_pdcp::proofs::Fitting::fits), unfolding(crate::specs::Unacknowledged::Taking::answer, crate::specs::Unacknowledged::Taking::taking, crate::specs::Unacknowledged::Taking::after_taking))]
    pub fn take(&mut self, share: u32, held: Option<u64>) -> Result<Written, NoMemory>
        ensures pdus { IfOk result (λ w. w.pdus ≡ pdus_of (answer self.old share held)) }
        ensures number { IfOk result (λ w. w.number ≡ number_of (answer self.old share held)) }
        ensures told { IfOk result (λ w. w.events ≡ taking self.old share held) }
        ensures fits { IfOk result (λ w. FitsShare share w.pdus) }
        ensures state { OnOk result (self.new ≡ after_taking self.old share held) }
    {
        let size = share.saturating_sub(3);
        let mut events = Events::new(self.alloc);
        feed(&mut self.pdcp, &mut self.tx, size, held, &mut events)?;
        let why = why_idle(&self.tx, held);
        let taken = self.tx.take(size, held)?;
        self.tell_data(&taken, why, &mut events)?;
        written(self.alloc, taken, events)
    }

    fn tell_data(&self, taken: &Taken, why: Waits, events: &mut Events) -> Result<(), NoMemory>
        ensures { OnOk result (events.new ≡ events.old
            ++ data_told self.now.pdcp.lcid self.now.bits (has_more self.now.pdcp) why taken.now) }
    {
        let lcid = self.pdcp.lcid();
        match taken {
            Taken::Piece { number, .. } => events.push(Event::Send {
                lcid,
                how: How::New,
                sn: reduced(*number, self.bits),
            }),
            Taken::Idle => self.tell_idle(why, events),
            Taken::Small => tell_wait(lcid, Waits::Small, events),
            Taken::Shut => tell_wait(lcid, Waits::Shut, events),
            Taken::Held => tell_wait(lcid, Waits::Held, events),
            Taken::Stopped => tell_wait(lcid, Waits::Stopped, events),
        }
    }

    fn tell_idle(&self, why: Waits, events: &mut Events) -> Result<(), NoMemory>
        ensures { OnOk result (events.new ≡ events.old
            ++ idle_told self.now.pdcp.lcid (has_more self.now.pdcp) why) }
    {
        if !self.pdcp.may_take() {
            return Ok(());
        }
        tell_wait(self.pdcp.lcid(), why, events)
    }

    /// A PDU arrives, and what comes of it is told.
    #[tactic(auto, unfolding(crate::specs::Unacknowledged::Hearing::arriving, crate::specs::Unacknowledged::Hearing::after_arrival))]
    pub fn arrive(&mut self, pdu: &[u8]) -> Result<Events, NoMemory>
        requires { length pdu.now < OCTETS_LIMIT }
        ensures told { IfOk result (λ events. events ≡ arriving self.old pdu.now) }
        ensures state { OnOk result (self.new ≡ after_arrival self.old pdu.now) }
    {
        match read_umd(self.bits, pdu) {
            Ok(umd) => self.land(&umd),
            Err(fault) => {
                let mut events = Events::new(self.alloc);
                let lcid = self.pdcp.lcid();
                events.push(Event::BadRlc { lcid, fault })?;
                Ok(events)
            }
        }
    }

    fn land(&mut self, umd: &Umd<'_>) -> Result<Events, NoMemory>
        requires { umd.now.sn < 2 ^ self.old.bits }
        ensures told { IfOk result (λ events. events
            ≡ up_told (arrival (umd_of umd.now) self.old.rx)
            (landed_told self.old.pdcp.lcid (landing (umd_of umd.now) self.old.rx)
            (turning (umd_of umd.now) self.old.rx)) self.old) }
        ensures state { OnOk result
            (self.new ≡ up_left (arrival (umd_of umd.now) self.old.rx)
            (landed_told self.old.pdcp.lcid (landing (umd_of umd.now) self.old.rx)
            (turning (umd_of umd.now) self.old.rx)) self.old) }
    {
        let mut events = Events::new(self.alloc);
        let (landed, turned) = self.rx.arrive(umd)?;
        tell_landed(self.pdcp.lcid(), landed, turned, &mut events)?;
        hand_up(&mut self.rx, &mut self.pdcp, &mut events)?;
        Ok(events)
    }

    /// A timer expires, and what that does is told; `None` exactly where it doesn't run, and
    /// nothing then changes. Of an unacknowledged bearer the reordering timer alone may run.
    #[tactic(auto, unfolding(crate::specs::Unacknowledged::Hearing::expiry, crate::specs::Unacknowledged::Hearing::after_expiry))]
    pub fn expire(&mut self, clock: Clock) -> Result<Option<Events>, NoMemory>
        ensures told { IfOk result (λ events. events ≡ expiry self.old clock) }
        ensures state { OnOk result (self.new ≡ after_expiry self.old clock) }
    {
        match clock {
            Clock::Reorder => self.expire_reorder(),
            Clock::Poll => Ok(None),
            Clock::Prohibit => Ok(None),
        }
    }

    #[tactic(auto, using(crate::proofs::UmHears::idle_expired))]
    fn expire_reorder(&mut self) -> Result<Option<Events>, NoMemory>
        ensures told { IfOk result (λ events. events ≡ expiry_told (expiring self.old.rx) self.old) }
        ensures state { OnOk result (self.new ≡ expiry_left (expiring self.old.rx) self.old) }
    {
        match self.rx.expire()? {
            Expired::NotRunning => Ok(None),
            Expired::Done { again } => {
                let mut events = Events::new(self.alloc);
                let lcid = self.pdcp.lcid();
                tell_expired(lcid, Clock::Reorder, again, &mut events)?;
                hand_up(&mut self.rx, &mut self.pdcp, &mut events)?;
                Ok(Some(events))
            }
        }
    }

    /// A TTI begins: the reordering timer may expire, then discard timers may end.
    #[tactic(auto, unfolding(crate::specs::Unacknowledged::Hearing::ticking, crate::specs::Unacknowledged::Hearing::after_ticking))]
    pub fn tick(&mut self) -> Result<Events, NoMemory>
        ensures told { IfOk result (λ events. events ≡ ticking self.old) }
        ensures state { OnOk result (self.new ≡ after_ticking self.old) }
    {
        let mut events = if self.rx.tick() {
            self.expired()?
        } else {
            Events::new(self.alloc)
        };
        self.pdcp.tick(&mut events)?;
        Ok(events)
    }

    fn expired(&mut self) -> Result<Events, NoMemory>
        ensures told { IfOk result (λ events. events ≡ told_of (expiry self.old Reorder)) }
        ensures state { OnOk result (self.new ≡ after_expiry self.old Reorder) }
    {
        match self.expire(Clock::Reorder)? {
            Some(events) => Ok(events),
            None => Ok(Events::new(self.alloc)),
        }
    }

    /// Sets the length of the discard timers in TTIs.
    pub fn set_discard(&mut self, ttis: u32)
        ensures { self.new ≡ record self.old {
          pdcp =
              record self.old.pdcp { tx = record self.old.pdcp.tx { discard = Some ttis } };
        } }
    {
        self.pdcp.set_discard(ttis)
    }

    // All that RLC can put together is handed up, and RLC begins anew.
    #[tactic(auto, unfolding(crate::specs::Unacknowledged::Lives::stopping))]
    pub(crate) fn end_life(&mut self) -> Result<Events, NoMemory>
        ensures told { IfOk result (λ events. events ≡ stopping self.old) }
        ensures state { OnOk result
            (self.new ≡ with_new_rlc self.old.bits self.old.reorder (last_ups self.old).pdcp) }
    {
        let fresh = UmRx::new(self.alloc, self.bits, self.reorder)?;
        let mut events = Events::new(self.alloc);
        let old = mem::replace(&mut self.rx, fresh);
        hear_last(old, &mut self.pdcp, &mut events)?;
        self.tx = UmTx::new(self.alloc, self.bits);
        Ok(events)
    }

    pub(crate) fn begin_life(&mut self, keys: &Keys) -> Result<(), NoMemory>
        requires sender { self.old.tx ≡ idle_sender self.old.bits }
        requires receiver { self.old.rx ≡ start (width_of self.old.bits) self.old.reorder }
        ensures ok { OnOk result
            (self.new
            ≡ with_new_rlc self.old.bits self.old.reorder
            (restarted_pdcp self.old.pdcp keys.now)) }
        ensures err { OnErr result (self.new ≡ self.old) }
    {
        self.pdcp.renew(keys)
    }
}

// Why a sender that has nothing writes nothing although PDCP has something: a number that HARQ
// holds forbids a new one, which shows in a need of 0, or nothing fits.
fn why_idle(tx: &UmTx, held: Option<u64>) -> Waits
    ensures { result ≡ why_idle tx.now.state held }
{
    if tx.need(1, held) == 0 {
        Waits::Held
    } else {
        Waits::Small
    }
}

fn written(alloc: Global, taken: Taken, events: Events) -> Result<Written, NoMemory>
    ensures pdus { IfOk result (λ w. w.pdus ≡ pdus_of taken) }
    ensures number { IfOk result (λ w. w.number ≡ number_of taken) }
    ensures told { IfOk result (λ w. w.events ≡ events) }
{
    let mut pdus = Packets::new(alloc);
    let mut data = None;
    if let Taken::Piece { number, octets, .. } = taken {
        pdus.push(octets)?;
        data = Some(number);
    }
    Ok(Written {
        pdus,
        number: data,
        events,
    })
}

// The number as it stands in a PDU.
fn reduced(number: u64, bits: u32) -> u32
    requires { IsUmBits bits }
    ensures { result ≡ number % 2 ^ bits }
{
    (number % (1u64 << bits)) as u32
}

// Hands up what the receiver has ready, through PDCP.
#[tactic(auto, using(crate::proofs::UmHears::steps))]
fn hand_up(rx: &mut UmRx, pdcp: &mut Pdcp, events: &mut Events) -> Result<(), NoMemory>
    ensures rx { OnOk result (rx.new.state ≡ all_handed rx.old.state) }
    ensures pdcp { OnOk result (pdcp.new ≡ (handing rx.old.state pdcp.old events.old).pdcp) }
    ensures told { OnOk result (events.new ≡ (handing rx.old.state pdcp.old events.old).events) }
    ensures width { rx.new.state.window.width ≡ rx.old.state.window.width }
{
    while let Some(sdu) = rx.up() {
        pdcp.hear(sdu.as_slice(), Cause::Arrived, events)?;
    }
    Ok(())
}

// Hands up all that a receiver that ends can put together.
fn hear_last(rx: UmRx, pdcp: &mut Pdcp, events: &mut Events) -> Result<(), NoMemory>
    ensures pdcp { OnOk result
        (pdcp.new
        ≡ (hears_all (all_joined rx.state) Reestablished
        (record { pdcp = pdcp.old; events = events.old })).pdcp) }
    ensures told { OnOk result
        (events.new
        ≡ (hears_all (all_joined rx.state) Reestablished
        (record { pdcp = pdcp.old; events = events.old })).events) }
{
    match rx.finish() {
        Ok(sdus) => hear_all(sdus, pdcp, events),
        Err((_dead, no_memory)) => Err(no_memory),
    }
}

fn hear_all(mut sdus: Packets, pdcp: &mut Pdcp, events: &mut Events) -> Result<(), NoMemory>
    ensures pdcp { OnOk result
        (pdcp.new
        ≡ (hears_all sdus Reestablished (record { pdcp = pdcp.old; events = events.old })).pdcp) }
    ensures told { OnOk result
        (events.new
        ≡ (hears_all sdus Reestablished (record { pdcp = pdcp.old; events = events.old })).events) }
{
    while let Some(sdu) = sdus.pop_front() {
        pdcp.hear(sdu.as_slice(), Cause::Reestablished, events)?;
    }
    Ok(())
}
