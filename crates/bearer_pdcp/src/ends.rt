ghost use Rattle.std.specs.Prelude.{◌≡◌, ◌+◌, ◌*◌, ◌<◌, ◌≤◌, ◌^◌, ◌++◌, [], ◌∷◌, length, slice_get};
ghost use Rattle.std.specs.Prelude.{is_some, if◌then◌else◌, Some, None, OnOk, OnErr, IfOk, IfErr};
ghost use Rattle.std.specs.Prelude.{IfSome};
ghost use Rattle.pdcp_pdu.specs.Kinds.{IsKind, is_am};
ghost use Rattle.pdcp_tx.specs.State.{refusal, submitted, offers, sizes, left, confirmed};
ghost use Rattle.bearer_pdcp.specs.Submitting.{Answers, StaysOrDies};
ghost use Rattle.bearer_pdcp.specs.Ends.{begun, bearer_of, sends, hears};
ghost use Rattle.bearer_pdcp.specs.Taking.{own_report_told, taken_told, taken, taking_told};
ghost use Rattle.bearer_pdcp.specs.Taking.{after_taking};
ghost use Rattle.bearer_pdcp.specs.Hearing.{ups, handed, is_for_sender, is_applied, is_arrived};
ghost use Rattle.bearer_pdcp.specs.Hearing.{got_told, got_left, got_applied, heard_told};
ghost use Rattle.bearer_pdcp.specs.Hearing.{after_hearing, applies};
ghost use Rattle.bearer_types.specs.declared.Event.TheVariants as events_of;
ghost use Rattle.l2_types.specs.declared.Lost.TheVariants as lost;
ghost use Rattle.pdcp_tx.specs.State.{reported, taking, took, HasSize, IsShort};
ghost use Rattle.bearer_pdcp.specs.Lives.{report_of, OwesShort, restarted, owing_report};
ghost use Rattle.bearer_pdcp.specs.Discarding.{without_late, late_told, after_tick, tick_told};

use crate::stopped::StoppedPdcp;
use bearer_types::{Event, Events};
use eps_sec::Keys;
use l2_bits::{Bytes, NoMemory, SubmitRefusal};
use l2_types::{Lost, Side};
use pdcp_pdu::{PdcpKind, User, read_user};
use pdcp_rx::{Cause, Got, PdcpRx};
use pdcp_tx::{Next, PdcpTx};
use std::alloc::Global;
use std::marker::Model;

/// Both PDCP entities of a bearer at one end (TS 36.323 4.2.2). `lcid` is 1 to 10.
#[derive(Drop)]
pub struct Pdcp {
    alloc: Global,
    lcid: u8,
    kind: PdcpKind,
    tx: PdcpTx,
    rx: PdcpRx,
}

impl Model for Pdcp {
    ghost use Rattle.std.specs.Prelude.{◌≡◌, ◌≤◌};
    ghost use Rattle.pdcp_pdu.specs.Kinds.{IsKind};
    ghost use Rattle.bearer_pdcp.specs.Ends.{Ends};
    ghost use Rattle.bearer_pdcp.specs.Lives.{OwesShort};

    ghost Value = { Ends };

    ghost view = { λ p. record { lcid = p.lcid; kind = p.kind; tx = p.tx.state; rx = p.rx.state } };

    ghost invariant = { λ p. (p.lcid ≤ 10) × IsKind p.kind × (p.rx.state.kind ≡ p.kind) × OwesShort p.tx };
}

impl Pdcp {
    /// A bearer whose COUNTs begin with `first` in both directions. It takes no memory.
    #[tactic(auto, unfolding(crate::specs::Ends::begun), using(crate::proofs::OwedSteps::starts))]
    pub fn new(alloc: Global, lcid: u8, kind: PdcpKind, first: u32, keys: &Keys, side: Side) -> Pdcp
        requires low { 1 ≤ lcid }
        requires high { lcid ≤ 10 }
        requires kind { IsKind kind }
        ensures { result ≡ begun lcid kind first keys.now side }
    {
        let bearer = bearer_of(lcid);
        Pdcp {
            alloc,
            lcid,
            kind,
            tx: PdcpTx::new(alloc, kind, first, keys, bearer, sends(side)),
            rx: PdcpRx::new(alloc, kind, first, keys, bearer, hears(side)),
        }
    }

    /// The logical channel, 1 to 10.
    pub fn lcid(&self) -> u8
        ensures value { result ≡ self.now.lcid }
        ensures within { result ≤ 10 }
    {
        self.lcid
    }

    /// Whether it is an acknowledged data bearer.
    pub fn is_am(&self) -> bool
        ensures { result ≡ is_am self.now.kind }
    {
        self.kind.is_am()
    }

    /// Takes over a copy of an SDU, which then waits. The refusals are those of `PdcpTx::submit`.
    #[tactic(auto, using(crate::proofs::OwedSteps::submits))]
    pub fn submit(&mut self, sdu: &[u8]) -> Result<(), SubmitRefusal>
        ensures fits { OnOk result (refusal self.old.tx sdu.now ≡ None) }
        ensures state { OnOk result
            (self.new ≡ record self.old { tx = submitted self.old.tx sdu.now }) }
        ensures answer { IfErr result (λ e. Answers e (refusal self.old.tx sdu.now)) }
        ensures refused { IfErr result (λ e. StaysOrDies e (self.new ≡ self.old)) }
    {
        self.tx.submit(sdu)
    }

    /// Whether RLC may take something.
    pub fn may_take(&self) -> bool
        ensures { result ≡ is_some (slice_get (offers self.now.tx) 0) }
    {
        self.tx.may_take()
    }

    /// The octets of the PDUs that RLC may take, and 2 for each.
    pub fn waiting(&self) -> u64
        ensures { result ≡ sizes self.now.tx.kind (offers self.now.tx)
            + 2 * length (offers self.now.tx) }
    {
        self.tx.waiting()
    }

    /// The octets of the PDUs that RLC may take.
    pub fn octets(&self) -> u64
        ensures { result ≡ sizes self.now.tx.kind (offers self.now.tx) }
    {
        self.tx.octets()
    }

    /// The octets of the SDUs that wait, and on an acknowledged data bearer of those that were
    /// taken and either aren't confirmed or are still to be taken again.
    pub fn left(&self) -> u64
        ensures { result ≡ left self.now.tx }
    {
        self.tx.left()
    }

    /// Takes the first of what RLC may take, a PDU of 1 to 8193 octets, and tells it; `None`
    /// exactly where there is nothing.
    #[tactic(auto, unfolding(crate::specs::Taking::taken, crate::specs::Taking::taking_told, crate::specs::Taking::after_taking))]
    pub fn take(&mut self, events: &mut Events) -> Result<Option<Bytes>, NoMemory>
        ensures answer { IfOk result (λ pdu. pdu ≡ taken self.old) }
        ensures short { IfOk result (λ pdu. IfSome pdu IsShort) }
        ensures state { OnOk result (self.new ≡ after_taking self.old) }
        ensures told { OnOk result (events.new ≡ events.old ++ taking_told self.old) }
    {
        match next_pdu(&mut self.tx)? {
            None => Ok(None),
            Some(next) => {
                self.tell_taken(next.count, next.len, &next.octets, events)?;
                Ok(Some(next.octets))
            }
        }
    }

    fn tell_taken(
        &self,
        count: Option<u32>,
        len: u32,
        pdu: &Bytes,
        events: &mut Events,
    ) -> Result<(), NoMemory>
        ensures { OnOk result (events.new ≡ events.old
            ++ taken_told self.now.lcid self.now.kind count len pdu.now) }
    {
        match count {
            Some(_) => events.push(Event::Take {
                lcid: self.lcid,
                count,
                len,
            }),
            None => self.tell_report(pdu.as_slice(), events),
        }
    }

    fn tell_report(&self, pdu: &[u8], events: &mut Events) -> Result<(), NoMemory>
        ensures { OnOk result (events.new ≡ events.old
            ++ own_report_told self.now.lcid self.now.kind pdu.now) }
    {
        let bits = match self.kind {
            PdcpKind::Srb => return Ok(()),
            PdcpKind::Um { bits } => bits,
            PdcpKind::Am { bits } => bits,
        };
        match read_user(bits, pdu) {
            Ok(User::Report { fms, bitmap }) => events.push(Event::Report {
                lcid: self.lcid,
                fms,
                bitmap: Bytes::from_slice(self.alloc, bitmap)?,
            }),
            _ => Ok(()),
        }
    }

    /// Hears a PDU that RLC hands up, and tells what comes of it. True exactly where it is a status
    /// report of the other end that was applied, after which the acknowledged sender is to settle.
    #[tactic(auto, unfolding(crate::specs::Hearing::heard_told, crate::specs::Hearing::after_hearing, crate::specs::Hearing::applies))]
    pub fn hear(&mut self, pdu: &[u8], cause: Cause, events: &mut Events) -> Result<bool, NoMemory>
        ensures answer { IfOk result (λ applied. applied ≡ applies pdu.now cause self.old) }
        ensures state { OnOk result (self.new ≡ after_hearing pdu.now cause self.old) }
        ensures told { OnOk result (events.new ≡ events.old ++ heard_told pdu.now cause self.old) }
    {
        let got = self.rx.arrive(pdu, cause)?;
        self.tell_got(got, cause, events)
    }

    fn tell_got(&mut self, got: Got, cause: Cause, events: &mut Events) -> Result<bool, NoMemory>
        ensures answer { IfOk result (λ applied. applied ≡ got_applied got cause self.old) }
        ensures state { OnOk result (self.new ≡ got_left got cause self.old) }
        ensures told { OnOk result (events.new ≡ events.old ++ got_told got cause self.old) }
    {
        match got {
            Got::Up => hand_up(&mut self.rx, self.lcid, events)?,
            Got::Stored => hand_up(&mut self.rx, self.lcid, events)?,
            Got::Old => self.tell_lost(Lost::Old, events)?,
            Got::OutOfRange => self.tell_lost(Lost::Range, events)?,
            Got::Integrity { found, wanted } => events.push(Event::Integrity {
                lcid: self.lcid,
                found,
                wanted,
            })?,
            Got::Report { fms, bitmap } => {
                return self.hear_report(fms, bitmap.as_slice(), cause, events);
            }
            Got::Unreadable(fault) => events.push(Event::BadPdcp {
                lcid: self.lcid,
                fault,
            })?,
        }
        Ok(false)
    }

    fn tell_lost(&self, why: Lost, events: &mut Events) -> Result<(), NoMemory>
        ensures { OnOk result (events.new ≡ events.old ++ events_of.Drop self.now.lcid why ∷ []) }
    {
        events.push(Event::Drop {
            lcid: self.lcid,
            why,
        })
    }

    #[tactic(auto, using(crate::proofs::OwedSteps::hears))]
    fn hear_report(
        &mut self,
        fms: u32,
        bitmap: &[u8],
        cause: Cause,
        events: &mut Events,
    ) -> Result<bool, NoMemory>
        ensures answer { IfOk result (λ applied. applied ≡ is_applied self.old cause fms) }
        ensures state { OnOk result
            (self.new
            ≡ (if is_for_sender self.old cause
            then record self.old { tx = reported self.old.tx fms bitmap.now } else self.old)) }
        ensures told { OnOk result (events.new ≡ events.old
            ++ (if is_applied self.old cause fms then []
            else events_of.Drop self.old.lcid lost.Report ∷ [])) }
    {
        let applied = self.kind.is_am() && is_arrived(cause) && self.tx.report(fms, bitmap);
        if !applied {
            self.tell_lost(Lost::Report, events)?;
        }
        Ok(applied)
    }

    /// RLC has acknowledged all of what it took at a place in this life.
    #[tactic(auto, using(crate::proofs::OwedSteps::confirms))]
    pub fn confirm(&mut self, place: u64)
        ensures { self.new ≡ record self.old { tx = confirmed self.old.tx place } }
    {
        self.tx.confirm(place)
    }

    /// Sets the length of the discard timers in TTIs.
    pub fn set_discard(&mut self, ttis: u32)
        ensures { self.new ≡ record self.old { tx = record self.old.tx { discard = Some ttis } } }
    {
        self.tx.set_discard(ttis)
    }

    /// A TTI begins: SDUs whose discard timers end are dropped, and told.
    #[tactic(auto, unfolding(crate::specs::Discarding::after_tick, crate::specs::Discarding::tick_told))]
    pub fn tick(&mut self, events: &mut Events) -> Result<(), NoMemory>
        ensures state { OnOk result (self.new ≡ after_tick self.old) }
        ensures told { OnOk result (events.new ≡ events.old ++ tick_told self.old) }
    {
        self.tx.tick();
        drop_late(&mut self.tx, self.lcid, events)
    }

    /// Begins the next life where the bearer lies, under other keys, as `stop` and then `restart`
    /// do. An `Err` changes nothing.
    #[tactic(auto, unfolding(crate::specs::Lives::restarted), using(crate::proofs::OwedSteps::begins))]
    pub fn renew(&mut self, keys: &Keys) -> Result<(), NoMemory>
        ensures ok { OnOk result (self.new ≡ restarted self.old keys.now) }
        ensures err { OnErr result (self.new ≡ self.old) }
    {
        if self.rx.is_dead() {
            return Err(NoMemory);
        }
        let report = self.report()?;
        self.tx.renew(keys)?;
        owe(&mut self.tx, report);
        let Ok(()) = self.rx.renew(keys) else {
            unreachable!();
        };
        Ok(())
    }

    /// Ends the life (TS 36.323 5.2). An `Err` gives back the bearer as it was.
    pub fn stop(self) -> Result<StoppedPdcp, (Pdcp, NoMemory)>
        ensures ok { IfOk result (λ p. p ≡ self) }
        ensures err { IfErr result (λ e. e.0 ≡ self) }
    {
        let report = match self.report() {
            Ok(report) => report,
            Err(no_memory) => return Err((self, no_memory)),
        };
        let Pdcp {
            alloc,
            lcid,
            kind,
            tx,
            rx,
        } = self;
        Ok(StoppedPdcp::new(alloc, lcid, kind, tx.stop(), rx.stop(), report))
    }

    // The status report that the next life owes.
    fn report(&self) -> Result<Option<Bytes>, NoMemory>
        ensures value { IfOk result (λ report. report ≡ report_of self.now.kind self.now.rx) }
        ensures short { IfOk result (λ report. IfSome report IsShort) }
    {
        if !self.kind.is_am() {
            return Ok(None);
        }
        Ok(Some(self.rx.make_report()?))
    }

    pub(crate) fn from_parts(
        alloc: Global,
        lcid: u8,
        kind: PdcpKind,
        tx: PdcpTx,
        rx: PdcpRx,
    ) -> Pdcp
        requires lcid { lcid ≤ 10 }
        requires kind { IsKind kind }
        requires receiver { rx.state.kind ≡ kind }
        requires owes { OwesShort tx }
        ensures { result ≡ record { lcid = lcid; kind = kind; tx = tx.state; rx = rx.state } }
    {
        Pdcp {
            alloc,
            lcid,
            kind,
            tx,
            rx,
        }
    }
}

// The status report, if there is one, is to be taken first.
pub(crate) fn owe(tx: &mut PdcpTx, report: Option<Bytes>)
    requires short { IfSome report IsShort }
    requires owes { OwesShort tx.old }
    ensures owes { OwesShort tx.new }
    ensures state { tx.new ≡ record tx.old { state = owing_report report tx.old.state } }
{
    if let Some(report) = report {
        tx.owe(report);
    }
}

// Takes the first of what RLC may take.
#[tactic(auto, using(crate::proofs::OwedSteps::taking))]
fn next_pdu(tx: &mut PdcpTx) -> Result<Option<Next>, NoMemory>
    requires { OwesShort tx.old }
    ensures answer { IfOk result (λ next. next ≡ taking tx.old.state) }
    ensures size { IfOk result (λ next. IfSome next HasSize) }
    ensures state { OnOk result (tx.new.state ≡ took tx.old.state) }
    ensures owes { OwesShort tx.new }
{
    tx.next_pdu()
}

// Hands up what the receiver has ready.
fn hand_up(rx: &mut PdcpRx, lcid: u8, events: &mut Events) -> Result<(), NoMemory>
    ensures state { OnOk result
        (rx.new ≡ record rx.old { state = record rx.old.state { ready = [] } }) }
    ensures told { OnOk result (events.new ≡ events.old ++ ups lcid rx.old.state.ready) }
    ensures kind { rx.new.state.kind ≡ rx.old.state.kind }
{
    while let Some(octets) = rx.up() {
        events.push(Event::Up { lcid, octets })?;
    }
    Ok(())
}

// Drops the SDUs whose discard timers have ended.
#[tactic(auto, using(crate::proofs::LateSteps::lates, crate::proofs::OwedSteps::lates))]
fn drop_late(tx: &mut PdcpTx, lcid: u8, events: &mut Events) -> Result<(), NoMemory>
    requires { OwesShort tx.old }
    ensures state { OnOk result
        (tx.new ≡ record tx.old { state = without_late tx.old.state.waiting tx.old.state }) }
    ensures told { OnOk result (events.new ≡ events.old
        ++ late_told lcid tx.old.state.waiting tx.old.state) }
    ensures owes { OwesShort tx.new }
{
    while let Some(len) = tx.late() {
        events.push(Event::Discard { lcid, len })?;
    }
    Ok(())
}

/// BEARER of a logical channel, 0 to 10 (TS 36.323 5.6).
pub fn bearer_of(lcid: u8) -> u32
    requires { lcid ≤ 10 }
    ensures value { result ≡ bearer_of lcid }
    ensures below { result < 32 }
{
    u32::from(if lcid < 3 {
        lcid.saturating_sub(1)
    } else {
        lcid - 3
    })
}

/// DIRECTION of what an end sends (TS 33.401 B.1.1).
pub fn sends(side: Side) -> u32
    ensures value { result ≡ sends side }
    ensures below { result < 2 }
{
    match side {
        Side::Nb => 1,
        Side::Ue => 0,
    }
}

fn hears(side: Side) -> u32
    ensures value { result ≡ hears side }
    ensures below { result < 2 }
{
    match side {
        Side::Nb => 0,
        Side::Ue => 1,
    }
}

fn is_arrived(cause: Cause) -> bool
    ensures { result ≡ is_arrived cause }
{
    matches!(cause, Cause::Arrived)
}
