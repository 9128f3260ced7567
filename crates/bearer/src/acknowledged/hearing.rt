//! What a bearer hears.

ghost use Rattle.std.specs.Prelude.{◌≡◌, ◌<◌, ◌^◌, length, OnOk, IfOk};
ghost use Rattle.rlc_pdu.specs.Views.{amd_of, status_of};
ghost use Rattle.bearer.specs.Acknowledged.State.{work, with_work};
ghost use Rattle.bearer.specs.Acknowledged.Hearing.{settled_work, hears, hears_all, all_handed};
ghost use Rattle.bearer.specs.Acknowledged.Hearing.{land_work, land_left, confirms, all_confirmed};
ghost use Rattle.bearer.specs.Acknowledged.Hearing.{status_work, heard_status, arriving};
ghost use Rattle.bearer.specs.Acknowledged.Hearing.{after_arrival};
ghost use Rattle.l2_bits.specs.declared.limits.TheConstants.{OCTETS_LIMIT};
ghost use Rattle.rlc_pdu.specs.declared.constants.TheConstants.{AM_MODULUS};

use crate::acknowledged::running::AmBearer;
use bearer_pdcp::{Pdcp, tell_landed};
use bearer_types::{Event, Events};
use l2_bits::{Bytes, NoMemory};
use l2_types::{Clock, Lost};
use pdcp_rx::Cause;
use rlc_am_rx::AmRx;
use rlc_am_tx::{AmTx, Heard};
use rlc_pdu::{AmPdu, Amd, StatusRead, read_am};

impl AmBearer {
    /// A PDU arrives, and what comes of it is told.
    #[tactic(auto, unfolding(crate::specs::Acknowledged::Hearing::arriving, crate::specs::Acknowledged::Hearing::after_arrival))]
    pub fn arrive(&mut self, pdu: &[u8]) -> Result<Events, NoMemory>
        requires { length pdu.now < OCTETS_LIMIT }
        ensures told { IfOk result (λ events. events ≡ arriving self.old pdu.now) }
        ensures state { OnOk result (self.new ≡ after_arrival self.old pdu.now) }
    {
        match read_am(pdu) {
            Ok(AmPdu::Payload(amd)) => self.land(&amd),
            Ok(AmPdu::Status(status)) => self.hear_status(status),
            Err(fault) => {
                let mut events = Events::new(self.alloc);
                let lcid = self.pdcp.lcid();
                events.push(Event::BadRlc { lcid, fault })?;
                Ok(events)
            }
        }
    }

    fn land(&mut self, amd: &Amd<'_>) -> Result<Events, NoMemory>
        requires { amd.now.sn < AM_MODULUS }
        ensures told { IfOk result (λ events. events ≡ (land_work (amd_of amd.now) self.old).events) }
        ensures state { OnOk result (self.new ≡ land_left (amd_of amd.now) self.old) }
    {
        let mut events = Events::new(self.alloc);
        let (landed, turned) = self.rx.arrive(amd)?;
        tell_landed(self.pdcp.lcid(), landed, turned, &mut events)?;
        hand_up(&mut self.rx, &mut self.pdcp, &mut self.tx, &mut events)?;
        Ok(events)
    }

    fn hear_status(&mut self, status: StatusRead<'_>) -> Result<Events, NoMemory>
        ensures told { IfOk result (λ events. events
            ≡ (heard_status (status_of status.entry) self.old).events) }
        ensures state { OnOk result
            (self.new ≡ with_work (heard_status (status_of status.entry) self.old) self.old) }
    {
        let mut events = Events::new(self.alloc);
        let heard = self.tx.status(status)?;
        confirm_all(&mut self.tx, &mut self.pdcp);
        tell_heard(heard, &mut self.pdcp, &mut self.tx, &mut events)?;
        Ok(events)
    }
}

// Tells PDCP which PDUs are wholly acknowledged.
fn confirm_all(tx: &mut AmTx, pdcp: &mut Pdcp)
    ensures pdcp { pdcp.new ≡ confirms tx.old.state.accounts.news pdcp.old }
    ensures tx { tx.new.state ≡ all_confirmed tx.old.state }
{
    while let Some(place) = tx.confirmed() {
        pdcp.confirm(place);
    }
}

fn tell_heard(
    heard: Heard,
    pdcp: &mut Pdcp,
    tx: &mut AmTx,
    events: &mut Events,
) -> Result<(), NoMemory>
    ensures { OnOk result (work pdcp.new tx.new.state events.new
        ≡ status_work heard (work pdcp.old tx.old.state events.old)) }
{
    let lcid = pdcp.lcid();
    match heard {
        Heard::Ignored => events.push(Event::Drop {
            lcid,
            why: Lost::Ignored,
        }),
        Heard::Limit(sn) => events.push(Event::Fail { lcid, sn }),
        Heard::Applied { stopped } => {
            if stopped {
                events.push(Event::Stop {
                    lcid,
                    clock: Clock::Poll,
                })?;
            }
            settle(pdcp, tx, events)
        }
    }
}

/// The sender settles, and tells where it starts the poll timer.
pub(crate) fn settle(pdcp: &mut Pdcp, tx: &mut AmTx, events: &mut Events) -> Result<(), NoMemory>
    ensures { OnOk result (work pdcp.new tx.new.state events.new
        ≡ settled_work (work pdcp.old tx.old.state events.old)) }
{
    if tx.settle(pdcp.may_take()) {
        events.push(Event::Start {
            lcid: pdcp.lcid(),
            clock: Clock::Poll,
        })?;
    }
    Ok(())
}

// Hands up what the receiver has ready, through PDCP.
#[tactic(auto, using(crate::proofs::AmHears::steps))]
fn hand_up(
    rx: &mut AmRx,
    pdcp: &mut Pdcp,
    tx: &mut AmTx,
    events: &mut Events,
) -> Result<(), NoMemory>
    ensures rx { OnOk result (rx.new.state ≡ all_handed rx.old.state) }
    ensures work { OnOk result (work pdcp.new tx.new.state events.new
        ≡ hears_all rx.old.state.out.ready (work pdcp.old tx.old.state events.old)) }
{
    while let Some(sdu) = rx.up() {
        hear_one(&sdu, pdcp, tx, events)?;
    }
    Ok(())
}

fn hear_one(
    sdu: &Bytes,
    pdcp: &mut Pdcp,
    tx: &mut AmTx,
    events: &mut Events,
) -> Result<(), NoMemory>
    ensures { OnOk result (work pdcp.new tx.new.state events.new
        ≡ hears sdu.now (work pdcp.old tx.old.state events.old)) }
{
    if pdcp.hear(sdu.as_slice(), Cause::Arrived, events)? {
        return settle(pdcp, tx, events);
    }
    Ok(())
}
