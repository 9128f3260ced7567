ghost use Rattle.std.specs.Prelude.{◌≡◌, ◌-◌, ◌^◌, ◌<◌, ◌++◌, [], ◌∷◌, None, length, IfOk, OnOk};
ghost use Rattle.bearer_types.specs.declared.Event.TheVariants as events_of;
ghost use Rattle.l2_types.specs.declared.How.TheVariants as hows;
ghost use Rattle.rlc_queue.specs.NewPdu.{IsWithin};
ghost use Rattle.rlc_um.specs.Transparent.{nothing_submitted, taken, after_take};
ghost use Rattle.bearer_pdcp.specs.Shares.{FitsShare};
ghost use Rattle.bearer_pdcp.specs.Telling.{pdus_of};
ghost use Rattle.bearer.specs.Transparent.{data_told, arrived_told};

use bearer_pdcp::{Written, tell_wait};
use bearer_types::{Event, Events};
use l2_bits::{Bytes, NoMemory, Packets};
use l2_types::{How, Waits};
use rlc_pdu::{RlcRefusal, RlcWhy, Taken};
use rlc_um::TmTx;
use std::alloc::Global;
use std::marker::Model;

/// The transparent bearer at one end.
#[derive(Drop)]
pub struct TmBearer {
    pub(crate) alloc: Global,
    pub(crate) tx: TmTx,
}

impl Model for TmBearer {
    ghost use Rattle.rlc_um.specs.Transparent.{Transparent};

    ghost Value = { Transparent };

    ghost view = { λ b. b.tx };
}

impl TmBearer {
    pub fn new(alloc: Global) -> TmBearer
        ensures { result ≡ nothing_submitted }
    {
        TmBearer {
            alloc,
            tx: TmTx::new(alloc),
        }
    }

    #[tactic(auto, using(crate::proofs::Wider::wider, bearer_pdcp::proofs::Fitting::fits))]
    pub fn take(&mut self, lcid: u8, share: u32) -> Result<Written, NoMemory>
        ensures pdus { IfOk result (λ w. w.pdus ≡ pdus_of (taken self.old (share - 3))) }
        ensures number { IfOk result (λ w. w.number ≡ None) }
        ensures told { IfOk result (λ w. w.events ≡ data_told lcid (taken self.old (share - 3))) }
        ensures fits { IfOk result (λ w. FitsShare share w.pdus) }
        ensures state { OnOk result (self.new ≡ after_take self.old (share - 3)) }
    {
        let mut written = Written {
            pdus: Packets::new(self.alloc),
            number: None,
            events: Events::new(self.alloc),
        };
        let taken = self.tx.take(share.saturating_sub(3));
        tell(lcid, &taken, &mut written.events)?;
        if let Taken::Piece { octets, .. } = taken {
            written.pdus.push(octets)?;
        }
        Ok(written)
    }

    pub fn arrive(&self, lcid: u8, pdu: &[u8]) -> Result<Events, NoMemory>
        ensures { IfOk result (λ events. events ≡ arrived_told lcid pdu.now) }
    {
        let mut events = Events::new(self.alloc);
        if pdu.is_empty() {
            let fault = RlcRefusal {
                at: 0,
                why: RlcWhy::Short,
            };
            events.push(Event::BadRlc { lcid, fault })?;
            return Ok(events);
        }
        let octets = Bytes::from_slice(self.alloc, pdu)?;
        events.push(Event::Up { lcid, octets })?;
        Ok(events)
    }
}

fn tell(lcid: u8, taken: &Taken, events: &mut Events) -> Result<(), NoMemory>
    requires { IsWithin (2 ^ 32 - 1) taken.now }
    ensures { OnOk result (events.new ≡ events.old ++ data_told lcid taken.now) }
{
    match taken {
        Taken::Piece { octets, .. } => tell_piece(lcid, octets, events),
        Taken::Idle => Ok(()),
        Taken::Small => tell_wait(lcid, Waits::Small, events),
        Taken::Shut => tell_wait(lcid, Waits::Shut, events),
        Taken::Held => tell_wait(lcid, Waits::Held, events),
        Taken::Stopped => tell_wait(lcid, Waits::Stopped, events),
    }
}

fn tell_piece(lcid: u8, octets: &Bytes, events: &mut Events) -> Result<(), NoMemory>
    requires { length octets.now < 2 ^ 32 }
    ensures { OnOk result (events.new ≡ events.old ++ events_of.Take lcid None (length octets.now)
        ∷ events_of.Send lcid hows.Tm 0 ∷ []) }
{
    events.push(Event::Take {
        lcid,
        count: None,
        len: octets.as_slice().len() as u32,
    })?;
    events.push(Event::Send {
        lcid,
        how: How::Tm,
        sn: 0,
    })
}
