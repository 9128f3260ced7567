//! A bearer writes within its share of a grant.

ghost use Rattle.std.specs.Prelude.{◌≡◌, ◌≤◌, ◌+◌, ◌-◌, ◌++◌, ◌%◌, ◌∷◌, None, OnOk, IfOk};
ghost use Rattle.bearer_types.specs.declared.Event.TheVariants as events_of;
ghost use Rattle.bearer_pdcp.specs.Shares.{FitsShare};
ghost use Rattle.bearer_pdcp.specs.Telling.{pdus_of, number_of};
ghost use Rattle.bearer.specs.Acknowledged.Taking.{writes_status, status_pdus, status_told};
ghost use Rattle.bearer.specs.Acknowledged.Taking.{status_left, share_left, has_prohibit};
ghost use Rattle.bearer.specs.Acknowledged.Taking.{prohibit_told, how_of, poll_told, data_told};
ghost use Rattle.bearer.specs.Acknowledged.Taking.{answer, pdus, taking, after_taking};

use crate::acknowledged::feeding::feed;
use crate::acknowledged::report::write_status;
use crate::acknowledged::running::AmBearer;
use bearer_pdcp::{Written, tell_wait};
use bearer_types::{Event, Events};
use l2_bits::{NoMemory, Packets};
use l2_types::{Clock, GREATEST_GRANT, How, Waits};
use rlc_pdu::{AM_MODULUS, Taken};

impl AmBearer {
    /// Writes within a share of a grant, of at most 9424 octets: a STATUS that is due, and then at
    /// most one data PDU in what is left, each with 3 octets for its subheader. Where data waits
    /// and none is written, the reason is told.
    #[tactic(auto, using(bearer_pdcp::proofs::Fitting::both), unfolding(crate::specs::Acknowledged::Taking::answer, crate::specs::Acknowledged::Taking::pdus, crate::specs::Acknowledged::Taking::taking, crate::specs::Acknowledged::Taking::after_taking))]
    pub fn take(&mut self, share: u32, held: Option<u64>) -> Result<Written, NoMemory>
        requires { share ≤ GREATEST_GRANT + 2 }
        ensures pdus { IfOk result (λ w. w.pdus ≡ pdus self.old share held) }
        ensures number { IfOk result (λ w. w.number ≡ number_of (answer self.old share held)) }
        ensures told { IfOk result (λ w. w.events ≡ taking self.old share held) }
        ensures fits { IfOk result (λ w. FitsShare share w.pdus) }
        ensures state { OnOk result (self.new ≡ after_taking self.old share held) }
    {
        let mut written = Written {
            pdus: Packets::new(self.alloc),
            number: None,
            events: Events::new(self.alloc),
        };
        let left = self.report(share, &mut written)?;
        let size = left.saturating_sub(3);
        feed(
            &mut self.pdcp,
            &mut self.tx,
            size,
            held,
            &mut written.events,
        )?;
        let taken = self.tx.take(size, held, self.pdcp.may_take())?;
        tell_data(self.pdcp.lcid(), &taken, &mut written.events)?;
        put_data(taken, &mut written)?;
        Ok(written)
    }

    // Writes a STATUS where it is due, may be sent and fits, and answers what it leaves of the
    // share.
    #[tactic(auto, using(bearer_pdcp::proofs::Fitting::few))]
    fn report(&mut self, share: u32, written: &mut Written) -> Result<u32, NoMemory>
        requires { share ≤ GREATEST_GRANT + 2 }
        ensures left { IfOk result (λ left. left ≡ share_left self.old.rx share) }
        ensures few { IfOk result (λ left. left ≤ GREATEST_GRANT + 2) }
        ensures less { IfOk result (λ left. left ≤ share) }
        ensures fits { IfOk result
            (λ left. FitsShare (share - left) (status_pdus self.old.rx share)) }
        ensures pdus { OnOk result (written.new.pdus ≡ written.old.pdus
            ++ status_pdus self.old.rx share) }
        ensures told { OnOk result (written.new.events
            ≡ written.old.events ++ status_told self.old.pdcp.lcid (has_prohibit self.old)
            self.old.rx share) }
        ensures number { OnOk result (written.new.number ≡ written.old.number) }
        ensures state { OnOk result
            (self.new ≡ record self.old { rx = status_left self.old.rx share }) }
    {
        if !self.rx.status_due() || share < 5 {
            return Ok(share);
        }
        let (pdu, sn) = write_status(&mut self.rx, share - 3)?;
        let lcid = self.pdcp.lcid();
        written.events.push(Event::Send {
            lcid,
            how: How::Status,
            sn,
        })?;
        self.tell_prohibit(&mut written.events)?;
        let left = share - 3 - pdu.as_slice().len() as u32;
        written.pdus.push(pdu)?;
        Ok(left)
    }

    fn tell_prohibit(&self, events: &mut Events) -> Result<(), NoMemory>
        ensures { OnOk result (events.new ≡ events.old
            ++ prohibit_told self.now.pdcp.lcid (has_prohibit self.now)) }
    {
        if self.rx_config.prohibit.is_none() {
            return Ok(());
        }
        events.push(Event::Start {
            lcid: self.pdcp.lcid(),
            clock: Clock::Prohibit,
        })
    }
}

fn tell_data(lcid: u8, taken: &Taken, events: &mut Events) -> Result<(), NoMemory>
    ensures { OnOk result (events.new ≡ events.old ++ data_told lcid taken.now) }
{
    match taken {
        Taken::Piece {
            number,
            fresh,
            polled,
            ..
        } => tell_piece(lcid, *number, *fresh, *polled, events),
        Taken::Idle => Ok(()),
        Taken::Small => tell_wait(lcid, Waits::Small, events),
        Taken::Shut => tell_wait(lcid, Waits::Shut, events),
        Taken::Held => tell_wait(lcid, Waits::Held, events),
        Taken::Stopped => tell_wait(lcid, Waits::Stopped, events),
    }
}

fn tell_piece(
    lcid: u8,
    number: u64,
    fresh: bool,
    polled: bool,
    events: &mut Events,
) -> Result<(), NoMemory>
    ensures { OnOk result (events.new ≡ events.old
        ++ events_of.Send lcid (how_of fresh) (number % AM_MODULUS) ∷ poll_told lcid polled) }
{
    let how = if fresh { How::New } else { How::Re };
    let sn = (number % AM_MODULUS) as u32;
    events.push(Event::Send { lcid, how, sn })?;
    if polled {
        events.push(Event::Start {
            lcid,
            clock: Clock::Poll,
        })?;
    }
    Ok(())
}

fn put_data(taken: Taken, written: &mut Written) -> Result<(), NoMemory>
    requires { written.old.number ≡ None }
    ensures pdus { OnOk result (written.new.pdus ≡ written.old.pdus ++ pdus_of taken) }
    ensures number { OnOk result (written.new.number ≡ number_of taken) }
    ensures told { OnOk result (written.new.events ≡ written.old.events) }
{
    if let Taken::Piece { number, octets, .. } = taken {
        written.pdus.push(octets)?;
        written.number = Some(number);
    }
    Ok(())
}
