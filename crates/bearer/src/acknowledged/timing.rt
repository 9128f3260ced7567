//! Timers of a bearer.

ghost use Rattle.std.specs.Prelude.{◌≡◌, ◌++◌, OnOk, IfOk};
ghost use Rattle.bearer.specs.Acknowledged.Timing.{poll_told, timer_told, expiry, after_expiry};
ghost use Rattle.bearer.specs.Acknowledged.Timing.{told_of, counts, has_ended, ticks, discards};
ghost use Rattle.bearer.specs.Acknowledged.Timing.{ticked};

use crate::acknowledged::hearing::settle;
use crate::acknowledged::running::AmBearer;
use bearer_pdcp::tell_expired;
use bearer_types::{Event, Events};
use l2_bits::NoMemory;
use l2_types::Clock;
use rlc_am_tx::PollExpired;
use rlc_pdu::Expired;

impl AmBearer {
    /// A timer expires, and what that does is told; `None` exactly where it doesn't run, and
    /// nothing then changes.
    #[tactic(auto, unfolding(crate::specs::Acknowledged::Timing::expiry, crate::specs::Acknowledged::Timing::after_expiry))]
    pub fn expire(&mut self, clock: Clock) -> Result<Option<Events>, NoMemory>
        ensures told { IfOk result (λ events. events ≡ expiry self.old clock) }
        ensures state { OnOk result (self.new ≡ after_expiry self.old clock) }
    {
        match clock {
            Clock::Poll => {
                let expired = self.tx.expire_poll(self.pdcp.may_take());
                self.tell_poll(expired)
            }
            Clock::Reorder => {
                let expired = self.rx.expire_reorder();
                self.tell_timer(Clock::Reorder, expired)
            }
            Clock::Prohibit => {
                let expired = self.rx.expire_prohibit();
                self.tell_timer(Clock::Prohibit, expired)
            }
        }
    }

    fn tell_poll(&self, expired: PollExpired) -> Result<Option<Events>, NoMemory>
        ensures { IfOk result (λ events. events ≡ poll_told self.now.pdcp.lcid expired) }
    {
        let lcid = self.pdcp.lcid();
        let mut events = Events::new(self.alloc);
        match expired {
            PollExpired::NotRunning => return Ok(None),
            PollExpired::Done => tell_expired(lcid, Clock::Poll, false, &mut events)?,
            PollExpired::Limit(sn) => {
                tell_expired(lcid, Clock::Poll, false, &mut events)?;
                events.push(Event::Fail { lcid, sn })?;
            }
        }
        Ok(Some(events))
    }

    fn tell_timer(&self, clock: Clock, expired: Expired) -> Result<Option<Events>, NoMemory>
        ensures { IfOk result (λ events. events ≡ timer_told self.now.pdcp.lcid clock expired) }
    {
        match expired {
            Expired::NotRunning => Ok(None),
            Expired::Done { again } => {
                let mut events = Events::new(self.alloc);
                tell_expired(self.pdcp.lcid(), clock, again, &mut events)?;
                Ok(Some(events))
            }
        }
    }

    /// A TTI begins: the timers may expire, in the order poll, reorder, prohibit, then discard
    /// timers may end.
    #[tactic(auto, unfolding(crate::specs::Acknowledged::Timing::ticked))]
    pub fn tick(&mut self) -> Result<Events, NoMemory>
        ensures told { IfOk result (λ events. events ≡ (ticked self.old).events) }
        ensures state { OnOk result (self.new ≡ (ticked self.old).bearer) }
    {
        let mut events = Events::new(self.alloc);
        self.tick_clock(Clock::Poll, &mut events)?;
        self.tick_clock(Clock::Reorder, &mut events)?;
        self.tick_clock(Clock::Prohibit, &mut events)?;
        self.discard(&mut events)?;
        Ok(events)
    }

    fn tick_clock(&mut self, clock: Clock, events: &mut Events) -> Result<(), NoMemory>
        ensures { OnOk result (record { bearer = self.new; events = events.new }
            ≡ ticks clock (record { bearer = self.old; events = events.old })) }
    {
        if self.count(clock) {
            return self.expire_into(clock, events);
        }
        Ok(())
    }

    fn count(&mut self, clock: Clock) -> bool
        ensures answer { result ≡ has_ended clock self.old }
        ensures state { self.new ≡ counts clock self.old }
    {
        match clock {
            Clock::Poll => self.tx.tick(),
            Clock::Reorder => self.rx.tick_reorder(),
            Clock::Prohibit => self.rx.tick_prohibit(),
        }
    }

    fn expire_into(&mut self, clock: Clock, events: &mut Events) -> Result<(), NoMemory>
        ensures told { OnOk result (events.new ≡ events.old ++ told_of (expiry self.old clock)) }
        ensures state { OnOk result (self.new ≡ after_expiry self.old clock) }
    {
        match self.expire(clock)? {
            Some(told) => append(events, told),
            None => Ok(()),
        }
    }

    // Discard timers may end; behind discards the sender settles.
    #[tactic(auto, using(crate::proofs::AmTimings::steps))]
    fn discard(&mut self, events: &mut Events) -> Result<(), NoMemory>
        ensures { OnOk result (record { bearer = self.new; events = events.new }
            ≡ discards (record { bearer = self.old; events = events.old })) }
    {
        let before = events.len();
        self.pdcp.tick(events)?;
        if events.len() > before {
            return settle(&mut self.pdcp, &mut self.tx, events);
        }
        Ok(())
    }
}

#[tactic(auto, using(crate::proofs::AmTimings::appends))]
fn append(events: &mut Events, mut more: Events) -> Result<(), NoMemory>
    ensures { OnOk result (events.new ≡ events.old ++ more) }
{
    while let Some(event) = more.pop_front() {
        events.push(event)?;
    }
    Ok(())
}
