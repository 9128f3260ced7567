// A TTI.
ghost use Rattle.std.specs.Prelude.{◌≡◌, ◌≤◌, ◌%◌, is_some, OnOk, IfOk};
ghost use Rattle.harq.specs.Sending.{held_of};
ghost use Rattle.l2_node.specs.Hearing.{ticked};
ghost use Rattle.air_link.specs.Link.{end_of};
ghost use Rattle.air_link.specs.Ttis.{begins, sleeps, sleeps_by, tells_sleep, grows, ticks, times};
ghost use Rattle.air_link.specs.Ttis.{keeps_first, timed, tti_by, tti};
ghost use Rattle.air_record.specs.Outcomes.{missed};

use crate::link::Link;
use air_record::{Fate, Outcome, Record};
use bearer::{Events, Side};
use l2_bits::NoMemory;
use l2_node::{Attached, Node};
use l2_types::GREATEST_GRANT;

impl Link {
    /// A TTI: timers, SDUs that the loop owes, the downlink, SDUs that the loop returns at once,
    /// and the uplink. Grants are octets, up to 9422.
    #[tactic(auto, unfolding(crate::specs::Ttis::tti, crate::specs::Ttis::tti_by))]
    pub fn tti(
        &mut self,
        up_grant: u32,
        up: Outcome,
        down_grant: u32,
        down: Outcome,
    ) -> Result<(), NoMemory>
        requires up { up_grant ≤ GREATEST_GRANT }
        requires down { down_grant ≤ GREATEST_GRANT }
        ensures { OnOk result (self.new ≡ tti up_grant up down_grant down self.old) }
    {
        let tti = self.ttis;
        let asleep = self.is_asleep(tti);
        self.begin()?;
        if asleep {
            self.say(Record::Sleep)?;
        }
        self.time()?;
        self.downlink(tti, down_grant, missed(asleep, down))?;
        self.loop_back()?;
        self.uplink(tti, up_grant, missed(asleep, up))
    }

    pub(crate) fn begin(&mut self) -> Result<(), NoMemory>
        ensures { OnOk result (self.new ≡ begins self.old) }
    {
        let tti = self.ttis;
        self.ttis = tti.checked_add(1).ok_or(NoMemory)?;
        self.say(Record::Tti { tti })
    }

    // Whether the terminal sleeps in a TTI.
    fn is_asleep(&self, tti: u64) -> bool
        ensures { result ≡ sleeps tti self.now }
    {
        match &self.drx {
            None => false,
            Some(drx) => !drx.active(tti, holds(&self.ue, tti)),
        }
    }

    // Timers run and buckets grow at both ends, and what the loop owes is submitted.
    #[tactic(auto, unfolding(crate::specs::Ttis::timed))]
    fn time(&mut self) -> Result<(), NoMemory>
        ensures { OnOk result (self.new ≡ timed self.old) }
    {
        self.looping.tick();
        self.time_end(Side::Nb)?;
        self.time_end(Side::Ue)?;
        self.keep_first()?;
        self.pay()
    }

    fn time_end(&mut self, side: Side) -> Result<(), NoMemory>
        ensures { OnOk result (self.new ≡ times side self.old) }
    {
        let events = self.tick(side)?;
        self.tell_all(side, events)?;
        self.grow(side);
        Ok(())
    }

    fn tick(&mut self, side: Side) -> Result<Events, NoMemory>
        ensures link { OnOk result (self.new ≡ ticks side self.old) }
        ensures told { IfOk result (λ events. events ≡ (ticked (end_of side self.old)).events) }
    {
        match side {
            Side::Nb => self.nb.tick(),
            Side::Ue => self.ue.tick(),
        }
    }

    pub(crate) fn grow(&mut self, side: Side)
        ensures { self.new ≡ grows side self.old }
    {
        match side {
            Side::Nb => self.nb.tick_buckets(),
            Side::Ue => self.ue.tick_buckets(),
        }
    }

    // SDUs that timers handed up are kept before those that are owed go.
    fn keep_first(&mut self) -> Result<(), NoMemory>
        ensures { OnOk result (self.new ≡ keeps_first self.old) }
    {
        if self.looping.is_keeping() {
            return self.loop_back();
        }
        Ok(())
    }
}

// A terminal that sleeps misses everything.
fn missed(asleep: bool, outcome: Outcome) -> Outcome
    ensures { result ≡ missed asleep outcome }
{
    if asleep {
        return Outcome {
            fate: Fate::Miss,
            flipped: outcome.flipped,
        };
    }
    outcome
}

// Whether the process of a TTI holds a block.
fn holds(node: &Node<Attached>, tti: u64) -> bool
    ensures { result ≡ is_some (held_of node.now.end.sender (tti % 8)) }
{
    node.held((tti % 8) as u32).is_some()
}
