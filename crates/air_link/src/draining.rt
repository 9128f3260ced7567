// The steps of a drain.
ghost use Rattle.std.specs.Prelude.{◌≡◌, ◌≤◌, OnOk, option_copied};
ghost use Rattle.air_link.specs.Link.{end_of};
ghost use Rattle.air_link.specs.Draining.{drain_tti, is_carried_by, carried, timer_expires};
ghost use Rattle.air_link.specs.Draining.{receiver_expires, all_receivers_expire, receivers_expire};
ghost use Rattle.air_link.specs.Draining.{all_senders_expire, senders_expire, is_drained, left};
ghost use Rattle.air_link.specs.Draining.{count};
ghost use Rattle.l2_node.specs.Sums.{left as end_left};
ghost use Rattle.pdu_show.specs.Carried.{is_acknowledged};

use crate::link::{ALL_LCIDS, Link};
use air_record::{Fate, Outcome, Record};
use bearer::{Clock, Event, Side};
use l2_bits::NoMemory;
use l2_types::GREATEST_GRANT;
use pdu_show::{Kinds, Layout};

const INTACT: Outcome = Outcome {
    fate: Fate::Ok,
    flipped: false,
};

impl Link {
    /// A TTI of a drain: buckets grow, no timer counts down, the terminal doesn't sleep, and both
    /// blocks arrive. The grant of both directions is in octets, up to 9422.
    #[tactic(auto, unfolding(crate::specs::Draining::drain_tti))]
    pub fn drain_tti(&mut self, grant: u32) -> Result<(), NoMemory>
        requires { grant ≤ GREATEST_GRANT }
        ensures { OnOk result (self.new ≡ drain_tti grant self.old) }
    {
        let tti = self.ttis;
        self.begin()?;
        self.grow(Side::Nb);
        self.grow(Side::Ue);
        self.downlink(tti, grant, INTACT)?;
        self.loop_back()?;
        self.uplink(tti, grant, INTACT)
    }

    /// Whether the records of this line so far hold a data PDU or a STATUS that an acknowledged
    /// bearer sends.
    #[tactic(auto, using(crate::proofs::Carrying::any_at, crate::proofs::Carrying::none_past))]
    pub fn carried(&self) -> bool
        ensures { result ≡ carried self.now }
    {
        for at in 0..self.out.len() {
            if is_carried_by(&self.kinds, self.out.get(at)) {
                return true;
            }
        }
        false
    }

    /// Every t-Reordering and t-StatusProhibit (TS 36.322 7.3) that runs expires: those of the base
    /// station first, bearers by ascending LCID, and of each t-Reordering first.
    #[tactic(auto, unfolding(crate::specs::Draining::receivers_expire))]
    pub fn expire_receivers(&mut self) -> Result<(), NoMemory>
        ensures { OnOk result (self.new ≡ receivers_expire self.old) }
    {
        self.end_receivers(Side::Nb, &ALL_LCIDS)?;
        self.end_receivers(Side::Ue, &ALL_LCIDS)
    }

    /// Every t-PollRetransmit (TS 36.322 7.3) that runs expires, in the same order.
    #[tactic(auto, unfolding(crate::specs::Draining::senders_expire))]
    pub fn expire_senders(&mut self) -> Result<(), NoMemory>
        ensures { OnOk result (self.new ≡ senders_expire self.old) }
    {
        self.end_senders(Side::Nb, &ALL_LCIDS)?;
        self.end_senders(Side::Ue, &ALL_LCIDS)
    }

    fn end_receivers(&mut self, side: Side, lcids: &[u8]) -> Result<(), NoMemory>
        ensures { OnOk result (self.new ≡ all_receivers_expire side lcids.now self.old) }
    {
        for lcid in lcids {
            self.end_timer(side, Clock::Reorder, *lcid)?;
            self.end_timer(side, Clock::Prohibit, *lcid)?;
        }
        Ok(())
    }

    fn end_senders(&mut self, side: Side, lcids: &[u8]) -> Result<(), NoMemory>
        ensures { OnOk result (self.new ≡ all_senders_expire side lcids.now self.old) }
    {
        for lcid in lcids {
            self.end_timer(side, Clock::Poll, *lcid)?;
        }
        Ok(())
    }

    #[tactic(auto, unfolding(crate::specs::Draining::timer_expires))]
    fn end_timer(&mut self, side: Side, clock: Clock, lcid: u8) -> Result<(), NoMemory>
        ensures { OnOk result (self.new ≡ timer_expires side clock lcid self.old) }
    {
        if self.has(side, lcid) {
            self.expire(side, lcid, clock)?;
        }
        Ok(())
    }

    /// Whether both ends are drained: each acknowledged sender has failed or has nothing left.
    pub fn is_drained(&self) -> bool
        ensures { result ≡ is_drained self.now }
    {
        self.nb.drained() && self.ue.drained()
    }

    /// The octets that both ends have still to bring over, up to 2^64 - 1.
    pub fn left(&self) -> u64
        ensures { result ≡ left self.now }
    {
        self.nb.left().saturating_add(self.ue.left())
    }

    /// The octets that the base station has still to bring over, up to 2^64 - 1.
    pub fn left_down(&self) -> u64
        ensures { result ≡ end_left self.now.nb }
    {
        self.nb.left()
    }

    /// How many bearers there are.
    pub fn count(&self) -> u64
        ensures { result ≡ count self.now }
    {
        self.nb.count()
    }
}

fn is_carried_by(kinds: &Kinds, one: Option<&Record>) -> bool
    ensures { result ≡ is_carried_by kinds.now (option_copied one.entry) }
{
    match one {
        Some(
            Record::Of {
                event: Event::Send { lcid, .. },
                ..
            },
        ) => is_acknowledged(kinds.of(*lcid)),
        _ => false,
    }
}

fn is_acknowledged(layout: Option<Layout>) -> bool
    ensures { result ≡ is_acknowledged layout }
{
    match layout {
        Some(Layout::Am { .. }) => true,
        _ => false,
    }
}
