// What the other lines of a script do to both ends.
ghost use Rattle.std.specs.Prelude.{◌≡◌, ◌≤◌, ◌<◌, ◌^◌, true, false, length, is_some, None, OnOk};
ghost use Rattle.std.specs.Prelude.{IfOk, IfErr};
ghost use Rattle.bearer_pdcp.specs.Submitting.{Answers, StaysOrDies};
ghost use Rattle.bearer_types.specs.Configs.{IsConfig};
ghost use Rattle.l2_node.specs.Submitting.{refusal};
ghost use Rattle.l2_node.specs.Finding.{has};
ghost use Rattle.air_link.specs.Link.{end_of};
ghost use Rattle.air_link.specs.Lines.{hands_in, expires_alone, bears, discards, visits, reports};
ghost use Rattle.air_link.specs.Lines.{listens, no_place, submits_by, submitting, expires_by};
ghost use Rattle.air_link.specs.Lines.{expiring, expires, forges, unfailed, begins_life};
ghost use Rattle.air_link.specs.Lines.{hands_over};
ghost use Rattle.l2_bits.specs.declared.limits.TheConstants.{OCTETS_LIMIT};

use crate::link::Link;
use air_record::{NoPlace, Record};
use bearer::{BearerConfig, Clock, Events, Side};
use drx::Drx;
use eps_sec::Keys;
use l2_bits::{NoMemory, SubmitRefusal};
use l2_types::DrxConfig;

impl Link {
    /// Sets the most visits of a block, 1 to 28, before the first one.
    #[tactic(auto, unfolding(crate::specs::Lines::visits))]
    pub fn set_visits(&mut self, maximum: u32)
        ensures { self.new ≡ visits maximum self.old }
    {
        self.nb.set_visits(maximum);
        self.ue.set_visits(maximum);
    }

    /// The terminal reports its buffers in padding.
    #[tactic(auto, unfolding(crate::specs::Lines::reports))]
    pub fn report(&mut self)
        ensures { self.new ≡ reports self.old }
    {
        self.ue.set_reports(true);
    }

    /// A bearer comes at both ends, by a configuration that its kind may have, on a logical channel
    /// that has none.
    #[tactic(auto, unfolding(crate::specs::Lines::bears))]
    pub fn add(&mut self, config: &BearerConfig, keys: &Keys) -> Result<(), NoMemory>
        requires config { IsConfig config.now }
        requires nb { has config.now.channel.lcid self.old.nb.bearers ≡ false }
        requires ue { has config.now.channel.lcid self.old.ue.bearers ≡ false }
        ensures { OnOk result (self.new ≡ bears config.now keys.now self.old) }
    {
        self.nb.add(config, keys)?;
        self.ue.add(config, keys)?;
        self.kinds.set(
            config.channel.lcid,
            config.kind,
            config.rlc_bits,
            config.pdcp_bits,
        );
        Ok(())
    }

    /// Whether a logical channel has a bearer at an end.
    pub fn has(&self, side: Side, lcid: u8) -> bool
        ensures { result ≡ has lcid (end_of side self.now).bearers }
    {
        match side {
            Side::Nb => self.nb.has(lcid),
            Side::Ue => self.ue.has(lcid),
        }
    }

    /// Sets the discard timers of a bearer, in TTIs.
    #[tactic(auto, unfolding(crate::specs::Lines::discards))]
    pub fn set_discard(&mut self, lcid: u8, ttis: u32)
        requires nb { has lcid self.old.nb.bearers ≡ true }
        requires ue { has lcid self.old.ue.bearers ≡ true }
        ensures { self.new ≡ discards lcid ttis self.old }
    {
        self.nb.set_discard(lcid, ttis);
        self.ue.set_discard(lcid, ttis);
    }

    /// Sets when the terminal listens: at first in the on durations of a cycle, which fit into it.
    #[tactic(auto, unfolding(crate::specs::Lines::listens))]
    pub fn listen(&mut self, config: &DrxConfig)
        requires on { config.now.on ≤ config.now.cycle }
        requires offset { config.now.offset < config.now.cycle }
        ensures { self.new ≡ listens config.now self.old }
    {
        self.drx = Some(Drx::new(config));
    }

    /// Submits an SDU of 1 to 8188 octets to a bearer that is there. One that finds no place leaves
    /// a record.
    #[tactic(auto, unfolding(crate::specs::Lines::submitting))]
    pub fn submit(&mut self, side: Side, lcid: u8, sdu: &[u8]) -> Result<(), NoMemory>
        requires { has lcid (end_of side self.old).bearers ≡ true }
        ensures { OnOk result (self.new ≡ submitting side lcid sdu.now self.old) }
    {
        match self.hand_in(side, lcid, sdu) {
            Ok(()) => self.submitted(side, lcid),
            Err(SubmitRefusal::NoMemory) => Err(NoMemory),
            Err(refusal) => self.say(Record::Refused {
                side,
                lcid,
                why: no_place(refusal),
            }),
        }
    }

    /// A timer of a bearer that is there expires; `false` exactly where it doesn't run, and nothing
    /// then changes.
    #[tactic(auto, unfolding(crate::specs::Lines::expires))]
    pub fn expire(&mut self, side: Side, lcid: u8, clock: Clock) -> Result<bool, NoMemory>
        requires { has lcid (end_of side self.old).bearers ≡ true }
        ensures ran { IfOk result (λ ran. ran ≡ is_some (expiring side lcid clock self.old)) }
        ensures link { OnOk result (self.new ≡ expires side lcid clock self.old) }
        ensures idle { IfOk result (λ ran. ran ≡ false → self.new ≡ self.old) }
    {
        match self.expire_end(side, lcid, clock)? {
            None => Ok(false),
            Some(events) => {
                self.tell_all(side, events)?;
                self.loop_back()?;
                Ok(true)
            }
        }
    }

    fn expire_end(&mut self, side: Side, lcid: u8, clock: Clock) -> Result<Option<Events>, NoMemory>
        requires { has lcid (end_of side self.old).bearers ≡ true }
        ensures told { IfOk result (λ events. events ≡ expiring side lcid clock self.old) }
        ensures link { OnOk result (self.new ≡ expires_alone side lcid clock self.old) }
        ensures idle { IfOk result (λ events. events ≡ None → self.new ≡ self.old) }
    {
        match side {
            Side::Nb => self.nb.expire(lcid, clock),
            Side::Ue => self.ue.expire(lcid, clock),
        }
    }

    fn hand_in(&mut self, side: Side, lcid: u8, sdu: &[u8]) -> Result<(), SubmitRefusal>
        requires { has lcid (end_of side self.old).bearers ≡ true }
        ensures fits { OnOk result (refusal lcid sdu.now (end_of side self.old) ≡ None) }
        ensures link { OnOk result (self.new ≡ hands_in side lcid sdu.now self.old) }
        ensures refused { IfErr result (λ e. StaysOrDies e (self.new ≡ self.old)) }
        ensures answer { IfErr result (λ e. Answers e (refusal lcid sdu.now (end_of side self.old))) }
    {
        match side {
            Side::Nb => self.nb.submit(lcid, sdu),
            Side::Ue => self.ue.submit(lcid, sdu),
        }
    }

    /// A block of fewer than 2^28 octets arrives at an end as if it were intact.
    #[tactic(auto, unfolding(crate::specs::Lines::forges))]
    pub fn forge(&mut self, side: Side, block: &[u8]) -> Result<(), NoMemory>
        requires { length block.now < OCTETS_LIMIT }
        ensures { OnOk result (self.new ≡ forges side block.now self.old) }
    {
        self.hear(side, block)?;
        self.loop_back()
    }

    /// A handover: both ends leave, the base station first, and join under other keys (TS 36.300
    /// 10.1.2).
    #[tactic(auto, unfolding(crate::specs::Lines::hands_over))]
    pub fn hand_over(&mut self, keys: &Keys) -> Result<(), NoMemory>
        ensures { OnOk result (self.new ≡ hands_over keys.now self.old) }
    {
        let nb_told = self.nb.hand_over(keys)?;
        let ue_told = self.ue.hand_over(keys)?;
        self.begin_life();
        self.tell_all(Side::Nb, nb_told)?;
        self.tell_all(Side::Ue, ue_told)?;
        self.loop_back()
    }

    // No sender has failed, no block is seen, and the terminal listens as at first.
    fn begin_life(&mut self)
        ensures { self.new ≡ begins_life self.old }
    {
        self.down.failed = [false; 11];
        self.up.failed = [false; 11];
        self.seen = [false; 8];
        if let Some(drx) = &mut self.drx {
            drx.reset();
        }
    }
}

// What an SDU finds no place by, of the refusals that an SDU of a script's line can meet.
fn no_place(refusal: SubmitRefusal) -> NoPlace
    ensures { result ≡ no_place refusal }
{
    match refusal {
        SubmitRefusal::CountEnd => NoPlace::Count,
        _ => NoPlace::Full,
    }
}
