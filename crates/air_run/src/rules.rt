ghost use Rattle.std.specs.Prelude.{◌≡◌, OnOk, slice_index_or, false};
ghost use Rattle.air_run.specs.Rules.{no_rules, is_known, unknown, wants_keys, misfit, rule_broken};
ghost use Rattle.air_run.specs.Rules.{accepted, discard_set, bearer_refused, handover_refused};
ghost use Rattle.air_run.specs.Rules.{discard_refused, drain_refused, late_or_twice, keys_refused};

use crate::keys::UsedKeys;
use crate::refusal::RunRefusal;
use air_link::Link;
use air_text::Line;
use eps_sec::{Key, Keys};
use l2_bits::NoMemory;
use l2_types::{DrxConfig, Kind, Side};
use std::alloc::Global;
use std::marker::Model;

/// What the lines so far rule out.
#[derive(Drop)]
pub(crate) struct Rules {
    begun: bool,
    visits: bool,
    reports: bool,
    listens: bool,
    discards: [bool; 11],
    pub keys: Option<Keys>,
    used: UsedKeys,
    forged: bool,
}

impl Model for Rules {
    ghost use Rattle.air_run.specs.Rules.{Rules as Machine};

    ghost Value = { Machine };

    ghost view = { λ r. record {
      begun = r.begun;
      visits = r.visits;
      reports = r.reports;
      listens = r.listens;
      discards = r.discards;
      keys = r.keys;
      used = r.used;
      forged = r.forged;
    } };
}

impl Rules {
    #[tactic(auto, unfolding(crate::specs::Rules::no_rules))]
    pub fn new(alloc: Global) -> Rules
        ensures { result ≡ no_rules }
    {
        Rules {
            begun: false,
            visits: false,
            reports: false,
            listens: false,
            discards: [false; 11],
            keys: None,
            used: UsedKeys::new(alloc),
            forged: false,
        }
    }

    /// The rule that a line breaks, as far as it can be told before it is run.
    #[tactic(auto, unfolding(crate::specs::Rules::rule_broken))]
    pub fn broken(&self, line: &Line, link: &Link) -> Option<RunRefusal>
        ensures { result ≡ rule_broken line.now self.now link.now }
    {
        match line {
            Line::Harq { .. } => self.late_or_twice(self.visits),
            Line::Bsr => self.late_or_twice(self.reports),
            Line::Keys { keys } => self
                .late_or_twice(self.keys.is_some())
                .or(self.keys_refused(&keys.user, &keys.rrc, &keys.integrity)),
            Line::Bearer { config, .. } => {
                self.bearer_refused(config.kind, config.channel.lcid, link)
            }
            Line::Submit { lcid, .. } => unknown(*lcid, link),
            Line::Expire { lcid, .. } => unknown(*lcid, link),
            Line::Handover {
                user,
                rrc,
                integrity,
            } => self.handover_refused(user, rrc, integrity),
            Line::Drain { grant } => self.drain_refused(*grant, link),
            Line::Discard { lcid, .. } => self.discard_refused(*lcid, link),
            Line::Drx { config } => self.late_or_twice(self.listens).or(misfit(config)),
            _ => None,
        }
    }

    fn late_or_twice(&self, came: bool) -> Option<RunRefusal>
        ensures { result ≡ late_or_twice came self.now }
    {
        if self.begun {
            return Some(RunRefusal::ConfiguredLate);
        }
        if came {
            return Some(RunRefusal::SetTwice);
        }
        None
    }

    fn keys_refused(&self, user: &Key, rrc: &Key, integrity: &Key) -> Option<RunRefusal>
        ensures { result ≡ keys_refused user.now rrc.now integrity.now self.now }
    {
        if self.used.has_any(user, rrc, integrity) {
            return Some(RunRefusal::KeyUsed);
        }
        None
    }

    fn handover_refused(&self, user: &Key, rrc: &Key, integrity: &Key) -> Option<RunRefusal>
        ensures { result ≡ handover_refused user.now rrc.now integrity.now self.now }
    {
        if self.keys.is_none() {
            return Some(RunRefusal::NoKeys);
        }
        self.keys_refused(user, rrc, integrity)
    }

    fn bearer_refused(&self, kind: Kind, lcid: u8, link: &Link) -> Option<RunRefusal>
        ensures { result ≡ bearer_refused kind lcid self.now link.now }
    {
        if self.begun {
            return Some(RunRefusal::ConfiguredLate);
        }
        if link.has(Side::Nb, lcid) || link.has(Side::Ue, lcid) {
            return Some(RunRefusal::BearerTwice);
        }
        if wants_keys(kind) && self.keys.is_none() {
            return Some(RunRefusal::NoKeys);
        }
        None
    }

    fn discard_refused(&self, lcid: u8, link: &Link) -> Option<RunRefusal>
        ensures { result ≡ discard_refused lcid self.now link.now }
    {
        if self.begun {
            return Some(RunRefusal::ConfiguredLate);
        }
        if !is_known(lcid, link) {
            return Some(RunRefusal::UnknownBearer);
        }
        if lcid < 3 {
            return Some(RunRefusal::NoDiscard);
        }
        if self.has_discard(lcid) {
            return Some(RunRefusal::SetTwice);
        }
        None
    }

    // Whether the discard timers of a logical channel are set.
    fn has_discard(&self, lcid: u8) -> bool
        ensures { result ≡ slice_index_or self.now.discards lcid false }
    {
        match self.discards.get(lcid as usize) {
            Some(set) => *set,
            None => false,
        }
    }

    fn drain_refused(&self, grant: u32, link: &Link) -> Option<RunRefusal>
        ensures { result ≡ drain_refused grant self.now link.now }
    {
        if grant < 200 {
            return Some(RunRefusal::SmallDrain);
        }
        if link.is_looping() {
            return Some(RunRefusal::LoopOn);
        }
        if self.forged {
            return Some(RunRefusal::Forged);
        }
        None
    }

    /// A line that isn't refused is noted.
    #[tactic(auto, unfolding(crate::specs::Rules::accepted))]
    pub fn accept(&mut self, line: &Line) -> Result<(), NoMemory>
        ensures { OnOk result (self.new ≡ accepted line.now self.old) }
    {
        match line {
            Line::Harq { .. } => self.visits = true,
            Line::Bsr => self.reports = true,
            Line::Keys { keys } => {
                self.keys = Some(*keys);
                self.used.add_all(&keys.user, &keys.rrc, &keys.integrity)?;
            }
            Line::Bearer { .. } => (),
            Line::Handover {
                user,
                rrc,
                integrity,
            } => {
                self.begun = true;
                self.used.add_all(user, rrc, integrity)?;
            }
            Line::Forge { .. } => {
                self.begun = true;
                self.forged = true;
            }
            Line::Discard { lcid, .. } => self.set_discard(*lcid),
            Line::Drx { .. } => self.listens = true,
            _ => self.begun = true,
        }
        Ok(())
    }

    fn set_discard(&mut self, lcid: u8)
        ensures { self.new ≡ discard_set lcid self.old }
    {
        if lcid < 11 {
            self.discards[lcid as usize] = true;
        }
    }
}

/// Whether both ends have a bearer on a logical channel.
pub(crate) fn is_known(lcid: u8, link: &Link) -> bool
    ensures { result ≡ is_known lcid link.now }
{
    link.has(Side::Nb, lcid) && link.has(Side::Ue, lcid)
}

fn unknown(lcid: u8, link: &Link) -> Option<RunRefusal>
    ensures { result ≡ unknown lcid link.now }
{
    if is_known(lcid, link) {
        return None;
    }
    Some(RunRefusal::UnknownBearer)
}

fn wants_keys(kind: Kind) -> bool
    ensures { result ≡ wants_keys kind }
{
    match kind {
        Kind::Tm => false,
        _ => true,
    }
}

fn misfit(config: &DrxConfig) -> Option<RunRefusal>
    ensures { result ≡ misfit config.now }
{
    if config.cycle < config.on || config.cycle <= config.offset {
        return Some(RunRefusal::DrxFields);
    }
    None
}
