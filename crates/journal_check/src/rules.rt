ghost use Rattle.std.specs.Prelude.{◌≡◌, OnOk, false};
ghost use Rattle.promises.specs.Delivery.{forges};
ghost use Rattle.promises.specs.LineRules.{is_tm, is_fitting};
ghost use Rattle.journal_check.specs.States.{no_lines, is_set, is_given, with_key, with_keys};
ghost use Rattle.journal_check.specs.States.{are_equal, are_ungiven, admits, behind_line, HasPlace};

use air_record::Line;
use eps_sec::Key;
use l2_bits::NoMemory;
use l2_types::{DrxConfig, Kind};
use std::alloc::Global;
use std::collections::BTreeSet;
use std::marker::Model;

/// What the lines of a journal so far rule out. There is a place for each LCID that an octet
/// holds.
#[derive(Drop)]
pub(crate) struct LineRules {
    early: bool,
    visits: bool,
    reports: bool,
    keyed: bool,
    listens: bool,
    looping: bool,
    bearers: [bool; 256],
    timers: [bool; 256],
    given: BTreeSet<[u8; 16]>,
}

impl Model for LineRules {
    ghost use Rattle.journal_check.specs.States.{LinesState};

    ghost Value = { LinesState };

    ghost view = { λ r. record {
      early = r.early;
      visits = r.visits;
      reports = r.reports;
      keyed = r.keyed;
      listens = r.listens;
      looping = r.looping;
      bearers = r.bearers;
      timers = r.timers;
      given = r.given.keys;
    } };
}

impl LineRules {
    #[tactic(auto, unfolding(crate::specs::States::no_lines))]
    pub fn new(alloc: Global) -> LineRules
        ensures { result ≡ no_lines }
    {
        LineRules {
            early: true,
            visits: false,
            reports: false,
            keyed: false,
            listens: false,
            looping: false,
            bearers: [false; 256],
            timers: [false; 256],
            given: BTreeSet::new(alloc),
        }
    }

    /// Whether a line keeps the rules.
    #[tactic(auto, unfolding(crate::specs::States::admits))]
    pub fn admits(&self, line: &Line) -> bool
        ensures { result ≡ admits self.now line.now }
    {
        match line {
            Line::Harq { .. } => self.early && !self.visits,
            Line::Bsr => self.early && !self.reports,
            Line::Keys { keys } => {
                self.early
                    && !self.keyed
                    && self.are_ungiven(&keys.user, &keys.rrc, &keys.integrity)
            }
            Line::Bearer { config, .. } => {
                self.early
                    && !self.has_bearer(config.channel.lcid)
                    && (is_tm(config.kind) || self.keyed)
            }
            Line::Discard { lcid, .. } => {
                self.early && self.has_bearer(*lcid) && 3 <= *lcid && !self.has_timer(*lcid)
            }
            Line::Drx { config } => self.early && !self.listens && is_fitting(config),
            Line::Submit { lcid, .. } => self.has_bearer(*lcid),
            Line::Expire { lcid, .. } => self.has_bearer(*lcid),
            Line::Handover {
                user,
                rrc,
                integrity,
            } => self.keyed && self.are_ungiven(user, rrc, integrity),
            Line::Drain { grant } => 200 <= *grant && !self.looping,
            _ => true,
        }
    }

    /// Whether there is a bearer on a logical channel.
    pub fn has_bearer(&self, lcid: u8) -> bool
        ensures { result ≡ is_set lcid self.now.bearers }
    {
        self.bearers[lcid as usize]
    }

    fn has_timer(&self, lcid: u8) -> bool
        ensures { result ≡ is_set lcid self.now.timers }
    {
        self.timers[lcid as usize]
    }

    fn is_given(&self, key: &Key) -> bool
        ensures { result ≡ is_given key.now.octets self.now.given }
    {
        self.given.contains(&key.octets)
    }

    fn are_ungiven(&self, user: &Key, rrc: &Key, integrity: &Key) -> bool
        ensures { result ≡ are_ungiven user.now rrc.now integrity.now self.now.given }
    {
        !(are_equal(user, rrc) || are_equal(user, integrity) || self.is_given(user))
            && !(are_equal(rrc, integrity) || self.is_given(rrc))
            && !self.is_given(integrity)
    }

    /// Keeps what later rules ask of a line.
    #[tactic(auto, unfolding(crate::specs::States::behind_line))]
    pub fn note(&mut self, line: &Line) -> Result<(), NoMemory>
        ensures kept { OnOk result (self.new ≡ behind_line line.now self.old) }
        ensures place { HasPlace line.now }
    {
        match line {
            Line::Harq { .. } => self.visits = true,
            Line::Bsr => self.reports = true,
            Line::Keys { keys } => {
                self.keyed = true;
                self.note_keys(&keys.user, &keys.rrc, &keys.integrity)?;
            }
            Line::Bearer { config, .. } => self.bearers[config.channel.lcid as usize] = true,
            Line::Discard { lcid, .. } => self.timers[*lcid as usize] = true,
            Line::Drx { .. } => self.listens = true,
            Line::Handover {
                user,
                rrc,
                integrity,
            } => {
                self.early = false;
                self.note_keys(user, rrc, integrity)?;
            }
            Line::LoopOff => self.turn_loop(false),
            Line::LoopA { .. } => self.turn_loop(true),
            Line::LoopB { .. } => self.turn_loop(true),
            _ => self.early = false,
        }
        Ok(())
    }

    fn turn_loop(&mut self, on: bool)
        ensures { self.new ≡ record self.old { early = false; looping = on } }
    {
        self.early = false;
        self.looping = on;
    }

    fn note_key(&mut self, key: &Key) -> Result<(), NoMemory>
        ensures { OnOk result
            (self.new ≡ record self.old { given = with_key key.now.octets self.old.given }) }
    {
        self.given.insert(key.octets)?;
        Ok(())
    }

    fn note_keys(&mut self, user: &Key, rrc: &Key, integrity: &Key) -> Result<(), NoMemory>
        ensures { OnOk result (self.new ≡ record self.old {
          given = with_keys user.now rrc.now integrity.now self.old.given;
        }) }
    {
        self.note_key(integrity)?;
        self.note_key(rrc)?;
        self.note_key(user)
    }
}

/// Whether a line puts a block at an end that the other didn't build.
pub(crate) fn forges(line: &Line) -> bool
    ensures { result ≡ forges line.now }
{
    match line {
        Line::Forge { .. } => true,
        _ => false,
    }
}

fn is_tm(kind: Kind) -> bool
    ensures { result ≡ is_tm kind }
{
    match kind {
        Kind::Tm => true,
        _ => false,
    }
}

fn is_fitting(config: &DrxConfig) -> bool
    ensures { result ≡ is_fitting config.now }
{
    config.on <= config.cycle && config.offset < config.cycle
}

fn are_equal(a: &Key, b: &Key) -> bool
    ensures { result ≡ are_equal a.now b.now }
{
    a.octets.as_slice() == b.octets.as_slice()
}
