// The checker: a journal's lines and records, one by one.
ghost use Rattle.std.specs.Prelude.{◌≡◌};
ghost use Rattle.bearer_types.specs.Sides.{sender_of};
ghost use Rattle.journal_flows.specs.Gathering.{is_handover};

use crate::reports;
use crate::tolds::{self, Tolds};
use air_record::{Line, Record};
use bearer_types::{Event, sender_of};
use journal_flows::JournalFlows;
use l2_types::{Lost, Side};
use std::marker::Model;

fn is_handover(line: &Line) -> bool
    ensures { result ≡ is_handover line.now }
{
    match line {
        Line::Handover { .. } => true,
        _ => false,
    }
}

/// A checker of the STATUS PDUs of a journal: its lines and records go in one by one, beside those
/// of `JournalFlows`, which keeps the accounts of its flows.
///
/// It takes no memory.
#[derive(Drop)]
pub struct StatusChecker {
    nb: Tolds,
    ue: Tolds,
    right: bool,
    hands_over: bool,
}

impl Model for StatusChecker {
    ghost use Rattle.journal_status.specs.StatusChecking.{Checking};

    ghost Value = { Checking };

    ghost view = { λ c. record {
      nb = c.nb.items;
      ue = c.ue.items;
      right = c.right;
      hands_over = c.hands_over;
    } };
}

impl StatusChecker {
    ghost use Rattle.journal_status.specs.StatusChecking.{nothing_checked, after_line};
    ghost use Rattle.journal_status.specs.StatusChecking.{after_told, after_event, after_record};
    ghost use Rattle.journal_status.specs.StatusChecking.{after_group};

    /// Before the first line.
    pub fn new() -> StatusChecker
        ensures { result ≡ nothing_checked }
    {
        StatusChecker {
            nb: tolds::none_told(),
            ue: tolds::none_told(),
            right: true,
            hands_over: false,
        }
    }

    /// The `line` record of an accepted line begins a group.
    pub fn begin_line(&mut self, line: &Line)
        ensures { self.new ≡ after_line line.now self.old }
    {
        if let Line::Bearer { config, .. } = line {
            let lcid = config.channel.lcid;
            tolds::begin(&mut self.nb, lcid);
            tolds::begin(&mut self.ue, lcid);
        }
        self.hands_over = is_handover(line);
    }

    /// A record of the group, which isn't its first. `flows` has seen it already.
    pub fn see(&mut self, one: &Record, flows: &JournalFlows)
        ensures { self.new ≡ after_record flows.now one.now self.old }
    {
        match one {
            Record::Of { side, event } => self.happen(*side, event, flows),
            Record::Block {
                direction,
                fresh: true,
                ..
            } => {
                self.right = self.right && reports::are_true(flows, sender_of(*direction));
            }
            _ => {}
        }
    }

    /// The group has ended: with the next `line` record, the first `sum`, or the journal. `flows`
    /// has seen the group's records, and its own `end_line` isn't called yet.
    pub fn end_line(&mut self, flows: &JournalFlows)
        ensures { self.new ≡ after_group flows.now self.old }
    {
        self.right = self.right
            && tolds::are_all(&self.nb, Side::Nb, flows)
            && tolds::are_all(&self.ue, Side::Ue, flows);
        if self.hands_over {
            self.nb = tolds::none_told();
            self.ue = tolds::none_told();
            self.hands_over = false;
        }
    }

    /// Whether the STATUS PDUs of all groups that have ended are right. Behind a record within a
    /// group it says nothing.
    pub fn is_right(&self) -> bool
        ensures { result ≡ self.now.right }
    {
        self.right
    }

    fn happen(&mut self, side: Side, event: &Event, flows: &JournalFlows)
        ensures { self.new ≡ after_event flows.now side event.now self.old }
    {
        if let Event::Drop {
            lcid,
            why: Lost::Ignored,
        } = event
        {
            self.tell(side, *lcid, tolds::ignored(flows, side, *lcid));
        }
    }

    // A record tells of an ignored STATUS, where so many were ignored.
    fn tell(&mut self, side: Side, lcid: u8, ignored: u64)
        ensures { self.new ≡ after_told side lcid ignored self.old }
    {
        let may = match side {
            Side::Nb => tolds::tell(&mut self.nb, lcid, ignored),
            Side::Ue => tolds::tell(&mut self.ue, lcid, ignored),
        };
        self.right = self.right && may;
    }
}
