// The checker: a journal's lines and records, one by one.
ghost use Rattle.std.specs.Prelude.{◌≡◌};
ghost use Rattle.promises.specs.Parts.{is_handover};
ghost use Rattle.promises.specs.Silent.{is_data};

use crate::senders::{self, Senders};
use air_record::{Line, Record};
use bearer_types::Event;
use journal_flows::JournalFlows;
use l2_types::{How, Side};
use std::marker::Model;

// Logical channels are 0 to 10.
const LAST_CHANNEL: u8 = 10;

fn is_handover(line: &Line) -> bool
    ensures { result ≡ is_handover line.now }
{
    match line {
        Line::Handover { .. } => true,
        _ => false,
    }
}

// A data PDU, and no STATUS.
fn is_data(how: How) -> bool
    ensures { result ≡ is_data how }
{
    match how {
        How::Status => false,
        _ => true,
    }
}

/// A checker of the `fail` records of a journal: its lines and records go in one by one, beside
/// those of `JournalFlows`, which keeps the accounts of its flows.
///
/// It takes no memory.
#[derive(Drop)]
pub struct FailureChecker {
    nb: Senders,
    ue: Senders,
    right: bool,
    hands_over: bool,
}

impl Model for FailureChecker {
    ghost use Rattle.journal_failure.specs.Checking.{Checking};

    ghost Value = { Checking };

    ghost view = { λ c. record {
      nb = c.nb.items;
      ue = c.ue.items;
      right = c.right;
      hands_over = c.hands_over;
    } };
}

impl FailureChecker {
    ghost use Rattle.journal_failure.specs.Checking.{nothing_checked, after_line, after_bearer};
    ghost use Rattle.journal_failure.specs.Checking.{after_record, after_event, after_group};

    /// Before the first line.
    pub fn new() -> FailureChecker
        ensures { result ≡ nothing_checked }
    {
        FailureChecker {
            nb: senders::no_senders(),
            ue: senders::no_senders(),
            right: true,
            hands_over: false,
        }
    }

    /// The `line` record of an accepted line begins a group.
    pub fn begin_line(&mut self, line: &Line)
        ensures { self.new ≡ after_line line.now self.old }
    {
        if let Line::Bearer { config, .. } = line {
            let lcid = config.channel.lcid;
            senders::begin(&mut self.nb, lcid);
            senders::begin(&mut self.ue, lcid);
        }
        self.hands_over = is_handover(line);
    }

    /// A record of the group, which isn't its first.
    pub fn see(&mut self, one: &Record)
        ensures { self.new ≡ after_record one.now self.old }
    {
        if let Record::Of { side, event } = one {
            self.happen(*side, event);
        }
    }

    /// The group has ended: with the next `line` record, the first `sum`, or the journal. `flows`
    /// has seen the group's records, and its own `end_line` isn't called yet.
    pub fn end_line(&mut self, flows: &JournalFlows)
        ensures { self.new ≡ after_group flows.now self.old }
    {
        let nb_right = senders::end(&mut self.nb, Side::Nb, self.hands_over, flows);
        let ue_right = senders::end(&mut self.ue, Side::Ue, self.hands_over, flows);
        self.right = self.right && nb_right && ue_right;
        self.hands_over = false;
    }

    /// Whether the `fail` records of all groups that have ended are right. Behind a record within a
    /// group it says nothing.
    pub fn is_right(&self) -> bool
        ensures { result ≡ self.now.right }
    {
        self.right
    }

    fn happen(&mut self, side: Side, event: &Event)
        ensures { self.new ≡ after_event side event.now self.old }
    {
        match event {
            Event::Fail { lcid, sn } => {
                match side {
                    Side::Nb => senders::fail(&mut self.nb, *lcid, *sn),
                    Side::Ue => senders::fail(&mut self.ue, *lcid, *sn),
                }
                self.right = self.right && *lcid <= LAST_CHANNEL;
            }
            Event::Send { lcid, how, .. } => {
                if is_data(*how) {
                    match side {
                        Side::Nb => senders::send(&mut self.nb, *lcid),
                        Side::Ue => senders::send(&mut self.ue, *lcid),
                    }
                }
            }
            _ => {}
        }
    }
}
