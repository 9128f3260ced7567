ghost use Rattle.std.specs.Prelude.{◌≡◌, OnOk};

use air_record::{Line, Record};
use journal_flows::JournalFlows;
use journal_given::JournalGiven;
use journal_queues::QueueChecker;
use journal_sent::SentChecker;
use l2_bits::NoMemory;
use std::alloc::Global;
use std::marker::Model;

/// What PDCP gives RLC, beside the accounts of flows, and what RLC sends of it.
#[derive(Drop)]
pub(crate) struct Sends {
    given: JournalGiven,
    sent: SentChecker,
    queues: QueueChecker,
}

impl Model for Sends {
    ghost use Rattle.journal_check.specs.Judging.{Sends as Judged};

    ghost Value = { Judged };

    ghost view = { λ s. record { given = s.given; sent = s.sent; queues = s.queues } };
}

impl Sends {
    ghost use Rattle.journal_form.specs.Lines.{HasLayout};
    ghost use Rattle.journal_check.specs.Judging.{no_sends, sends_line, sends_record};
    ghost use Rattle.journal_check.specs.Judging.{sends_end, is_sent};
    ghost use Rattle.journal_check.specs.Lending.{lends_flows};
    ghost use Rattle.std.specs.Borrow.{sem};

    pub fn new(alloc: Global) -> Sends
        ensures { result ≡ no_sends }
    {
        Sends {
            given: JournalGiven::new(alloc),
            sent: SentChecker::new(alloc),
            queues: QueueChecker::new(alloc),
        }
    }

    /// A line begins a group.
    pub fn begin_line(&mut self, line: &Line) -> Result<(), NoMemory>
        requires { HasLayout line.now }
        ensures { OnOk result (self.new ≡ sends_line line.now self.old) }
    {
        self.given.begin_line(line)?;
        self.sent.begin_line(line)?;
        self.queues.begin_line(line);
        Ok(())
    }

    /// A record of the group, which isn't its first.
    pub fn see(&mut self, one: &Record) -> Result<(), NoMemory>
        ensures { OnOk result (self.new ≡ sends_record one.now self.old) }
    {
        self.given.settle(one)?;
        self.sent.see(one, &self.given)?;
        self.given.see(one)?;
        self.queues.see(one)
    }

    /// The group has ended.
    pub fn end_line(&mut self) -> Result<(), NoMemory>
        ensures { OnOk result (self.new ≡ sends_end self.old) }
    {
        self.given.end_line()?;
        self.sent.end_line(&self.given)?;
        self.queues.end_line()
    }

    /// The accounts of flows.
    pub fn flows(&self) -> &JournalFlows
        ensures { result.now ≡ self.now.given.kept }
    {
        self.given.flows()
    }

    /// The accounts of flows, lent so that SDUs are taken that unacknowledged ones hand up.
    pub fn flows_mut(&mut self) -> &mut JournalFlows
        ensures* writes_back { sem 𝓛 (lends_flows self.entry result) }
        ensures value { result.now ≡ self.old.given.kept }
    {
        self.given.flows_mut()
    }

    /// Whether what is sent is what its sender may send.
    pub fn are_sent(&self) -> bool
        ensures { result ≡ is_sent self.now }
    {
        self.given.is_right() && (self.queues.is_right() && self.sent.is_right())
    }

    /// Whether PDUs say truly where their octets stand.
    pub fn are_shaped(&self) -> bool
        ensures { result ≡ self.now.sent.shaped }
    {
        self.sent.is_shaped()
    }
}
