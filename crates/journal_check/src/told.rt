ghost use Rattle.std.specs.Prelude.{◌≡◌, OnOk};

use air_record::{Line, Record};
use journal_delivered::DeliveredChecker;
use journal_failure::FailureChecker;
use journal_flows::JournalFlows;
use journal_status::StatusChecker;
use l2_bits::NoMemory;
use std::alloc::Global;
use std::marker::Model;

/// The checkers of what acknowledged flows tell and hand up, which stand beside their accounts.
#[derive(Drop)]
pub(crate) struct Flows {
    failure: FailureChecker,
    status: StatusChecker,
    delivered: DeliveredChecker,
}

impl Model for Flows {
    ghost use Rattle.journal_check.specs.Judging.{Flows as Judged};

    ghost Value = { Judged };

    ghost view = { λ f. record {
      failure = f.failure;
      status = f.status;
      delivered = f.delivered;
    } };
}

impl Flows {
    ghost use Rattle.journal_check.specs.Judging.{no_flows, flows_line, flows_record};
    ghost use Rattle.journal_check.specs.Judging.{flows_ending, flows_ended};

    pub fn new(alloc: Global) -> Flows
        ensures { result ≡ no_flows }
    {
        Flows {
            failure: FailureChecker::new(),
            status: StatusChecker::new(),
            delivered: DeliveredChecker::new(alloc),
        }
    }

    /// A line begins a group.
    pub fn begin_line(&mut self, line: &Line) -> Result<(), NoMemory>
        ensures { OnOk result (self.new ≡ flows_line line.now self.old) }
    {
        self.failure.begin_line(line);
        self.status.begin_line(line);
        self.delivered.begin_line(line)
    }

    /// A record of the group, which isn't its first, and which the accounts have seen.
    pub fn see(&mut self, one: &Record, flows: &JournalFlows) -> Result<(), NoMemory>
        ensures { OnOk result (self.new ≡ flows_record flows.now one.now self.old) }
    {
        self.failure.see(one);
        self.status.see(one, flows);
        self.delivered.see(one)
    }

    /// The group has ended, and the accounts stand behind its records.
    pub fn end_records(&mut self, flows: &JournalFlows)
        ensures { self.new ≡ flows_ending flows.now self.old }
    {
        self.failure.end_line(flows);
        self.status.end_line(flows);
    }

    /// The group has ended, and the accounts stand behind its end.
    pub fn end_line(&mut self, flows: &JournalFlows) -> Result<(), NoMemory>
        ensures { OnOk result (self.new ≡ flows_ended flows.now self.old) }
    {
        self.delivered.end_line(flows)
    }

    /// Whether senders give up at their limit, and nowhere else.
    pub fn are_failures(&self) -> bool
        ensures { result ≡ self.now.failure.right }
    {
        self.failure.is_right()
    }

    /// Whether STATUS PDUs are true, and the ignored ones told of.
    pub fn are_statuses(&self) -> bool
        ensures { result ≡ self.now.status.right }
    {
        self.status.is_right()
    }

    /// Whether what goes up is what acknowledged bearers deliver.
    pub fn are_delivered(&self) -> bool
        ensures { result ≡ self.now.delivered.right }
    {
        self.delivered.is_right()
    }
}
