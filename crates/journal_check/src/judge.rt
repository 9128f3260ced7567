ghost use Rattle.std.specs.Prelude.{◌≡◌, OnOk};

use crate::blocks::Blocks;
use crate::fault::CheckWhy;
use crate::sends::Sends;
use crate::told::Flows;
use air_record::{Line, Record, State};
use journal_edge::{EdgeChecker, is_state};
use l2_bits::NoMemory;
use mac_pdu::Direction;
use std::alloc::Global;
use std::marker::Model;

/// All checkers: lines and records go in one by one, and the word that isn't true is told behind
/// each group. Behind an `Err` nothing more is known.
#[derive(Drop)]
pub(crate) struct Judge {
    blocks: Blocks,
    sends: Sends,
    flows: Flows,
    edge: EdgeChecker,
}

impl Model for Judge {
    ghost use Rattle.journal_check.specs.Judging.{Judging};

    ghost Value = { Judging };

    ghost view = { λ j. record {
      blocks = j.blocks;
      sends = j.sends;
      flows = j.flows;
      edge = j.edge;
    } };
}

impl Judge {
    ghost use Rattle.journal_edge.specs.EdgeChecking.{is_state};
    ghost use Rattle.journal_form.specs.Lines.{HasLayout};
    ghost use Rattle.journal_check.specs.Judging.{nothing_judged, judging_line, judging_record};
    ghost use Rattle.journal_check.specs.Judging.{judging_end, is_formed, flows_word, word_of};

    pub fn new(alloc: Global) -> Judge
        ensures { result ≡ nothing_judged }
    {
        Judge {
            blocks: Blocks::new(alloc),
            sends: Sends::new(alloc),
            flows: Flows::new(alloc),
            edge: EdgeChecker::new(alloc),
        }
    }

    /// A line begins a group.
    pub fn begin_line(&mut self, line: &Line) -> Result<(), NoMemory>
        requires { HasLayout line.now }
        ensures { OnOk result (self.new ≡ judging_line line.now self.old) }
    {
        self.blocks.begin_line(line);
        self.sends.begin_line(line)?;
        self.flows.begin_line(line)?;
        self.edge.begin_line(line);
        Ok(())
    }

    /// A record of the group, which isn't its first.
    pub fn see(&mut self, one: &Record) -> Result<(), NoMemory>
        ensures { OnOk result (self.new ≡ judging_record one.now self.old) }
    {
        self.blocks.see(one)?;
        self.sends.see(one)?;
        self.flows.see(one, self.sends.flows())?;
        self.edge.see(one, self.sends.flows_mut())
    }

    /// The group has ended: with the next `line` record, the first `sum`, or the journal.
    pub fn end_line(&mut self) -> Result<(), NoMemory>
        ensures { OnOk result (self.new ≡ judging_end self.old) }
    {
        self.blocks.end_line();
        self.flows.end_records(self.sends.flows());
        self.sends.end_line()?;
        self.flows.end_line(self.sends.flows())?;
        self.edge.end_line(self.sends.flows_mut())
    }

    /// What isn't right behind a group, by the first word of that.
    pub fn word(&self) -> Option<CheckWhy>
        ensures { result ≡ word_of self.now }
    {
        if !self.sends.are_sent() {
            return Some(CheckWhy::Sent);
        }
        if !self.blocks.are_carried() {
            return Some(CheckWhy::Carried);
        }
        if !self.flows.are_delivered() {
            return Some(CheckWhy::Delivered);
        }
        if !self.edge.is_right() {
            return Some(CheckWhy::Edge);
        }
        self.flows_word()
    }

    fn flows_word(&self) -> Option<CheckWhy>
        ensures { result ≡ flows_word self.now }
    {
        if !self.flows.are_failures() {
            return Some(CheckWhy::Failure);
        }
        if !self.flows.are_statuses() {
            return Some(CheckWhy::Status);
        }
        if !(self.blocks.are_formed() && self.sends.are_shaped()) {
            return Some(CheckWhy::Form);
        }
        None
    }

    /// Whether the `sum` record of a flow tells truly whether its losses were short or long.
    pub fn is_state(&self, direction: Direction, lcid: u8, state: State) -> bool
        ensures { result ≡ is_state direction lcid state self.now.sends.given.kept }
    {
        is_state(self.sends.flows(), direction, lcid, state)
    }
}
