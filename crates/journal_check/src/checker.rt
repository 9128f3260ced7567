ghost use Rattle.std.specs.Prelude.{◌≡◌, ◌+◌, ◌<◌, ◌≤◌, OnOk, None, Some, Err};
ghost use Rattle.journal_form.specs.Lines.{HasLayout};
ghost use Rattle.journal_check.specs.declared.fault.CheckFault.TheVariants.{Refused};
ghost use Rattle.journal_check.specs.Checked.{ends_groups};
ghost use Rattle.journal_check.specs.Steps.{HasRecordLayout, Finds};
ghost use Rattle.journal_check.specs.declared.limits.TheConstants.{MOST_RECORDS};

use crate::fault::{CheckFault, CheckWhy};
use crate::judge::Judge;
use crate::order::RecordOrder;
use air_record::{Line, Record, State};
use journal_text::read_text;
use mac_pdu::Direction;
use std::alloc::Global;
use std::marker::Model;

// A line begins the next group, and a sum ends the last.
fn ends_groups(one: &Record) -> bool
    ensures { result ≡ ends_groups one.now }
{
    match one {
        Record::Line { .. } => true,
        Record::Sum { .. } => true,
        _ => false,
    }
}

/// Checks a whole journal, whoever made it, text by text: that it is sound, as
/// `specs/Soundness.antt` says of all its groups in the terms of the standard.
///
/// It takes memory for what is under way on each bearer, and for the keys that lines give; with
/// nothing else does it grow with the journal.
#[derive(Drop)]
pub struct Checker {
    alloc: Global,
    order: RecordOrder,
    judge: Judge,
    lines: u32,
    fault: Option<CheckFault>,
}

impl Model for Checker {
    ghost use Rattle.std.specs.Prelude.{◌≤◌};
    ghost use Rattle.journal_check.specs.Checked.{CheckerState};

    ghost Value = { CheckerState };

    ghost view = { λ c. record {
      order = c.order;
      judging = c.judge;
      lines = c.lines;
      fault = c.fault;
    } };

    ghost invariant = { λ c. c.lines ≤ c.order.count };
}

impl Checker {
    ghost use Rattle.journal_check.specs.declared.fault.CheckFault.{CheckFault};
    ghost use Rattle.journal_check.specs.Checked.{HasFed, Feeds, Closes};
    ghost use Rattle.journal_check.specs.Grouped.{GroupedRecords, no_records};
    ghost use Rattle.journal_check.specs.Judging.{judging_end, judging_line, judging_record};
    ghost use Rattle.journal_check.specs.Judging.{word_of};
    ghost use Rattle.journal_check.specs.Steps.{is_ended_by, ended_if, word_if, with_judging};
    ghost use Rattle.journal_check.specs.Steps.{with_told, state_word, sum_word, Stands, TakesText};

    /// Has read nothing.
    pub fn new(alloc: Global) -> Checker
        ensures { HasFed no_records result }
    {
        Checker {
            alloc,
            order: RecordOrder::new(alloc),
            judge: Judge::new(alloc),
            lines: 0,
            fault: None,
        }
    }

    /// The next line of the journal, without its line feed.
    ///
    /// Refused is the first line, counted from 1, that
    /// - is beyond 100,000,000 (`Records`), isn't the text of a record or has more than 32,768
    ///   octets (`Text`);
    /// - ends a group that isn't right (`Sent` to `Form`, the first of them): the line before it,
    ///   where the next `line` record or the first `sum` shows that the group has ended;
    /// - is that of a `forge` line (`Forged`), stands before any line, behind the sums or with a
    ///   number that doesn't grow (`Order`), or breaks a rule of a run other than that a timer runs
    ///   (`Rules`);
    /// - is a `sum` of no bearer (`Sent`), or of an unacknowledged flow and tells falsely whether
    ///   its losses were short or long (`Edge`).
    ///
    /// After a fault it is answered again.
    pub fn feed(&mut self, text: &[u8]) -> Result<(), CheckFault>
        ensures next { (r : GroupedRecords) → HasFed r self.old
            → Feeds r text.now result self.new }
        ensures again { (fault : CheckFault) → self.old.fault ≡ Some fault
            → (result ≡ Err fault) × (self.new ≡ self.old) }
    {
        if let Some(fault) = self.fault {
            return Err(fault);
        }
        let fed = self.take(text);
        if let Err(fault) = &fed {
            self.fault = Some(*fault);
        }
        fed
    }

    /// The journal has ended: how many `line` records it has. Refused is its last line, where the
    /// last group isn't right and no `sum` has ended it. After a fault it is answered again.
    pub fn close(mut self) -> Result<u32, CheckFault>
        ensures end { (r : GroupedRecords) → HasFed r self → Closes r result }
        ensures again { (fault : CheckFault) → self.fault ≡ Some fault → result ≡ Err fault }
    {
        self.end()
    }

    fn end(&mut self) -> Result<u32, CheckFault>
        ensures end { (r : GroupedRecords) → HasFed r self.old → Closes r result }
        ensures again { (fault : CheckFault) → self.old.fault ≡ Some fault → result ≡ Err fault }
    {
        if let Some(fault) = self.fault {
            return Err(fault);
        }
        if !self.order.is_running() {
            return Ok(self.lines);
        }
        self.judge_group()?;
        Ok(self.lines)
    }

    fn take(&mut self, text: &[u8]) -> Result<(), CheckFault>
        ensures { (r : GroupedRecords) → HasFed r self.old → TakesText r text.now result self.new }
    {
        self.order.may_read(text)?;
        let read = read_text(self.alloc, text);
        match &read {
            Ok(one) => self.stand(one),
            Err(fault) => Err(self.order.unread(text, *fault)),
        }
    }

    // A record comes behind those so far.
    fn stand(&mut self, one: &Record) -> Result<(), CheckFault>
        requires few { self.old.order.count < MOST_RECORDS }
        requires layout { HasRecordLayout one.now }
        ensures { (r : GroupedRecords) → HasFed r self.old → Stands r one.now result self.new }
    {
        self.end_group(one)?;
        self.order.admit(one)?;
        self.tell(one)
    }

    // The group that a record ends is judged.
    fn end_group(&mut self, one: &Record) -> Result<(), CheckFault>
        ensures finds { Finds self.old.order.count
            (word_if (is_ended_by self.old.order one.now) self.old.judging) result }
        ensures ends { OnOk result (self.new ≡ with_judging
            (ended_if (is_ended_by self.old.order one.now) self.old.judging) self.old) }
    {
        if self.order.is_running() && ends_groups(one) {
            return self.judge_group();
        }
        Ok(())
    }

    // The newest group has ended, and is refused where its last record stands.
    fn judge_group(&mut self) -> Result<(), CheckFault>
        ensures finds { Finds self.old.order.count (word_of (judging_end self.old.judging)) result }
        ensures ends { OnOk result
            (self.new ≡ with_judging (judging_end self.old.judging) self.old) }
    {
        self.judge.end_line()?;
        match self.judge.word() {
            Some(why) => Err(self.refused(why)),
            None => Ok(()),
        }
    }

    // A refusal of the last line that was read.
    fn refused(&self, why: CheckWhy) -> CheckFault
        ensures { result ≡ Refused self.now.order.count why }
    {
        CheckFault::Refused {
            at: self.order.count(),
            why,
        }
    }

    // What a record tells that stands where it may.
    fn tell(&mut self, one: &Record) -> Result<(), CheckFault>
        requires few { self.old.order.count ≤ MOST_RECORDS }
        requires more { self.old.lines < self.old.order.count }
        requires layout { HasRecordLayout one.now }
        ensures finds { Finds self.old.order.count (sum_word one.now self.old) result }
        ensures told { OnOk result (self.new ≡ with_told one.now self.old) }
    {
        match one {
            Record::Line { line, .. } => self.begin_line(line.as_line()),
            Record::Sum {
                direction,
                lcid,
                state,
                ..
            } => self.judge_sum(*direction, *lcid, *state),
            _ => self.see(one),
        }
    }

    fn begin_line(&mut self, line: &Line) -> Result<(), CheckFault>
        requires few { self.old.order.count ≤ MOST_RECORDS }
        requires more { self.old.lines < self.old.order.count }
        requires layout { HasLayout line.now }
        ensures finds { Finds self.old.order.count None result }
        ensures told { OnOk result (self.new ≡ record self.old {
          judging = judging_line line.now self.old.judging;
          lines = self.old.lines + 1;
        }) }
    {
        self.judge.begin_line(line)?;
        self.lines += 1;
        Ok(())
    }

    fn see(&mut self, one: &Record) -> Result<(), CheckFault>
        ensures finds { Finds self.old.order.count None result }
        ensures told { OnOk result
            (self.new ≡ with_judging (judging_record one.now self.old.judging) self.old) }
    {
        self.judge.see(one)?;
        Ok(())
    }

    fn judge_sum(&self, direction: Direction, lcid: u8, state: State) -> Result<(), CheckFault>
        ensures { Finds self.now.order.count (state_word direction lcid state self.now) result }
    {
        if !self.order.has_bearer(lcid) {
            return Err(self.refused(CheckWhy::Sent));
        }
        if !self.judge.is_state(direction, lcid, state) {
            return Err(self.refused(CheckWhy::Edge));
        }
        Ok(())
    }
}
