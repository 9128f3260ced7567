ghost use Rattle.std.specs.Prelude.{◌≡◌, ◌+◌, ◌<◌, ◌≤◌, length, Err, OnOk, IfErr};
ghost use Rattle.air_record.specs.declared.record.Record.{Record};
ghost use Rattle.journal_check.specs.declared.fault.CheckFault.TheVariants.{Refused};
ghost use Rattle.journal_check.specs.declared.limits.TheConstants.{MOST_RECORDS};
ghost use Rattle.journal_check.specs.declared.limits.TheConstants.{LONGEST_RECORD};
ghost use Rattle.journal_text.specs.Records.{HasText};
ghost use Rattle.journal_check.specs.Checks.{ReadsNext, TellsRecords, AdmitsNext};
ghost use Rattle.journal_check.specs.Grouped.{GroupedRecords};
ghost use Rattle.journal_check.specs.States.{no_order, line_fault, fault_by, behind_record};
ghost use Rattle.journal_check.specs.States.{is_above, is_running, is_set, HasRecordPlace};

use crate::fault::{CheckFault, CheckWhy};
use crate::limits::{LONGEST_RECORD, MOST_RECORDS};
use crate::rules::{LineRules, forges};
use air_record::{Line, Record};
use journal_text::TextFault;
use l2_bits::NoMemory;
use std::alloc::Global;
use std::marker::Model;

/// What the records of a journal so far rule out.
#[derive(Drop)]
pub(crate) struct RecordOrder {
    count: u32,
    last: Option<u32>,
    ended: bool,
    lines: LineRules,
}

impl Model for RecordOrder {
    ghost use Rattle.std.specs.Prelude.{◌≤◌};
    ghost use Rattle.journal_check.specs.States.{OrderState};
    ghost use Rattle.journal_check.specs.declared.limits.TheConstants.{MOST_RECORDS as most};

    ghost Value = { OrderState };

    ghost view = { λ r. record {
      count = r.count;
      last = r.last;
      ended = r.ended;
      lines = r.lines;
    } };

    ghost invariant = { λ r. r.count ≤ most };
}

impl RecordOrder {
    #[tactic(auto, unfolding(crate::specs::States::no_order))]
    pub fn new(alloc: Global) -> RecordOrder
        ensures { result ≡ no_order }
    {
        RecordOrder {
            count: 0,
            last: None,
            ended: false,
            lines: LineRules::new(alloc),
        }
    }

    /// How many records there are.
    pub fn count(&self) -> u32
        ensures { result ≡ self.now.count }
    {
        self.count
    }

    /// Whether a group runs, which more records may follow.
    pub fn is_running(&self) -> bool
        ensures { result ≡ is_running self.now }
    {
        self.last.is_some() && !self.ended
    }

    /// Whether there is a bearer on a logical channel.
    pub fn has_bearer(&self, lcid: u8) -> bool
        ensures { result ≡ is_set lcid self.now.lines.bearers }
    {
        self.lines.has_bearer(lcid)
    }

    // A refusal of the next line.
    fn refused(&self, why: CheckWhy) -> CheckFault
        ensures { result ≡ Refused (self.now.count + 1) why }
    {
        CheckFault::Refused {
            at: self.count + 1,
            why,
        }
    }

    /// Whether the next text may be read: there may be a record more, and it isn't too long.
    pub fn may_read(&self, text: &[u8]) -> Result<(), CheckFault>
        ensures room { OnOk result ((self.now.count < MOST_RECORDS)
            × (length text.now ≤ LONGEST_RECORD)) }
        ensures none { IfErr result (λ fault. ReadsNext self.now.count text.now (Err fault)) }
    {
        if MOST_RECORDS <= self.count {
            return Err(self.refused(CheckWhy::Records));
        }
        if LONGEST_RECORD < text.len() {
            return Err(self.refused(CheckWhy::Text));
        }
        Ok(())
    }

    /// What is answered to the next text, of which no record was read.
    pub fn unread(&self, text: &[u8], fault: TextFault) -> CheckFault
        requires room { self.now.count < MOST_RECORDS }
        requires none { fault ≡ TextFault.NotARecord
            → (one : Record) → HasText text.now one → ⊥ }
        ensures { ReadsNext self.now.count text.now (Err result) }
    {
        match fault {
            TextFault::NotARecord => self.refused(CheckWhy::Text),
            TextFault::NoMemory => CheckFault::NoMemory,
        }
    }

    fn is_above(&self, number: u32) -> bool
        ensures { result ≡ is_above number self.now.last }
    {
        match self.last {
            Some(last) => last < number,
            None => true,
        }
    }

    #[tactic(auto, unfolding(crate::specs::States::line_fault))]
    fn line_fault(&self, number: u32, line: &Line) -> Option<CheckWhy>
        ensures { result ≡ line_fault self.now number line.now }
    {
        if forges(line) {
            return Some(CheckWhy::Forged);
        }
        if self.ended || !self.is_above(number) {
            return Some(CheckWhy::Order);
        }
        if !self.lines.admits(line) {
            return Some(CheckWhy::Rules);
        }
        None
    }

    // Why a record may not follow.
    #[tactic(auto, unfolding(crate::specs::States::fault_by))]
    fn fault(&self, one: &Record) -> Option<CheckWhy>
        ensures { result ≡ fault_by self.now one.now }
    {
        match one {
            Record::Line { number, line } => self.line_fault(*number, line.as_line()),
            Record::Sum { .. } => None,
            _ => {
                if self.ended || self.last.is_none() {
                    return Some(CheckWhy::Order);
                }
                None
            }
        }
    }

    // Keeps what later records ask of one.
    #[tactic(auto, unfolding(crate::specs::States::behind_record))]
    fn note(&mut self, one: &Record) -> Result<(), NoMemory>
        requires { self.old.count < MOST_RECORDS }
        ensures kept { OnOk result (self.new ≡ behind_record one.now self.old) }
        ensures place { OnOk result (HasRecordPlace one.now) }
        ensures more { OnOk result (self.new.count ≡ self.old.count + 1) }
        ensures count { self.old.count ≤ self.new.count }
    {
        match one {
            Record::Line { number, line } => {
                self.lines.note(line.as_line())?;
                self.last = Some(*number);
            }
            Record::Sum { .. } => self.ended = true,
            _ => (),
        }
        self.count += 1;
        Ok(())
    }

    /// Keeps the next record, if it may stand behind those so far.
    pub fn admit(&mut self, one: &Record) -> Result<(), CheckFault>
        requires { self.old.count < MOST_RECORDS }
        ensures next { (r : GroupedRecords) → TellsRecords r self.old
            → AdmitsNext r one.now result self.new }
        ensures more { OnOk result (self.new.count ≡ self.old.count + 1) }
        ensures count { self.old.count ≤ self.new.count }
    {
        if let Some(why) = self.fault(one) {
            return Err(self.refused(why));
        }
        self.note(one)?;
        Ok(())
    }
}
