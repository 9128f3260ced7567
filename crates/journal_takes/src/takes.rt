ghost use Rattle.std.specs.Prelude.{◌≡◌, ◌+◌, ◌<◌, ◌≤◌, Some, length, option_copied, is_some};
ghost use Rattle.std.specs.Prelude.{OnOk, OnErr};
ghost use Rattle.journal_takes.specs.declared.take.Take.TheVariants.{Pdu};
ghost use Rattle.journal_takes.specs.TakeEvents.{SduSubmitted, SduDiscarded, PduTaken};
ghost use Rattle.journal_takes.specs.TakeEvents.{ReportTaken, PduConfirmed, ReportConfirmed};
ghost use Rattle.journal_takes.specs.TakeEvents.{ReportHeard, LifeEnded};
ghost use Rattle.journal_takes.specs.FlowTakes.{no_takes, is_free, next_take, sdu_kept, settled};
ghost use Rattle.journal_takes.specs.FlowTakes.{takes_with};

use crate::counts::{self, Counts};
use crate::sdus::{self, Sdus};
use crate::take::Take;
use l2_bits::{Bytes, NoMemory};
use std::alloc::Global;
use std::collections::{BTreeSet, VecDeque};
use std::marker::Model;

/// What the events of acknowledged data in one direction tell at its PDCP sender, through its
/// lives: the SDUs of COUNTs, which of these are confirmed, and what RLC may take next. COUNTs are
/// told as whole numbers, HFN and SN together. Contracts see the account of `specs/FlowTakes.antt`.
///
/// It takes memory for the SDUs that wait, for those of the COUNTs from U on, the first that isn't
/// confirmed, or from the one that is taken next on, and for the COUNTs above U that are confirmed.
#[derive(Drop)]
pub struct FlowTakes {
    width: u64,
    low: u64,
    begun: u64,
    at: u64,
    next: u64,
    confirmed: Counts,
    reported: Counts,
    from: u64,
    sdus: Sdus,
    waiting: Sdus,
    due: bool,
    reporting: bool,
}

impl Model for FlowTakes {
    ghost use Rattle.std.specs.Prelude.{◌≡◌, ◌+◌, ◌<◌, ◌≤◌, length as len};
    ghost use Rattle.journal_takes.specs.FlowTakes.{FlowTakes};

    ghost Value = { FlowTakes };

    ghost view = { λ t. record {
      width = t.width;
      low = t.low;
      begun = t.begun;
      at = t.at;
      next = t.next;
      confirmed = t.confirmed.keys;
      reported = t.reported.keys;
      from = t.from;
      sdus = t.sdus.items;
      waiting = t.waiting.items;
      due = t.due;
      reporting = t.reporting;
    } };

    ghost invariant = { λ t. (t.from ≤ t.low) × (t.from ≤ t.at) × (t.low ≤ t.next)
        × (t.at ≤ t.next) × (t.from + len t.sdus.items ≡ t.next) × (0 < t.width) };
}

impl FlowTakes {
    /// As the first life begins, with the first COUNT and the bits of a PDCP SN, 12 or 15. It takes
    /// no memory.
    pub fn new(alloc: Global, first: u64, bits: u32) -> FlowTakes
        requires some { 0 < bits }
        requires within { bits ≤ 32 }
        ensures { result ≡ no_takes first bits }
    {
        FlowTakes {
            width: 1 << (bits - 1),
            low: first,
            begun: first,
            at: first,
            next: first,
            confirmed: BTreeSet::new(alloc),
            reported: BTreeSet::new(alloc),
            from: first,
            sdus: VecDeque::new(alloc),
            waiting: VecDeque::new(alloc),
            due: false,
            reporting: false,
        }
    }

    /// U, the first COUNT that isn't confirmed.
    pub fn low(&self) -> u64
        ensures { result ≡ self.now.low }
    {
        self.low
    }

    /// The next new COUNT: one above the greatest that was taken.
    pub fn next(&self) -> u64
        ensures { result ≡ self.now.next }
    {
        self.next
    }

    /// How many SDUs wait.
    pub fn waiting(&self) -> usize
        ensures { result ≡ length self.now.waiting }
    {
        self.waiting.len()
    }

    /// What RLC takes next, if it may take anything: the report where it is due; else the first
    /// COUNT that was neither reported nor taken in this life, if it has an SDU and lies less than
    /// half of the sequence numbers above U (TS 36.323 5.1.1, 5.2.1.1, 5.3.1).
    pub fn next_take(&self) -> Option<Take>
        ensures { result ≡ next_take self.now }
    {
        if self.due {
            return Some(Take::Report);
        }
        if self.is_free() {
            return Some(Take::Pdu(self.at));
        }
        None
    }

    /// Whether RLC may take anything.
    pub fn may_take(&self) -> bool
        ensures { result ≡ is_some (next_take self.now) }
    {
        self.due || self.is_free()
    }

    fn is_free(&self) -> bool
        ensures { result ≡ is_free self.now }
    {
        let has_sdu = self.at < self.next || !self.waiting.is_empty();
        let low = if self.reporting { self.begun } else { self.low };
        has_sdu && self.at.saturating_sub(low) < self.width
    }

    /// The octets of the SDU of a COUNT from U on, or from the one that is taken next on.
    pub fn sdu(&self, count: u64) -> Option<&Bytes>
        ensures { option_copied result ≡ sdu_kept count self.now }
    {
        let at = count.checked_sub(self.from)?;
        sdus::get(&self.sdus, &self.waiting, at as usize)
    }

    /// An SDU is submitted (TS 36.323 5.1.1). An `Err` changes nothing.
    pub fn submit(&mut self, sdu: Bytes) -> Result<(), NoMemory>
        ensures ok { OnOk result (self.new ≡ takes_with (SduSubmitted sdu) self.old) }
        ensures err { OnErr result (self.new ≡ self.old) }
    {
        self.waiting.push_back(sdu)?;
        Ok(())
    }

    /// The first SDU that waits is discarded, if one does (TS 36.323 5.4).
    pub fn discard(&mut self)
        ensures { self.new ≡ takes_with SduDiscarded self.old }
    {
        let _ = self.waiting.pop_front();
    }

    /// RLC takes the PDU of the COUNT that is next (TS 36.323 5.1.1, 5.2.1.1). Behind an `Err`
    /// nothing is known.
    #[tactic(auto, using(crate::proofs::Offers::next_pdu))]
    pub fn take_pdu(&mut self, count: u64) -> Result<(), NoMemory>
        requires { next_take self.old ≡ Some (Pdu count) }
        ensures { OnOk result (self.new ≡ takes_with (PduTaken count) self.old) }
    {
        let after = count.checked_add(1).ok_or(NoMemory)?;
        if count == self.next {
            sdus::take_first(&mut self.waiting, &mut self.sdus)?;
            self.next = after;
        }
        self.at = after;
        self.settle();
        Ok(())
    }

    /// RLC takes the status report (TS 36.323 5.3.1).
    pub fn take_report(&mut self)
        ensures { self.new ≡ takes_with ReportTaken self.old }
    {
        self.due = false;
    }

    /// RLC confirms that the PDU of a COUNT has come (TS 36.322 5.1.3.1.1). An `Err` changes
    /// nothing.
    pub fn confirm_pdu(&mut self, count: u64) -> Result<(), NoMemory>
        ensures ok { OnOk result (self.new ≡ takes_with (PduConfirmed count) self.old) }
        ensures err { OnErr result (self.new ≡ self.old) }
    {
        counts::add(&mut self.confirmed, count)?;
        self.settle();
        Ok(())
    }

    /// RLC confirms that the status report has come (TS 36.322 5.1.3.1.1).
    pub fn confirm_report(&mut self)
        ensures { self.new ≡ takes_with ReportConfirmed self.old }
    {
        self.reporting = false;
    }

    /// A status report of the other end comes, with the COUNT of its FMS and those above it that
    /// its bitmap marks (TS 36.323 5.3.2, 6.2.6). Behind an `Err` nothing is known.
    pub fn hear_report(&mut self, fms: u64, marks: &[u64]) -> Result<(), NoMemory>
        ensures { OnOk result (self.new ≡ takes_with (ReportHeard fms marks.now) self.old) }
    {
        counts::add_marks(&mut self.confirmed, self.next, marks)?;
        counts::add_marks(&mut self.reported, self.next, marks)?;
        let end = fms.min(self.next);
        self.low = self.low.max(end);
        self.at = self.at.max(end);
        self.settle();
        Ok(())
    }

    /// The life ends, and the next one begins, with a status report or without one (TS 36.323
    /// 5.2.1.1, 5.3.1).
    pub fn end_life(&mut self, report: bool)
        ensures { self.new ≡ takes_with (LifeEnded report) self.old }
    {
        self.begun = self.low;
        self.at = self.low;
        self.due = report;
        self.reporting = report;
        self.settle();
    }

    // U and the COUNT that is taken next move, and what lies before both is kept no more.
    fn settle(&mut self)
        ensures { self.new ≡ settled self.old }
    {
        self.low = counts::first_open(&self.confirmed, self.next, self.low);
        counts::trim(&mut self.confirmed, self.low);
        self.at = counts::first_open(&self.reported, self.next, self.at);
        let from = self.low.min(self.at);
        counts::trim(&mut self.reported, from);
        sdus::trim(&mut self.sdus, &mut self.from, from);
    }
}
