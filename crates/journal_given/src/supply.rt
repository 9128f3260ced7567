// Acknowledged data in one direction of a bearer, as PDCP gives it to RLC.
ghost use Rattle.std.specs.Prelude.{◌≡◌, ◌≤◌, ◌<◌, Some, None, OnOk, IfOk, option_copied, []};
ghost use Rattle.journal_account.specs.FlowConfirmed.{is_among};
ghost use Rattle.journal_lives.specs.CountsCome.{none_come};
ghost use Rattle.journal_takes.specs.declared.take.Take.{Take as Takes};
ghost use Rattle.journal_takes.specs.FlowTakes.{next_take, sdu_kept};
ghost use Rattle.journal_takes.specs.TakeEvents.{SduSubmitted, SduDiscarded, ReportHeard};
ghost use Rattle.journal_given.specs.Supplies.{accounts, begun, told, is_pdu, has_length, is_take};
ghost use Rattle.journal_given.specs.Supplies.{has_waiting};
ghost use Rattle.journal_given.specs.Supplies.{gives, gives_other, takes_pdu, is_report};
ghost use Rattle.journal_given.specs.Supplies.{is_right_report, takes_report, confirmation};
ghost use Rattle.journal_given.specs.Supplies.{confirms_one, confirms_all, confirms_if, confirms};
ghost use Rattle.journal_given.specs.Supplies.{is_confirmed_by, is_sequenced_by, has_come};
ghost use Rattle.journal_given.specs.Supplies.{report_gone, hears, come_by, life_ended};

use crate::said::Said;
use journal_account::ConfirmedSdus;
use journal_lives::FlowLives;
use journal_takes::{FlowTakes, Take};
use l2_bits::{Bytes, Items, NoMemory};
use std::alloc::Global;
use std::marker::Model;
use std::mem;

// A PDU that RLC was given: which of those of the life it is, and its COUNT, or none where it is
// the status report.
#[derive(Clone, Copy)]
pub(crate) struct GivenPdu {
    pub(crate) number: u64,
    pub(crate) count: Option<u32>,
}

fn is_pdu(count: u64, next: Option<Take>) -> bool
    ensures { result ≡ is_pdu count next }
{
    match next {
        Some(Take::Pdu(own)) => own == count,
        _ => false,
    }
}

fn is_report(next: Option<Take>) -> bool
    ensures { result ≡ is_report next }
{
    match next {
        Some(Take::Report) => true,
        _ => false,
    }
}

fn has_length(len: u32, octets: Option<&Bytes>) -> bool
    ensures { result ≡ has_length len (option_copied octets.entry) }
{
    match octets {
        Some(octets) => octets.as_slice().len() == len as usize,
        None => false,
    }
}

fn is_sequenced_by(flow: Option<&FlowLives>, number: u64) -> bool
    ensures { result ≡ is_sequenced_by (option_copied flow.entry) number }
{
    match flow {
        Some(flow) => number < flow.account().sequenced(),
        None => false,
    }
}

fn has_come(own: Option<&FlowLives>, report: Option<u64>) -> bool
    ensures { result ≡ has_come (option_copied own.entry) report }
{
    match report {
        Some(number) => is_sequenced_by(own, number),
        None => false,
    }
}

#[derive(Drop)]
pub(crate) struct Supply {
    alloc: Global,
    bits: u32,
    takes: FlowTakes,
    given: u64,
    unconfirmed: Items<GivenPdu>,
    said: Said,
    report: Option<u64>,
}

impl Model for Supply {
    ghost use Rattle.std.specs.Prelude.{◌≤◌};
    ghost use Rattle.journal_takes.specs.FlowTakes.{FlowTakes as Takes};
    ghost use Rattle.journal_given.specs.Supplies.{Supply};

    ghost Value = { Supply Takes };

    ghost view = { λ s. record {
      bits = s.bits;
      takes = s.takes;
      given = s.given;
      unconfirmed = s.unconfirmed;
      said = s.said;
      report = s.report;
    } };

    ghost invariant = { λ s. s.bits ≤ 32 };
}

// Behind an `Err` nothing is known.
impl Supply {
    // As the first life begins. It takes no memory.
    pub(crate) fn new(alloc: Global, first: u32, bits: u32) -> Supply
        requires some { 0 < bits }
        requires within { bits ≤ 32 }
        ensures { result ≡ begun accounts first bits }
    {
        Supply {
            alloc,
            bits,
            takes: FlowTakes::new(alloc, u64::from(first), bits),
            given: 0,
            unconfirmed: Items::new(alloc),
            said: Said::none(alloc, first),
            report: None,
        }
    }

    pub(crate) fn takes(&self) -> &FlowTakes
        ensures { result.now ≡ self.now.takes }
    {
        &self.takes
    }

    // An SDU is submitted.
    pub(crate) fn submit(&mut self, sdu: Bytes) -> Result<(), NoMemory>
        ensures { OnOk result (self.new ≡ told accounts (SduSubmitted sdu) self.old) }
    {
        self.takes.submit(sdu)
    }

    // The first SDU that waits is discarded; whether there is one.
    pub(crate) fn discard(&mut self) -> bool
        ensures value { result ≡ has_waiting self.old.takes }
        ensures new { self.new ≡ told accounts SduDiscarded self.old }
    {
        let waits = self.takes.waiting() > 0;
        self.takes.discard();
        waits
    }

    fn is_take(&self, count: u32, len: u32) -> bool
        ensures { result ≡ is_take accounts (Some count) len self.now }
    {
        let count = u64::from(count);
        is_pdu(count, self.takes.next_take()) && has_length(len, self.takes.sdu(count))
    }

    // RLC is given a PDU that isn't one of PDCP.
    fn give_other(&mut self) -> Result<(), NoMemory>
        ensures { OnOk result (self.new ≡ gives_other self.old) }
    {
        self.given = self.given.checked_add(1).ok_or(NoMemory)?;
        Ok(())
    }

    fn give(&mut self, count: Option<u32>) -> Result<(), NoMemory>
        ensures { OnOk result (self.new ≡ gives count self.old) }
    {
        self.unconfirmed.push(GivenPdu {
            number: self.given,
            count,
        })?;
        self.given = self.given.checked_add(1).ok_or(NoMemory)?;
        Ok(())
    }

    // A `take` record; whether it is right.
    pub(crate) fn take(&mut self, count: Option<u32>, len: u32) -> Result<bool, NoMemory>
        ensures value { IfOk result (λ right. right ≡ is_take accounts count len self.old) }
        ensures new { OnOk result (self.new ≡ takes_pdu accounts count len self.old) }
    {
        let Some(own) = count else {
            self.give_other()?;
            return Ok(false);
        };
        if !self.is_take(own, len) {
            self.give_other()?;
            return Ok(false);
        }
        self.takes.take_pdu(u64::from(own))?;
        self.give(count)?;
        Ok(true)
    }

    // A `report` record; whether it is right.
    pub(crate) fn report(&mut self, fms: u32, bitmap: &[u8]) -> Result<bool, NoMemory>
        ensures value { IfOk result
            (λ right. right ≡ is_right_report accounts fms bitmap.now self.old) }
        ensures new { OnOk result
            (self.new ≡ takes_report accounts fms bitmap.now self.old) }
    {
        if !is_report(self.takes.next_take()) {
            self.give_other()?;
            return Ok(false);
        }
        if !self.said.is(fms, bitmap, self.bits)? {
            self.give_other()?;
            return Ok(false);
        }
        self.takes.take_report();
        self.report = Some(self.given);
        self.give(None)?;
        Ok(true)
    }

    fn confirm(&mut self, count: Option<u32>) -> Result<(), NoMemory>
        ensures { OnOk result (self.new ≡ told accounts (confirmation count) self.old) }
    {
        match count {
            Some(count) => self.takes.confirm_pdu(u64::from(count)),
            None => {
                self.takes.confirm_report();
                Ok(())
            }
        }
    }

    fn confirm_one(&mut self, confirmed: &ConfirmedSdus, pdu: GivenPdu) -> Result<(), NoMemory>
        ensures { OnOk result (self.new
            ≡ confirms_one accounts (λ k. is_among k confirmed.now) pdu self.old) }
    {
        if confirmed.has(pdu.number) {
            self.confirm(pdu.count)
        } else {
            self.unconfirmed.push(pdu)
        }
    }

    fn confirm_each(
        &mut self,
        confirmed: &ConfirmedSdus,
        pdus: Items<GivenPdu>,
    ) -> Result<(), NoMemory>
        ensures { OnOk result (self.new
            ≡ confirms_all accounts (λ k. is_among k confirmed.now) pdus self.old) }
    {
        let mut pdus = pdus;
        while let Some(pdu) = pdus.pop_front() {
            self.confirm_one(confirmed, pdu)?;
        }
        Ok(())
    }

    // Those that aren't confirmed, which are taken out.
    fn take_unconfirmed(&mut self) -> Items<GivenPdu>
        ensures given { result ≡ self.old.unconfirmed }
        ensures rest { self.new ≡ record self.old { unconfirmed = [] } }
    {
        mem::replace(&mut self.unconfirmed, Items::new(self.alloc))
    }

    // RLC confirms what a flow says.
    fn confirm_by(&mut self, flow: &FlowLives) -> Result<(), NoMemory>
        ensures { OnOk result
            (self.new ≡ confirms accounts (is_confirmed_by (Some flow.now)) self.old) }
    {
        let confirmed = flow.account().confirmed(self.alloc)?;
        let pdus = self.take_unconfirmed();
        self.confirm_each(&confirmed, pdus)?;
        Ok(())
    }

    // It does where a STATUS comes.
    #[tactic(auto, using(crate::proofs::Confirming::by_none))]
    fn confirm_if(&mut self, status: bool, flow: Option<&FlowLives>) -> Result<(), NoMemory>
        ensures { OnOk result
            (self.new ≡ confirms_if accounts status (option_copied flow.entry) self.old) }
    {
        if !status {
            return Ok(());
        }
        match flow {
            Some(flow) => self.confirm_by(flow),
            None => Ok(()),
        }
    }

    // What the other side sends comes: its report is heard, by the flow that carries it.
    fn hear(&mut self, own: Option<&FlowLives>, sender: &Supply) -> Result<(), NoMemory>
        ensures { OnOk result
            (self.new ≡ hears accounts (option_copied own.entry) sender.now self.old) }
    {
        if !has_come(own, sender.report) {
            return Ok(());
        }
        self.takes
            .hear_report(sender.said.next(), sender.said.beyond())
    }

    // A block of the other side is got, by the flow that it sends and by that of this side.
    pub(crate) fn land(
        &mut self,
        status: bool,
        own: Option<&FlowLives>,
        back: Option<&FlowLives>,
        sender: &Supply,
    ) -> Result<(), NoMemory>
        ensures { OnOk result (self.new ≡ hears accounts (option_copied own.entry) sender.now
            (confirms_if accounts status (option_copied back.entry) self.old)) }
    {
        self.confirm_if(status, back)?;
        self.hear(own, sender)
    }

    // The report has gone, where it has come.
    pub(crate) fn drop_report(&mut self, own: Option<&FlowLives>)
        ensures { self.new ≡ report_gone (option_copied own.entry) self.old }
    {
        if has_come(own, self.report) {
            self.report = None;
        }
    }

    // The life ends; the next one begins with a report of what came of the flow the other way.
    pub(crate) fn end_life(&mut self, other: Option<&FlowLives>) -> Result<(), NoMemory>
        ensures { OnOk result
            (self.new ≡ life_ended accounts (come_by (option_copied other.entry)) self.old) }
    {
        self.said = Said::of(self.alloc, other)?;
        self.takes.end_life(true);
        self.given = 0;
        self.unconfirmed = Items::new(self.alloc);
        self.report = None;
        Ok(())
    }
}
