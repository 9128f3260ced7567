// The checker: a journal's lines and records, one by one.
ghost use Rattle.std.specs.Prelude.{◌≡◌, ◌≤◌, ◌<◌, IfOk, OnOk, Some, length, option_copied};
ghost use Rattle.l2_bits.specs.declared.limits.TheConstants.{OCTETS_LIMIT};
ghost use Rattle.bearer_types.specs.Configs.{AreRlcBits, ArePdcpBits};
ghost use Rattle.journal_form.specs.Lines.{HasLayout};
ghost use Rattle.promises.specs.RightForm.{sdus_in};
ghost use Rattle.journal_given.specs.Supplies.{accounts as supplies};
ghost use Rattle.journal_sent.specs.SentPdus.{accounts};

use crate::events::{lcid_in, passed_to, sdu_of};
use crate::flow::begun;
use crate::flows::{self, Flows};
use crate::verdict::Verdict;
use air_record::{Line, Record, Submission, no_keys};
use bearer_types::{BearerConfig, Event, sender_of};
use eps_sec::Keys;
use journal_given::JournalGiven;
use journal_lives::FlowLives;
use l2_bits::{Bytes, Items, NoMemory, OCTETS_LIMIT};
use l2_types::{How, Side};
use mac_pdu::{Direction, Item, MacReader};
use std::alloc::Global;
use std::marker::Model;
use std::mem;

// A PDU that a `send` record names; of a transparent one, the SDU of the `take` just before.
#[derive(Drop)]
pub(crate) struct NamedPdu {
    pub(crate) lcid: u8,
    pub(crate) how: How,
    pub(crate) sdu: Option<Bytes>,
}

// An SDU that a transparent bearer of a side passes on.
#[derive(Drop)]
pub(crate) struct PassedSdu {
    pub(crate) side: Side,
    pub(crate) lcid: u8,
    pub(crate) octets: Bytes,
}

/// A checker of what the PDUs carry that a journal sends: its lines and records go in one by one,
/// beside those of `JournalGiven`, which keeps what PDCP gives RLC of acknowledged data. Contracts
/// see what is kept (`specs/Sending.antt`).
///
/// It keeps the SDUs that wait, unless they are acknowledged data; in the life that runs, the
/// octets of each flow that aren't written yet, and the data fields that aren't acknowledged, or of
/// an unacknowledged flow those of the group, each octet with a mark; and the PDUs that are named
/// before the next new block of their side.
#[derive(Drop)]
pub struct SentChecker {
    alloc: Global,
    nb: Flows,
    ue: Flows,
    named_nb: Items<NamedPdu>,
    named_ue: Items<NamedPdu>,
    passed: Option<PassedSdu>,
    submitted: Option<Submission>,
    keys: Keys,
    renewal: Option<Keys>,
    sent: bool,
    shaped: bool,
}

impl Model for SentChecker {
    ghost use Rattle.journal_stream.specs.SentOctets.{SentOctets};
    ghost use Rattle.journal_sent.specs.Sending.{Sending};

    ghost Value = { Sending SentOctets };

    ghost view = { λ c. record {
      nb = c.nb.items;
      ue = c.ue.items;
      named_nb = c.named_nb;
      named_ue = c.named_ue;
      passed = c.passed;
      submitted = c.submitted;
      keys = c.keys;
      renewal = c.renewal;
      sent = c.sent;
      shaped = c.shaped;
    } };
}

impl SentChecker {
    ghost use Rattle.std.specs.Prelude.{[]};
    ghost use Rattle.journal_sent.specs.SentFlows.{take_right, flow_taken, discard_right};
    ghost use Rattle.journal_sent.specs.SentFlows.{flow_discarded, flow_reported, acked_by};
    ghost use Rattle.journal_sent.specs.Sending.{nothing_sending, flows_of, flow_at, changed};
    ghost use Rattle.journal_sent.specs.Sending.{judged, with_bearer, line_told};
    ghost use Rattle.journal_sent.specs.Sending.{after_line, has_bearer, is_known, right_in};
    ghost use Rattle.journal_sent.specs.Sending.{passed_in, take_told, gives_reports, named_of};
    ghost use Rattle.journal_sent.specs.Sending.{with_named, names, event_told, pdu_told};
    ghost use Rattle.journal_sent.specs.Sending.{pdus_told, block_told, tells, after_record};
    ghost use Rattle.journal_sent.specs.Sending.{submits_own, settled, closed, after_group};
    ghost use Rattle.journal_sent.specs.Judging.{verdict_at, flows_judged};

    /// Before the first line. It takes no memory.
    pub fn new(alloc: Global) -> SentChecker
        ensures { result ≡ nothing_sending }
    {
        SentChecker {
            alloc,
            nb: flows::no_flows(),
            ue: flows::no_flows(),
            named_nb: Items::new(alloc),
            named_ue: Items::new(alloc),
            passed: None,
            submitted: None,
            keys: no_keys(),
            renewal: None,
            sent: true,
            shaped: true,
        }
    }

    /// Whether so far RLC took the SDUs of each bearer in their order, each new PDU carries the
    /// octets that come next, and each that is sent again octets of its number, which isn't
    /// acknowledged (TS 36.322 5.1.2.1.1, 5.1.3.1.1, 5.2.1).
    pub fn is_right(&self) -> bool
        ensures { result ≡ self.now.sent }
    {
        self.sent
    }

    /// Whether the headers of the PDUs so far say truly where their octets stand: SNs, framing
    /// info, LIs and LSFs (TS 36.322 6.2.2).
    pub fn is_shaped(&self) -> bool
        ensures { result ≡ self.now.shaped }
    {
        self.shaped
    }

    /// Whether there is a bearer on a logical channel, 0 to 10, as there is where a `sum` record of
    /// the channel stands behind the line of its bearer.
    pub fn has_bearer(&self, lcid: u8) -> bool
        ensures { result ≡ has_bearer lcid self.now }
    {
        flows::get(&self.nb, lcid).is_some()
    }

    /// The `line` record of an accepted line begins a group. `journal_form::has_layout` is true of
    /// it, as of every line that was read. Behind an `Err` nothing is known.
    pub fn begin_line(&mut self, line: &Line) -> Result<(), NoMemory>
        requires { HasLayout line.now }
        ensures { OnOk result (self.new ≡ after_line accounts line.now self.old) }
    {
        self.passed = None;
        self.submitted = Submission::of(self.alloc, line)?;
        self.tell_line(line);
        Ok(())
    }

    fn tell_line(&mut self, line: &Line)
        requires { HasLayout line.now }
        ensures { self.new ≡ line_told accounts line.now self.old }
    {
        match line {
            Line::Bearer { config, .. } => self.begin(config),
            Line::Keys { keys } => self.keys = *keys,
            Line::Handover {
                user,
                rrc,
                integrity,
            } => {
                self.renewal = Some(Keys {
                    alg: self.keys.alg,
                    user: *user,
                    rrc: *rrc,
                    integrity: *integrity,
                });
            }
            _ => {}
        }
    }

    fn begin(&mut self, config: &BearerConfig)
        requires lcid { config.now.channel.lcid ≤ 10 }
        requires rlc { AreRlcBits config.now.kind config.now.rlc_bits }
        requires pdcp { ArePdcpBits config.now.kind config.now.pdcp_bits }
        ensures { self.new ≡ with_bearer accounts config.now self.old }
    {
        let lcid = config.channel.lcid;
        let down = begun(self.alloc, config, Side::Nb, &self.keys);
        let up = begun(self.alloc, config, Side::Ue, &self.keys);
        flows::set(&mut self.nb, lcid, Some(down));
        flows::set(&mut self.ue, lcid, Some(up));
    }

    /// A record of the group, which isn't its first. `given.settle(one)` was called, and `given`
    /// hasn't seen it yet.
    ///
    /// `NoMemory` where there is none, where a block has 2^28 octets or more, and where a counter
    /// ends. Behind it nothing is known.
    pub fn see(&mut self, one: &Record, given: &JournalGiven) -> Result<(), NoMemory>
        ensures { OnOk result
            (self.new ≡ after_record accounts supplies one.now given.now self.old) }
    {
        self.settle(one)?;
        let passed = self.passed.take();
        self.tell(one, given, passed)
    }

    // Before a record, which may refuse the SDU of the group's line.
    fn settle(&mut self, one: &Record) -> Result<(), NoMemory>
        ensures { OnOk result (self.new ≡ settled one.now self.old) }
    {
        if self.submitted.is_none() {
            return Ok(());
        }
        let Some(sdu) = self.submitted.take() else {
            return Ok(());
        };
        if one.refuses(sdu.side, sdu.lcid) {
            return Ok(());
        }
        self.submit(sdu)
    }

    // The SDU of the group's line is submitted.
    fn submit(&mut self, sdu: Submission) -> Result<(), NoMemory>
        ensures { OnOk result (self.new ≡ submits_own (Some sdu) self.old) }
    {
        let Submission { side, lcid, octets } = sdu;
        match side {
            Side::Nb => flows::submit(&mut self.nb, lcid, octets),
            Side::Ue => flows::submit(&mut self.ue, lcid, octets),
        }
    }

    fn tell(
        &mut self,
        one: &Record,
        given: &JournalGiven,
        passed: Option<PassedSdu>,
    ) -> Result<(), NoMemory>
        ensures { OnOk result (self.new
            ≡ tells accounts supplies one.now given.now passed self.old) }
    {
        match one {
            Record::Of { side, event } => {
                self.sent = self.sent && self.is_known(lcid_in(event));
                self.happen(*side, event, given, passed)
            }
            Record::Block {
                direction,
                fresh: true,
                octets,
                ..
            } => self.load(*direction, octets.as_slice(), given),
            Record::Looped { lcid, octets } => {
                self.sent = self.sent && self.has_bearer(*lcid);
                flows::submit_copy(&mut self.ue, *lcid, octets.as_slice())
            }
            Record::Refused { lcid, .. } => {
                self.sent = self.sent && self.has_bearer(*lcid);
                Ok(())
            }
            _ => Ok(()),
        }
    }

    fn is_known(&self, lcid: Option<u8>) -> bool
        ensures { result ≡ is_known lcid self.now }
    {
        match lcid {
            Some(lcid) => self.has_bearer(lcid),
            None => true,
        }
    }

    fn happen(
        &mut self,
        side: Side,
        event: &Event,
        given: &JournalGiven,
        passed: Option<PassedSdu>,
    ) -> Result<(), NoMemory>
        ensures { OnOk result (self.new
            ≡ event_told accounts supplies side event.now given.now passed self.old) }
    {
        match event {
            Event::Take { lcid, count, len } => {
                let sdu = sdu_of(given, side, *lcid, *count);
                self.take(side, *lcid, *count, *len, sdu)
            }
            Event::Report { lcid, fms, bitmap } => {
                self.report(side, *lcid, *fms, bitmap.as_slice())
            }
            Event::Discard { lcid, .. } => {
                self.discard(side, *lcid);
                Ok(())
            }
            Event::Send { lcid, how, .. } => self.name(side, *lcid, *how, passed),
            _ => Ok(()),
        }
    }

    fn flows(&self, side: Side) -> &Flows
        ensures { result.now.items ≡ flows_of side self.now }
    {
        match side {
            Side::Nb => &self.nb,
            Side::Ue => &self.ue,
        }
    }

    fn passed_in(&self, side: Side, lcid: u8) -> Result<Option<PassedSdu>, NoMemory>
        ensures { IfOk result
            (λ p. p ≡ passed_in side lcid (flow_at lcid (flows_of side self.now))) }
    {
        let Some(flow) = flows::get(self.flows(side), lcid) else {
            return Ok(None);
        };
        match flow.passed()? {
            Some(octets) => Ok(Some(PassedSdu { side, lcid, octets })),
            None => Ok(None),
        }
    }

    fn take_on(
        &mut self,
        side: Side,
        lcid: u8,
        count: Option<u32>,
        len: u32,
        sdu: Option<&Bytes>,
    ) -> Result<bool, NoMemory>
        ensures value { IfOk result (λ right. right
            ≡ right_in (take_right count len (option_copied sdu.entry))
            (flow_at lcid (flows_of side self.old))) }
        ensures new { OnOk result (self.new ≡ changed side lcid
            (flow_taken accounts count len (option_copied sdu.entry)) self.old) }
    {
        match side {
            Side::Nb => flows::take(&mut self.nb, lcid, count, len, sdu),
            Side::Ue => flows::take(&mut self.ue, lcid, count, len, sdu),
        }
    }

    fn take(
        &mut self,
        side: Side,
        lcid: u8,
        count: Option<u32>,
        len: u32,
        sdu: Option<&Bytes>,
    ) -> Result<(), NoMemory>
        ensures { OnOk result (self.new
            ≡ take_told accounts side lcid count len (option_copied sdu.entry) self.old) }
    {
        let passed = self.passed_in(side, lcid)?;
        let is_right = self.take_on(side, lcid, count, len, sdu)?;
        self.sent = self.sent && is_right;
        self.passed = passed;
        Ok(())
    }

    fn report_on(&mut self, side: Side, lcid: u8, fms: u32, bitmap: &[u8]) -> Result<(), NoMemory>
        ensures { OnOk result (self.new
            ≡ changed side lcid (flow_reported accounts fms bitmap.now) self.old) }
    {
        match side {
            Side::Nb => flows::report(&mut self.nb, lcid, fms, bitmap),
            Side::Ue => flows::report(&mut self.ue, lcid, fms, bitmap),
        }
    }

    fn report(&mut self, side: Side, lcid: u8, fms: u32, bitmap: &[u8]) -> Result<(), NoMemory>
        ensures { OnOk result (self.new
            ≡ judged (gives_reports (flow_at lcid (flows_of side self.old)))
            (changed side lcid (flow_reported accounts fms bitmap.now) self.old)) }
    {
        let is_right = flows::gives_reports(self.flows(side), lcid);
        self.report_on(side, lcid, fms, bitmap)?;
        self.sent = self.sent && is_right;
        Ok(())
    }

    fn discard_on(&mut self, side: Side, lcid: u8) -> bool
        ensures right { result
            ≡ right_in discard_right (flow_at lcid (flows_of side self.old)) }
        ensures new { self.new ≡ changed side lcid flow_discarded self.old }
    {
        match side {
            Side::Nb => flows::discard(&mut self.nb, lcid),
            Side::Ue => flows::discard(&mut self.ue, lcid),
        }
    }

    fn discard(&mut self, side: Side, lcid: u8)
        ensures { self.new ≡ judged (right_in discard_right (flow_at lcid (flows_of side self.old)))
            (changed side lcid flow_discarded self.old) }
    {
        let is_right = self.discard_on(side, lcid);
        self.sent = self.sent && is_right;
    }

    // A PDU of the next new block of a side.
    fn name(
        &mut self,
        side: Side,
        lcid: u8,
        how: How,
        passed: Option<PassedSdu>,
    ) -> Result<(), NoMemory>
        ensures { OnOk result (self.new ≡ names side lcid how passed self.old) }
    {
        let sdu = passed_to(side, lcid, passed);
        let one = NamedPdu { lcid, how, sdu };
        match side {
            Side::Nb => self.named_nb.push(one),
            Side::Ue => self.named_ue.push(one),
        }
    }

    // The PDUs that the next new block of a side carries, which are taken out.
    fn take_named(&mut self, side: Side) -> Items<NamedPdu>
        ensures named { result ≡ named_of side self.old }
        ensures rest { self.new ≡ with_named side [] self.old }
    {
        match side {
            Side::Nb => mem::replace(&mut self.named_nb, Items::new(self.alloc)),
            Side::Ue => mem::replace(&mut self.named_ue, Items::new(self.alloc)),
        }
    }

    // A new block.
    #[tactic(auto, using(crate::proofs::Blocks::none_left))]
    fn load(
        &mut self,
        direction: Direction,
        octets: &[u8],
        given: &JournalGiven,
    ) -> Result<(), NoMemory>
        ensures { OnOk result
            (self.new ≡ block_told accounts direction octets.now given.now self.old) }
    {
        if octets.len() >= OCTETS_LIMIT {
            return Err(NoMemory);
        }
        let from = sender_of(direction);
        let named = self.take_named(from);
        match MacReader::parse(direction, octets) {
            Ok(reader) => self.load_all(from, given, named, reader),
            Err(_) => Ok(()),
        }
    }

    // Its PDUs, one behind the other.
    #[tactic(auto, using(crate::proofs::Blocks::none_left))]
    fn load_all(
        &mut self,
        from: Side,
        given: &JournalGiven,
        named: Items<NamedPdu>,
        reader: MacReader<'_>,
    ) -> Result<(), NoMemory>
        ensures { OnOk result (self.new
            ≡ pdus_told accounts from given.now named (sdus_in reader.entry) self.old) }
    {
        let mut reader = reader;
        let mut named = named;
        while let Some(item) = reader.next() {
            if let Item::Sdu { lcid, octets } = item {
                let Some(one) = named.pop_front() else {
                    return Ok(());
                };
                self.load_pdu(from, given, &one, lcid, octets)?;
            }
        }
        Ok(())
    }

    fn judge_on(
        &mut self,
        from: Side,
        lcid: u8,
        account: Option<&FlowLives>,
        how: How,
        passed: Option<&Bytes>,
        octets: &[u8],
    ) -> Result<Option<Verdict>, NoMemory>
        requires { length octets.now < OCTETS_LIMIT }
        ensures verdict { IfOk result (λ v. v ≡ verdict_at from lcid
            (acked_by (option_copied account.entry)) how (option_copied passed.entry) octets.now
            self.old) }
        ensures new { OnOk result (self.new ≡ flows_judged from lcid
            (acked_by (option_copied account.entry)) how (option_copied passed.entry) octets.now
            self.old) }
    {
        match from {
            Side::Nb => flows::judge(&mut self.nb, lcid, account, how, passed, octets),
            Side::Ue => flows::judge(&mut self.ue, lcid, account, how, passed, octets),
        }
    }

    // One of them.
    #[tactic(auto, using(crate::proofs::Blocks::judges))]
    fn load_pdu(
        &mut self,
        from: Side,
        given: &JournalGiven,
        one: &NamedPdu,
        lcid: u8,
        octets: &[u8],
    ) -> Result<(), NoMemory>
        requires { length octets.now < OCTETS_LIMIT }
        ensures { OnOk result (self.new ≡ pdu_told accounts from given.now one.now
            (record { lcid = lcid; octets = octets.now }) self.old) }
    {
        let account = given.flows().flow(from, lcid);
        let sdu = one.sdu.as_ref();
        let Some(verdict) = self.judge_on(from, lcid, account, one.how, sdu, octets)? else {
            return Ok(());
        };
        self.sent = self.sent && verdict.sent;
        self.shaped = self.shaped && verdict.shaped;
        Ok(())
    }

    /// The group has ended: with the next `line` record, the first `sum`, or the journal.
    /// `given.end_line` was called. Behind an `Err` nothing is known.
    pub fn end_line(&mut self, given: &JournalGiven) -> Result<(), NoMemory>
        ensures { OnOk result (self.new ≡ after_group accounts given.now self.old) }
    {
        if let Some(sdu) = self.submitted.take() {
            self.submit(sdu)?;
        }
        self.close(given)
    }

    fn close(&mut self, given: &JournalGiven) -> Result<(), NoMemory>
        ensures { OnOk result (self.new ≡ closed accounts given.now self.old) }
    {
        flows::close(&mut self.nb, &self.renewal, Side::Nb, given)?;
        flows::close(&mut self.ue, &self.renewal, Side::Ue, given)?;
        self.named_nb = Items::new(self.alloc);
        self.named_ue = Items::new(self.alloc);
        self.passed = None;
        self.submitted = None;
        if let Some(keys) = self.renewal {
            self.keys = keys;
        }
        self.renewal = None;
        Ok(())
    }
}
