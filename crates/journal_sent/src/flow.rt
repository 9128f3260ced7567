// One direction of a bearer at its sender.
ghost use Rattle.std.specs.Prelude.{◌≡◌, ◌≤◌, ◌<◌, Some, IfOk, OnOk, length, option_copied};
ghost use Rattle.l2_bits.specs.declared.limits.TheConstants.{OCTETS_LIMIT};
ghost use Rattle.l2_types.specs.declared.limits.TheConstants.{GREATEST_SDU};
ghost use Rattle.rlc_pdu.specs.declared.constants.TheConstants.{AM_MODULUS};
ghost use Rattle.rlc_pdu.specs.Pdus.{IsUmBits};
ghost use Rattle.rlc_pdu.specs.Reading.{am_at, umd_at};
ghost use Rattle.rlc_pdu.specs.Views.{elements_of, amd_of};
ghost use Rattle.bearer_types.specs.Configs.{AreRlcBits, ArePdcpBits};
ghost use Rattle.pdu_show.specs.Kinds.{layout_of};
ghost use Rattle.journal_given.specs.Supplies.{is_short};
ghost use Rattle.journal_sent.specs.LayoutBits.{HasBits};
ghost use Rattle.journal_sent.specs.SentPdus.{accounts};
ghost use Rattle.journal_sent.specs.SentFlows.{cover_of, with_covered, is_sdu, is_data};
ghost use Rattle.journal_sent.specs.SentFlows.{is_count, is_first, is_sdu_in, is_passed};
ghost use Rattle.journal_sent.specs.SentFlows.{acked_by, all_right};
ghost use Rattle.journal_sent.specs.Sending.{bearer_begun};

use crate::cover::Cover;
use crate::marks::{joined, marks_in};
use crate::stream::Stream;
use crate::verdict::Verdict;
use bearer_types::BearerConfig;
use eps_sec::Keys;
use journal_lives::FlowLives;
use l2_bits::{Bytes, NoMemory, Packets};
use l2_types::{GREATEST_SDU, How, Kind, Side};
use pdcp_pdu::{PdcpKind, write_long_report, write_report};
use pdu_show::Layout;
use rlc_pdu::{AM_MODULUS, AmPdu, Amd, Elements, read_am, read_umd};
use std::alloc::Global;
use std::marker::Model;

fn layout_of(kind: Kind, rlc_bits: u32, pdcp_bits: u32) -> Layout
    requires rlc { AreRlcBits kind rlc_bits }
    requires pdcp { ArePdcpBits kind pdcp_bits }
    ensures layout { result ≡ layout_of kind rlc_bits pdcp_bits }
    ensures bits { HasBits result }
{
    match kind {
        Kind::Tm => Layout::Tm,
        Kind::Srb => Layout::Am {
            pdcp: PdcpKind::Srb,
        },
        Kind::Um => Layout::Um {
            rlc_bits,
            pdcp: PdcpKind::Um { bits: pdcp_bits },
        },
        Kind::Am => Layout::Am {
            pdcp: PdcpKind::Am { bits: pdcp_bits },
        },
    }
}

fn cover_of(layout: Layout, side: Side, lcid: u8, keys: &Keys) -> Option<Cover>
    requires bits { HasBits layout }
    requires lcid { lcid ≤ 10 }
    ensures { result ≡ cover_of layout side lcid keys.now }
{
    match layout {
        Layout::Tm => None,
        Layout::Um { pdcp, .. } => Some(Cover::new(pdcp, side, lcid, keys)),
        Layout::Am { pdcp } => Some(Cover::new(pdcp, side, lcid, keys)),
    }
}

// Whether a bearer is of acknowledged data.
fn is_data(layout: Layout) -> bool
    ensures { result ≡ is_data layout }
{
    matches!(
        layout,
        Layout::Am {
            pdcp: PdcpKind::Am { .. }
        }
    )
}

fn is_sdu(sdu: &[u8]) -> bool
    ensures { result ≡ is_sdu sdu.now }
{
    sdu.len() >= 1 && sdu.len() <= GREATEST_SDU
}

fn is_sdu_in(sdu: Option<&Bytes>) -> bool
    ensures { result ≡ is_sdu_in (option_copied sdu.entry) }
{
    match sdu {
        Some(sdu) => is_sdu(sdu.as_slice()),
        None => true,
    }
}

// Whether a COUNT is that of the next SDU of a life.
fn is_count(cover: &Option<Cover>, given: u64, count: Option<u32>) -> bool
    ensures { result ≡ is_count cover.now given count }
{
    match (cover, count) {
        (None, None) => true,
        (Some(_), Some(count)) => u64::from(count) == given,
        _ => false,
    }
}

fn is_short(bitmap: &[u8]) -> bool
    ensures { result ≡ is_short bitmap.now }
{
    bitmap.is_empty() || bitmap[bitmap.len() - 1] != 0
}

fn is_passed(passed: Option<&Bytes>, octets: &[u8]) -> bool
    ensures { result ≡ is_passed (option_copied passed.entry) octets.now }
{
    match passed {
        Some(sdu) => sdu.as_slice() == octets,
        None => false,
    }
}

fn is_acked(account: Option<&FlowLives>, number: u64) -> bool
    ensures { result ≡ acked_by (option_copied account.entry) number }
{
    match account {
        Some(flow) => flow.account().is_acked(number),
        None => false,
    }
}

fn all_right() -> Verdict
    ensures { result ≡ all_right }
{
    Verdict {
        sent: true,
        shaped: true,
    }
}

#[derive(Drop)]
pub(crate) struct Flow {
    alloc: Global,
    layout: Layout,
    cover: Option<Cover>,
    waiting: Packets,
    given: u64,
    floor: u64,
    stream: Stream,
}

impl Model for Flow {
    ghost use Rattle.journal_stream.specs.SentOctets.{SentOctets};
    ghost use Rattle.journal_sent.specs.LayoutBits.{HasBits};
    ghost use Rattle.journal_sent.specs.SentFlows.{SentFlow};

    ghost Value = { SentFlow SentOctets };

    ghost view = { λ f. record {
      layout = f.layout;
      cover = f.cover;
      waiting = f.waiting;
      given = f.given;
      floor = f.floor;
      stream = f.stream;
    } };

    ghost invariant = { λ f. HasBits f.layout };
}

// A bearer begins: what a side sends on it. `lcid` is 0 to 10.
pub(crate) fn begun(alloc: Global, config: &BearerConfig, side: Side, keys: &Keys) -> Flow
    requires lcid { config.now.channel.lcid ≤ 10 }
    requires rlc { AreRlcBits config.now.kind config.now.rlc_bits }
    requires pdcp { ArePdcpBits config.now.kind config.now.pdcp_bits }
    ensures { Some result ≡ bearer_begun accounts side keys.now config.now }
{
    let layout = layout_of(config.kind, config.rlc_bits, config.pdcp_bits);
    Flow {
        alloc,
        layout,
        cover: cover_of(layout, side, config.channel.lcid, keys),
        waiting: Packets::new(alloc),
        given: 0,
        floor: 0,
        stream: Stream::new(alloc),
    }
}

// Behind an `Err` nothing is known.
impl Flow {
    ghost use Rattle.std.specs.Prelude.{true};
    ghost use Rattle.journal_sent.specs.SentFlows.{flow_submitted, discard_right, flow_discarded};
    ghost use Rattle.journal_sent.specs.SentFlows.{gives_first, gives_data, take_right, flow_taken};
    ghost use Rattle.journal_sent.specs.SentFlows.{passed_by, flow_reported, judges_new};
    ghost use Rattle.journal_sent.specs.SentFlows.{judges_umd, is_open_in, judges_again};
    ghost use Rattle.journal_sent.specs.SentFlows.{judges_amd, flow_judges};
    ghost use Rattle.journal_sent.specs.SentFlows.{flow_renewed, flow_settled, floored};
    ghost use Rattle.journal_sent.specs.Sending.{renewed_by};

    // Whether it is of acknowledged data.
    pub(crate) fn is_data(&self) -> bool
        ensures { result ≡ is_data self.now.layout }
    {
        is_data(self.layout)
    }

    // An SDU is submitted.
    pub(crate) fn submit(&mut self, sdu: Bytes) -> Result<(), NoMemory>
        ensures { OnOk result (self.new ≡ flow_submitted sdu self.old) }
    {
        if is_data(self.layout) {
            return Ok(());
        }
        self.waiting.push(sdu)
    }

    // The same, of which a copy is made where it waits.
    pub(crate) fn submit_copy(&mut self, sdu: &[u8]) -> Result<(), NoMemory>
        ensures { OnOk result (self.new ≡ flow_submitted sdu.now self.old) }
    {
        if is_data(self.layout) {
            return Ok(());
        }
        self.waiting.push(Bytes::from_slice(self.alloc, sdu)?)
    }

    // The first SDU that waits is discarded; whether that is right.
    pub(crate) fn discard(&mut self) -> bool
        ensures right { result ≡ discard_right self.old }
        ensures new { self.new ≡ flow_discarded self.old }
    {
        let had = self.waiting.pop_front().is_some();
        is_data(self.layout) || had
    }

    // RLC is given PDCP's PDU of an SDU, if there is one.
    fn give(&mut self, count: u32, sdu: &[u8]) -> Result<(), NoMemory>
        requires some { 1 ≤ length sdu.now }
        requires few { length sdu.now ≤ GREATEST_SDU }
        ensures { OnOk result (self.new ≡ record self.old {
          stream = with_covered accounts self.old.cover count sdu.now self.old.stream;
        }) }
    {
        let Some(cover) = &self.cover else {
            return Ok(());
        };
        let pdu = cover.write(self.alloc, count, sdu)?;
        self.stream.give(self.alloc, pdu.as_slice())
    }

    fn is_first(&self, count: Option<u32>, len: u32) -> bool
        ensures { result ≡ is_first count len self.now.waiting self.now }
    {
        let Some(sdu) = self.waiting.get(0) else {
            return false;
        };
        let sdu = sdu.as_slice();
        is_sdu(sdu) && sdu.len() == len as usize && is_count(&self.cover, self.given, count)
    }

    // RLC takes the first SDU that waits.
    fn take_first(&mut self, count: Option<u32>, len: u32) -> Result<(), NoMemory>
        requires { is_first count len self.old.waiting self.old ≡ true }
        ensures { OnOk result (self.new ≡ gives_first accounts self.old.waiting self.old) }
    {
        let Some(sdu) = self.waiting.pop_front() else {
            unreachable!();
        };
        self.give(count.unwrap_or(0), sdu.as_slice())?;
        self.given = self.given.checked_add(1).ok_or(NoMemory)?;
        Ok(())
    }

    // RLC takes acknowledged data.
    fn take_data(&mut self, count: Option<u32>, sdu: Option<&Bytes>) -> Result<(), NoMemory>
        ensures { OnOk result
            (self.new ≡ gives_data accounts count (option_copied sdu.entry) self.old) }
    {
        let (Some(count), Some(sdu)) = (count, sdu) else {
            return Ok(());
        };
        if !is_sdu(sdu.as_slice()) {
            return Ok(());
        }
        self.give(count, sdu.as_slice())
    }

    // A `take` record, of acknowledged data with the SDU of its COUNT; whether it is right.
    pub(crate) fn take(
        &mut self,
        count: Option<u32>,
        len: u32,
        sdu: Option<&Bytes>,
    ) -> Result<bool, NoMemory>
        ensures value { IfOk result
            (λ right. right ≡ take_right count len (option_copied sdu.entry) self.old) }
        ensures new { OnOk result
            (self.new ≡ flow_taken accounts count len (option_copied sdu.entry) self.old) }
    {
        if is_data(self.layout) {
            self.take_data(count, sdu)?;
            return Ok(is_sdu_in(sdu));
        }
        if !self.is_first(count, len) {
            return Ok(false);
        }
        self.take_first(count, len)?;
        Ok(true)
    }

    // The SDU that a `take` record passes on, where the bearer is transparent.
    pub(crate) fn passed(&self) -> Result<Option<Bytes>, NoMemory>
        ensures { IfOk result (λ sdu. sdu ≡ passed_by self.now) }
    {
        if self.cover.is_some() {
            return Ok(None);
        }
        match self.waiting.get(0) {
            Some(sdu) => Ok(Some(Bytes::from_slice(self.alloc, sdu.as_slice())?)),
            None => Ok(None),
        }
    }

    // A `report` record.
    pub(crate) fn report(&mut self, fms: u32, bitmap: &[u8]) -> Result<(), NoMemory>
        ensures { OnOk result (self.new ≡ flow_reported accounts fms bitmap.now self.old) }
    {
        let Layout::Am {
            pdcp: PdcpKind::Am { bits },
        } = self.layout
        else {
            return Ok(());
        };
        if u64::from(fms) >= 1 << bits || !is_short(bitmap) {
            return Ok(());
        }
        let pdu = if bits == 12 {
            write_report(self.alloc, fms, bitmap)?
        } else {
            write_long_report(self.alloc, fms, bitmap)?
        };
        self.stream.give(self.alloc, pdu.as_slice())
    }

    // A new PDU, with these elements, which have at most so many octets.
    fn write(
        &mut self,
        modulus: u64,
        sn: u32,
        fi: u8,
        plain: bool,
        elements: Elements<'_>,
        most: usize,
    ) -> Result<Verdict, NoMemory>
        requires { 0 < modulus }
        ensures { IfOk result (λ v. record { verdict = v; flow = self.new }
            ≡ judges_new accounts modulus sn fi plain (elements_of elements.entry) self.old) }
    {
        let field = joined(self.alloc, elements, most)?;
        let marks = marks_in(self.alloc, fi, elements, most)?;
        self.stream.write(modulus, sn, plain, field, marks)
    }

    fn judge_umd(&mut self, rlc_bits: u32, how: How, octets: &[u8]) -> Result<Verdict, NoMemory>
        requires bits { IsUmBits rlc_bits }
        requires short { length octets.now < OCTETS_LIMIT }
        ensures { IfOk result (λ v. record { verdict = v; flow = self.new }
            ≡ judges_umd accounts rlc_bits how (umd_at rlc_bits octets.now) self.old) }
    {
        match (how, read_umd(rlc_bits, octets)) {
            (How::New, Ok(umd)) => {
                let modulus = 1 << rlc_bits;
                self.write(modulus, umd.sn, umd.fi, true, umd.elements, octets.len())
            }
            _ => Ok(all_right()),
        }
    }

    // Whether octets of a number may be sent again, by the account of the flow.
    fn is_open(&self, account: Option<&FlowLives>, number: u64) -> bool
        ensures { result
            ≡ is_open_in self.now.floor (acked_by (option_copied account.entry)) number }
    {
        number >= self.floor && !is_acked(account, number)
    }

    // A PDU that is sent again, of at most so many octets.
    fn judge_again(
        &self,
        account: Option<&FlowLives>,
        amd: Amd<'_>,
        most: usize,
    ) -> Result<Verdict, NoMemory>
        requires { amd.sn < AM_MODULUS }
        ensures { IfOk result (λ v. record { verdict = v; flow = self.now }
            ≡ judges_again accounts (acked_by (option_copied account.entry)) (amd_of amd.entry)
            self.now) }
    {
        let field = joined(self.alloc, amd.elements, most)?;
        let marks = marks_in(self.alloc, amd.fi, amd.elements, most)?;
        let number = self.stream.last_with(amd.sn)?;
        let is_open = self.is_open(account, number);
        let (field, marks) = (field.as_slice(), marks.as_slice());
        self.stream
            .judge(number, is_open, amd.sn, amd.segment, field, marks)
    }

    fn judge_amd(
        &mut self,
        account: Option<&FlowLives>,
        how: How,
        octets: &[u8],
    ) -> Result<Verdict, NoMemory>
        requires { length octets.now < OCTETS_LIMIT }
        ensures { IfOk result (λ v. record { verdict = v; flow = self.new }
            ≡ judges_amd accounts (acked_by (option_copied account.entry)) how (am_at octets.now)
            self.old) }
    {
        let (most, read) = (octets.len(), read_am(octets));
        match (how, read) {
            (How::New, Ok(AmPdu::Payload(amd))) => {
                let plain = amd.segment.is_none();
                self.write(AM_MODULUS, amd.sn, amd.fi, plain, amd.elements, most)
            }
            (How::Re, Ok(AmPdu::Payload(amd))) => self.judge_again(account, amd, most),
            _ => Ok(all_right()),
        }
    }

    // A PDU of a new block that its `send` record names so, by the account of the flow; `passed`:
    // the SDU of the `take` just before that.
    pub(crate) fn judge(
        &mut self,
        account: Option<&FlowLives>,
        how: How,
        passed: Option<&Bytes>,
        octets: &[u8],
    ) -> Result<Verdict, NoMemory>
        requires { length octets.now < OCTETS_LIMIT }
        ensures { IfOk result (λ v. record { verdict = v; flow = self.new }
            ≡ flow_judges accounts (acked_by (option_copied account.entry)) how
            (option_copied passed.entry) octets.now self.old) }
    {
        match self.layout {
            Layout::Tm => Ok(Verdict {
                sent: is_passed(passed, octets),
                shaped: true,
            }),
            Layout::Um { rlc_bits, .. } => self.judge_umd(rlc_bits, how, octets),
            Layout::Am { .. } => self.judge_amd(account, how, octets),
        }
    }

    // The next life begins, under other keys.
    fn renew(&mut self, keys: &Keys)
        ensures { self.new ≡ flow_renewed accounts keys.now self.old }
    {
        if let Some(cover) = &mut self.cover {
            cover.renew(keys);
        }
        if !matches!(self.layout, Layout::Um { .. }) {
            self.waiting = Packets::new(self.alloc);
        }
        self.given = 0;
        self.floor = 0;
        self.stream = Stream::new(self.alloc);
    }

    fn forget(&mut self, number: u64) -> Result<(), NoMemory>
        ensures { OnOk result (self.new ≡ floored accounts number self.old) }
    {
        self.floor = number;
        self.stream.forget(number)
    }

    // The fields of the numbers that aren't sent again are forgotten, by the account of the flow.
    fn settle(&mut self, account: Option<&FlowLives>) -> Result<(), NoMemory>
        ensures { OnOk result
            (self.new ≡ flow_settled accounts (option_copied account.entry) self.old) }
    {
        match (self.layout, account) {
            (Layout::Um { .. }, _) => {
                let next = self.stream.next()?;
                self.forget(next)
            }
            (Layout::Am { .. }, Some(flow)) => self.forget(flow.account().base()),
            _ => Ok(()),
        }
    }

    // The group has ended; where it was of a handover, the next life has other keys.
    pub(crate) fn close(
        &mut self,
        renewal: &Option<Keys>,
        account: Option<&FlowLives>,
    ) -> Result<(), NoMemory>
        ensures { OnOk result (self.new ≡ flow_settled accounts (option_copied account.entry)
            (renewed_by accounts renewal.now self.old)) }
    {
        if let Some(keys) = renewal {
            self.renew(keys);
        }
        self.settle(account)
    }
}
