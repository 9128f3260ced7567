// What a side sends, by logical channel.
ghost use Rattle.std.specs.Prelude.{◌≡◌, ◌<◌, OnOk, IfOk, length, option_copied};
ghost use Rattle.std.specs.Prelude.{option_map, slice_set};
ghost use Rattle.l2_bits.specs.declared.limits.TheConstants.{OCTETS_LIMIT};
ghost use Rattle.journal_given.specs.Giving.{each_from};
ghost use Rattle.journal_sent.specs.SentPdus.{accounts};
ghost use Rattle.journal_sent.specs.SentFlows.{flow_submitted, discard_right, flow_discarded};
ghost use Rattle.journal_sent.specs.SentFlows.{take_right, flow_taken, flow_reported, acked_by};
ghost use Rattle.journal_sent.specs.Judging.{verdict_of, behind};
ghost use Rattle.journal_sent.specs.Sending.{no_flows, flow_at, changed_on, right_in};
ghost use Rattle.journal_sent.specs.Sending.{gives_reports, flow_closed};

use crate::flow::Flow;
use crate::verdict::Verdict;
use arrayvec::ArrayVec;
use eps_sec::Keys;
use journal_flows::JournalFlows;
use journal_given::JournalGiven;
use journal_lives::FlowLives;
use l2_bits::{Bytes, NoMemory};
use l2_types::{How, Side};

// Logical channels are 0 to 10.
const CHANNELS: usize = 11;

pub(crate) type Flows = ArrayVec<Option<Flow>, CHANNELS>;

pub(crate) fn no_flows() -> Flows
    ensures { result.items ≡ no_flows }
{
    let mut flows = ArrayVec::new();
    for _i in 0..CHANNELS {
        flows.push(None);
    }
    flows
}

// The flow of a channel, if there is one.
pub(crate) fn get(flows: &Flows, lcid: u8) -> Option<&Flow>
    ensures { option_copied result ≡ flow_at lcid flows.now.items }
{
    match flows.as_slice().get(lcid as usize) {
        Some(Some(flow)) => Some(flow),
        _ => None,
    }
}

// A channel has this flow. `lcid` is 0 to 10.
pub(crate) fn set(flows: &mut Flows, lcid: u8, flow: Option<Flow>)
    ensures { flows.new.items ≡ slice_set flows.old.items lcid flow }
{
    let at = lcid as usize;
    if at < flows.len() {
        flows[at] = flow;
    }
}

// An SDU is submitted on a channel.
pub(crate) fn submit(flows: &mut Flows, lcid: u8, sdu: Bytes) -> Result<(), NoMemory>
    ensures { OnOk result
        (flows.new.items ≡ changed_on lcid (flow_submitted sdu) flows.old.items) }
{
    let at = lcid as usize;
    if at >= flows.len() {
        return Ok(());
    }
    match &mut flows[at] {
        Some(flow) => flow.submit(sdu),
        None => Ok(()),
    }
}

// The same, of which a copy is made where it waits.
pub(crate) fn submit_copy(flows: &mut Flows, lcid: u8, sdu: &[u8]) -> Result<(), NoMemory>
    ensures { OnOk result
        (flows.new.items ≡ changed_on lcid (flow_submitted sdu.now) flows.old.items) }
{
    let at = lcid as usize;
    if at >= flows.len() {
        return Ok(());
    }
    match &mut flows[at] {
        Some(flow) => flow.submit_copy(sdu),
        None => Ok(()),
    }
}

// The first SDU that waits on a channel is discarded; whether that is right.
pub(crate) fn discard(flows: &mut Flows, lcid: u8) -> bool
    ensures right { result ≡ right_in discard_right (flow_at lcid flows.old.items) }
    ensures new { flows.new.items ≡ changed_on lcid flow_discarded flows.old.items }
{
    let at = lcid as usize;
    if at >= flows.len() {
        return true;
    }
    match &mut flows[at] {
        Some(flow) => flow.discard(),
        None => true,
    }
}

// A `take` record of a channel, of acknowledged data with the SDU of its COUNT; whether it is
// right.
pub(crate) fn take(
    flows: &mut Flows,
    lcid: u8,
    count: Option<u32>,
    len: u32,
    sdu: Option<&Bytes>,
) -> Result<bool, NoMemory>
    ensures value { IfOk result (λ right. right
        ≡ right_in (take_right count len (option_copied sdu.entry))
        (flow_at lcid flows.old.items)) }
    ensures new { OnOk result (flows.new.items
        ≡ changed_on lcid (flow_taken accounts count len (option_copied sdu.entry))
        flows.old.items) }
{
    let at = lcid as usize;
    if at >= flows.len() {
        return Ok(true);
    }
    match &mut flows[at] {
        Some(flow) => flow.take(count, len, sdu),
        None => Ok(true),
    }
}

// Whether reports are given on a channel, unless there is no bearer.
pub(crate) fn gives_reports(flows: &Flows, lcid: u8) -> bool
    ensures { result ≡ gives_reports (flow_at lcid flows.now.items) }
{
    match get(flows, lcid) {
        Some(flow) => flow.is_data(),
        None => true,
    }
}

// A `report` record of a channel.
pub(crate) fn report(flows: &mut Flows, lcid: u8, fms: u32, bitmap: &[u8]) -> Result<(), NoMemory>
    ensures { OnOk result (flows.new.items
        ≡ changed_on lcid (flow_reported accounts fms bitmap.now) flows.old.items) }
{
    let at = lcid as usize;
    if at >= flows.len() {
        return Ok(());
    }
    match &mut flows[at] {
        Some(flow) => flow.report(fms, bitmap),
        None => Ok(()),
    }
}

// A PDU of a new block on a channel; `None` where there is no bearer.
pub(crate) fn judge(
    flows: &mut Flows,
    lcid: u8,
    account: Option<&FlowLives>,
    how: How,
    passed: Option<&Bytes>,
    octets: &[u8],
) -> Result<Option<Verdict>, NoMemory>
    requires { length octets.now < OCTETS_LIMIT }
    ensures verdict { IfOk result (λ v. v ≡ option_map
        (verdict_of (acked_by (option_copied account.entry)) how (option_copied passed.entry)
        octets.now) (flow_at lcid flows.old.items)) }
    ensures new { OnOk result (flows.new.items ≡ changed_on lcid
        (behind (acked_by (option_copied account.entry)) how (option_copied passed.entry)
        octets.now) flows.old.items) }
{
    let at = lcid as usize;
    if at >= flows.len() {
        return Ok(None);
    }
    match &mut flows[at] {
        Some(flow) => Ok(Some(flow.judge(account, how, passed, octets)?)),
        None => Ok(None),
    }
}

fn close_on(
    slot: &mut Option<Flow>,
    renewal: &Option<Keys>,
    side: Side,
    given: &JournalGiven,
    lcid: u8,
) -> Result<(), NoMemory>
    ensures { OnOk result
        (slot.new ≡ flow_closed accounts renewal.now side given.now lcid slot.old) }
{
    match slot {
        Some(flow) => flow.close(renewal, given.flows().flow(side, lcid)),
        None => Ok(()),
    }
}

// The group has ended.
#[tactic(auto, using(journal_given::proofs::Channels::walks))]
pub(crate) fn close(
    flows: &mut Flows,
    renewal: &Option<Keys>,
    side: Side,
    given: &JournalGiven,
) -> Result<(), NoMemory>
    ensures { OnOk result (flows.new.items
        ≡ each_from (flow_closed accounts renewal.now side given.now) 0 flows.old.items) }
{
    let mut at = 0;
    while at < flows.len() {
        close_on(&mut flows[at], renewal, side, given, at as u8)?;
        at += 1;
    }
    Ok(())
}
