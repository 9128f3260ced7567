// The unacknowledged flows of a side that sends, by logical channel.
ghost use Rattle.std.specs.Prelude.{◌≡◌, None, OnOk};
ghost use Rattle.std.specs.Prelude.{slice_index_or, slice_set};
ghost use Rattle.journal_edge.specs.EdgeFlow.{flow_all_read};
ghost use Rattle.journal_edge.specs.EdgeChecking.{octets_at, all_taken, no_flows, slot_read};
ghost use Rattle.journal_edge.specs.EdgeChecking.{left_by, slots_read, slots_leave, slot_up};
ghost use Rattle.journal_edge.specs.EdgeChecking.{slots_up, slot_right, slots_right, slot_closed};
ghost use Rattle.journal_edge.specs.EdgeChecking.{slots_closed};

use crate::flow::EdgeFlow;
use arrayvec::ArrayVec;
use eps_sec::Keys;
use journal_flows::JournalFlows;
use l2_bits::NoMemory;
use l2_types::Side;

// Logical channels are 0 to 10.
const CHANNELS: usize = 11;

pub(crate) type Channels = ArrayVec<Option<EdgeFlow>, CHANNELS>;

pub(crate) fn no_flows() -> Channels
    ensures { result.items ≡ no_flows }
{
    let mut channels = ArrayVec::new();
    for _i in 0..CHANNELS {
        channels.push(None);
    }
    channels
}

// A channel has this flow, or none.
pub(crate) fn set(channels: &mut Channels, lcid: u8, flow: Option<EdgeFlow>)
    ensures { channels.new.items ≡ slice_set channels.old.items lcid flow }
{
    let at = lcid as usize;
    if at < channels.len() {
        channels[at] = flow;
    }
}

// PDCP reads all SDUs that a flow hands up.
#[tactic(auto, using(crate::proofs::Taking::takes))]
fn read_all(
    flow: &mut EdgeFlow,
    from: Side,
    lcid: u8,
    flows: &mut JournalFlows,
) -> Result<(), NoMemory>
    ensures flow { OnOk result
        (flow.new ≡ flow_all_read (octets_at from lcid flows.old) flow.old) }
    ensures flows { OnOk result (flows.new ≡ all_taken from lcid flows.old) }
{
    while let Some(sdu) = flows.next_joined(from, lcid) {
        flow.read(sdu.octets.as_slice())?;
    }
    Ok(())
}

fn read_slot(
    slot: &mut Option<EdgeFlow>,
    from: Side,
    lcid: u8,
    flows: &mut JournalFlows,
) -> Result<(), NoMemory>
    ensures slot { OnOk result (slot.new ≡ slot_read from lcid flows.old slot.old) }
    ensures flows { OnOk result (flows.new ≡ left_by from lcid flows.old slot.old) }
{
    match slot {
        Some(flow) => read_all(flow, from, lcid, flows),
        None => Ok(()),
    }
}

// PDCP reads all SDUs that the flows hand up.
#[tactic(auto, using(crate::proofs::Walks::reads))]
pub(crate) fn read_slots(
    channels: &mut Channels,
    from: Side,
    flows: &mut JournalFlows,
) -> Result<(), NoMemory>
    ensures channels { OnOk result
        (channels.new.items ≡ slots_read from 0 flows.old channels.old.items) }
    ensures flows { OnOk result (flows.new ≡ slots_leave from 0 flows.old channels.old.items) }
{
    let mut at = 0;
    while at < channels.len() {
        read_slot(&mut channels[at], from, at as u8, flows)?;
        at += 1;
    }
    Ok(())
}

// An SDU goes up, behind those that are read.
fn up_slot(
    slot: &mut Option<EdgeFlow>,
    from: Side,
    lcid: u8,
    sdu: &[u8],
    flows: &mut JournalFlows,
) -> Result<(), NoMemory>
    ensures slot { OnOk result
        (slot.new ≡ slot_up sdu.now (slot_read from lcid flows.old slot.old)) }
    ensures flows { OnOk result (flows.new ≡ left_by from lcid flows.old slot.old) }
{
    match slot {
        Some(flow) => {
            read_all(flow, from, lcid, flows)?;
            flow.go_up(sdu)
        }
        None => Ok(()),
    }
}

// An SDU goes up on a channel.
pub(crate) fn go_up(
    channels: &mut Channels,
    from: Side,
    lcid: u8,
    sdu: &[u8],
    flows: &mut JournalFlows,
) -> Result<(), NoMemory>
    ensures channels { OnOk result
        (channels.new.items ≡ slots_up from lcid sdu.now flows.old channels.old.items) }
    ensures flows { OnOk result (flows.new
        ≡ left_by from lcid flows.old (slice_index_or channels.old.items lcid None)) }
{
    let at = lcid as usize;
    if at >= channels.len() {
        return Ok(());
    }
    up_slot(&mut channels[at], from, lcid, sdu, flows)
}

fn is_right(slot: &Option<EdgeFlow>) -> bool
    ensures { result ≡ slot_right slot.now }
{
    match slot {
        Some(flow) => flow.is_right(),
        None => true,
    }
}

// Whether the group was right on each channel.
pub(crate) fn are_right(channels: &Channels) -> bool
    ensures { result ≡ slots_right channels.now.items }
{
    for slot in channels.as_slice() {
        if !is_right(slot) {
            return false;
        }
    }
    true
}

fn close_slot(slot: &mut Option<EdgeFlow>, renewal: &Option<Keys>)
    ensures { slot.new ≡ slot_closed renewal.now slot.old }
{
    if let Some(flow) = slot {
        flow.end_group();
        if let Some(keys) = renewal {
            flow.renew(keys);
        }
    }
}

// The group has ended; where it was of a handover, the next life has other keys.
#[tactic(auto, using(crate::proofs::Walks::closes))]
pub(crate) fn close(channels: &mut Channels, renewal: &Option<Keys>)
    ensures { channels.new.items ≡ slots_closed renewal.now channels.old.items }
{
    let mut at = 0;
    while at < channels.len() {
        close_slot(&mut channels[at], renewal);
        at += 1;
    }
}
