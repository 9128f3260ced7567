// The SDUs that a side sends, by logical channel.
ghost use Rattle.std.specs.Prelude.{◌≡◌, OnOk, option_map, slice_set};
ghost use Rattle.journal_delivered.specs.DeliveryChecking.{no_channels, changed_on, with_told};
ghost use Rattle.journal_delivered.specs.DeliveryChecking.{with_end, ended_on, is_right_on};
ghost use Rattle.journal_delivered.specs.DeliveryChecking.{all_right, came_at};

use crate::awaited_sdus::{AwaitedSdus, SduTold};
use arrayvec::ArrayVec;
use journal_flows::JournalFlows;
use l2_bits::NoMemory;
use l2_types::Side;

// Logical channels are 0 to 10.
const CHANNELS: usize = 11;

pub(crate) type Channels = ArrayVec<Option<AwaitedSdus>, CHANNELS>;

pub(crate) fn no_channels() -> Channels
    ensures { result.items ≡ no_channels }
{
    let mut channels = ArrayVec::new();
    for _i in 0..CHANNELS {
        channels.push(None);
    }
    channels
}

// A channel has a bearer with acknowledged data, or none.
pub(crate) fn set(channels: &mut Channels, lcid: u8, sdus: Option<AwaitedSdus>)
    ensures { channels.new.items ≡ slice_set channels.old.items lcid sdus }
{
    let at = lcid as usize;
    if at < channels.len() {
        channels[at] = sdus;
    }
}

fn tell_slot(slot: &mut Option<AwaitedSdus>, what: SduTold<'_>) -> Result<(), NoMemory>
    ensures { OnOk result (slot.new ≡ option_map (with_told what.entry) slot.old) }
{
    match slot {
        Some(sdus) => sdus.tell(what),
        None => Ok(()),
    }
}

// Something is told of the SDUs of a channel.
pub(crate) fn tell(channels: &mut Channels, lcid: u8, what: SduTold<'_>) -> Result<(), NoMemory>
    ensures { OnOk result
        (channels.new.items ≡ changed_on lcid (with_told what.entry) channels.old.items) }
{
    let at = lcid as usize;
    if at >= channels.len() {
        return Ok(());
    }
    tell_slot(&mut channels[at], what)
}

// The first COUNT of a flow that hasn't come.
fn came(flows: &JournalFlows, side: Side, lcid: u8) -> u64
    ensures { result ≡ came_at side flows.now lcid }
{
    match flows.flow(side, lcid) {
        Some(flow) => flow.next_count(),
        None => 0,
    }
}

fn end_slot(slot: &mut Option<AwaitedSdus>, side: Side, lcid: u8, flows: &JournalFlows)
    ensures { slot.new ≡ option_map (with_end (came_at side flows.now lcid)) slot.old }
{
    if let Some(sdus) = slot {
        sdus.end(came(flows, side, lcid));
    }
}

// The group ends.
#[tactic(auto, using(crate::proofs::Channels::ends))]
pub(crate) fn end(channels: &mut Channels, side: Side, flows: &JournalFlows)
    ensures { channels.new.items ≡ ended_on side flows.now channels.old.items }
{
    let mut at = 0;
    while at < channels.len() {
        end_slot(&mut channels[at], side, at as u8, flows);
        at += 1;
    }
}

fn is_right_on(slot: &Option<AwaitedSdus>) -> bool
    ensures { result ≡ is_right_on slot.now }
{
    match slot {
        Some(sdus) => sdus.is_right(),
        None => true,
    }
}

// Whether the group is right on each channel.
pub(crate) fn are_right(channels: &Channels) -> bool
    ensures { result ≡ all_right channels.now.items }
{
    for slot in channels.as_slice() {
        if !is_right_on(slot) {
            return false;
        }
    }
    true
}
