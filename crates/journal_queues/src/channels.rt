// The queues of a side, by logical channel.
ghost use Rattle.std.specs.Prelude.{◌≡◌, OnOk, map};
ghost use Rattle.journal_queues.specs.Leaving.{queue_told, queue_given, begun_as, handed_over};
ghost use Rattle.journal_queues.specs.QueueChecking.{no_channels, changed_on, all_right};

use crate::leaving::Queue;
use arrayvec::ArrayVec;
use l2_bits::NoMemory;
use l2_types::Kind;
use std::alloc::Global;

// Logical channels are 0 to 10.
const CHANNELS: usize = 11;

pub(crate) type Channels = ArrayVec<Queue, CHANNELS>;

pub(crate) fn no_channels(alloc: Global) -> Channels
    ensures { result.items ≡ no_channels }
{
    let mut channels = ArrayVec::new();
    for _i in 0..CHANNELS {
        channels.push(Queue::new(alloc));
    }
    channels
}

// An SDU is told of as it leaves the queue of a channel.
pub(crate) fn tell(channels: &mut Channels, lcid: u8, len: u64) -> Result<(), NoMemory>
    ensures { OnOk result
        (channels.new.items ≡ changed_on lcid (queue_told len) channels.old.items) }
{
    let at = lcid as usize;
    if at >= channels.len() {
        return Ok(());
    }
    channels[at].tell(len)
}

// An SDU is submitted on a channel.
pub(crate) fn submit(channels: &mut Channels, lcid: u8, len: u64) -> Result<(), NoMemory>
    ensures { OnOk result
        (channels.new.items ≡ changed_on lcid (queue_given len) channels.old.items) }
{
    let at = lcid as usize;
    if at >= channels.len() {
        return Ok(());
    }
    channels[at].submit(len)
}

// A bearer begins on a channel.
pub(crate) fn begin(channels: &mut Channels, lcid: u8, kind: Kind)
    ensures { channels.new.items ≡ changed_on lcid (begun_as kind) channels.old.items }
{
    let at = lcid as usize;
    if at < channels.len() {
        channels[at].begin(kind);
    }
}

// Another life begins.
#[tactic(auto, using(crate::proofs::Walks::walks))]
pub(crate) fn hand_over(channels: &mut Channels, alloc: Global)
    ensures { channels.new.items ≡ map handed_over channels.old.items }
{
    let mut at = 0;
    while at < channels.len() {
        channels[at].hand_over(alloc);
        at += 1;
    }
}

// Whether the queue of each channel is right.
pub(crate) fn are_right(channels: &Channels) -> bool
    ensures { result ≡ all_right channels.now.items }
{
    for queue in channels.as_slice() {
        if !queue.is_right() {
            return false;
        }
    }
    true
}
