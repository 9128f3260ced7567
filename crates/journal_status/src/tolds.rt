// How many ignored STATUS of a side's flows are told of, by logical channel.
ghost use Rattle.std.specs.Prelude.{◌≡◌, slice_set};
ghost use Rattle.journal_status.specs.StatusChecking.{none_told, may_tell, with_told, all_told};
ghost use Rattle.journal_status.specs.StatusChecking.{ignored_at};

use arrayvec::ArrayVec;
use journal_flows::JournalFlows;
use l2_types::Side;

// Logical channels are 0 to 10.
const CHANNELS: usize = 11;

const LAST_CHANNEL: u8 = 10;

pub(crate) type Tolds = ArrayVec<u64, CHANNELS>;

pub(crate) fn none_told() -> Tolds
    ensures { result.items ≡ none_told }
{
    let mut tolds = ArrayVec::new();
    for _i in 0..CHANNELS {
        tolds.push(0);
    }
    tolds
}

// A bearer begins on a channel.
pub(crate) fn begin(tolds: &mut Tolds, lcid: u8)
    ensures { tolds.new.items ≡ slice_set tolds.old.items lcid 0 }
{
    let at = lcid as usize;
    if at < tolds.len() {
        tolds[at] = 0;
    }
}

// A record tells of a STATUS more, where so many were ignored; whether it may.
pub(crate) fn tell(tolds: &mut Tolds, lcid: u8, ignored: u64) -> bool
    ensures may { result ≡ may_tell lcid ignored tolds.old.items }
    ensures told { tolds.new.items ≡ with_told lcid ignored tolds.old.items }
{
    let at = lcid as usize;
    let told = match tolds.as_slice().get(at) {
        Some(told) => *told,
        None => 0,
    };
    if told >= ignored {
        return false;
    }
    if at < tolds.len() {
        tolds[at] = told + 1;
    }
    lcid <= LAST_CHANNEL
}

// How many STATUS were ignored by the flow of a channel.
pub(crate) fn ignored(flows: &JournalFlows, side: Side, lcid: u8) -> u64
    ensures { result ≡ ignored_at side flows.now lcid }
{
    match flows.flow(side, lcid) {
        Some(flow) => flow.account().ignored(),
        None => 0,
    }
}

// Whether all that were ignored are told of, on each channel.
#[tactic(auto, using(crate::proofs::StatusChannels::walks))]
pub(crate) fn are_all(tolds: &Tolds, side: Side, flows: &JournalFlows) -> bool
    ensures { result ≡ all_told (ignored_at side flows.now) 0 tolds.now.items }
{
    let mut at = 0;
    while at < tolds.len() {
        if tolds[at] != ignored(flows, side, at as u8) {
            return false;
        }
        at += 1;
    }
    true
}
