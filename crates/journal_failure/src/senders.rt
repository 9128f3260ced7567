// The senders of a side, by logical channel.
ghost use Rattle.std.specs.Prelude.{◌≡◌};
ghost use Rattle.journal_failure.specs.Checking.{no_senders, changed_on, with_fail, with_data};
ghost use Rattle.journal_failure.specs.Checking.{with_bearer, all_right, all_ended, limit_at};

use crate::sender::Sender;
use arrayvec::ArrayVec;
use journal_flows::JournalFlows;
use l2_types::Side;

// Logical channels are 0 to 10.
const CHANNELS: usize = 11;

pub(crate) type Senders = ArrayVec<Sender, CHANNELS>;

pub(crate) fn no_senders() -> Senders
    ensures { result.items ≡ no_senders }
{
    let mut senders = ArrayVec::new();
    for _i in 0..CHANNELS {
        senders.push(Sender::new());
    }
    senders
}

// A `fail` record of a channel.
pub(crate) fn fail(senders: &mut Senders, lcid: u8, sn: u32)
    ensures { senders.new.items ≡ changed_on lcid (with_fail sn) senders.old.items }
{
    let at = lcid as usize;
    if at < senders.len() {
        senders[at] = senders[at].with_fail(sn);
    }
}

// A data PDU of a channel.
pub(crate) fn send(senders: &mut Senders, lcid: u8)
    ensures { senders.new.items ≡ changed_on lcid with_data senders.old.items }
{
    let at = lcid as usize;
    if at < senders.len() {
        senders[at] = senders[at].with_data();
    }
}

// A bearer on a channel.
pub(crate) fn begin(senders: &mut Senders, lcid: u8)
    ensures { senders.new.items ≡ changed_on lcid with_bearer senders.old.items }
{
    let at = lcid as usize;
    if at < senders.len() {
        senders[at] = senders[at].with_bearer();
    }
}

// The number at which the flow of a channel failed, once it has.
fn limit(flows: &JournalFlows, side: Side, lcid: u8) -> Option<u64>
    ensures { result ≡ limit_at side flows.now lcid }
{
    match flows.flow(side, lcid) {
        Some(flow) => flow.account().limit(),
        None => None,
    }
}

// The group ends: whether it is right on each channel.
#[tactic(auto, using(crate::proofs::Channels::walks))]
pub(crate) fn end(senders: &mut Senders, side: Side, hands_over: bool, flows: &JournalFlows) -> bool
    ensures right { result ≡ all_right (limit_at side flows.now) 0 senders.old.items }
    ensures ended { senders.new.items
        ≡ all_ended hands_over (limit_at side flows.now) 0 senders.old.items }
{
    let mut are_right = true;
    let mut at = 0;
    while at < senders.len() {
        let limit = limit(flows, side, at as u8);
        if limit.is_some() || !senders[at].is_at_rest() {
            let sender = senders[at];
            are_right = are_right & sender.is_right(limit);
            senders[at] = sender.with_end(hands_over, limit);
        }
        at += 1;
    }
    are_right
}
