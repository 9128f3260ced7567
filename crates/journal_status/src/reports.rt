// The STATUS PDUs that a new block carries.
ghost use Rattle.std.specs.Prelude.{◌≡◌, ◌+◌, ◌<◌, ◌&&◌, drop, length};
ghost use Rattle.bearer_types.specs.Sides.{other};
ghost use Rattle.journal_status.specs.StatusChecking.{is_true_report, all_true, are_true};

use bearer_types::other;
use journal_flows::{JournalFlows, Parcel};
use l2_bits::Items;
use l2_types::Side;

// Whether a PDU of a side, where it is a STATUS, is true of the flow that the other side sends.
fn is_true_report(flows: &JournalFlows, from: Side, parcel: &Parcel) -> bool
    ensures { result ≡ is_true_report flows.now.journal.flows from parcel.now }
{
    match parcel {
        Parcel::Octets { .. } | Parcel::Pieces { .. } => true,
        Parcel::Report { lcid, ack, entries } => match flows.flow(other(from), *lcid) {
            Some(flow) => flow.account().is_true_status(*ack, entries.as_slice()),
            None => false,
        },
    }
}

// Of PDUs, the one at a place.
#[tactic(auto, using(crate::proofs::StatusChannels::report_at))]
fn is_true_at(flows: &JournalFlows, from: Side, parcels: &Items<Parcel>, at: usize) -> bool
    requires { at < length parcels.now }
    ensures { all_true flows.now.journal.flows from (drop at parcels.now)
        ≡ (result && all_true flows.now.journal.flows from (drop (at + 1) parcels.now)) }
{
    match parcels.get(at) {
        Some(parcel) => is_true_report(flows, from, parcel),
        None => unreachable!(),
    }
}

#[tactic(auto, using(crate::proofs::StatusChannels::report_past))]
fn all_true(flows: &JournalFlows, from: Side, parcels: &Items<Parcel>) -> bool
    ensures { result ≡ all_true flows.now.journal.flows from parcels.now }
{
    let mut at = 0;
    while at < parcels.len() {
        if !is_true_at(flows, from, parcels, at) {
            return false;
        }
        at += 1;
    }
    true
}

// Whether each STATUS of the block that a side sent last is true.
pub(crate) fn are_true(flows: &JournalFlows, from: Side) -> bool
    ensures { result ≡ are_true flows.now from }
{
    match flows.sent_last(from) {
        Some(parcels) => all_true(flows, from, parcels),
        None => true,
    }
}
