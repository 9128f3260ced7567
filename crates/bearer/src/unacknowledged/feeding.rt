//! RLC takes what PDCP has, as long as the PDU that it is to write has room for more.

ghost use Rattle.std.specs.Prelude.{◌≡◌, ◌<◌, length, if◌then◌else◌, true, OnOk, IfOk};
ghost use Rattle.pdcp_tx.specs.State.{offers};
ghost use Rattle.bearer.specs.Unacknowledged.Taking.{feeds};

use bearer_pdcp::Pdcp;
use bearer_types::Events;
use l2_bits::NoMemory;
use rlc_um::UmTx;

/// Feeds a sender for a PDU of at most so many octets.
pub(crate) fn feed(
    pdcp: &mut Pdcp,
    tx: &mut UmTx,
    size: u32,
    held: Option<u64>,
    events: &mut Events,
) -> Result<(), NoMemory>
    ensures pdcp { OnOk result
        (pdcp.new
        ≡ (feeds (offers pdcp.old.tx) size held
        (record { pdcp = pdcp.old; tx = tx.old.state; events = events.old })).pdcp) }
    ensures tx { OnOk result (tx.new.state
        ≡ (feeds (offers pdcp.old.tx) size held
        (record { pdcp = pdcp.old; tx = tx.old.state; events = events.old })).tx) }
    ensures told { OnOk result
        (events.new
        ≡ (feeds (offers pdcp.old.tx) size held
        (record { pdcp = pdcp.old; tx = tx.old.state; events = events.old })).events) }
{
    'feeding: while feed_one(pdcp, tx, size, held, events)? {}
    Ok(())
}

#[tactic(auto, using(crate::proofs::UmFeeds::steps))]
fn feed_one(
    pdcp: &mut Pdcp,
    tx: &mut UmTx,
    size: u32,
    held: Option<u64>,
    events: &mut Events,
) -> Result<bool, NoMemory>
    ensures goes { IfOk result
        (λ more. (if more then feeds (offers pdcp.new.tx) size held
        (record { pdcp = pdcp.new; tx = tx.new.state; events = events.new })
        else record { pdcp = pdcp.new; tx = tx.new.state; events = events.new })
        ≡ feeds (offers pdcp.old.tx) size held
        (record { pdcp = pdcp.old; tx = tx.old.state; events = events.old })) }
    ensures fewer { IfOk result (λ more. more ≡ true
        → length (offers pdcp.new.tx) < length (offers pdcp.old.tx)) }
{
    if !tx.hungry(size, held) {
        return Ok(false);
    }
    let Some(pdu) = pdcp.take(events)? else {
        return Ok(false);
    };
    match tx.offer(pdu) {
        Ok(()) => Ok(true),
        Err((_pdu, no_memory)) => Err(no_memory),
    }
}
