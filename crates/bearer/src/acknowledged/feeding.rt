//! RLC takes what PDCP has, as long as the PDU that it is to write has room for more.

ghost use Rattle.std.specs.Prelude.{◌≡◌, ◌<◌, length, if◌then◌else◌, true, OnOk, IfOk};
ghost use Rattle.pdcp_tx.specs.State.{offers};
ghost use Rattle.bearer.specs.Acknowledged.State.{work};
ghost use Rattle.bearer.specs.Acknowledged.Taking.{feeds};

use bearer_pdcp::Pdcp;
use bearer_types::Events;
use l2_bits::NoMemory;
use rlc_am_tx::AmTx;

/// Feeds a sender for a PDU of at most so many octets.
pub(crate) fn feed(
    pdcp: &mut Pdcp,
    tx: &mut AmTx,
    size: u32,
    held: Option<u64>,
    events: &mut Events,
) -> Result<(), NoMemory>
    ensures { OnOk result (work pdcp.new tx.new.state events.new
        ≡ feeds (offers pdcp.old.tx) size held (work pdcp.old tx.old.state events.old)) }
{
    'feeding: while feed_one(pdcp, tx, size, held, events)? {}
    Ok(())
}

#[tactic(auto, using(crate::proofs::AmFeeds::steps))]
fn feed_one(
    pdcp: &mut Pdcp,
    tx: &mut AmTx,
    size: u32,
    held: Option<u64>,
    events: &mut Events,
) -> Result<bool, NoMemory>
    ensures goes { IfOk result
        (λ more. (if more then feeds (offers pdcp.new.tx) size held
        (work pdcp.new tx.new.state events.new) else work pdcp.new tx.new.state events.new)
        ≡ feeds (offers pdcp.old.tx) size held (work pdcp.old tx.old.state events.old)) }
    ensures fewer { IfOk result (λ more. more ≡ true
        → length (offers pdcp.new.tx) < length (offers pdcp.old.tx)) }
{
    if !tx.hungry(size, held) {
        return Ok(false);
    }
    let Some(pdu) = pdcp.take(events)? else {
        return Ok(false);
    };
    match tx.offer(pdu) {
        Ok(()) => Ok(true),
        Err((_pdu, no_memory)) => Err(no_memory),
    }
}
