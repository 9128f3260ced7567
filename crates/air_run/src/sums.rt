// The records at the end.
ghost use Rattle.std.specs.Prelude.{◌≡◌, ◌++◌, OnOk, IfOk};
ghost use Rattle.air_record.specs.Text.{texts_of};
ghost use Rattle.air_run.specs.Sums.{state_of, sum_of, sums_of, all_sums, finishing};
ghost use Rattle.bearer_types.specs.Sides.{sent_by};

use crate::journal::Journal;
use crate::rules::is_known;
use air_link::{ALL_LCIDS, Link, Sums};
use air_text::{Record, State, append_record};
use l2_bits::{Bytes, NoMemory};
use l2_node::sent_by;
use l2_types::Side;
use std::alloc::Global;

/// The text of the records at the end: the sums of both directions of each bearer, downlink first.
#[tactic(auto, unfolding(crate::specs::Sums::finishing))]
pub(crate) fn text_of_sums(alloc: Global, link: &Link, journal: &Journal) -> Result<Bytes, NoMemory>
    ensures { IfOk result (λ text. text ≡ texts_of (finishing link.now journal.now.losses)) }
{
    let mut text = Bytes::new(alloc);
    append_all(link, journal, &ALL_LCIDS, &mut text)?;
    Ok(text)
}

#[tactic(auto, using(crate::proofs::Telling::texts_both))]
fn append_all(
    link: &Link,
    journal: &Journal,
    lcids: &[u8],
    text: &mut Bytes,
) -> Result<(), NoMemory>
    ensures { OnOk result (text.new ≡ text.old
        ++ texts_of (all_sums link.now journal.now.losses lcids.now)) }
{
    for lcid in lcids {
        append_both(link, journal, *lcid, text)?;
    }
    Ok(())
}

// The sums of both directions of a bearer, if there is one.
fn append_both(link: &Link, journal: &Journal, lcid: u8, text: &mut Bytes) -> Result<(), NoMemory>
    ensures { OnOk result (text.new ≡ text.old
        ++ texts_of (sums_of link.now journal.now.losses lcid)) }
{
    if is_known(lcid, link) {
        append_record(text, &sum(link, journal, Side::Nb, lcid))?;
        append_record(text, &sum(link, journal, Side::Ue, lcid))?;
    }
    Ok(())
}

// The sum of the flow that a side sends.
fn sum(link: &Link, journal: &Journal, side: Side, lcid: u8) -> Record
    ensures { result ≡ sum_of side link.now journal.now.losses lcid }
{
    let Sums {
        submitted,
        delivered,
        failed,
    } = link.sums(side, lcid);
    let direction = sent_by(side);
    Record::Sum {
        direction,
        lcid,
        submitted,
        delivered,
        state: state_of(journal.is_long(direction, lcid), failed),
    }
}

fn state_of(long: Option<bool>, failed: bool) -> State
    ensures { result ≡ state_of long failed }
{
    match long {
        Some(true) => State::Long,
        Some(false) => State::Short,
        None if failed => State::Failed,
        None => State::Ok,
    }
}
