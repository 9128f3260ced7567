// The bearers of acknowledged data, by logical channel.
ghost use Rattle.std.specs.Prelude.{◌≡◌, OnOk, IfOk, option_copied, slice_set};
ghost use Rattle.bearer_types.specs.Sides.{other};
ghost use Rattle.journal_takes.specs.TakeEvents.{SduSubmitted, SduDiscarded};
ghost use Rattle.journal_given.specs.Supplies.{accounts, told, takes_pdu, takes_report};
ghost use Rattle.journal_given.specs.Giving.{no_bearers, bearer_at, changed_on, take_right};
ghost use Rattle.journal_given.specs.Giving.{discard_right};
ghost use Rattle.journal_given.specs.Giving.{report_right, each_from, landed_on, ended_on};

use crate::bearer::Bearer;
use arrayvec::ArrayVec;
use bearer_types::other;
use journal_flows::JournalFlows;
use l2_bits::{Bytes, NoMemory};
use l2_types::Side;

// Logical channels are 0 to 10.
const CHANNELS: usize = 11;

pub(crate) type Bearers = ArrayVec<Option<Bearer>, CHANNELS>;

pub(crate) fn no_bearers() -> Bearers
    ensures { result.items ≡ no_bearers }
{
    let mut bearers = ArrayVec::new();
    for _i in 0..CHANNELS {
        bearers.push(None);
    }
    bearers
}

// The bearer of a channel, if there is one.
pub(crate) fn get(bearers: &Bearers, lcid: u8) -> Option<&Bearer>
    ensures { option_copied result ≡ bearer_at lcid bearers.now.items }
{
    match bearers.as_slice().get(lcid as usize) {
        Some(Some(bearer)) => Some(bearer),
        _ => None,
    }
}

// A channel has this bearer, or none. `lcid` is 0 to 10.
pub(crate) fn set(bearers: &mut Bearers, lcid: u8, bearer: Option<Bearer>)
    ensures { bearers.new.items ≡ slice_set bearers.old.items lcid bearer }
{
    let at = lcid as usize;
    if at < bearers.len() {
        bearers[at] = bearer;
    }
}

// An SDU is submitted on a channel.
pub(crate) fn submit(
    bearers: &mut Bearers,
    side: Side,
    lcid: u8,
    sdu: Bytes,
) -> Result<(), NoMemory>
    ensures { OnOk result (bearers.new.items
        ≡ changed_on side lcid (told accounts (SduSubmitted sdu)) bearers.old.items) }
{
    let at = lcid as usize;
    if at >= bearers.len() {
        return Ok(());
    }
    match &mut bearers[at] {
        Some(bearer) => bearer.submit(side, sdu),
        None => Ok(()),
    }
}

// The first SDU that waits on a channel is discarded; whether there is one.
pub(crate) fn discard(bearers: &mut Bearers, side: Side, lcid: u8) -> bool
    ensures value { result ≡ discard_right accounts side (bearer_at lcid bearers.old.items) }
    ensures new { bearers.new.items
        ≡ changed_on side lcid (told accounts SduDiscarded) bearers.old.items }
{
    let at = lcid as usize;
    if at >= bearers.len() {
        return true;
    }
    match &mut bearers[at] {
        Some(bearer) => bearer.discard(side),
        None => true,
    }
}

// A `take` record of a channel; whether it is right.
pub(crate) fn take(
    bearers: &mut Bearers,
    side: Side,
    lcid: u8,
    count: Option<u32>,
    len: u32,
) -> Result<bool, NoMemory>
    ensures value { IfOk result (λ right. right
        ≡ take_right accounts side count len (bearer_at lcid bearers.old.items)) }
    ensures new { OnOk result (bearers.new.items
        ≡ changed_on side lcid (takes_pdu accounts count len) bearers.old.items) }
{
    let at = lcid as usize;
    if at >= bearers.len() {
        return Ok(true);
    }
    match &mut bearers[at] {
        Some(bearer) => bearer.take(side, count, len),
        None => Ok(true),
    }
}

// A `report` record of a channel; whether it is right.
pub(crate) fn report(
    bearers: &mut Bearers,
    side: Side,
    lcid: u8,
    fms: u32,
    bitmap: &[u8],
) -> Result<bool, NoMemory>
    ensures value { IfOk result (λ right. right
        ≡ report_right accounts side fms bitmap.now (bearer_at lcid bearers.old.items)) }
    ensures new { OnOk result (bearers.new.items
        ≡ changed_on side lcid (takes_report accounts fms bitmap.now) bearers.old.items) }
{
    let at = lcid as usize;
    if at >= bearers.len() {
        return Ok(true);
    }
    match &mut bearers[at] {
        Some(bearer) => bearer.report(side, fms, bitmap),
        None => Ok(true),
    }
}

fn land_on(
    slot: &mut Option<Bearer>,
    from: Side,
    flows: &JournalFlows,
    lcid: u8,
) -> Result<(), NoMemory>
    ensures { OnOk result (slot.new ≡ landed_on accounts from flows.now lcid slot.old) }
{
    let Some(bearer) = slot else {
        return Ok(());
    };
    let (own, back) = (flows.flow(from, lcid), flows.flow(other(from), lcid));
    bearer.land(from, flows.carries_status(from, lcid), own, back)
}

// A block of a side is got.
#[tactic(auto, using(crate::proofs::Channels::walks))]
pub(crate) fn land(bearers: &mut Bearers, from: Side, flows: &JournalFlows) -> Result<(), NoMemory>
    ensures { OnOk result (bearers.new.items
        ≡ each_from (landed_on accounts from flows.now) 0 bearers.old.items) }
{
    let mut at = 0;
    while at < bearers.len() {
        land_on(&mut bearers[at], from, flows, at as u8)?;
        at += 1;
    }
    Ok(())
}

fn end_on(slot: &mut Option<Bearer>, flows: &JournalFlows, lcid: u8) -> Result<(), NoMemory>
    ensures { OnOk result (slot.new ≡ ended_on accounts flows.now lcid slot.old) }
{
    let Some(bearer) = slot else {
        return Ok(());
    };
    bearer.end_lives(flows.flow(Side::Nb, lcid), flows.flow(Side::Ue, lcid))
}

// A handover, with the flows behind it.
#[tactic(auto, using(crate::proofs::Channels::walks))]
pub(crate) fn end_lives(bearers: &mut Bearers, flows: &JournalFlows) -> Result<(), NoMemory>
    ensures { OnOk result
        (bearers.new.items ≡ each_from (ended_on accounts flows.now) 0 bearers.old.items) }
{
    let mut at = 0;
    while at < bearers.len() {
        end_on(&mut bearers[at], flows, at as u8)?;
        at += 1;
    }
    Ok(())
}
