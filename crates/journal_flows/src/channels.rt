// The flows of a side that sends, by logical channel.
ghost use Rattle.std.specs.Prelude.{◌≡◌, None, OnOk, option_copied};
ghost use Rattle.std.specs.Prelude.{slice_index_or, slice_set};
ghost use Rattle.journal_account.specs.FlowEvents.{StatusHeard};
ghost use Rattle.journal_lives.specs.LifeEvents.{InLife};
ghost use Rattle.journal_um.specs.UmEvents.{PduArrived};
ghost use Rattle.journal_flows.specs.NumberedPdus.{Acked, Unacked};
ghost use Rattle.journal_flows.specs.UmPdus.{AtReceiver};
ghost use Rattle.journal_flows.specs.FlowKept.{event_of};
ghost use Rattle.journal_flows.specs.UmKept.{um_event_of};
ghost use Rattle.journal_flows.specs.Accounts.{slot_with, slot_ended};
ghost use Rattle.journal_flows.specs.Accounts.{no_channels, channel_with, channels_ended};
ghost use Rattle.journal_flows.specs.Accounts.{next_kept, front_kept, um_next_kept, um_place_kept};
ghost use Rattle.journal_flows.specs.Accounts.{unacked_in, first_joined, slot_taken, channel_taken};

use crate::account::Account;
use crate::flow::Happening;
use crate::um_ends::UmHappening;
use arrayvec::ArrayVec;
use journal_account::StatusEntry;
use journal_um::{JoinedSdu, Pieces};
use l2_bits::NoMemory;

// Logical channels are 0 to 10.
const CHANNELS: usize = 11;

pub(crate) type Channels = ArrayVec<Option<Account>, CHANNELS>;

pub(crate) fn no_channels() -> Channels
    ensures { result.items ≡ no_channels }
{
    let mut channels = ArrayVec::new();
    for _i in 0..CHANNELS {
        channels.push(None);
    }
    channels
}

// The account of a channel, if there is one.
pub(crate) fn account(channels: &Channels, lcid: u8) -> Option<&Account>
    ensures { option_copied result ≡ slice_index_or channels.now.items lcid None }
{
    match channels.as_slice().get(lcid as usize) {
        Some(Some(account)) => Some(account),
        _ => None,
    }
}

pub(crate) fn next(channels: &Channels, lcid: u8) -> u64
    ensures { result ≡ next_kept (slice_index_or channels.now.items lcid None) }
{
    match account(channels, lcid) {
        Some(Account::Am(flow)) => flow.next(),
        _ => 0,
    }
}

pub(crate) fn front(channels: &Channels, lcid: u8) -> u64
    ensures { result ≡ front_kept (slice_index_or channels.now.items lcid None) }
{
    match account(channels, lcid) {
        Some(Account::Am(flow)) => flow.front(),
        _ => 0,
    }
}

pub(crate) fn um_next(channels: &Channels, lcid: u8) -> u64
    ensures { result ≡ um_next_kept (slice_index_or channels.now.items lcid None) }
{
    match account(channels, lcid) {
        Some(Account::Um(ends)) => ends.next(),
        _ => 0,
    }
}

pub(crate) fn um_place(channels: &Channels, lcid: u8) -> u64
    ensures { result ≡ um_place_kept (slice_index_or channels.now.items lcid None) }
{
    match account(channels, lcid) {
        Some(Account::Um(ends)) => ends.place(),
        _ => 0,
    }
}

// A channel has this account, or none. `lcid` is 0 to 10.
pub(crate) fn set(channels: &mut Channels, lcid: u8, account: Option<Account>)
    ensures { channels.new.items ≡ slice_set channels.old.items lcid account }
{
    let at = lcid as usize;
    if at < channels.len() {
        channels[at] = account;
    }
}

fn change_slot(slot: &mut Option<Account>, what: Happening) -> Result<(), NoMemory>
    ensures { OnOk result (slot.new ≡ slot_with (Acked (event_of what)) slot.old) }
{
    match slot.take() {
        Some(Account::Am(flow)) => *slot = Some(Account::Am(flow.with(what)?)),
        other => *slot = other,
    }
    Ok(())
}

fn hear_slot(slot: &mut Option<Account>, ack: u64, entries: &[StatusEntry]) -> Result<(), NoMemory>
    ensures { OnOk result (slot.new
        ≡ slot_with (Acked (InLife (StatusHeard ack entries.now))) slot.old) }
{
    match slot.take() {
        Some(Account::Am(flow)) => *slot = Some(Account::Am(flow.with_status(ack, entries)?)),
        other => *slot = other,
    }
    Ok(())
}

fn um_change_slot(slot: &mut Option<Account>, what: UmHappening) -> Result<(), NoMemory>
    ensures { OnOk result (slot.new ≡ slot_with (Unacked (um_event_of what)) slot.old) }
{
    match slot {
        Some(Account::Um(ends)) => ends.change(what),
        _ => Ok(()),
    }
}

fn arrive_slot(slot: &mut Option<Account>, number: u64, pieces: Pieces) -> Result<(), NoMemory>
    ensures { OnOk result (slot.new
        ≡ slot_with (Unacked (AtReceiver (PduArrived number pieces))) slot.old) }
{
    match slot {
        Some(Account::Um(ends)) => ends.arrive(number, pieces),
        _ => Ok(()),
    }
}

fn end_slot(slot: &mut Option<Account>) -> Result<(), NoMemory>
    ensures { OnOk result (slot.new ≡ slot_ended slot.old) }
{
    match slot.take() {
        Some(Account::Am(flow)) => {
            *slot = Some(Account::Am(flow.with(Happening::LifeEnded)?));
        }
        Some(Account::Um(mut ends)) => {
            ends.change(UmHappening::LifeEnded)?;
            *slot = Some(Account::Um(ends));
        }
        None => {}
    }
    Ok(())
}

fn take_slot(slot: &mut Option<Account>) -> Option<JoinedSdu>
    ensures value { result ≡ first_joined (unacked_in slot.old) }
    ensures rest { slot.new ≡ slot_taken slot.old }
{
    match slot {
        Some(Account::Um(ends)) => ends.next_joined(),
        _ => None,
    }
}

pub(crate) fn change(channels: &mut Channels, lcid: u8, what: Happening) -> Result<(), NoMemory>
    ensures { OnOk result
        (channels.new.items ≡ channel_with lcid (Acked (event_of what)) channels.old.items) }
{
    let at = lcid as usize;
    if at >= channels.len() {
        return Ok(());
    }
    change_slot(&mut channels[at], what)
}

// A STATUS comes to the sender.
pub(crate) fn hear(
    channels: &mut Channels,
    lcid: u8,
    ack: u64,
    entries: &[StatusEntry],
) -> Result<(), NoMemory>
    ensures { OnOk result (channels.new.items
        ≡ channel_with lcid (Acked (InLife (StatusHeard ack entries.now))) channels.old.items) }
{
    let at = lcid as usize;
    if at >= channels.len() {
        return Ok(());
    }
    hear_slot(&mut channels[at], ack, entries)
}

pub(crate) fn um_change(
    channels: &mut Channels,
    lcid: u8,
    what: UmHappening,
) -> Result<(), NoMemory>
    ensures { OnOk result
        (channels.new.items ≡ channel_with lcid (Unacked (um_event_of what)) channels.old.items) }
{
    let at = lcid as usize;
    if at >= channels.len() {
        return Ok(());
    }
    um_change_slot(&mut channels[at], what)
}

// A PDU comes to an unacknowledged receiver.
pub(crate) fn arrive(
    channels: &mut Channels,
    lcid: u8,
    number: u64,
    pieces: Pieces,
) -> Result<(), NoMemory>
    ensures { OnOk result (channels.new.items
        ≡ channel_with lcid (Unacked (AtReceiver (PduArrived number pieces))) channels.old.items) }
{
    let at = lcid as usize;
    if at >= channels.len() {
        return Ok(());
    }
    arrive_slot(&mut channels[at], number, pieces)
}

// Takes the next SDU that goes up of an unacknowledged flow.
pub(crate) fn next_joined(channels: &mut Channels, lcid: u8) -> Option<JoinedSdu>
    ensures value { result
        ≡ first_joined (unacked_in (slice_index_or channels.old.items lcid None)) }
    ensures rest { channels.new.items ≡ channel_taken lcid channels.old.items }
{
    let at = lcid as usize;
    if at >= channels.len() {
        return None;
    }
    take_slot(&mut channels[at])
}

// A life of each flow ends.
#[tactic(auto, using(crate::proofs::Places::ends))]
pub(crate) fn end_lives(channels: &mut Channels) -> Result<(), NoMemory>
    ensures { OnOk result (channels.new.items ≡ channels_ended channels.old.items) }
{
    let mut at = 0;
    while at < channels.len() {
        end_slot(&mut channels[at])?;
        at += 1;
    }
    Ok(())
}
