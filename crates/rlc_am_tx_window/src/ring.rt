// What goes over the ring of a window. Beside the ring stand the numbers that wait, ascending.
ghost use Rattle.std.specs.Prelude.{◌≡◌, ◌++◌, ◌+◌, ◌*◌, ◌<◌, ◌≤◌, ◌^◌, OnOk, OnErr, IfSome, []};
ghost use Rattle.std.specs.Prelude.{◌∷◌, length, drop, slice_get, slice_set, None, Some, true};
ghost use Rattle.std.specs.Prelude.{false, if◌then◌else◌};
ghost use Rattle.circular_buffer.specs.Buffer.{buffer};
ghost use Rattle.rlc_pdu.specs.Views.{nacks_of};
ghost use Rattle.rlc_am_tx_window.specs.Ledger.{credited_all};
ghost use Rattle.rlc_am_tx_window.specs.Sent.{is_waiting, rested, sent_part, recalled, with_name};
ghost use Rattle.rlc_am_tx_window.specs.Sent.{considered, is_spent, acknowledged, gets_acked};
ghost use Rattle.rlc_am_tx_window.specs.Window.{slot_at, offset_of, waiting_from, leading_idle};
ghost use Rattle.rlc_am_tx_window.specs.Window.{waiting_in, last_open, named_one, named_all};
ghost use Rattle.rlc_am_tx_window.specs.Window.{is_named, acked_from, credited_one, credited_from};
ghost use Rattle.rlc_am_tx_window.specs.Window.{considered_one, considered_all, least, or_spent};
ghost use Rattle.rlc_am_tx_window.specs.Window.{spent_among, leading_acked};
ghost use Rattle.rlc_pdu.specs.declared.constants.TheConstants.{AM_WINDOW_SIZE};

use crate::ledger::Accounts;
use crate::numbers::Numbers;
use crate::slot::Slot;
use circular_buffer::HeapCircularBuffer;
use l2_bits::NoMemory;
use rlc_pdu::{AM_MODULUS, Nack, NackReader};

/// A ring of PDUs.
pub(crate) type Ring = HeapCircularBuffer<Slot>;

/// How far a sequence number of 10 bits lies above a number.
pub(crate) fn offset(base: u64, sn: u32) -> usize
    ensures value { result ≡ offset_of base sn }
    ensures below { result < AM_MODULUS }
{
    ((u64::from(sn) + AM_MODULUS - base % AM_MODULUS) % AM_MODULUS) as usize
}

/// Whether an entry has the number of a place.
pub fn is_named(base: u64, at: usize, nacks: NackReader<'_>) -> bool
    ensures { result ≡ is_named base at (nacks_of nacks.entry) }
{
    let mut rest = nacks;
    while let Some(nack) = rest.next() {
        if offset(base, nack.sn) == at {
            return true;
        }
    }
    false
}

/// How many octets wait to be resent.
pub(crate) fn waiting_octets(ring: &Ring) -> u64
    requires { length ring.now.items ≤ AM_WINDOW_SIZE }
    ensures value { result ≡ waiting_in ring.now.items }
    ensures below { result ≤ 2 ^ 32 }
{
    let mut total = 0;
    for slot in ring.iter() {
        total += u64::from(slot.waiting_octets());
    }
    total
}

/// The place of the greatest number that isn't acknowledged.
pub(crate) fn last_open(ring: &Ring) -> Option<usize>
    ensures value { result ≡ last_open 0 None ring.now.items }
    ensures within { IfSome result (λ at. at < length ring.now.items) }
{
    let mut found = None;
    let mut at = 0;
    while at < ring.len() {
        found = or_open(is_acked_at(ring, at), found, at);
        at += 1;
    }
    found
}

fn is_acked_at(ring: &Ring, at: usize) -> bool
    requires { at < length ring.now.items }
    ensures { result ≡ (slot_at ring.now.items at).acked }
{
    match ring.get(at) {
        Some(slot) => slot.is_acked(),
        None => false,
    }
}

fn or_open(acked: bool, found: Option<usize>, at: usize) -> Option<usize>
    ensures { result ≡ (if acked then found else Some at) }
{
    if acked { found } else { Some(at) }
}

#[tactic(auto, using(crate::proofs::RingSteps::fits))]
fn push(ring: &mut Ring, slot: Slot)
    requires { length ring.old.items < ring.old.capacity }
    ensures { ring.new ≡ buffer (ring.old.items ++ slot ∷ []) ring.old.capacity }
{
    let _ = ring.try_push_back(slot);
}

/// Adds a PDU of which no octet waits at the end.
#[tactic(auto, using(crate::proofs::WaitingSteps::pushes))]
pub(crate) fn add(ring: &mut Ring, waiting: &Numbers, base: u64, slot: Slot)
    requires room { length ring.old.items < ring.old.capacity }
    requires idle { is_waiting slot ≡ false }
    requires sync { waiting.now ≡ waiting_from base ring.old.items }
    ensures ring { ring.new ≡ buffer (ring.old.items ++ slot ∷ []) ring.old.capacity }
    ensures sync { waiting.now ≡ waiting_from base ring.new.items }
{
    push(ring, slot);
}

/// No octet of a number waits any longer.
#[tactic(auto, using(crate::proofs::WaitingSteps::sets))]
pub(crate) fn rest(ring: &mut Ring, waiting: &mut Numbers, base: u64, at: usize)
    requires there { at < length ring.old.items }
    requires below { base + length ring.old.items < 2 ^ 64 }
    requires sync { waiting.old ≡ waiting_from base ring.old.items }
    ensures capacity { ring.new.capacity ≡ ring.old.capacity }
    ensures sync { waiting.new ≡ waiting_from base ring.new.items }
    ensures items { ring.new.items
        ≡ slice_set ring.old.items at (rested (slot_at ring.old.items at)) }
{
    rest_at(ring, at);
    waiting.remove(base + at as u64);
}

fn rest_at(ring: &mut Ring, at: usize)
    requires { at < length ring.old.items }
    ensures capacity { ring.new.capacity ≡ ring.old.capacity }
    ensures items { ring.new.items
        ≡ slice_set ring.old.items at (rested (slot_at ring.old.items at)) }
{
    match ring.get_mut(at) {
        Some(slot) => slot.rest(),
        None => {}
    }
}

/// An expiry of the poll timer names all octets of a number, where nothing waits.
#[tactic(auto, using(crate::proofs::WaitingSteps::recalls))]
pub(crate) fn recall(ring: &mut Ring, waiting: &mut Numbers, base: u64, at: usize, most: u32)
    requires there { at < length ring.old.items }
    requires quiet { leading_idle ring.old.items ≡ length ring.old.items }
    requires below { base + length ring.old.items < 2 ^ 64 }
    requires sync { waiting.old ≡ waiting_from base ring.old.items }
    ensures capacity { ring.new.capacity ≡ ring.old.capacity }
    ensures sync { waiting.new ≡ waiting_from base ring.new.items }
    ensures items { ring.new.items
        ≡ slice_set ring.old.items at (recalled most (slot_at ring.old.items at)) }
{
    recall_at(ring, at, most);
    if is_waiting_at(ring, at) {
        waiting.begin(base + at as u64);
    }
}

fn recall_at(ring: &mut Ring, at: usize, most: u32)
    requires { at < length ring.old.items }
    ensures capacity { ring.new.capacity ≡ ring.old.capacity }
    ensures items { ring.new.items
        ≡ slice_set ring.old.items at (recalled most (slot_at ring.old.items at)) }
{
    match ring.get_mut(at) {
        Some(slot) => slot.recall(most),
        None => {}
    }
}

fn is_waiting_at(ring: &Ring, at: usize) -> bool
    requires { at < length ring.now.items }
    ensures { result ≡ is_waiting (slot_at ring.now.items at) }
{
    match ring.get(at) {
        Some(slot) => slot.is_waiting(),
        None => false,
    }
}

#[tactic(auto, using(crate::proofs::RingSteps::same))]
fn rest_part_at(ring: &mut Ring, at: usize, from: u32, to: u32) -> Result<(), NoMemory>
    requires there { at < length ring.old.items }
    requires some { from < to }
    requires within { to ≤ length (slot_at ring.old.items at).field }
    ensures capacity { ring.new.capacity ≡ ring.old.capacity }
    ensures items { OnOk result (ring.new.items
        ≡ slice_set ring.old.items at (sent_part (slot_at ring.old.items at) from to)) }
    ensures same { OnErr result (ring.new.items ≡ ring.old.items) }
{
    match ring.get_mut(at) {
        Some(slot) => slot.rest_part(from, to),
        None => unreachable!(),
    }
}

/// Octets of a segment of a number don't wait any longer.
#[tactic(auto, using(crate::proofs::WaitingSteps::parts))]
pub(crate) fn rest_part(
    ring: &mut Ring,
    waiting: &mut Numbers,
    base: u64,
    at: usize,
    from: u32,
    to: u32,
) -> Result<(), NoMemory>
    requires there { at < length ring.old.items }
    requires some { from < to }
    requires within { to ≤ length (slot_at ring.old.items at).field }
    requires waits { is_waiting (slot_at ring.old.items at) ≡ true }
    requires below { base + length ring.old.items < 2 ^ 64 }
    requires sync { waiting.old ≡ waiting_from base ring.old.items }
    ensures capacity { ring.new.capacity ≡ ring.old.capacity }
    ensures sync { waiting.new ≡ waiting_from base ring.new.items }
    ensures same { length ring.new.items ≡ length ring.old.items }
    ensures items { OnOk result (ring.new.items
        ≡ slice_set ring.old.items at (sent_part (slot_at ring.old.items at) from to)) }
{
    rest_part_at(ring, at, from, to)?;
    if !is_waiting_at(ring, at) {
        waiting.remove(base + at as u64);
    }
    Ok(())
}

#[tactic(auto, using(crate::proofs::RingSteps::same))]
fn name_at(ring: &mut Ring, at: usize, nack: Nack) -> Result<(), NoMemory>
    requires { at < length ring.old.items }
    ensures capacity { ring.new.capacity ≡ ring.old.capacity }
    ensures items { OnOk result (ring.new.items
        ≡ slice_set ring.old.items at (with_name (slot_at ring.old.items at) nack.part)) }
    ensures same { OnErr result (ring.new.items ≡ ring.old.items) }
{
    match ring.get_mut(at) {
        Some(slot) => slot.name(nack.part),
        None => unreachable!(),
    }
}

// Names what an entry names. The number joins those that wait before its octets do, since that can
// fail.
#[tactic(auto, using(crate::proofs::WaitingSteps::names))]
fn name_one(ring: &mut Ring, waiting: &mut Numbers, base: u64, nack: Nack) -> Result<(), NoMemory>
    requires below { base + length ring.old.items < 2 ^ 64 }
    requires sync { waiting.old ≡ waiting_from base ring.old.items }
    ensures capacity { ring.new.capacity ≡ ring.old.capacity }
    ensures sync { waiting.new ≡ waiting_from base ring.new.items }
    ensures same { length ring.new.items ≡ length ring.old.items }
    ensures items { OnOk result (ring.new.items ≡ named_one base ring.old.items nack) }
{
    let at = offset(base, nack.sn);
    if at >= ring.len() {
        return Ok(());
    }
    waiting.insert(base + at as u64)?;
    let named = name_at(ring, at, nack);
    if !is_waiting_at(ring, at) {
        waiting.remove(base + at as u64);
    }
    named
}

/// Names what the entries of a STATUS name.
pub(crate) fn name_all(
    ring: &mut Ring,
    waiting: &mut Numbers,
    base: u64,
    nacks: NackReader<'_>,
) -> Result<(), NoMemory>
    requires below { base + length ring.old.items < 2 ^ 64 }
    requires sync { waiting.old ≡ waiting_from base ring.old.items }
    ensures capacity { ring.new.capacity ≡ ring.old.capacity }
    ensures sync { waiting.new ≡ waiting_from base ring.new.items }
    ensures same { length ring.new.items ≡ length ring.old.items }
    ensures items { OnOk result (ring.new.items
        ≡ named_all base ring.old.items (nacks_of nacks.entry)) }
{
    let mut rest = nacks;
    while let Some(nack) = rest.next() {
        name_one(ring, waiting, base, nack)?;
    }
    Ok(())
}

fn gets_acked_at(ring: &Ring, at: usize) -> bool
    requires { at < length ring.now.items }
    ensures { result ≡ gets_acked (slot_at ring.now.items at) }
{
    match ring.get(at) {
        Some(slot) => slot.gets_acked(),
        None => false,
    }
}

fn credit_at(ring: &Ring, at: usize, accounts: &mut Accounts) -> Result<(), NoMemory>
    requires { at < length ring.now.items }
    ensures { OnOk result (accounts.new
        ≡ credited_all accounts.old (slot_at ring.now.items at).place
        (slot_at ring.now.items at).lens) }
{
    match ring.get(at) {
        Some(slot) => accounts.credit_all(slot.place(), slot.lens()),
        None => Ok(()),
    }
}

fn acknowledge_at(ring: &mut Ring, at: usize)
    requires there { at < length ring.old.items }
    requires gets_acked { gets_acked (slot_at ring.old.items at) ≡ true }
    ensures capacity { ring.new.capacity ≡ ring.old.capacity }
    ensures items { ring.new.items
        ≡ slice_set ring.old.items at (acknowledged (slot_at ring.old.items at)) }
{
    match ring.get_mut(at) {
        Some(slot) => slot.acknowledge(),
        None => {}
    }
}

// Acknowledges a number that the STATUS didn't name.
#[tactic(auto, using(crate::proofs::WaitingSteps::acks))]
fn acknowledge_one(
    ring: &mut Ring,
    waiting: &mut Numbers,
    base: u64,
    at: usize,
    accounts: &mut Accounts,
) -> Result<(), NoMemory>
    requires there { at < length ring.old.items }
    requires below { base + length ring.old.items < 2 ^ 64 }
    requires sync { waiting.old ≡ waiting_from base ring.old.items }
    ensures capacity { ring.new.capacity ≡ ring.old.capacity }
    ensures sync { waiting.new ≡ waiting_from base ring.new.items }
    ensures same { length ring.new.items ≡ length ring.old.items }
    ensures items { OnOk result (ring.new.items
        ≡ slice_set ring.old.items at (acknowledged (slot_at ring.old.items at))) }
    ensures accounts { OnOk result (accounts.new
        ≡ credited_one accounts.old (slot_at ring.old.items at)) }
{
    if !gets_acked_at(ring, at) {
        return Ok(());
    }
    credit_at(ring, at, accounts)?;
    if is_waiting_at(ring, at) {
        waiting.remove(base + at as u64);
    }
    acknowledge_at(ring, at);
    Ok(())
}

/// Acknowledges the numbers below a place that the STATUS didn't name.
#[tactic(auto, using(crate::proofs::RingSteps::acks))]
pub(crate) fn acknowledge(
    ring: &mut Ring,
    waiting: &mut Numbers,
    base: u64,
    below: usize,
    accounts: &mut Accounts,
) -> Result<(), NoMemory>
    requires below { base + length ring.old.items < 2 ^ 64 }
    requires sync { waiting.old ≡ waiting_from base ring.old.items }
    ensures capacity { ring.new.capacity ≡ ring.old.capacity }
    ensures sync { waiting.new ≡ waiting_from base ring.new.items }
    ensures same { length ring.new.items ≡ length ring.old.items }
    ensures items { OnOk result (ring.new.items ≡ acked_from 0 below ring.old.items) }
    ensures accounts { OnOk result (accounts.new
        ≡ credited_from accounts.old 0 below ring.old.items) }
{
    let mut at = 0;
    while at < ring.len() && at < below {
        acknowledge_one(ring, waiting, base, at, accounts)?;
        at += 1;
    }
    Ok(())
}

fn consider_at(ring: &mut Ring, at: usize, most: u32)
    requires { at < length ring.old.items }
    ensures capacity { ring.new.capacity ≡ ring.old.capacity }
    ensures items { ring.new.items
        ≡ slice_set ring.old.items at (considered most (slot_at ring.old.items at)) }
{
    match ring.get_mut(at) {
        Some(slot) => slot.consider(most),
        None => {}
    }
}

#[tactic(auto, using(crate::proofs::WaitingSteps::considers))]
fn consider_one(ring: &mut Ring, base: u64, nack: Nack, most: u32)
    ensures capacity { ring.new.capacity ≡ ring.old.capacity }
    ensures same { length ring.new.items ≡ length ring.old.items }
    ensures waits { waiting_from base ring.new.items ≡ waiting_from base ring.old.items }
    ensures items { ring.new.items ≡ considered_one base most ring.old.items nack }
{
    let at = offset(base, nack.sn);
    if at < ring.len() {
        consider_at(ring, at, most);
    }
}

/// Considers for retransmission what the entries of a STATUS named.
pub(crate) fn consider_all(ring: &mut Ring, base: u64, nacks: NackReader<'_>, most: u32)
    ensures capacity { ring.new.capacity ≡ ring.old.capacity }
    ensures same { length ring.new.items ≡ length ring.old.items }
    ensures waits { waiting_from base ring.new.items ≡ waiting_from base ring.old.items }
    ensures items { ring.new.items
        ≡ considered_all base most ring.old.items (nacks_of nacks.entry) }
{
    let mut rest = nacks;
    while let Some(nack) = rest.next() {
        consider_one(ring, base, nack, most);
    }
}

/// Whether RETX_COUNT of a number has reached a limit.
#[tactic(auto, using(crate::proofs::RingSteps::past))]
pub(crate) fn is_spent_at(ring: &Ring, at: usize, most: u32) -> bool
    ensures { result ≡ is_spent (slot_at ring.now.items at).retransmissions most }
{
    if at < ring.len() {
        is_spent_within(ring, at, most)
    } else {
        false
    }
}

fn is_spent_within(ring: &Ring, at: usize, most: u32) -> bool
    requires { at < length ring.now.items }
    ensures { result ≡ is_spent (slot_at ring.now.items at).retransmissions most }
{
    match ring.get(at) {
        Some(slot) => slot.is_spent(most),
        None => false,
    }
}

fn least(found: Option<usize>, at: usize) -> Option<usize>
    requires at { at < AM_MODULUS }
    requires found { IfSome found (λ k. k < AM_MODULUS) }
    ensures value { result ≡ least found at }
    ensures below { IfSome result (λ k. k < AM_MODULUS) }
{
    match found {
        Some(found) => Some(found.min(at)),
        None => Some(at),
    }
}

fn or_spent(ring: &Ring, base: u64, most: u32, found: Option<usize>, nack: Nack) -> Option<usize>
    requires { IfSome found (λ k. k < AM_MODULUS) }
    ensures value { result ≡ or_spent base most ring.now.items found nack }
    ensures below { IfSome result (λ k. k < AM_MODULUS) }
{
    let at = offset(base, nack.sn);
    if is_spent_at(ring, at, most) {
        least(found, at)
    } else {
        found
    }
}

/// The place of the least number named whose RETX_COUNT has reached the limit.
pub(crate) fn spent_among(ring: &Ring, base: u64, nacks: NackReader<'_>, most: u32) -> Option<usize>
    ensures value { result ≡ spent_among base most ring.now.items None (nacks_of nacks.entry) }
    ensures below { IfSome result (λ k. k < AM_MODULUS) }
{
    let mut found = None;
    let mut rest = nacks;
    while let Some(nack) = rest.next() {
        found = or_spent(ring, base, most, found, nack);
    }
    found
}

/// Moves to the first number that isn't acknowledged.
#[tactic(auto, using(crate::proofs::WaitingSteps::passes))]
pub(crate) fn advance(ring: &mut Ring, waiting: &mut Numbers, base: &mut u64)
    requires below { base.old + length ring.old.items < 2 ^ 64 }
    requires sync { waiting.old ≡ waiting_from base.old ring.old.items }
    ensures sum { base.new + length ring.new.items ≡ base.old + length ring.old.items }
    ensures capacity { ring.new.capacity ≡ ring.old.capacity }
    ensures fewer { length ring.new.items ≤ length ring.old.items }
    ensures sync { waiting.new ≡ waiting_from base.new ring.new.items }
    ensures base { base.new ≡ base.old + leading_acked ring.old.items }
    ensures items { ring.new.items ≡ drop (leading_acked ring.old.items) ring.old.items }
{
    while let Some(slot) = ring.front() {
        if !slot.is_acked() {
            break;
        }
        pass(ring, waiting, base);
    }
}

// The first number leaves the ring.
#[tactic(auto, using(crate::proofs::WaitingSteps::passes))]
fn pass(ring: &mut Ring, waiting: &mut Numbers, base: &mut u64)
    requires some { 0 < length ring.old.items }
    requires below { base.old + length ring.old.items < 2 ^ 64 }
    requires sync { waiting.old ≡ waiting_from base.old ring.old.items }
    ensures capacity { ring.new.capacity ≡ ring.old.capacity }
    ensures sync { waiting.new ≡ waiting_from base.new ring.new.items }
    ensures base { base.new ≡ base.old + 1 }
    ensures items { ring.new.items ≡ drop 1 ring.old.items }
{
    waiting.remove(*base);
    ring.pop_front();
    *base += 1;
}
