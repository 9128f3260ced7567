ghost use Rattle.std.specs.Prelude.{◌≡◌, [], ◌∷◌, ◌++◌, ◌+◌, ◌-◌, ◌*◌, ◌%◌, ◌<◌, ◌≤◌, ◌^◌, length};
ghost use Rattle.std.specs.Prelude.{drop, take, OnOk, IfOk, min, max, is_some, Some, None};
ghost use Rattle.circular_buffer.specs.Buffer.{buffer};
ghost use Rattle.rlc_pdu.specs.declared.constants.TheConstants.{UM_LONG_WINDOW_SIZE};
ghost use Rattle.rlc_um.specs.Joined.{with_number, with_numbers};
ghost use Rattle.rlc_um.specs.Window.{Window, top_of, number_of, leading, slot_at, grown, passed};
ghost use Rattle.rlc_um.specs.Window.{fallen, placed, with_placed};

use crate::joiner::Joiner;
use crate::stored::Stored;
use circular_buffer::HeapCircularBuffer;
use l2_bits::{NoMemory, make_room};
use l2_num::ahead;
use std::alloc::Global;
use std::marker::Model;

// From this number on the window takes nothing more.
const LIMIT: u64 = 1 << 63;

/// What is kept of each number from VR(UR) below VR(UH).
#[derive(Debug, Drop)]
pub struct Slots {
    width: usize,
    ring: HeapCircularBuffer<Option<Stored>>,
    edge: u64,
}

impl Model for Slots {
    ghost use Rattle.std.specs.Prelude.{◌≡◌, ◌<◌, ◌≤◌, ◌+◌, ◌*◌, ◌^◌, length};
    ghost use Rattle.rlc_um.specs.Window.{Window};
    ghost use Rattle.rlc_pdu.specs.declared.constants.TheConstants.{UM_LONG_WINDOW_SIZE};

    ghost Value = { Window };

    ghost view = { λ w. record { width = w.width; edge = w.edge; slots = w.ring.items } };

    ghost invariant = { λ w. (0 < w.width) × (w.width ≤ UM_LONG_WINDOW_SIZE)
        × (length w.ring.items ≤ w.width)
        × (w.edge + length w.ring.items ≤ 2 ^ 63 + 2 * UM_LONG_WINDOW_SIZE) };
}

impl Slots {
    /// No number is received yet. Memory for them is taken as they come.
    pub fn new(alloc: Global, width: usize) -> Result<Slots, NoMemory>
        requires low { 0 < width }
        requires high { width ≤ UM_LONG_WINDOW_SIZE }
        ensures { IfOk result (λ w. w ≡ record { width = width; edge = 2 * width; slots = [] }) }
    {
        let ring = HeapCircularBuffer::with_capacity(alloc, 0)?;
        Ok(Slots {
            width,
            ring,
            edge: 2 * width as u64,
        })
    }

    /// VR(UR).
    pub fn edge(&self) -> u64
        ensures value { result ≡ self.now.edge }
        ensures below { result ≤ 2 ^ 63 + 2 * UM_LONG_WINDOW_SIZE }
    {
        self.edge
    }

    /// VR(UH).
    pub fn top(&self) -> u64
        ensures value { result ≡ top_of self.now }
        ensures below { result ≤ 2 ^ 63 + 2 * UM_LONG_WINDOW_SIZE }
    {
        self.edge + self.ring.len() as u64
    }

    /// How many numbers lie from VR(UR) below VR(UH).
    pub fn len(&self) -> usize
        ensures { result ≡ length self.now.slots }
    {
        self.ring.len()
    }

    /// The number that a sequence number stands for.
    pub fn number(&self, sn: u32) -> u64
        requires { sn < 2 * self.now.width }
        ensures value { result ≡ number_of self.now sn }
    {
        let size = 2 * self.width as u64;
        let low = self.top().saturating_sub(self.width as u64);
        low + u64::from(ahead(sn, (low % size) as u32, size as u32))
    }

    /// Whether the number at a place above VR(UR) was received.
    #[tactic(auto, using(crate::proofs::Steps::slot_past))]
    pub fn is_kept(&self, at: usize) -> bool
        ensures { result ≡ is_some (slot_at self.now.slots at) }
    {
        if at < self.ring.len() {
            is_there(&self.ring, at)
        } else {
            false
        }
    }

    /// How many received numbers stand first.
    pub fn leading(&self) -> usize
        ensures { result ≡ leading self.now.slots }
    {
        count_leading(&self.ring)
    }

    /// How many numbers fall out below the window as one comes at a place.
    pub fn fallen(&self, at: usize) -> usize
        ensures value { result ≡ fallen self.now at }
        ensures within { result ≤ at }
        ensures inside { at < result + self.now.width }
    {
        (at - (at.min(self.width - 1))).min(at)
    }

    /// Passes so many numbers, and joins their elements.
    pub fn pass(&mut self, count: usize, joiner: &mut Joiner) -> Result<(), NoMemory>
        ensures window { OnOk result (self.new ≡ passed count self.old) }
        ensures width { self.new.width ≡ self.old.width }
        ensures joined { OnOk result
            (joiner.new ≡ with_numbers (take count self.old.slots) joiner.old) }
    {
        let count = count.min(self.ring.len());
        pass_on(&mut self.ring, &mut self.edge, count, joiner)
    }

    /// Keeps a PDU at a place.
    pub fn place(&mut self, at: usize, stored: Stored) -> Result<(), NoMemory>
        requires { at < self.old.width }
        ensures window { OnOk result (self.new ≡ with_placed at stored self.old) }
        ensures width { self.new.width ≡ self.old.width }
    {
        if self.edge >= LIMIT {
            return Err(NoMemory);
        }
        make_room(&mut self.ring, at + 1)?;
        grow(&mut self.ring, at + 1);
        match self.ring.get_mut(at) {
            Some(slot) => {
                *slot = Some(stored);
                Ok(())
            }
            None => unreachable!(),
        }
    }
}

// How many received numbers stand first.
fn count_leading(ring: &HeapCircularBuffer<Option<Stored>>) -> usize
    ensures value { result ≡ leading ring.now.items }
{
    let mut at = 0;
    while at < ring.len() && is_there(ring, at) {
        at += 1;
    }
    at
}

fn is_there(ring: &HeapCircularBuffer<Option<Stored>>, at: usize) -> bool
    requires { at < length ring.now.items }
    ensures { result ≡ is_some (slot_at ring.now.items at) }
{
    match ring.get(at) {
        Some(slot) => slot.is_some(),
        None => false,
    }
}

// Passes so many numbers.
#[tactic(auto, using(crate::proofs::Steps::passes))]
fn pass_on(
    ring: &mut HeapCircularBuffer<Option<Stored>>,
    edge: &mut u64,
    count: usize,
    joiner: &mut Joiner,
) -> Result<(), NoMemory>
    requires numbers { edge.old + length ring.old.items < 2 ^ 64 }
    requires count { count ≤ length ring.old.items }
    ensures sum { edge.new + length ring.new.items ≡ edge.old + length ring.old.items }
    ensures capacity { ring.new.capacity ≡ ring.old.capacity }
    ensures fewer { length ring.new.items ≤ length ring.old.items }
    ensures edge { OnOk result (edge.new ≡ edge.old + count) }
    ensures slots { OnOk result (ring.new.items ≡ drop count ring.old.items) }
    ensures joined { OnOk result (joiner.new ≡ with_numbers (take count ring.old.items) joiner.old) }
{
    let mut left = count;
    while left > 0 {
        pass_one(ring, edge, joiner)?;
        left -= 1;
    }
    Ok(())
}

// Passes the first number.
fn pass_one(
    ring: &mut HeapCircularBuffer<Option<Stored>>,
    edge: &mut u64,
    joiner: &mut Joiner,
) -> Result<(), NoMemory>
    requires numbers { edge.old + length ring.old.items < 2 ^ 64 }
    requires some { 0 < length ring.old.items }
    ensures edge { edge.new ≡ edge.old + 1 }
    ensures ring { ring.new ≡ buffer (drop 1 ring.old.items) ring.old.capacity }
    ensures joined { OnOk result (joiner.new ≡ with_number (slot_at ring.old.items 0) joiner.old) }
{
    *edge += 1;
    match ring.pop_front() {
        Some(slot) => joiner.pass(slot),
        None => Ok(()),
    }
}

// Adds numbers of which nothing has arrived, up to so many.
#[tactic(auto, using(crate::proofs::Steps::grows))]
fn grow(ring: &mut HeapCircularBuffer<Option<Stored>>, size: usize)
    requires { size ≤ ring.old.capacity }
    ensures ring { ring.new ≡ buffer (grown ring.old.items size) ring.old.capacity }
    ensures wide { size ≤ length ring.new.items }
{
    'growth: while ring.len() < size {
        add_missing(ring);
    }
}

fn add_missing(ring: &mut HeapCircularBuffer<Option<Stored>>)
    requires { length ring.old.items < ring.old.capacity }
    ensures { ring.new ≡ buffer (ring.old.items ++ None ∷ []) ring.old.capacity }
{
    let _ = ring.try_push_back(None);
}
