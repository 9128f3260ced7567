//! Items that wait, in a ring that grows.
ghost use Rattle.std.specs.Prelude.{◌≡◌, ◌<◌, ◌≤◌, [], ◌∷◌, ◌++◌, ◌==◌, length, slice_get};
ghost use Rattle.std.specs.Prelude.{option_copied, OnOk, MatchOption, MatchResult};
ghost use Rattle.l2_bits.specs.Waiting.{items_of, HasRoom};

use crate::fault::NoMemory;
use circular_buffer::HeapCircularBuffer;
use std::alloc::Global;
use std::marker::Model;

/// So many items fit into the first memory that a ring takes.
const FEW: usize = 8;

/// Makes room in a ring for so many items. It takes memory for a few at first, and then for twice
/// as many as before. An `Err` changes nothing.
pub fn make_room<T>(ring: &mut HeapCircularBuffer<T>, size: usize) -> Result<(), NoMemory>
    ensures items { ring.new.items ≡ ring.old.items }
    ensures room { OnOk result (size ≤ ring.new.capacity) }
{
    let capacity = ring.capacity();
    if size <= capacity {
        return Ok(());
    }
    ring.resize(size.max(2 * capacity).max(FEW))?;
    Ok(())
}

/// Items in the order in which they came. Contracts see them as a list.
///
/// Memory is taken as they come: for a few, and then for twice as many each time that it is full.
/// So each call takes the same time, however many wait, but for a `push_back` that moves them, of
/// which there are few.
#[derive(Debug, Drop)]
pub struct Ring<T> {
    alloc: Global,
    items: Option<HeapCircularBuffer<T>>,
}

impl<T> Model for Ring<T> {
    ghost use Rattle.std.specs.Prelude.{List};
    ghost use Rattle.l2_bits.specs.Waiting.{items_of};

    ghost Value = { List T };

    ghost view = { λ r. items_of r.items };
}

impl<T: Drop> Ring<T> {
    /// No item. It takes no memory.
    pub fn new(alloc: Global) -> Ring<T>
        ensures { result ≡ [] }
    {
        Ring { alloc, items: None }
    }

    /// The number of items.
    pub fn len(&self) -> usize
        ensures { result ≡ length self.now }
    {
        match &self.items {
            Some(items) => items.len(),
            None => 0,
        }
    }

    /// Whether there is no item.
    pub fn is_empty(&self) -> bool
        ensures { result ≡ (length self.now == 0) }
    {
        self.len() == 0
    }

    /// The item at a place, counted from 0; `None` exactly where the place is `len()` or more.
    pub fn get(&self, at: usize) -> Option<&T>
        ensures { option_copied result ≡ slice_get self.now at }
    {
        match &self.items {
            Some(items) => items.get(at),
            None => None,
        }
    }

    /// The first item; `None` exactly where there is none.
    pub fn front(&self) -> Option<&T>
        ensures { option_copied result ≡ slice_get self.now 0 }
    {
        self.get(0)
    }

    /// Takes out the first item; `None` exactly where there is none.
    pub fn pop_front(&mut self) -> Option<T>
        ensures { MatchOption result ((self.old ≡ []) × (self.new ≡ []))
            (λ one. self.old ≡ one ∷ self.new) }
    {
        match &mut self.items {
            Some(items) => items.pop_front(),
            None => None,
        }
    }

    /// Adds an item at the end. An `Err` gives it back and changes nothing.
    pub fn push_back(&mut self, one: T) -> Result<(), (T, NoMemory)>
        ensures { MatchResult result
            (λ _. self.new ≡ self.old ++ one ∷ [])
            (λ e. (self.new ≡ self.old) × (e.0 ≡ one)) }
    {
        if let Err(no_memory) = grow(self.alloc, &mut self.items) {
            return Err((one, no_memory));
        }
        put(&mut self.items, one);
        Ok(())
    }
}

// Makes room for one more item, in a first ring where there is none.
fn grow<T: Drop>(alloc: Global, items: &mut Option<HeapCircularBuffer<T>>) -> Result<(), NoMemory>
    ensures items { items_of items.new ≡ items_of items.old }
    ensures room { OnOk result (HasRoom items.new) }
{
    match items {
        Some(items) => make_room(items, items.len() + 1),
        None => {
            *items = Some(HeapCircularBuffer::with_capacity(alloc, FEW)?);
            Ok(())
        }
    }
}

fn put<T: Drop>(items: &mut Option<HeapCircularBuffer<T>>, one: T)
    requires { HasRoom items.old }
    ensures { items_of items.new ≡ items_of items.old ++ one ∷ [] }
{
    match items {
        Some(items) => match items.try_push_back(one) {
            Ok(()) => {}
            Err(_one) => unreachable!(),
        },
        None => unreachable!(),
    }
}
