ghost use Rattle.std.specs.Prelude.{◌≡◌, [], ◌∷◌, ◌++◌, ◌==◌, length, slice_get, option_copied};
ghost use Rattle.std.specs.Prelude.{OnOk, OnErr, MatchOption, MatchResult, ◌<◌};
ghost use Rattle.std.specs.VecDeque.{deque_len, deque_capacity};

use crate::bytes::Bytes;
use crate::fault::NoMemory;
use std::alloc::Global;
use std::collections::VecDeque;
use std::marker::Model;
use std::mem;

/// So many items fit into the first memory that a list takes.
const FEW: usize = 4;

/// A list that grows at its end and is taken from its front, which contracts see as a list.
///
/// Each call but `append` takes the same time, however long the list is.
#[derive(Debug, Drop)]
pub struct Items<T> {
    items: VecDeque<T>,
}

/// Lists of octets, one behind the other.
pub type Packets = Items<Bytes>;

impl<T> Model for Items<T> {
    ghost use Rattle.std.specs.Prelude.{List};

    ghost Value = { List T };

    ghost view = { λ b. b.items.items };
}

impl<T> Items<T> {
    /// The empty list. It takes no memory.
    pub fn new(alloc: Global) -> Items<T>
        ensures { result ≡ [] }
    {
        Items {
            items: VecDeque::new(alloc),
        }
    }

    /// The number of items.
    pub fn len(&self) -> usize
        ensures { result ≡ length self.now }
    {
        self.items.len()
    }

    /// Whether there is no item.
    pub fn is_empty(&self) -> bool
        ensures { result ≡ (length self.now == 0) }
    {
        self.items.is_empty()
    }

    /// The item at a place, counted from 0; `None` exactly where the place is `len()` or more.
    pub fn get(&self, at: usize) -> Option<&T>
        ensures { option_copied result ≡ slice_get self.now at }
    {
        self.items.get(at)
    }

    /// Takes out the first item; `None` exactly where the list is empty.
    #[inline(always)]
    pub fn pop_front(&mut self) -> Option<T>
        ensures { MatchOption result ((self.old ≡ []) × (self.new ≡ []))
            (λ one. self.old ≡ one ∷ self.new) }
    {
        self.items.pop_front()
    }

    /// Adds an item at the end. An `Err` gives it back and changes nothing.
    #[inline(always)]
    pub fn push_back(&mut self, one: T) -> Result<(), (T, NoMemory)>
        ensures { MatchResult result
            (λ _. self.new ≡ self.old ++ one ∷ [])
            (λ e. (self.new ≡ self.old) × (e.0 ≡ one)) }
    {
        match self.items.push_back(one) {
            Ok(()) => Ok(()),
            Err(failed) => Err((failed.value, NoMemory)),
        }
    }

    /// Moves the other list's items to the end of this one, or all of it where this one is empty.
    /// An `Err` changes nothing.
    #[inline(always)]
    pub fn append(&mut self, other: &mut Items<T>) -> Result<(), NoMemory>
        ensures ok { OnOk result (self.new ≡ self.old ++ other.old) }
        ensures moved { OnOk result (other.new ≡ []) }
        ensures err { OnErr result (self.new ≡ self.old) }
        ensures kept { OnErr result (other.new ≡ other.old) }
    {
        if other.is_empty() {
            return Ok(());
        }
        if self.is_empty() {
            mem::swap(self, other);
            return Ok(());
        }
        self.items.append(&mut other.items)?;
        Ok(())
    }
}

impl<T: Drop> Items<T> {
    /// Adds an item at the end. An `Err` changes nothing, and the item is dropped.
    #[inline(always)]
    pub fn push(&mut self, one: T) -> Result<(), NoMemory>
        ensures ok { OnOk result (self.new ≡ self.old ++ one ∷ []) }
        ensures err { OnErr result (self.new ≡ self.old) }
    {
        if self.items.len() == self.items.capacity() {
            reserve_one(&mut self.items)?;
        }
        self.items.push_back_reserved(one);
        Ok(())
    }
}

// Makes room for one more item. A list that has no memory yet takes some anew, with nothing to be
// moved.
fn reserve_one<T: Drop>(items: &mut VecDeque<T>) -> Result<(), NoMemory>
    ensures items { items.new.items ≡ items.old.items }
    ensures len { deque_len items.new ≡ deque_len items.old }
    ensures room { OnOk result (deque_len items.new < deque_capacity items.new) }
{
    if items.capacity() > 0 {
        items.reserve(1)?;
        return Ok(());
    }
    let alloc = *items.allocator();
    *items = VecDeque::with_capacity(alloc, FEW)?;
    Ok(())
}
