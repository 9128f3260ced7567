ghost use Rattle.std.specs.Prelude.{◌≡◌, ◌≤◌, [], ◌∷◌, OnOk, OnErr, slice_get, slice_index_or};
ghost use Rattle.std.specs.Prelude.{length, ◌<◌};
ghost use Rattle.rlc_am_tx_window.specs.Numbers.{Ascend, inserted, without, lower, last_below};

use l2_bits::NoMemory;
use std::alloc::Global;
use std::collections::VecDeque;
use std::marker::Model;

/// Ascending numbers. The first is at hand, and alone it takes no memory.
#[derive(Drop)]
pub(crate) struct Numbers {
    first: Option<u64>,
    others: VecDeque<u64>,
}

impl Model for Numbers {
    ghost use Rattle.std.specs.Prelude.{ℕ, List, None, [], ◌≡◌};
    ghost use Rattle.rlc_am_tx_window.specs.Numbers.{numbers};

    ghost Value = { List ℕ };

    ghost view = { λ n. numbers n.first n.others.items };

    ghost invariant = { λ n. n.first ≡ None → n.others.items ≡ [] };
}

impl Numbers {
    pub(crate) fn new(alloc: Global) -> Numbers
        ensures { result ≡ [] }
    {
        Numbers {
            first: None,
            others: VecDeque::new(alloc),
        }
    }

    /// The least number.
    pub(crate) fn first(&self) -> Option<u64>
        ensures { result ≡ slice_get self.now 0 }
    {
        self.first
    }

    /// Adds a number where there is none.
    pub(crate) fn begin(&mut self, n: u64)
        requires { self.old ≡ [] }
        ensures { self.new ≡ n ∷ [] }
    {
        self.first = Some(n);
    }

    /// Adds a number. An `Err` changes nothing.
    pub(crate) fn insert(&mut self, n: u64) -> Result<(), NoMemory>
        requires { Ascend 0 self.old }
        ensures ok { OnOk result (self.new ≡ inserted n self.old) }
        ensures err { OnErr result (self.new ≡ self.old) }
    {
        match self.first {
            None => {
                self.first = Some(n);
                Ok(())
            }
            Some(first) => self.insert_beside(first, n),
        }
    }

    #[tactic(auto, using(crate::proofs::NumberSteps::begins))]
    fn insert_beside(&mut self, first: u64, n: u64) -> Result<(), NoMemory>
        requires first { slice_get self.old 0 ≡ Some first }
        requires ascending { Ascend 0 self.old }
        ensures ok { OnOk result (self.new ≡ inserted n self.old) }
        ensures err { OnErr result (self.new ≡ self.old) }
    {
        if first < n {
            insert(&mut self.others, n)
        } else if first == n {
            Ok(())
        } else {
            self.others.push_front(first)?;
            self.first = Some(n);
            Ok(())
        }
    }

    /// Takes out a number.
    pub(crate) fn remove(&mut self, n: u64)
        ensures { self.new ≡ without n self.old }
    {
        match self.first {
            None => {}
            Some(first) => {
                if first < n {
                    remove(&mut self.others, n);
                } else if first == n {
                    self.first = self.others.pop_front();
                }
            }
        }
    }
}

// How many numbers stand first that are below another.
fn lower(numbers: &VecDeque<u64>, n: u64) -> usize
    ensures value { result ≡ lower n numbers.now.items }
    ensures within { result ≤ length numbers.now.items }
{
    let mut at = 0;
    while at < numbers.len() && number_at(numbers, at) < n {
        at += 1;
    }
    at
}

fn number_at(numbers: &VecDeque<u64>, at: usize) -> u64
    requires { at < length numbers.now.items }
    ensures { result ≡ slice_index_or numbers.now.items at 0 }
{
    match numbers.get(at) {
        Some(n) => *n,
        None => 0,
    }
}

// Whether a number lies above the last.
#[tactic(auto, using(crate::proofs::NumberSteps::lasts))]
fn is_behind(numbers: &VecDeque<u64>, n: u64) -> bool
    ensures { result ≡ last_below n numbers.now.items }
{
    if numbers.is_empty() {
        true
    } else {
        number_at(numbers, numbers.len() - 1) < n
    }
}

// Adds a number, mostly behind the last.
#[tactic(auto, using(crate::proofs::NumberSteps::inserts))]
fn insert(numbers: &mut VecDeque<u64>, n: u64) -> Result<(), NoMemory>
    requires { Ascend 0 numbers.old.items }
    ensures ok { OnOk result (numbers.new.items ≡ inserted n numbers.old.items) }
    ensures err { OnErr result (numbers.new.items ≡ numbers.old.items) }
{
    if is_behind(numbers, n) {
        numbers.push_back(n)?;
        return Ok(());
    }
    let at = lower(numbers, n);
    if at < numbers.len() && number_at(numbers, at) == n {
        return Ok(());
    }
    numbers.insert(at, n)?;
    Ok(())
}

#[tactic(auto, using(crate::proofs::NumberSteps::removes))]
fn remove(numbers: &mut VecDeque<u64>, n: u64)
    ensures { numbers.new.items ≡ without n numbers.old.items }
{
    let at = lower(numbers, n);
    if at < numbers.len() && number_at(numbers, at) == n {
        numbers.remove(at);
    }
}
