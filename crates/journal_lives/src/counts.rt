// COUNTs that have come, in any order.
ghost use Rattle.std.specs.Prelude.{◌≡◌, ◌<◌, ◌≤◌, ◌^◌, OnOk, OnErr, OnSome, IfSome, Option};
ghost use Rattle.journal_lives.specs.CountsCome.{none_come, with_count, joined_from};

use l2_bits::NoMemory;
use std::alloc::Global;
use std::collections::BTreeSet;
use std::marker::Model;

#[derive(Drop)]
pub(crate) struct CountsCome {
    next: u64,
    beyond: BTreeSet<u32>,
}

impl Model for CountsCome {
    ghost use Rattle.std.specs.Prelude.{◌≤◌, ◌^◌};
    ghost use Rattle.journal_lives.specs.CountsCome.{CountsCome};

    ghost Value = { CountsCome };

    ghost view = { λ c. record { next = c.next; beyond = c.beyond.keys } };

    ghost invariant = { λ c. c.next ≤ 2 ^ 32 };
}

impl CountsCome {
    // None has come, of those from a first one on.
    pub(crate) fn new(alloc: Global, first: u32) -> CountsCome
        ensures { result ≡ none_come first }
    {
        CountsCome {
            next: u64::from(first),
            beyond: BTreeSet::new(alloc),
        }
    }

    // The first that hasn't come.
    pub(crate) fn next(&self) -> u64
        ensures { result ≡ self.now.next }
    {
        self.next
    }

    // Those beyond it that have come.
    pub(crate) fn beyond(&self) -> &BTreeSet<u32>
        ensures { result.now.keys ≡ self.now.beyond }
    {
        &self.beyond
    }

    // One comes. An `Err` changes nothing.
    pub(crate) fn add(&mut self, count: u32) -> Result<(), NoMemory>
        ensures ok { OnOk result (self.new ≡ with_count count self.old) }
        ensures err { OnErr result (self.new ≡ self.old) }
    {
        let whole = u64::from(count);
        if whole < self.next {
            return Ok(());
        }
        if self.next < whole {
            self.beyond.insert(count)?;
            return Ok(());
        }
        self.next += 1;
        join(&mut self.next, &mut self.beyond);
        Ok(())
    }
}

// Those beyond that follow at once aren't beyond any more.
fn join(next: &mut u64, beyond: &mut BTreeSet<u32>)
    requires { next.old ≤ 2 ^ 32 }
    ensures next { next.new ≡ (joined_from next.old beyond.old.keys).next }
    ensures beyond { beyond.new.keys ≡ (joined_from next.old beyond.old.keys).beyond }
    ensures within { next.new ≤ 2 ^ 32 }
{
    while let Some(count) = beyond.first() {
        if u64::from(*count) != *next {
            break;
        }
        let _ = beyond.pop_first();
        *next += 1;
    }
}
