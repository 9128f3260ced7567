// Sets of COUNTs.
ghost use Rattle.std.specs.Prelude.{◌≡◌, ◌≤◌, [], ◌∷◌, OnOk, OnErr, max};
ghost use Rattle.std.specs.BTreeSet.{insert_key};
ghost use Rattle.std.specs.Ordering.{nat_cmp};
ghost use Rattle.journal_takes.specs.TakeEvents.{has_count};
ghost use Rattle.journal_takes.specs.FlowTakes.{counts_from, first_open, with_marks};

use l2_bits::NoMemory;
use std::collections::BTreeSet;

pub(crate) type Counts = BTreeSet<u64>;

// Adds one. An `Err` changes nothing.
pub(crate) fn add(counts: &mut Counts, count: u64) -> Result<(), NoMemory>
    ensures ok { OnOk result (counts.new.keys ≡ insert_key nat_cmp counts.old.keys count) }
    ensures err { OnErr result (counts.new.keys ≡ counts.old.keys) }
{
    counts.insert(count)?;
    Ok(())
}

// Adds those of marks that lie below the next new COUNT.
pub(crate) fn add_marks(counts: &mut Counts, next: u64, marks: &[u64]) -> Result<(), NoMemory>
    ensures { OnOk result (counts.new.keys ≡ with_marks next marks.now counts.old.keys) }
{
    for mark in marks {
        add_mark(counts, next, *mark)?;
    }
    Ok(())
}

fn add_mark(counts: &mut Counts, next: u64, mark: u64) -> Result<(), NoMemory>
    ensures { OnOk result (counts.new.keys ≡ with_marks next (mark ∷ []) counts.old.keys) }
{
    if mark < next {
        add(counts, mark)?;
    }
    Ok(())
}

fn has(counts: &Counts, count: u64) -> bool
    ensures { result ≡ has_count counts.now.keys count }
{
    counts.contains(&count)
}

// The first COUNT from one on, up to the next new one, that isn't in the set.
#[tactic(auto, using(crate::proofs::CountSets::searches))]
pub(crate) fn first_open(counts: &Counts, next: u64, from: u64) -> u64
    ensures value { result ≡ first_open counts.now.keys next from }
    ensures above { from ≤ result }
    ensures within { result ≤ max from next }
{
    let mut at = from;
    while at < next && has(counts, at) {
        at += 1;
    }
    at
}

// Takes out those below one.
#[tactic(auto, using(crate::proofs::CountSets::first_stays))]
pub(crate) fn trim(counts: &mut Counts, low: u64)
    ensures { counts.new.keys ≡ counts_from low counts.old.keys }
{
    while let Some(count) = counts.first() {
        if *count >= low {
            break;
        }
        let _ = counts.pop_first();
    }
}
