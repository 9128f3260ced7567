// The octets of SDUs, the first one first.
ghost use Rattle.std.specs.Prelude.{◌≡◌, ◌+◌, ◌-◌, ◌≤◌, ◌++◌, length, take, drop, OnOk, OnErr};
ghost use Rattle.std.specs.Prelude.{option_copied, slice_get};

use l2_bits::{Bytes, NoMemory};
use std::collections::VecDeque;

pub(crate) type Sdus = VecDeque<Bytes>;

// The first that waits goes behind the others, if one waits. Behind an `Err` it is lost.
pub(crate) fn take_first(waiting: &mut Sdus, sdus: &mut Sdus) -> Result<(), NoMemory>
    ensures waiting { OnOk result (waiting.new.items ≡ drop 1 waiting.old.items) }
    ensures sdus { OnOk result (sdus.new.items ≡ sdus.old.items ++ take 1 waiting.old.items) }
    ensures err { OnErr result (sdus.new.items ≡ sdus.old.items) }
{
    if let Some(sdu) = waiting.pop_front() {
        sdus.push_back(sdu)?;
    }
    Ok(())
}

// Takes out those of the COUNTs below one; `from` is the COUNT of the first.
#[tactic(auto, using(crate::proofs::CountSets::drops))]
pub(crate) fn trim(sdus: &mut Sdus, from: &mut u64, low: u64)
    requires low { from.old ≤ low }
    requires within { low ≤ from.old + length sdus.old.items }
    ensures from { from.new ≡ low }
    ensures rest { sdus.new.items ≡ drop (low - from.old) sdus.old.items }
    ensures sum { from.new + length sdus.new.items ≡ from.old + length sdus.old.items }
{
    while *from < low {
        let _ = sdus.pop_front();
        *from += 1;
    }
}

// One at a place of the first list, or behind that of the second.
pub(crate) fn get<'a>(sdus: &'a Sdus, waiting: &'a Sdus, at: usize) -> Option<&'a Bytes>
    ensures { option_copied result ≡ slice_get (sdus.now.items ++ waiting.now.items) at }
{
    if at < sdus.len() {
        return sdus.get(at);
    }
    waiting.get(at - sdus.len())
}
