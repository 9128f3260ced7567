// The SDUs that RLC took, and how many are in sequence.
ghost use Rattle.std.specs.Prelude.{◌≡◌, ◌+◌, ◌<◌, ◌≤◌, ◌^◌, ◌∷◌, length, drop, OnOk, OnErr};
ghost use Rattle.std.specs.Prelude.{IfSome, IsNone, slice_index_or};
ghost use Rattle.journal_account.specs.FlowSdus.{FlowSdus, no_sdus, with_sdu, ends_by};
ghost use Rattle.journal_account.specs.FlowSdus.{sequenced_to};

use l2_bits::NoMemory;
use std::alloc::Global;
use std::collections::VecDeque;
use std::marker::Model;

#[derive(Drop)]
pub(crate) struct FlowSdus {
    sequenced: u64,
    ends: VecDeque<u64>,
    taken: u64,
}

impl Model for FlowSdus {
    ghost use Rattle.std.specs.Prelude.{◌+◌, ◌<◌, ◌^◌, length};
    ghost use Rattle.journal_account.specs.FlowSdus.{FlowSdus};

    ghost Value = { FlowSdus };

    ghost view = { λ s. record { sequenced = s.sequenced; ends = s.ends.items; taken = s.taken } };

    ghost invariant = { λ s. s.sequenced + length s.ends.items < 2 ^ 64 };
}

impl FlowSdus {
    pub(crate) fn new(alloc: Global) -> FlowSdus
        ensures { result ≡ no_sdus }
    {
        FlowSdus {
            sequenced: 0,
            ends: VecDeque::new(alloc),
            taken: 0,
        }
    }

    pub(crate) fn sequenced(&self) -> u64
        ensures { result ≡ self.now.sequenced }
    {
        self.sequenced
    }

    pub(crate) fn taken(&self) -> u64
        ensures { result ≡ self.now.taken }
    {
        self.taken
    }

    // Where the SDUs end that aren't in sequence.
    pub(crate) fn ends(&self) -> &VecDeque<u64>
        ensures { result.now.items ≡ self.now.ends }
    {
        &self.ends
    }

    // Where an SDU stands in the stream, from one place on below another, counted from the first
    // that isn't in sequence, which is taken to begin at a place.
    pub(crate) fn place_of(&self, at: u64, gap: u64) -> Option<(u64, u64)>
        ensures none { IsNone result → length self.now.ends ≤ at }
        ensures some { IfSome result (λ place. at < length self.now.ends) }
        ensures value { IfSome result (λ place. place
            ≡ (slice_index_or (gap ∷ self.now.ends) at 0, slice_index_or self.now.ends at 0)) }
    {
        let at = at as usize;
        let end = *self.ends.get(at)?;
        let start = match at.checked_sub(1) {
            Some(before) => *self.ends.get(before)?,
            None => gap,
        };
        Some((start, end))
    }

    // An SDU of so many octets is taken. An `Err` changes nothing.
    pub(crate) fn take(&mut self, size: u32) -> Result<(), NoMemory>
        ensures ok { OnOk result (self.new ≡ with_sdu size self.old) }
        ensures err { OnErr result (self.new ≡ self.old) }
    {
        if self.sequenced + self.ends.len() as u64 == u64::MAX {
            return Err(NoMemory);
        }
        let end = self.taken.checked_add(u64::from(size)).ok_or(NoMemory)?;
        self.ends.push_back(end)?;
        self.taken = end;
        Ok(())
    }

    // The SDU of so many octets that was taken last goes back.
    pub(crate) fn give_back(&mut self, size: u32)
        requires some { 0 < length self.old.ends }
        requires within { size ≤ self.old.taken }
        ensures { (s : FlowSdus) → self.old ≡ with_sdu size s → self.new ≡ s }
    {
        let _ = self.ends.pop_back();
        self.taken -= u64::from(size);
    }

    // All octets before a place have come.
    pub(crate) fn sequence(&mut self, place: u64)
        ensures { self.new ≡ sequenced_to place self.old }
    {
        drop_ends(&mut self.ends, place, &mut self.sequenced);
    }
}

// Takes out the ends up to a place, and counts them.
fn drop_ends(ends: &mut VecDeque<u64>, place: u64, count: &mut u64)
    requires { count.old + length ends.old.items < 2 ^ 64 }
    ensures count { count.new ≡ count.old + ends_by place ends.old.items }
    ensures rest { ends.new.items ≡ drop (ends_by place ends.old.items) ends.old.items }
    ensures sum { count.new + length ends.new.items ≡ count.old + length ends.old.items }
{
    while let Some(end) = ends.front() {
        if *end > place {
            break;
        }
        let _ = ends.pop_front();
        *count += 1;
    }
}
