// Which SDUs are confirmed, in one walk.
ghost use Rattle.std.specs.Prelude.{◌≡◌, ◌≤◌, IfOk, length, drop};
ghost use Rattle.journal_account.specs.FlowConfirmed.{behind, reached, walked, are_acked, is_among};

use crate::numbers::{self, Numbers};
use crate::sending::FlowSending;
use l2_bits::NoMemory;
use std::alloc::Global;
use std::collections::VecDeque;
use std::marker::Model;

/// Which SDUs of a flow are confirmed at a time, counted from 0.
#[derive(Drop)]
pub struct ConfirmedSdus {
    first: u64,
    flags: Vec<bool>,
}

impl Model for ConfirmedSdus {
    ghost use Rattle.journal_account.specs.FlowConfirmed.{ConfirmedSdus};

    ghost Value = { ConfirmedSdus };

    ghost view = { λ c. record { first = c.first; flags = c.flags.items } };
}

impl ConfirmedSdus {
    // Those below a first one are, and of the others, which stand one behind the other from where
    // VT(A) begins, some.
    #[tactic(auto, using(crate::proofs::Walks::walks_all))]
    pub(crate) fn of(
        alloc: Global,
        first: u64,
        sending: &FlowSending,
        ends: &VecDeque<u64>,
    ) -> Result<ConfirmedSdus, NoMemory>
        ensures { IfOk result (λ c. c ≡ record {
          first = first;
          flags = are_acked sending.now sending.now.start ends.now.items;
        }) }
    {
        Ok(ConfirmedSdus {
            first,
            flags: walk(alloc, sending, ends)?,
        })
    }

    /// Whether one is.
    pub fn has(&self, sdu: u64) -> bool
        ensures { result ≡ is_among sdu self.now }
    {
        if sdu < self.first {
            return true;
        }
        match self.flags.get((sdu - self.first) as usize) {
            Some(flag) => *flag,
            None => false,
        }
    }
}

// Numbers that end at a place or before it are passed: `at` is which of them is next, and `place`
// where it begins.
#[tactic(auto, using(crate::proofs::Walks::passes))]
fn pass(numbers: &Numbers, at: &mut usize, place: &mut u64, limit: u64)
    requires { at.old ≤ length numbers.now.items }
    ensures rest { record { numbers = drop at.new numbers.now.items; place = place.new }
        ≡ behind limit (drop at.old numbers.now.items) place.old }
    ensures within { at.new ≤ length numbers.now.items }
{
    while let Some(one) = numbers.get(*at) {
        let Some(end) = place.checked_add(u64::from(one.size())) else {
            break;
        };
        if end > limit {
            break;
        }
        *place = end;
        *at += 1;
    }
}

// The number at a place of the stream.
fn reach(sending: &FlowSending, at: &mut usize, place: &mut u64, from: u64)
    requires { at.old ≤ length sending.now.numbers }
    ensures rest { record { numbers = drop at.new sending.now.numbers; place = place.new }
        ≡ reached sending.now
        (record { numbers = drop at.old sending.now.numbers; place = place.old }) from }
    ensures within { at.new ≤ length sending.now.numbers }
{
    if from < *place {
        *at = 0;
        *place = sending.start();
    }
    pass(sending.numbers(), at, place, from);
}

fn walk(alloc: Global, sending: &FlowSending, ends: &VecDeque<u64>) -> Result<Vec<bool>, NoMemory>
    ensures { IfOk result (λ flags. flags.items ≡ walked sending.now
        (record { numbers = sending.now.numbers; place = sending.now.start })
        sending.now.start ends.now.items) }
{
    let mut flags = Vec::new(alloc);
    let (mut number, mut place, mut from) = (0, sending.start(), sending.start());
    let mut at = 0;
    while let Some(end) = ends.get(at) {
        let end = *end;
        reach(sending, &mut number, &mut place, from);
        let (low, high) = (from.saturating_sub(place), end.saturating_sub(place));
        flags.push(numbers::places_acked_from(sending.numbers(), number, low, high))?;
        from = end;
        at += 1;
    }
    Ok(flags)
}
