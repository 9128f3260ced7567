// What has come of the data field of a number.
ghost use Rattle.std.specs.Prelude.{◌≡◌, ◌<◌, ◌≤◌, OnOk, OnErr, IfSome, is_none, min};
ghost use Rattle.rlc_pdu.specs.Runs.{AreAscending, gap_in};
ghost use Rattle.journal_account.specs.FlowArrivals.{nothing_came, with_octets, is_whole};
ghost use Rattle.journal_account.specs.FlowArrivals.{leading_octets};

use l2_bits::NoMemory;
use rlc_pdu::{Intervals, Part};
use std::alloc::Global;
use std::marker::Model;

#[derive(Drop)]
pub(crate) struct FieldArrivals {
    size: u32,
    came: Intervals,
}

impl Model for FieldArrivals {
    ghost use Rattle.rlc_pdu.specs.Runs.{AreAscending};
    ghost use Rattle.journal_account.specs.FlowArrivals.{FieldArrivals};

    ghost Value = { FieldArrivals };

    ghost view = { λ f. record { size = f.size; came = f.came } };

    ghost invariant = { λ f. AreAscending 0 f.came };
}

impl FieldArrivals {
    pub(crate) fn new(alloc: Global, size: u32) -> FieldArrivals
        ensures { result ≡ nothing_came size }
    {
        FieldArrivals {
            size,
            came: Intervals::new(alloc),
        }
    }

    pub(crate) fn size(&self) -> u32
        ensures { result ≡ self.now.size }
    {
        self.size
    }

    // The octets from a place on below another come. An `Err` changes nothing.
    #[tactic(auto, using(rlc_pdu::proofs::RunSteps::added_ascends))]
    pub(crate) fn add(&mut self, from: u32, to: u32) -> Result<(), NoMemory>
        requires some { from < to }
        requires within { to ≤ 32767 }
        ensures ok { OnOk result (self.new ≡ with_octets from to self.old) }
        ensures err { OnErr result (self.new ≡ self.old) }
    {
        self.came.add(from, to)?;
        Ok(())
    }

    // Whether each octet has come.
    pub(crate) fn is_whole(&self) -> bool
        ensures { result ≡ is_whole self.now }
    {
        self.came.gap(0, self.size).is_none()
    }

    // How many octets have come before the first that hasn't.
    pub(crate) fn leading(&self) -> u32
        ensures { result ≡ leading_octets self.now }
    {
        match self.came.gap(0, self.size) {
            Some(part) => part.start,
            None => self.size,
        }
    }

    // Whether the octets from a place on below another have come, as far as the field has them.
    #[tactic(auto, using(crate::proofs::Gaps::gap_past))]
    pub(crate) fn octets_came(&self, from: u64, to: u64) -> bool
        ensures { result ≡ is_none (gap_in self.now.came from (min to self.now.size)) }
    {
        let end = to.min(u64::from(self.size));
        if from >= end {
            return true;
        }
        self.came.gap(from as u32, end as u32).is_none()
    }

    // The first largest run of octets at or above a place that haven't come, with the last of them.
    #[tactic(auto, using(crate::proofs::Gaps::gap_end, crate::proofs::Gaps::gap_above))]
    pub(crate) fn gap(&self, from: u32) -> Option<Part>
        ensures value { result ≡ gap_in self.now.came from self.now.size }
        ensures within { IfSome result (λ gap. gap.end < self.now.size) }
        ensures above { IfSome result (λ gap. from ≤ gap.end) }
        ensures ascend { AreAscending 0 self.now.came }
    {
        self.came.gap(from, self.size)
    }
}
