//! New octets laid beside those that are held.
ghost use Rattle.std.specs.Prelude.{◌≡◌, ℕ, [], ◌∷◌, ◌++◌, ◌+◌, ◌-◌, ◌<◌, ◌≤◌, List, Option};
ghost use Rattle.std.specs.Prelude.{length, map, replicate, OnOk, IfOk, Some, None};
ghost use Rattle.rlc_am_rx_window.specs.Cells.{Cell};
ghost use Rattle.rlc_am_rx_window.specs.Piece.{element_cells};
ghost use Rattle.rlc_am_rx_window.specs.Spread.{laid_on};

use crate::field::Field;
use l2_bits::NoMemory;
use std::alloc::Global;
use std::mem;

/// Elements that are laid one after the other beside what is held. What is held stays.
#[derive(Drop)]
pub(crate) struct Laying {
    alloc: Global,
    /// The places that nothing is laid to any more.
    done: Field,
    /// The places that follow.
    rest: Field,
    /// So many of the next octets were passed with what is done, since they are held.
    passed: usize,
}

impl Laying {
    /// Takes out what a field holds, and begins before its first place.
    pub(crate) fn new(field: &mut Field) -> Laying
        ensures done { result.done ≡ [] }
        ensures rest { result.rest ≡ field.old }
        ensures passed { result.passed ≡ 0 }
    {
        let alloc = field.alloc();
        Laying {
            alloc,
            done: Field::absent(alloc, 0),
            rest: mem::replace(field, Field::absent(alloc, 0)),
            passed: 0,
        }
    }

    /// Goes past so many places.
    #[tactic(auto, using(crate::proofs::LayLemmas::skipping))]
    pub(crate) fn skip(&mut self, places: usize) -> Result<(), NoMemory>
        requires start { self.old.passed ≡ 0 }
        requires held { length self.old.done + length self.old.rest ≤ 32767 }
        requires within { length self.old.done + places ≤ 32767 }
        ensures held { OnOk result (length self.new.done + length self.new.rest ≤ 32767) }
        ensures place { OnOk result (length self.new.done
            ≡ length self.old.done + places + self.new.passed) }
        ensures cells { OnOk result ((xs : List (Option Cell))
            → laid_on self.new.done self.new.rest self.new.passed xs
            ≡ laid_on self.old.done self.old.rest 0 (replicate places None ++ xs)) }
    {
        let mut left = places;
        while let Some(first) = self.rest.pop() {
            let gap = first.gap();
            let end = gap + first.len();
            if left < gap {
                self.rest.put_back(first.behind(gap - left))?;
                self.done.widen(left);
                return Ok(());
            }
            self.done.keep(first)?;
            if left <= end {
                self.passed = end - left;
                return Ok(());
            }
            left -= end;
        }
        self.rest = Field::absent(self.alloc, self.rest.len().saturating_sub(left));
        self.done.widen(left);
        Ok(())
    }

    /// Lays the next element.
    #[tactic(auto, using(crate::proofs::LayLemmas::passing))]
    pub(crate) fn lay(&mut self, element: &[u8], begins: bool, ends: bool) -> Result<(), NoMemory>
        requires held { length self.old.done + length self.old.rest ≤ 32767 }
        requires within { length self.old.done + length element.now ≤ 32767 + self.old.passed }
        ensures held { OnOk result (length self.new.done + length self.new.rest ≤ 32767) }
        ensures place { OnOk result (length self.new.done + self.old.passed
            ≡ length self.old.done + length element.now + self.new.passed) }
        ensures cells { OnOk result ((xs : List (Option Cell))
            → laid_on self.new.done self.new.rest self.new.passed xs
            ≡ laid_on self.old.done self.old.rest self.old.passed
            (map (λ c. Some c) (element_cells begins ends element.now) ++ xs)) }
    {
        let passed = self.passed;
        if passed == 0 {
            return self.lay_here(element, begins, ends);
        }
        if element.len() <= passed {
            self.passed = passed - element.len();
            return Ok(());
        }
        self.passed = 0;
        self.lay_here(element.split_at(passed).1, false, ends)
    }

    /// Lays octets of one element, of which none was passed.
    #[tactic(auto, using(crate::proofs::LayLemmas::laying))]
    fn lay_here(&mut self, octets: &[u8], begins: bool, ends: bool) -> Result<(), NoMemory>
        requires start { self.old.passed ≡ 0 }
        requires held { length self.old.done + length self.old.rest ≤ 32767 }
        requires within { length self.old.done + length octets.now ≤ 32767 }
        ensures held { OnOk result (length self.new.done + length self.new.rest ≤ 32767) }
        ensures place { OnOk result (length self.new.done
            ≡ length self.old.done + length octets.now + self.new.passed) }
        ensures cells { OnOk result ((xs : List (Option Cell))
            → laid_on self.new.done self.new.rest self.new.passed xs
            ≡ laid_on self.old.done self.old.rest 0
            (map (λ c. Some c) (element_cells begins ends octets.now) ++ xs)) }
    {
        let mut octets = octets;
        let mut begins = begins;
        while let Some(first) = self.rest.pop() {
            let gap = first.gap();
            if octets.len() <= gap {
                self.rest.put_back(first.behind(gap - octets.len()))?;
                return self.done.push(octets, begins, ends);
            }
            let (before, behind) = octets.split_at(gap);
            let held = first.len();
            self.done.push(before, begins, false)?;
            self.done.keep(first.behind(0))?;
            if behind.len() <= held {
                self.passed = held - behind.len();
                return Ok(());
            }
            octets = behind.split_at(held).1;
            begins = false;
        }
        let left = self.rest.len().saturating_sub(octets.len());
        self.rest = Field::absent(self.alloc, left);
        self.done.push(octets, begins, ends)
    }

    /// All that is held once nothing more is laid.
    #[tactic(auto, using(crate::proofs::LayLemmas::finishing))]
    pub(crate) fn finish(self) -> Result<Field, NoMemory>
        requires { length self.done + length self.rest ≤ 32767 }
        ensures { IfOk result (λ field. field ≡ self.done ++ self.rest) }
    {
        let Laying {
            mut done,
            mut rest,
            ..
        } = self;
        while let Some(first) = rest.pop() {
            done.keep(first)?;
        }
        done.widen(rest.len());
        Ok(done)
    }
}
