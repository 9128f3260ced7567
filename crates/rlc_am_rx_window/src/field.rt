ghost use Rattle.std.specs.Prelude.{◌≡◌, ℕ, [], ◌∷◌, ◌++◌, ◌+◌, ◌-◌, ◌<◌, ◌≤◌, ◌^◌, length, map};
ghost use Rattle.std.specs.Prelude.{drop, replicate, MatchOption, IfSome, OnOk, IfOk, Some, None};
ghost use Rattle.std.specs.Prelude.{false};
ghost use Rattle.rlc_am_rx_window.specs.Cells.{Cell, holds, leading, edge_behind, denies};
ghost use Rattle.rlc_am_rx_window.specs.Cells.{ends_otherwise};
ghost use Rattle.rlc_am_rx_window.specs.Piece.{element_cells};
ghost use Rattle.rlc_am_rx_window.specs.Spread.{Stretched, cells_in, spread, ends_within};
ghost use Rattle.rlc_am_rx_window.specs.Joined.{joined};

use crate::output::Output;
use crate::reading;
use crate::stretch::Stretch;
use l2_bits::NoMemory;
use std::alloc::Global;
use std::collections::VecDeque;
use std::marker::Model;

/// The octets that have arrived of a number's data field, at most 32767.
///
/// Contracts see a cell for each place up to the last octet that has arrived.
#[derive(Drop)]
pub(crate) struct Field {
    alloc: Global,
    stretches: VecDeque<Stretch>,
    /// How many places behind the stretches are known, though no octet of them has arrived.
    tail: usize,
}

impl Model for Field {
    ghost use Rattle.std.specs.Prelude.{List, Option, ◌≤◌, length};
    ghost use Rattle.rlc_am_rx_window.specs.Cells.{Cell};
    ghost use Rattle.rlc_am_rx_window.specs.Spread.{spread};

    ghost Value = { List (Option Cell) };

    ghost view = { λ f. spread f.stretches.items f.tail };

    ghost invariant = { λ f. length (spread f.stretches.items f.tail) ≤ 32767 };
}

impl Field {
    /// So many places of which nothing has arrived. They take no memory.
    #[tactic(auto, using(crate::proofs::SpreadLemmas::lengths))]
    pub(crate) fn absent(alloc: Global, places: usize) -> Field
        requires { places ≤ 32767 }
        ensures cells { result ≡ replicate places None }
        ensures size { length result ≡ places }
    {
        Field {
            alloc,
            stretches: VecDeque::new(alloc),
            tail: places,
        }
    }

    /// The allocator that it was made with.
    pub(crate) fn alloc(&self) -> Global {
        self.alloc
    }

    /// The stretches, and how many places are known behind them.
    pub(crate) fn parts(&self) -> (&VecDeque<Stretch>, usize)
        ensures parts { spread result.0.now.items result.1 ≡ self.now }
        ensures few { length self.now ≤ 32767 }
    {
        (&self.stretches, self.tail)
    }

    /// The place behind the last octet that has arrived.
    #[tactic(auto, using(crate::proofs::SpreadLemmas::lengths))]
    pub(crate) fn len(&self) -> usize
        ensures value { result ≡ length self.now }
        ensures few { result ≤ 32767 }
    {
        let mut len = 0;
        for stretch in self.stretches.iter() {
            len += stretch.gap() + stretch.len();
        }
        len + self.tail
    }

    /// The first place at or above another that isn't held.
    #[tactic(auto, using(crate::proofs::TailLemmas::tails))]
    pub(crate) fn reach(&self, from: usize) -> usize
        ensures { result ≡ from + length (leading (drop from self.now)) }
    {
        reading::reach(&self.stretches, from)
    }

    /// Whether all of so many places from one on are held.
    #[tactic(auto, using(crate::proofs::CellLemmas::holding))]
    pub(crate) fn holds(&self, so: usize, len: usize) -> bool
        requires { so + len ≤ 32767 }
        ensures { result ≡ holds self.now so len }
    {
        so + len <= self.len() && so + len <= self.reach(so)
    }

    /// Whether an SDU ends behind a place, if that is known.
    #[tactic(auto, using(crate::proofs::TailLemmas::tails))]
    pub(crate) fn edge_behind(&self, at: usize) -> Option<bool>
        ensures { result ≡ edge_behind self.now at }
    {
        reading::edge_behind(&self.stretches, at)
    }

    /// Whether a boundary inside an element's octets from a place on, or behind them, is known
    /// otherwise.
    #[tactic(auto, using(crate::proofs::EdgeLemmas::otherwise))]
    pub(crate) fn ends_otherwise(&self, at: usize, element: &[u8], ends: bool) -> bool
        requires { at + length element.now < 2 ^ 63 }
        ensures { result ≡ ends_otherwise self.now at (element_cells false ends element.now) }
    {
        let len = element.len();
        if len == 0 {
            return false;
        }
        let last = at + len - 1;
        reading::ends_within(&self.stretches, at, last) || denies(self.edge_behind(last), ends)
    }

    /// Adds places that aren't held.
    #[tactic(auto, using(crate::proofs::SpreadLemmas::growing))]
    pub(crate) fn widen(&mut self, places: usize)
        requires { length self.old + places ≤ 32767 }
        ensures cells { self.new ≡ self.old ++ replicate places None }
        ensures size { length self.new ≡ length self.old + places }
    {
        self.tail += places;
    }

    /// Adds a stretch.
    #[tactic(auto, using(crate::proofs::SpreadLemmas::keeping))]
    pub(crate) fn keep(&mut self, stretch: Stretch) -> Result<(), NoMemory>
        requires { length self.old + stretch.gap + length stretch.octets ≤ 32767 }
        ensures cells { OnOk result (self.new ≡ self.old
            ++ (replicate stretch.gap None ++ cells_in stretch)) }
        ensures size { OnOk result (length self.new
            ≡ length self.old + stretch.gap + length stretch.octets) }
    {
        let gap = self.tail + stretch.gap();
        self.stretches.push_back(stretch.behind(gap))?;
        self.tail = 0;
        Ok(())
    }

    /// Adds a copy of octets of one element.
    pub(crate) fn push(&mut self, octets: &[u8], begins: bool, ends: bool) -> Result<(), NoMemory>
        requires { length self.old + length octets.now ≤ 32767 }
        ensures cells { OnOk result (self.new ≡ self.old
            ++ map (λ c. Some c) (element_cells begins ends octets.now)) }
        ensures size { OnOk result (length self.new ≡ length self.old + length octets.now) }
    {
        if octets.is_empty() {
            return Ok(());
        }
        self.keep(Stretch::of(self.alloc, octets, begins, ends)?)
    }

    /// Takes out the first stretch; `None` exactly where no place is held.
    #[tactic(auto, using(crate::proofs::SpreadLemmas::taking))]
    pub(crate) fn pop(&mut self) -> Option<Stretch>
        ensures cells { MatchOption result
            ((self.new ≡ self.old) × (self.new ≡ replicate (length self.new) None))
            (λ s. self.old ≡ replicate s.gap None ++ (cells_in s ++ self.new)) }
        ensures size { IfSome result (λ s. length self.old
            ≡ s.gap + length s.octets + length self.new) }
        ensures few { length self.old ≤ 32767 }
    {
        self.stretches.pop_front()
    }

    /// Puts a stretch in front.
    #[tactic(auto, using(crate::proofs::SpreadLemmas::growing))]
    pub(crate) fn put_back(&mut self, stretch: Stretch) -> Result<(), NoMemory>
        requires { stretch.gap + length stretch.octets + length self.old ≤ 32767 }
        ensures cells { OnOk result (self.new ≡ replicate stretch.gap None
            ++ (cells_in stretch ++ self.old)) }
        ensures size { OnOk result (length self.new
            ≡ stretch.gap + length stretch.octets + length self.old) }
    {
        self.stretches.push_front(stretch)?;
        Ok(())
    }

    /// Goes on with the octets from a place on up to the first that hasn't arrived.
    #[tactic(auto, using(crate::proofs::TailLemmas::tails))]
    pub(crate) fn give(&self, from: usize, out: &mut Output) -> Result<(), NoMemory>
        ensures { OnOk result (out.new ≡ joined out.old (leading (drop from self.now))) }
    {
        reading::give(&self.stretches, from, out)
    }

    /// Goes on with the same at the end of what is held of the number. An SDU's first octets aren't
    /// copied.
    #[tactic(auto, using(crate::proofs::SpreadLemmas::handing))]
    pub(crate) fn hand_on(self, from: usize, out: &mut Output) -> Result<(), NoMemory>
        ensures { OnOk result (out.new ≡ joined out.old (leading (drop from self))) }
    {
        let mut field = self;
        let mut left = from;
        while let Some(stretch) = field.pop() {
            let gap = stretch.gap();
            if left < gap {
                break;
            }
            let end = gap + stretch.len();
            stretch.hand_on(left - gap, out)?;
            left = left.saturating_sub(end);
        }
        Ok(())
    }

    /// Goes on with all octets that are held from a place on, and leaves out gaps.
    #[tactic(auto, using(crate::proofs::SpreadLemmas::salvaging))]
    pub(crate) fn salvage(&self, from: usize, out: &mut Output) -> Result<(), NoMemory>
        ensures { OnOk result (out.new ≡ joined out.old (drop from self.now)) }
    {
        let mut left = from;
        for stretch in self.stretches.iter() {
            let gap = stretch.gap();
            if left < gap {
                out.break_off();
            }
            stretch.join(left.saturating_sub(gap), out)?;
            left = left.saturating_sub(gap + stretch.len());
        }
        if left < self.tail {
            out.break_off();
        }
        Ok(())
    }
}

/// Whether what is known of a boundary speaks against what is told.
pub(crate) fn denies(known: Option<bool>, told: bool) -> bool
    ensures { result ≡ denies known told }
{
    match known {
        Some(known) => known != told,
        None => false,
    }
}
