ghost use Rattle.std.specs.Prelude.{◌≡◌, ◌+◌, ◌<◌, ◌≤◌, ◌&&◌, ◌||◌, nat_lt, nat_le, length, drop};
ghost use Rattle.std.specs.Prelude.{OnOk, IfOk};
ghost use Rattle.rlc_am_rx_window.specs.Spread.{cells_in};
ghost use Rattle.rlc_am_rx_window.specs.Joined.{joined};

use crate::output::Output;
use l2_bits::{Bytes, NoMemory};
use std::alloc::Global;
use std::marker::Model;

/// Octets of one element that came together, at least one.
#[derive(Drop)]
pub(crate) struct Stretch {
    /// How many places in front of them aren't held.
    gap: usize,
    octets: Bytes,
    /// Whether an SDU begins with the first.
    begins: bool,
    /// Whether an SDU ends with the last.
    ends: bool,
}

impl Model for Stretch {
    ghost use Rattle.std.specs.Prelude.{◌<◌, length};
    ghost use Rattle.rlc_am_rx_window.specs.Spread.{Stretched};

    ghost Value = { Stretched };

    ghost view = { λ s. record { gap = s.gap; octets = s.octets; begins = s.begins; ends = s.ends } };

    ghost invariant = { λ s. 0 < length s.octets };
}

impl Stretch {
    /// A copy of octets, right behind those that are held.
    pub(crate) fn of(
        alloc: Global,
        octets: &[u8],
        begins: bool,
        ends: bool,
    ) -> Result<Stretch, NoMemory>
        requires { 0 < length octets.now }
        ensures { IfOk result (λ s. s ≡ record {
          gap = 0;
          octets = octets.now;
          begins = begins;
          ends = ends;
        }) }
    {
        let octets = Bytes::from_slice(alloc, octets)?;
        Ok(Stretch {
            gap: 0,
            octets,
            begins,
            ends,
        })
    }

    /// The same behind so many places that aren't held.
    pub(crate) fn behind(self, gap: usize) -> Stretch
        ensures { result ≡ record self { gap = gap } }
    {
        let Stretch {
            octets,
            begins,
            ends,
            ..
        } = self;
        Stretch {
            gap,
            octets,
            begins,
            ends,
        }
    }

    /// How many places in front of it aren't held.
    pub(crate) fn gap(&self) -> usize
        ensures { result ≡ self.now.gap }
    {
        self.gap
    }

    /// How many octets it has.
    pub(crate) fn len(&self) -> usize
        ensures value { result ≡ length self.now.octets }
        ensures some { 0 < result }
    {
        self.octets.as_slice().len()
    }

    /// Whether an SDU begins with it.
    pub(crate) fn begins(&self) -> bool
        ensures { result ≡ self.now.begins }
    {
        self.begins
    }

    /// Whether an SDU ends with it.
    pub(crate) fn ends(&self) -> bool
        ensures { result ≡ self.now.ends }
    {
        self.ends
    }

    /// Whether an SDU is known to end at either of its sides, behind a place at or above one and
    /// below another; both are counted from the first place of the gap.
    pub(crate) fn ends_within(&self, from: usize, to: usize) -> bool
        requires { self.now.gap + length self.now.octets ≤ 32767 }
        ensures { result
            ≡ (self.now.begins && (nat_lt from self.now.gap && nat_le self.now.gap to)
            || self.now.ends
            && (nat_lt from (self.now.gap + length self.now.octets)
            && nat_le (self.now.gap + length self.now.octets) to)) }
    {
        let end = self.gap + self.len();
        self.begins && (from < self.gap && self.gap <= to) || self.ends && (from < end && end <= to)
    }

    /// Goes on with its octets from one on.
    #[tactic(auto, using(crate::proofs::JoinLemmas::parts))]
    pub(crate) fn join(&self, from: usize, out: &mut Output) -> Result<(), NoMemory>
        ensures { OnOk result (out.new ≡ joined out.old (drop from (cells_in self.now))) }
    {
        let octets = self.octets.as_slice();
        if from == 0 {
            return out.add(octets, self.begins, self.ends);
        }
        if octets.len() <= from {
            return Ok(());
        }
        out.add(octets.split_at(from).1, false, self.ends)
    }

    /// Goes on with its octets from one on, which aren't copied where they are an SDU's first.
    pub(crate) fn hand_on(self, from: usize, out: &mut Output) -> Result<(), NoMemory>
        ensures { OnOk result (out.new ≡ joined out.old (drop from (cells_in self))) }
    {
        if from > 0 {
            return self.join(from, out);
        }
        let Stretch {
            octets,
            begins,
            ends,
            ..
        } = self;
        out.take(octets, begins, ends)
    }
}
