//! Test loops (TS 36.509): a terminal sends back what it was handed up.
//!
//! Mode A returns each SDU at once, cut or repeated to a size. Mode B keeps SDUs and returns them
//! together, so many TTIs after the first one was kept.
#![tactic(auto)]

ghost use Rattle.std.specs.Prelude.{◌≡◌, ◌<◌, true, length, IfOk, OnOk, OnErr, MatchOption, Some};
ghost use Rattle.std.specs.Prelude.{None};

mod cut;
pub mod laws;

use cut::cut;
use l2_bits::{Bytes, Items, NoMemory};
use std::alloc::Global;
use std::marker::Model;

/// The mode of a loop.
#[derive(Clone, Copy, Debug, PartialEq, Eq)]
pub enum Mode {
    /// Nothing is returned.
    Off,
    /// Each SDU is returned at once in this size in octets, its own where it is 0.
    A { size: u32 },
    /// SDUs are kept, and returned so many TTIs after the first one was; at once where it is 0.
    B { delay: u32 },
}

/// What becomes of an SDU.
#[derive(Debug, Drop)]
pub enum Kept {
    /// It is to be returned at once, with these octets.
    Now(Bytes),
    /// It is kept.
    Later,
    /// It finds no place.
    Full,
}

// The most SDUs that are kept.
const MOST_KEPT: usize = 1024;

#[derive(Drop)]
struct Sdu {
    lcid: u8,
    octets: Bytes,
}

impl Model for Sdu {
    ghost use Rattle.test_loop.specs.Items.{Item, item};

    ghost Value = { Item };

    ghost view = { λ s. item s.lcid s.octets };
}

/// The loop of one terminal.
#[derive(Drop)]
pub struct Loop {
    alloc: Global,
    mode: Mode,
    kept: Items<Sdu>,
    // TTIs until the SDUs that are kept are owed; 0 where none is kept.
    left: u32,
}

impl Model for Loop {
    ghost use Rattle.test_loop.specs.Loops.{State, state};

    ghost Value = { State };

    ghost view = { λ l. state l.mode l.kept l.left };
}

impl Loop {
    ghost use Rattle.test_loop.specs.Items.{item};
    ghost use Rattle.test_loop.specs.Loops.{fresh, after_set, is_on, is_keeping, taken_answer};
    ghost use Rattle.test_loop.specs.Loops.{after_taken, after_tick, due_answer, after_due};
    ghost use Rattle.test_loop.specs.Loops.{kept_answer, after_kept};

    /// A loop in mode off that keeps nothing.
    #[tactic(auto, unfolding(crate::specs::Loops::fresh))]
    pub fn new(alloc: Global) -> Loop
        ensures { result ≡ fresh }
    {
        Loop {
            alloc,
            mode: Mode::Off,
            kept: Items::new(alloc),
            left: 0,
        }
    }

    /// Sets the mode. All SDUs that are kept are then owed.
    #[tactic(auto, unfolding(crate::specs::Loops::after_set))]
    pub fn set(&mut self, mode: Mode)
        ensures { self.new ≡ after_set self.old mode }
    {
        self.mode = mode;
        self.left = 0;
    }

    /// Whether the mode is another than off.
    pub fn is_on(&self) -> bool
        ensures { result ≡ is_on self.now.mode }
    {
        match self.mode {
            Mode::Off => false,
            Mode::A { .. } | Mode::B { .. } => true,
        }
    }

    /// Whether SDUs are kept for a while: in mode B with a delay.
    pub fn is_keeping(&self) -> bool
        ensures { result ≡ is_keeping self.now.mode }
    {
        match self.mode {
            Mode::Off | Mode::A { .. } => false,
            Mode::B { delay } => delay != 0,
        }
    }

    /// An SDU of 1 octet or more was handed up, in a mode other than off. `Full` comes exactly
    /// where 1024 SDUs are kept and this one was to be, and changes nothing; nor does an `Err`.
    #[tactic(auto, unfolding(crate::specs::Loops::taken_answer, crate::specs::Loops::after_taken))]
    pub fn taken(&mut self, lcid: u8, sdu: &[u8]) -> Result<Kept, NoMemory>
        requires on { is_on self.old.mode ≡ true }
        requires sdu { 0 < length sdu.now }
        ensures answer { IfOk result (λ kept. kept ≡ taken_answer self.old sdu.now) }
        ensures ok { OnOk result (self.new ≡ after_taken self.old (item lcid sdu.now)) }
        ensures err { OnErr result (self.new ≡ self.old) }
    {
        match self.mode {
            Mode::A { size } => Ok(Kept::Now(cut(self.alloc, sdu, size)?)),
            Mode::B { delay: 0 } => Ok(Kept::Now(Bytes::from_slice(self.alloc, sdu)?)),
            Mode::B { delay } => self.keep(delay, lcid, sdu),
            Mode::Off => unreachable!(),
        }
    }

    /// A TTI begins.
    #[tactic(auto, unfolding(crate::specs::Loops::after_tick))]
    pub fn tick(&mut self)
        ensures { self.new ≡ after_tick self.old }
    {
        self.left = self.left.saturating_sub(1);
    }

    /// The next SDU that is owed, with its LCID; None exactly where none is.
    #[tactic(auto, unfolding(crate::specs::Loops::due_answer, crate::specs::Loops::after_due))]
    pub fn due(&mut self) -> Option<(u8, Bytes)>
        ensures state { self.new ≡ after_due self.old }
        ensures answer { MatchOption result (due_answer self.old ≡ None)
            (λ sdu. due_answer self.old ≡ Some (item sdu.0 sdu.1)) }
    {
        if self.left > 0 {
            return None;
        }
        let Sdu { lcid, octets } = self.kept.pop_front()?;
        Some((lcid, octets))
    }

    fn keep(&mut self, delay: u32, lcid: u8, sdu: &[u8]) -> Result<Kept, NoMemory>
        ensures answer { IfOk result (λ kept. kept ≡ kept_answer self.old.kept) }
        ensures ok { OnOk result (self.new ≡ after_kept delay (item lcid sdu.now) self.old) }
        ensures err { OnErr result (self.new ≡ self.old) }
    {
        if self.kept.len() >= MOST_KEPT {
            return Ok(Kept::Full);
        }
        let octets = Bytes::from_slice(self.alloc, sdu)?;
        let is_first = self.kept.is_empty();
        self.kept.push(Sdu { lcid, octets })?;
        if is_first {
            self.left = delay;
        }
        Ok(Kept::Later)
    }
}

#[cfg(test)]
mod tests {
    use super::*;
    use std::test::Fail;

    #[test]
    fn mode_a_cuts_and_repeats(rt: HostRuntime) -> Result<(), Fail> {
        let mut looped = Loop::new(rt.alloc());
        let rows: [(u32, &[u8]); 4] = [
            (0, &[0xaa, 0xbb]),
            (1, &[0xaa]),
            (4, &[0xaa, 0xbb, 0xaa, 0xbb]),
            (5, &[0xaa, 0xbb, 0xaa, 0xbb, 0xaa]),
        ];
        for (size, want) in rows {
            looped.set(Mode::A { size });
            assert!(rt; looped.is_on());
            match looped.taken(3, &[0xaa, 0xbb])? {
                Kept::Now(octets) => assert_eq!(rt; octets.as_slice(), want, "size {size}"),
                Kept::Later | Kept::Full => assert!(rt; false),
            }
        }
        assert!(rt; looped.due().is_none());
        Ok(())
    }

    #[test]
    fn mode_b_returns_together(rt: HostRuntime) -> Result<(), Fail> {
        let mut looped = Loop::new(rt.alloc());
        looped.set(Mode::B { delay: 2 });
        assert!(rt; looped.is_on());
        let first = looped.taken(3, &[1])?;
        assert!(rt; matches!(&first, Kept::Later));
        looped.tick();
        assert!(rt; looped.is_on());
        let second = looped.taken(4, &[2])?;
        assert!(rt; matches!(&second, Kept::Later) && looped.due().is_none());
        looped.tick();
        for (lcid, octet) in [(3, 1), (4, 2)] {
            let owed = looped.due().is_some_and(|sdu| sdu.0 == lcid
                && sdu.1.as_slice() == [octet].as_slice());
            assert!(rt; owed, "LCID {lcid}");
        }
        assert!(rt; looped.due().is_none());
        Ok(())
    }
}
