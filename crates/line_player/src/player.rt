ghost use Rattle.std.specs.Prelude.{◌≡◌, ◌≤◌, ℕ, List, Some};
ghost use Rattle.l2_io.specs.Known.{HasRisen};
ghost use Rattle.line_player.specs.Journal.{Player as Machine, finished};
ghost use Rattle.line_player.specs.Plays.{RunsLine, Plays};

use crate::ending::Ending;
use crate::reason::{Reason, Rule};
use l2_io::Sink;
use std::alloc::Global;

/// How one line ended.
#[derive(Clone, Copy, Debug, PartialEq, Eq)]
pub enum LineEnd<R> {
    /// The next line may come.
    Next,
    /// It was the line that ends the input.
    Ended,
    /// It is refused, and wrote nothing.
    Refused(Reason<R>),
    /// The sink failed.
    WriteFault,
    /// Memory ran out.
    NoMemory,
}

/// What plays the lines of an input.
pub trait Player: Drop {
    /// What a line may break.
    type Rule: Rule;

    /// What is known between two lines.
    ghost State: { Type 0 };

    /// What stands in the journal.
    ghost Record: { Type 0 };

    /// The text of a record.
    ghost text_of: { Record → List ℕ };

    /// What a line does, and what stands at the end.
    ghost machine: { Machine State Record Self.Rule };

    /// What is known now.
    ghost state: { Self → State };

    /// Whether what the next line writes has no bound, and isn't gathered, by what is read of it.
    fn goes_past(kept: &[u8]) -> bool;

    /// Plays the line of a number, counted from 1, and writes its records. `text` is the line
    /// without its end.
    fn line<K: Sink>(
        &mut self,
        alloc: Global,
        number: u32,
        text: &[u8],
        out: &mut K,
    ) -> LineEnd<Self::Rule>
        ensures line { RunsLine text_of (machine.line (state self.old) number text.now)
            (Some (state self.new)) (K.written out.old) (K.written out.new)
            (HasRisen (K.faults out.old) (K.faults out.new)) result }
        ensures count { K.faults out.old ≤ K.faults out.new };

    /// Writes what stands at the end.
    fn over<K: Sink>(self, out: &mut K) -> Ending<Self::Rule>
        ensures over { Plays text_of (finished machine (state self)) (K.written out.old)
            (K.written out.new) ⊥ (HasRisen (K.faults out.old) (K.faults out.new)) result }
        ensures count { K.faults out.old ≤ K.faults out.new };
}
