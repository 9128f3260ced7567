// A cell's input, played line by line.
ghost use Rattle.std.specs.Prelude.{◌≡◌, ◌≤◌, Some};
ghost use Rattle.l2_io.specs.Known.{HasRisen};
ghost use Rattle.cell_text.specs.Ranges.{IsInCell};
ghost use Rattle.cell_run.specs.Cells.{CellState, fresh_cell, is_end, acted, cell};
ghost use Rattle.cell_run.specs.Entries.{Entry, entry_text};
ghost use Rattle.line_player.specs.Plays.{RunsLine};

use crate::cell::Cell;
use crate::fault::{CellFault, CellRule};
use air_text::LineFault;
use cell_text::{CellLine, read_cell_line};
use l2_io::{PutFault, Sink};
use line_player::{Ending, LineEnd, Player, Reason};
use std::alloc::Global;

/// A cell that plays its lines.
#[derive(Drop)]
pub struct CellPlayer {
    cell: Cell,
}

fn is_end(line: &CellLine) -> bool
    ensures { result ≡ is_end line.now }
{
    matches!(line, CellLine::End)
}

impl CellPlayer {
    /// A cell before the first line. It takes no memory.
    pub fn new(alloc: Global) -> CellPlayer
        ensures { result.cell ≡ fresh_cell }
    {
        CellPlayer {
            cell: Cell::new(alloc),
        }
    }

    // Runs a line of the grammar and writes its records.
    fn run_line<K: Sink>(&mut self, line: &CellLine, out: &mut K) -> LineEnd<CellRule>
        requires { IsInCell line.now }
        ensures line { RunsLine entry_text (acted line.now self.old.cell) (Some self.new.cell)
            (K.written out.old)
            (K.written out.new) (HasRisen (K.faults out.old) (K.faults out.new)) result }
        ensures count { K.faults out.old ≤ K.faults out.new }
    {
        match self.cell.act(line, out) {
            Ok(()) if is_end(line) => LineEnd::Ended,
            Ok(()) => LineEnd::Next,
            Err(CellFault::Refused(rule)) => LineEnd::Refused(Reason::Rule(rule)),
            Err(CellFault::WriteFault) => LineEnd::WriteFault,
            Err(CellFault::NoMemory) => LineEnd::NoMemory,
        }
    }
}

impl Player for CellPlayer {
    type Rule = CellRule;

    ghost State = { CellState };

    ghost Record = { Entry };

    ghost text_of = { entry_text };

    ghost machine = { cell };

    ghost state = { λ m. m.cell };

    fn goes_past(_kept: &[u8]) -> bool {
        false
    }

    fn line<K: Sink>(
        &mut self,
        alloc: Global,
        _number: u32,
        text: &[u8],
        out: &mut K,
    ) -> LineEnd<CellRule> {
        match read_cell_line(alloc, text) {
            Ok(None) => LineEnd::Next,
            Ok(Some(line)) => self.run_line(&line, out),
            Err(LineFault::Refused(refusal)) => LineEnd::Refused(Reason::Line(refusal)),
            Err(LineFault::NoMemory) => LineEnd::NoMemory,
        }
    }

    fn over<K: Sink>(self, out: &mut K) -> Ending<CellRule> {
        let Ok(text) = self.cell.sums() else {
            return Ending::NoMemory;
        };
        match out.put(text.as_slice()) {
            Ok(()) => Ending::Done,
            Err(PutFault::Failed) => Ending::WriteFault,
            Err(PutFault::NoMemory) => Ending::NoMemory,
        }
    }
}
