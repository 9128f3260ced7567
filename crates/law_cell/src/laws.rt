ghost use Rattle.law_cell.specs.Terminals.{EveryTerminal};

use cell_run::all_run_alone;
use law_run::every_journal;

/// What is promised of the journal of every script holds of each terminal's part of a cell's
/// journal, whatever text says the lines of its own script. That there is such a text is a clause
/// of `cell_run::all_run_alone`.
pub fn every_terminal()
    ensures { EveryTerminal }
{
    all_run_alone();
    every_journal();
}
