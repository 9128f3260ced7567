ghost use Rattle.cell_run.specs.Rules.{rule_word};

use air_run::RunRefusal;
use l2_bits::NoMemory;
use line_player::Rule;
use thiserror::Error;

/// Why a line of the grammar of cells is not run, beside the rules of a terminal's own script.
#[derive(Clone, Copy, Debug, PartialEq, Eq, Error)]
pub enum CellRefusal {
    /// There was no `cell` line as yet.
    #[error("no cell")]
    NoCell = 1,
    /// There was a `cell` line already.
    #[error("cell twice")]
    CellTwice = 2,
    /// The cell has no terminal of this number.
    #[error("unknown user")]
    UnknownUser = 3,
    /// A line that no terminal's script may have of its own: `tti`, `drain`, `forge`, `end`, an
    /// empty line or a comment.
    #[error("not here")]
    NotHere = 4,
}

/// The rule that a line breaks.
#[derive(Clone, Copy, Debug, PartialEq, Eq)]
pub enum CellRule {
    /// One of the cell.
    Cell(CellRefusal),
    /// One of its terminal's script.
    Run(RunRefusal),
}

impl Rule for CellRule {
    ghost word_of = { rule_word };

    fn word(&self) -> &'static str {
        match self {
            CellRule::Cell(CellRefusal::NoCell) => "no cell",
            CellRule::Cell(CellRefusal::CellTwice) => "cell twice",
            CellRule::Cell(CellRefusal::UnknownUser) => "unknown user",
            CellRule::Cell(CellRefusal::NotHere) => "not here",
            CellRule::Run(refusal) => refusal.word(),
        }
    }
}

/// Why a line was not run.
#[derive(Clone, Copy, Debug, PartialEq, Eq)]
pub enum CellFault {
    /// The line is refused; nothing was changed or written.
    Refused(CellRule),
    /// The sink failed.
    WriteFault,
    /// Memory ran out.
    NoMemory,
}

impl From<NoMemory> for CellFault {
    ghost use Rattle.std.specs.Prelude.{◌≡◌};
    ghost use Rattle.cell_run.specs.declared.fault.CellFault.TheVariants.{NoMemory};

    ghost from_gives = { λ _ e. e ≡ NoMemory };

    fn from(_: NoMemory) -> Self {
        CellFault::NoMemory
    }
}
