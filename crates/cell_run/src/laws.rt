ghost use Rattle.cell_run.specs.Alone.{AllAreWritten, AllHaveScripts, AllRunAlone};

/// What each terminal of a cell leaves in the cell's journal is the journal that a run makes of its
/// own script, whatever text says the script's lines, and there is such a text. What the output has
/// of these records are its lines that begin with the terminal's number, without it.
pub fn all_run_alone()
    ensures alone { AllRunAlone }
    ensures scripts { AllHaveScripts }
    ensures written { AllAreWritten }
{}
