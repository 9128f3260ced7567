ghost use Rattle.air_run.specs.Finality.{ShownIsFinal};

/// Once a line was refused or the end line came, nothing that follows changes the journal.
pub fn shown_is_final()
    ensures { ShownIsFinal }
{}
