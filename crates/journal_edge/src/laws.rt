ghost use Rattle.journal_edge.specs.EdgeLaws.{VerdictIsExact};

/// The law that the checker finds what goes up right exactly where it is.
pub fn verdict_is_exact()
    ensures { VerdictIsExact }
{}
