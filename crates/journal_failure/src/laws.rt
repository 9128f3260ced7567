//! What the checker says of a journal. A law is the contract of a function that does nothing.
ghost use Rattle.journal_failure.specs.Laws.{VerdictIsExact};

/// Behind the groups of any journal, beside the accounts of its flows, the verdict is true exactly
/// where its `fail` records are right.
pub fn verdict_is_exact()
    ensures { VerdictIsExact }
{}
