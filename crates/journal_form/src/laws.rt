//! What the checker says of a journal. A law is the contract of a function that does nothing.
ghost use Rattle.journal_form.specs.Laws.{VerdictIsExact};

/// Behind the groups of any journal the verdict is true exactly where they have right form: each
/// new block is the canonical writing of the PDUs that the `send` records before it name (TS 36.321
/// 6.1.2), and the records that show it stand behind it.
pub fn verdict_is_exact()
    ensures { VerdictIsExact }
{}
