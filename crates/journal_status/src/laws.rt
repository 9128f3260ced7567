//! What the checker says of a journal. A law is the contract of a function that does nothing.
ghost use Rattle.journal_status.specs.StatusLaws.{VerdictIsExact, AckedAreComplete};

/// Behind the groups of any journal, beside the accounts of its flows, the verdict is true exactly
/// where its STATUS PDUs are right, and the ignored ones are told of.
pub fn verdict_is_exact()
    ensures { VerdictIsExact }
{}

/// Where the STATUS PDUs of a journal are right, and each bearer comes to a channel that had none,
/// every number that is acknowledged is complete: its octets have come.
pub fn acked_are_complete()
    ensures { AckedAreComplete }
{}
