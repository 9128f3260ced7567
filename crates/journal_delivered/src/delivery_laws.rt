//! What the checker says of a journal. A law is the contract of a function that does nothing.
ghost use Rattle.journal_delivered.specs.DeliveryLaws.{VerdictIsExact, RightComeInOrder};

/// Behind the groups of any journal, beside the accounts of its flows, the verdict is true exactly
/// where what it hands up of acknowledged data is right.
pub fn verdict_is_exact()
    ensures { VerdictIsExact }
{}

/// Where it is right, what went up on each channel with acknowledged data are SDUs that were
/// submitted, in order, each once and unchanged; where none was discarded, the first of these.
pub fn right_come_in_order()
    ensures { RightComeInOrder }
{}
