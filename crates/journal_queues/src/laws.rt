//! What the checker says of a journal. A law is the contract of a function that does nothing.
ghost use Rattle.journal_queues.specs.QueueLaws.{VerdictIsExact};

/// Behind the groups of any journal whose bearers come to channels that had none, the verdict is
/// true exactly where SDUs leave the queues of bearers without acknowledgement in their order.
pub fn verdict_is_exact()
    ensures { VerdictIsExact }
{}
