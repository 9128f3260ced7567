//! What is gathered of a journal. A law is the contract of a function that does nothing.
ghost use Rattle.journal_given.specs.Laws.{FlowsAreTied, FlowsSaySo, TakesAreTold};
ghost use Rattle.journal_given.specs.Laws.{TakingIsFree, VerdictIsExact};

/// The accounts of flows are those that `JournalFlows` keeps where it is told whether RLC may take
/// anything as t-PollRetransmit expires.
pub fn flows_are_tied()
    ensures { FlowsAreTied }
{}

/// What RLC confirms, which reports come, and which COUNTs have come is what the histories of flows
/// say that the journal tells.
pub fn flows_say_so()
    ensures { FlowsSaySo }
{}

/// The account that is kept of a side and a channel is that of the history that the journal tells,
/// behind groups and behind each record.
pub fn takes_are_told()
    ensures { TakesAreTold }
{}

/// SDUs that unacknowledged flows hand up may be taken at any time: what is given is as if nothing
/// were taken, but for the accounts of flows.
pub fn taking_is_free()
    ensures { TakingIsFree }
{}

/// The verdict is true exactly where each `take` and each `report` of the journal is right.
pub fn verdict_is_exact()
    ensures { VerdictIsExact }
{}
