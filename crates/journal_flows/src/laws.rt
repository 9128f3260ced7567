//! What is gathered of a journal's flows. A law is the contract of a function that does nothing.
ghost use Rattle.journal_flows.specs.Laws.{FlowsAreTold, HistoriesAreLives, FrontsAreLeast};
ghost use Rattle.journal_flows.specs.Laws.{NumbersAreOwn, UmFlowsAreTold, TakingIsFree};
ghost use Rattle.journal_flows.specs.Laws.{TakenGoesUp};

/// The account that is kept of each flow is that of the history that the journal tells, behind
/// groups and behind each record.
pub fn flows_are_told()
    ensures { FlowsAreTold }
{}

/// Each history that a journal tells is one: an event that can't be tells nothing.
pub fn histories_are_lives()
    ensures { HistoriesAreLives }
{}

/// The number from which a STATUS is read on is VR(R) of the flow that it speaks of, the least
/// number that isn't complete.
pub fn fronts_are_least()
    ensures { FrontsAreLeast }
{}

/// A number less than 1024 above another is read from its SN.
pub fn numbers_are_own()
    ensures { NumbersAreOwn }
{}

/// The account that is kept of each unacknowledged flow is that of the history that the journal
/// tells, behind groups and behind each record.
pub fn um_flows_are_told()
    ensures { UmFlowsAreTold }
{}

/// SDUs may be taken at any time: whatever goes in and is taken, the accounts are as if nothing
/// were taken, but for the SDUs that were.
pub fn taking_is_free()
    ensures { TakingIsFree }
{}

/// While a journal is read, what was taken of a flow is a beginning of what goes up of it.
pub fn taken_goes_up()
    ensures { TakenGoesUp }
{}
