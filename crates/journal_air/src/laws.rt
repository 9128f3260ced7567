//! What the checker says of a journal. A law is the contract of a function that does nothing.
ghost use Rattle.journal_air.specs.Laws.{VerdictIsExact, RightAirIsAsPromised};

/// Behind the groups of any journal the verdict is true exactly where what they tell of the air is
/// right: their TTIs stand as their lines have it, and what flies in them is as grants, outcomes
/// and HARQ have it (TS 36.321 5.3.2, 5.4.2).
pub fn verdict_is_exact()
    ensures { VerdictIsExact }
{}

/// A journal of which that is true tells of the air as is promised of every journal of ours, once
/// the records of each TTI stand as ours do: its TTIs are numbered on, what flies in them is as
/// grants and outcomes have it, and each process does what HARQ has it do.
pub fn right_air_is_as_promised()
    ensures { RightAirIsAsPromised }
{}
