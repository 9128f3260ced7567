ghost use Rattle.journal_stream.specs.Laws.{OctetsAreTold, AreSteps};

/// The law that octets are found to come next, and to stand in the data field of a number, exactly
/// where the history says so.
pub fn octets_are_told()
    ensures { OctetsAreTold }
{}

/// The law that each call leaves what is kept of the history with its event.
pub fn calls_are_steps()
    ensures { AreSteps }
{}
