//! What the grants of a cell promise, proved as the contract of a function that does nothing.
ghost use Rattle.cell_sched.specs.GrantLaws.{IsEnoughForAll};

/// Where the total is enough for 9422 octets to each terminal, each gets its wish, up to 9422.
pub fn enough_for_all()
    ensures { IsEnoughForAll }
{}
