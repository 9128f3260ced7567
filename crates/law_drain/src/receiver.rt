//! What an acknowledged receiver has still to bring about in a drain. The law speaks of the machine
//! that `rlc_am_rx` meets.

ghost use Rattle.law_drain.specs.Pending.{RoundsSettle};

/// A round of a drain leaves at most a STATUS pending where no timer ran before, however a data PDU
/// comes in it. Where no data comes, the timer that a round left running ends, and where none ran a
/// STATUS that is written leaves nothing pending.
pub fn rounds_settle()
    ensures { RoundsSettle }
{}
