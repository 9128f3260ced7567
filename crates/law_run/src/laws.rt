ghost use Rattle.law_run.specs.Journals.{LinesAreInRange, EveryJournal};

/// The fields of a line that is read are in their ranges.
pub fn lines_are_in_range()
    ensures { LinesAreInRange }
{}

/// The journal of every script is the records of its accepted lines, each run where it stands, and
/// the sums at its end. Said without the machine: the numbers of its lines grow, and they keep the
/// rules of scripts; its TTIs, its blocks, its keys and COUNTs, what is told of each end, what the
/// test loop returns and the order in which the records of each line stand are as promised. A
/// sender that gave up sends no data PDU and gives up no more up to the next handover, and a sum
/// tells of it exactly then.
/// In each life of an acknowledged data bearer the data PDUs that are told of as new have the
/// numbers 0, 1, 2, .., and those that are sent again have some of the last 512.
/// Where a first `take` or a `discard` of acknowledged data stands, an SDU waits that was submitted
/// before it, and no `take` has a COUNT above the next one, forged blocks or not.
///
/// Where no block was forged, through any losses, repeats, delays and handovers, each acknowledged
/// data bearer has handed up at each end exactly the SDUs that the other took before the first that
/// hasn't come, in order, each once and unchanged, of those that were submitted none left out but
/// what is discarded; behind a drain all of them but these, where no failure of the sender is told
/// since the last handover. Each signalling bearer has handed up exactly the SDUs that were
/// submitted since the last handover before the first that hasn't come, in order, each once and
/// unchanged, and behind a drain all of them, where no such failure is told. Each unacknowledged
/// data bearer has handed up some of the SDUs that were submitted, in order, each once and
/// unchanged, where the records tell, as the sum does, that losses were short in that direction.
///
/// Each `drain` line ends drained, as its last record tells: behind it each acknowledged sender at
/// either end has nothing left, or gave up; and it took at most as many rounds as its budget has.
pub fn every_journal()
    ensures { EveryJournal }
{}
