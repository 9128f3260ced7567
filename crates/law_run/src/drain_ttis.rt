//! What a drain makes of the HARQ processes, in which no block is lost. A law is the contract of a
//! function that does nothing.

ghost use Rattle.law_run.specs.DrainTtis.{BearersHearAtOnce, BlocksArriveAtOnce};
ghost use Rattle.law_run.specs.DrainTtis.{BlocksAreHeardAtOnce, FirstHasEight};
ghost use Rattle.law_run.specs.DrainTtis.{LoopsRest, ProcessesClear, StepsKeepEight};
ghost use Rattle.law_run.specs.DrainTtis.{TimersExpireOnce};

/// An end has eight processes each way, whatever the link has played.
pub fn processes_are_eight()
    ensures first { FirstHasEight }
    ensures steps { StepsKeepEight }
{}

/// Behind the TTIs of a drain, each with a grant in both directions, their processes hold no block,
/// and the terminal has decoded the last one of each, whatever they held before and whatever timers
/// expire between them.
pub fn processes_clear()
    ensures { ProcessesClear }
{}

/// Behind eight such TTIs, in a further one with a grant exactly one block goes each way: it is
/// new, and it arrives (TS 36.321 5.3.2, 5.4.2).
pub fn blocks_arrive_at_once()
    ensures { BlocksArriveAtOnce }
{}

/// In such a TTI the bearers of the terminal hear the block that those of the base station have
/// just written, and then the other way round: what stands at both ends depends on no process, and
/// no other block comes.
pub fn blocks_are_heard_at_once()
    ensures { BlocksAreHeardAtOnce }
{}

/// So on each channel that both ends have the bearer of the base station takes once, by its share,
/// and that of the terminal hears just the PDUs that this writes; and then the other way round.
pub fn bearers_hear_at_once()
    ensures { BearersHearAtOnce }
{}

/// Behind a TTI of a drain t-Reordering and t-StatusProhibit of each channel expire once at both
/// ends, and where nothing was sent t-PollRetransmit. No test loop submits anything, since none is
/// on as a drain begins.
pub fn timers_expire_once()
    ensures loops { LoopsRest }
    ensures timers { TimersExpireOnce }
{}
