//! What a loop promises over any list of calls, proved as the contract of a function that does
//! nothing.
ghost use Rattle.std.specs.Prelude.{List};
ghost use Rattle.test_loop.specs.LoopHistory.{Call, Returns, world_after, start};

/// Each SDU that was kept is given back once and in order, whole, from the TTI on that is the delay
/// after the one in which the first of those kept was, or from the next set mode on.
pub fn kept_sdus_return_once()
    ensures { (calls : List Call) → Returns (world_after calls start) }
{}
