//! Laws of both ends of the PDCP of an acknowledged data bearer, through lives. They speak of the
//! definitions that `pdcp_tx` and `pdcp_rx` meet, and do nothing.

ghost use Rattle.law_pdcp.specs.AmPair.Between.{LivesBeginInStep, LivesBeginWithAReport};
ghost use Rattle.law_pdcp.specs.AmPair.Expected.{DeliversTheExpected, DeliversAll};
ghost use Rattle.law_pdcp.specs.AmPair.Reading.{ReadsEachCount};

/// Whatever is lost, delayed, discarded and handed over, what goes up is exactly what is expected:
/// the SDUs before the first whose COUNT hasn't come in sequence in this life, or whole in an ended
/// one, in their order, each once and unchanged.
#[tactic(auto, using(crate::proofs::AmPair::Laws::expected))]
pub fn delivers_the_expected()
    ensures { DeliversTheExpected }
{}

/// Each PDU that comes is read as the COUNT that it was written with, and dropped as old exactly
/// where that COUNT has come in sequence before, or whole in an ended life.
#[tactic(auto, using(crate::proofs::AmPair::EachRead::reads_each))]
pub fn reads_each_count()
    ensures { ReadsEachCount }
{}

/// As a life begins, each COUNT below the first that isn't confirmed has come, the receiver expects
/// one at most half the sequence numbers above it, and holds just those that have come from there
/// on.
pub fn lives_begin_in_step()
    ensures { LivesBeginInStep }
{}

/// The status report that the receiver makes as a life ends is read by the sender as one of the
/// COUNT that the receiver expects, and tells just those COUNTs that have come.
pub fn lives_begin_with_a_report()
    ensures { LivesBeginWithAReport }
{}

/// Where RLC has handed up all that it was given and nothing is to be given again, all SDUs that
/// were taken have gone up or are ready to.
#[tactic(auto, using(crate::proofs::AmPair::InStep::delivers_all))]
pub fn delivers_all()
    ensures { DeliversAll }
{}
