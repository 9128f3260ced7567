//! Laws of both ends of the PDCP of a signalling bearer, in one direction and in a life. They speak
//! of the definitions that `pdcp_tx` and `pdcp_rx` meet, and do nothing.

ghost use Rattle.law_pdcp.specs.SrbPair.Beginning.{FirstLifeBegins, NextLifeBegins};
ghost use Rattle.law_pdcp.specs.SrbPair.Delivery.{WritesEachCount, ReadsEachCount};
ghost use Rattle.law_pdcp.specs.SrbPair.Delivery.{DeliversTheFront, TakesAll};

/// In the first life both ends begin alike; and once a life ends in which all that is ready has
/// gone up, the next one begins so under the same keys, with COUNT 0: what waits is dropped, and
/// nothing is kept or held.
pub fn lives_begin_alike()
    ensures first { FirstLifeBegins }
    ensures next { NextLifeBegins }
{}

/// What RLC is given are the PDUs of the SDUs that are taken, in their order, with the COUNTs from
/// the first one on.
#[tactic(auto, using(crate::proofs::SrbPair::Laws::writes_each))]
pub fn writes_each_count()
    ensures { WritesEachCount }
{}

/// Each PDU that RLC hands up is read as the COUNT that it was written with, its MAC-I agrees, and
/// it opens to its SDU, which goes up.
#[tactic(auto, using(crate::proofs::SrbPair::Laws::reads_each))]
pub fn reads_each_count()
    ensures { ReadsEachCount }
{}

/// So what goes up are the SDUs that were taken first: in their order, each once and unchanged, and
/// as many as RLC handed up PDUs.
#[tactic(auto, using(crate::proofs::SrbPair::Laws::delivers_front))]
pub fn delivers_the_front()
    ensures { DeliversTheFront }
{}

/// The SDUs that were taken, and behind them those that wait, are all that were submitted.
#[tactic(auto, using(crate::proofs::SrbPair::Laws::takes_all))]
pub fn takes_all()
    ensures { TakesAll }
{}
