//! Laws of both ends of the PDCP of an unacknowledged data bearer, through lives. They speak of the
//! definitions that `pdcp_tx` and `pdcp_rx` meet, and do nothing.

ghost use Rattle.law_pdcp.specs.UmPair.Delivery.{DeliversWhatCame, DeliversSome, TakesAll};
ghost use Rattle.law_pdcp.specs.UmPair.Reading.{WritesEachCount, ReadsEachCount, MisreadsOthers};

/// Whatever is lost, the PDU at a place of what RLC is given in a life is that of the SDU that was
/// taken there, and its COUNT lies as many above the first one of the life as there are places
/// below it.
#[tactic(auto, using(crate::proofs::UmPair::Laws::writes_each))]
pub fn writes_each_count()
    ensures { WritesEachCount }
{}

/// While the losses are short, each PDU that RLC hands up is read as the COUNT that it was written
/// with, and opens to its SDU, which goes up.
#[tactic(auto, using(crate::proofs::UmPair::Laws::reads_each))]
pub fn reads_each_count()
    ensures { ReadsEachCount }
{}

/// The first PDU that RLC hands up after a loss that isn't short is taken for one of a lower COUNT.
#[tactic(auto, using(crate::proofs::UmPair::Laws::misreads))]
pub fn misreads_others()
    ensures { MisreadsOthers }
{}

/// While the losses are short, what goes up are the SDUs whose PDUs RLC handed up, through all
/// lives: in their order, each once and unchanged.
#[tactic(auto, using(crate::proofs::UmPair::Laws::what_came))]
pub fn delivers_what_came()
    ensures { DeliversWhatCame }
{}

/// While the losses are short, what goes up is a part of what was taken, and of what was submitted:
/// in order, each once and unchanged.
#[tactic(auto, using(crate::proofs::UmPair::Submitted::delivers_some))]
pub fn delivers_some()
    ensures { DeliversSome }
{}

/// Where no discard timer is set, the SDUs that were taken, and behind them those that wait, are
/// all that were submitted.
#[tactic(auto, using(crate::proofs::UmPair::Submitted::takes_all))]
pub fn takes_all()
    ensures { TakesAll }
{}
