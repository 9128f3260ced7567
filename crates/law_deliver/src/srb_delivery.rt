//! Laws of delivery of signalling: both ends of a signalling bearer in a life, and from life to
//! life, with what is under way between them. They speak of the definitions that `bearer` meets,
//! and do nothing.

ghost use Rattle.law_deliver.specs.SrbDelivery.Delivery.{DeliversTheFront, DrainedHasDelivered};
ghost use Rattle.law_deliver.specs.SrbDelivery.Arrival.{DeliversInSequence};
ghost use Rattle.law_deliver.specs.SrbDelivery.Losses.{NothingIsLost};
ghost use Rattle.law_deliver.specs.SrbDelivery.Lives.{FirstLifeBegins, NextLifeBegins};
ghost use Rattle.law_deliver.specs.SrbDelivery.Lives.{DeliversInEachLife};

/// What has gone up at an end in a life are the SDUs that the other end submitted first in it,
/// whatever is lost, repeated and delayed: in their order, each once and unchanged, and none left
/// out.
#[tactic(auto, using(crate::proofs::SrbDelivery::Laws::delivers_front))]
pub fn delivers_the_front()
    ensures { DeliversTheFront }
{}

/// They are exactly those before the first whose PDU hasn't come, as the PDUs tell that the one end
/// wrote and that came to the other.
pub fn delivers_in_sequence()
    ensures { DeliversInSequence }
{}

/// Once an end is drained, and its sender hasn't failed, they are all that it submitted in the
/// life.
#[tactic(auto, using(crate::proofs::SrbDelivery::Laws::drained_delivers))]
pub fn drained_has_delivered()
    ensures { DrainedHasDelivered }
{}

/// As both ends are configured the first life begins so at both; and as a life ends at both under
/// the same keys, nothing goes up, what waits is dropped, and the next life begins so with COUNT 0.
pub fn lives_begin()
    ensures first { FirstLifeBegins }
    ensures next { NextLifeBegins }
{}

/// So in each life, however many went before, what has gone up at an end are the SDUs that the
/// other submitted first in it, and once it is drained all of them.
pub fn delivers_in_each_life()
    ensures { DeliversInEachLife }
{}

/// In a life no PDU of PDCP is lost as it is received: each can be read, its MAC-I agrees, and its
/// COUNT is the one that is awaited.
#[tactic(auto, using(crate::proofs::SrbDelivery::Laws::nothing_is_lost))]
pub fn nothing_is_lost()
    ensures { NothingIsLost }
{}
