//! What a bearer promises over any calls and through lives. A law is the contract of a function
//! that does nothing.

ghost use Rattle.law_bearer.specs.AnyBearer.Acknowledged.{SenderGoesOn, ReceiverGoesOn};
ghost use Rattle.law_bearer.specs.AnyBearer.Acknowledged.{WritesWhatRlcGives, HearsAnew};
ghost use Rattle.law_bearer.specs.AnyBearer.Ciphering.{CiphersAsItself, OneTextAKey};
ghost use Rattle.law_bearer.specs.AnyBearer.Keeping.{RestartKeeps};
ghost use Rattle.law_bearer.specs.AnyBearer.Order.{BearersTellInOrder};
ghost use Rattle.law_bearer.specs.AnyBearer.Places.{InTheFirst, InTheOthers};
ghost use Rattle.law_bearer.specs.AnyBearer.Queue.{LeavesInOrder, NamesByPlace};
ghost use Rattle.law_bearer.specs.AnyBearer.Sending.{OffersTheStream, BeginsAnew};
ghost use Rattle.law_bearer.specs.AnyBearer.Stream.{OffersInOrder, TakesOnce};
ghost use Rattle.law_bearer.specs.AnyBearer.Texts.{InALife, ThroughLives, UnderItsKeys};

/// From any moment of a life on, RLC's sender is offered the status report first, where one is
/// owed, and then SDUs by ascending COUNTs, each as its PDU under the life's keys.
pub fn offers_in_order()
    ensures { OffersInOrder }
{}

/// In a life, what calls make of an acknowledged bearer is to RLC's sender what calls of its own
/// are, and those offer it that stream; each life begins with a sender that begins.
#[tactic(auto, using(crate::proofs::AnyBearer::Sendings::offers_the_stream, crate::proofs::AnyBearer::Sendings::begins_anew))]
pub fn offers_the_stream()
    ensures stream { OffersTheStream }
    ensures anew { BeginsAnew }
{}

/// Each call of an acknowledged bearer is to RLC's sender and to its receiver what calls of their
/// own are: PDCP's PDUs and a `take` as it writes, and a STATUS where one is due, the data PDU or
/// the STATUS that arrives, and else only their timers, and what goes up and is confirmed. It
/// writes the PDUs that these give; each life begins with a receiver that begins.
#[tactic(auto, using(crate::proofs::AnyBearer::SenderCalls::sender_goes_on, crate::proofs::AnyBearer::ReceiverCalls::receiver_goes_on, crate::proofs::AnyBearer::SenderCalls::writes_what_rlc_gives, crate::proofs::AnyBearer::ReceiverCalls::hears_anew))]
pub fn calls_both_ends_of_rlc()
    ensures sender { SenderGoesOn }
    ensures receiver { ReceiverGoesOn }
    ensures writes { WritesWhatRlcGives }
    ensures anew { HearsAnew }
{}

/// In each life of an acknowledged data bearer, what PDCP keeps at a place is of the PDU at that
/// place of the stream. RLC's sender confirms by the places of what it was offered, which is the
/// same stream.
pub fn keeps_places()
    ensures first { InTheFirst }
    ensures others { InTheOthers }
{}

/// In a life no COUNT is taken twice.
#[tactic(auto, using(crate::proofs::AnyBearer::Texts::takes_once))]
pub fn takes_once()
    ensures { TakesOnce }
{}

/// On a data bearer SDUs leave the queue in the order in which they were submitted, each once:
/// taken, or discarded.
#[tactic(auto, using(crate::proofs::AnyBearer::Queues::leaves_in_order))]
pub fn leaves_in_order()
    ensures { LeavesInOrder }
{}

/// Through all lives, what an acknowledged data bearer takes with a COUNT is the SDU of that place
/// among those that were taken for the first time.
pub fn names_by_place()
    ensures { NamesByPlace }
{}

/// What the end of a life and the beginning of the next keep, by the kind of the bearer.
#[tactic(auto, using(crate::proofs::AnyBearer::Keeping::restart_keeps))]
pub fn restart_keeps()
    ensures { RestartKeeps }
{}

/// Under the keys of one life no two texts are ciphered with one COUNT; on an acknowledged data
/// bearer not even in two lives, whatever their keys.
#[tactic(auto, using(crate::proofs::AnyBearer::Texts::in_a_life, crate::proofs::AnyBearer::Names::through_lives, crate::proofs::AnyBearer::Keyed::under_its_keys))]
pub fn one_text_a_count()
    ensures life { InALife }
    ensures lives { ThroughLives }
    ensures keys { UnderItsKeys }
{}

/// Through all lives, what a bearer ciphers goes under the keys of its lives, with its own BEARER
/// and with the DIRECTION of its side. Where no two lives have the same key, no two texts meet
/// under one key at one COUNT.
#[tactic(auto, using(crate::proofs::AnyBearer::Ciphering::ciphers_as_itself, crate::proofs::AnyBearer::Ciphering::one_text_a_key))]
pub fn ciphers_one_text_a_key()
    ensures own { CiphersAsItself }
    ensures key { OneTextAKey }
{}

/// What a bearer tells in each of its calls stands in one order, and names its channel: in a new
/// block a STATUS and the start of prohibit, the status report and the SDUs that RLC takes, and one
/// data PDU and the start of poll, or why there is none; of a PDU that comes why it is dropped, or
/// what it does to a timer and then what becomes of each SDU; an expiry, what it starts or that the
/// limit is reached, and what becomes of each SDU; as a TTI begins poll, reorder, prohibit and the
/// discards.
pub fn tells_in_its_order()
    ensures { BearersTellInOrder }
{}
