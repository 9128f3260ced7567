//! Laws of the calls of an acknowledged bearer: each is made of deeds that tie its four entities,
//! PDCP's sender and receiver and RLC's sender and receiver, to each other. They speak of the
//! definitions that `bearer` meets, and do nothing.

ghost use Rattle.law_bearer.specs.AmBearer.Calls.{CallsAreDeeds, SignallingCallsAreDeeds};
ghost use Rattle.law_bearer.specs.AmBearer.Sending.{DeedsAreItsCalls, TakesAreItsCalls};
ghost use Rattle.law_bearer.specs.AmBearer.Lives.{RestartsAreDeeds, NothingIsLeftOver};
ghost use Rattle.law_bearer.specs.AmBearer.Lives.{FirstLifeBegins, EndsBeginAlike};
ghost use Rattle.law_bearer.specs.AmBearer.Lives.{DeedsKeepProtection, RestartsProtectAlike};

/// Each call of an acknowledged bearer, of data or of signalling, leaves just what its deeds leave,
/// and hands up just what they hand up; where nothing was left over between the entities before it,
/// nothing is behind it.
pub fn calls_are_deeds()
    ensures of_data { CallsAreDeeds }
    ensures of_signalling { SignallingCallsAreDeeds }
{}

/// What deeds make of RLC's sender is what the calls of it make that stand in them; as a bearer
/// writes these are that it is offered each PDU that PDCP gives, in order, and then that a data PDU
/// is taken.
#[tactic(auto, using(crate::proofs::AmBearer::Sending::deeds_are_its_calls, crate::proofs::AmBearer::Sending::takes_are_its_calls))]
pub fn sends_by_calls()
    ensures deeds { DeedsAreItsCalls }
    ensures takes { TakesAreItsCalls }
{}

/// As a life ends, all that RLC's receiver can put together comes to PDCP's receiver, and all that
/// is ready then goes up; PDCP goes on under the next keys and owes a status report of what it
/// holds, and RLC begins anew.
pub fn restarts_are_deeds()
    ensures { RestartsAreDeeds }
{}

/// In the first life all entities begin, and PDCP's sender at an end and its receiver at the other
/// begin alike, under one protection.
#[tactic(auto, using(crate::proofs::AmBearer::Lives::first_life_begins, crate::proofs::AmBearer::Lives::ends_begin_alike))]
pub fn first_life_begins()
    ensures begins { FirstLifeBegins }
    ensures alike { EndsBeginAlike }
{}

/// Through any calls and lives an acknowledged data bearer stays one, and nothing that is ready to
/// go from one of its entities to the next is left over.
#[tactic(auto, using(crate::proofs::AmBearer::Lives::nothing_is_left_over))]
pub fn nothing_is_left_over()
    ensures { NothingIsLeftOver }
{}

/// What is sent from an end and heard at the other stays protected alike: no deed changes a
/// protection, and a next life of both ends under the same keys begins so too.
#[tactic(auto, using(crate::proofs::AmBearer::Keeping::deeds_keep_protection, crate::proofs::AmBearer::Lives::restarts_protect_alike))]
pub fn protects_alike()
    ensures deeds { DeedsKeepProtection }
    ensures restarts { RestartsProtectAlike }
{}
