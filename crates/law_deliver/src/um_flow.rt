//! Laws of both ends of an unacknowledged bearer in one life, and of what is under way between
//! them. They speak of the definitions that `bearer` meets, and do nothing.

ghost use Rattle.law_deliver.specs.UmFlow.Calls.{EndsAreTheirCalls};
ghost use Rattle.law_deliver.specs.UmFlow.Flows.{BearersAreFlows, DeliversInOrder, HandsUpWhatCame};
ghost use Rattle.law_deliver.specs.UmFlow.Flows.{MoreComesLater, NoneLiesBelow};
ghost use Rattle.law_deliver.specs.UmFlow.Handing.{HearsTheRestAtTheEnd, HearsWhatIsHanded};
ghost use Rattle.law_deliver.specs.UmFlow.Lives.{FirstLifeBegins, NextLifeBegins};

/// Whatever calls both ends of an unacknowledged bearer get, where only PDUs come that the other
/// end wrote, what each bearer comes to is what its own calls make of it.
pub fn ends_are_their_calls()
    ensures { EndsAreTheirCalls }
{}

/// In each direction in which losses are short, RLC's sender at one end and RLC's receiver at the
/// other come to what a run of a sender and a run of a receiver make of them, where each PDU that
/// comes is that of a number at most a window below VR(UH) and less than a window above it; what
/// PDCP gave is what was offered, and what RLC handed up is what went up.
pub fn bearers_are_flows()
    ensures { BearersAreFlows }
{}

/// While losses are short, no PDU under way lies more than a window below VR(UH): no number is used
/// while one that lies a window below it, or lower, is under way.
pub fn none_lies_below()
    ensures { NoneLiesBelow }
{}

/// While losses are short, the PDUs that RLC hands up to PDCP, also with those that it puts
/// together as the life ends, are some of those that PDCP gave at the other end, in order, each
/// once and unchanged.
pub fn delivers_in_order()
    ensures { DeliversInOrder }
{}

/// While losses are short these are just the PDUs that came whole in numbers below VR(UR), told by
/// their places among those that PDCP gave, and as the life ends those that came whole.
pub fn hands_up_what_came()
    ensures { HandsUpWhatCame }
{}

/// What came whole so far stays so, whatever happens later, and what is handed up later stands at
/// later places, among those that PDCP has given by then.
pub fn more_comes_later()
    ensures { MoreComesLater }
{}

/// PDCP's receiver hears just what RLC hands up, and what a bearer tells as gone up is just what
/// PDCP's receiver makes of that: in the calls of a life, and as it ends.
pub fn hears_what_is_handed()
    ensures calls { HearsWhatIsHanded }
    ensures end { HearsTheRestAtTheEnd }
{}

/// A life of an unacknowledged bearer begins with RLC entities that begin, as the bearer is added
/// and, whatever calls came, as the next life begins; and nothing that is ready to go up is left
/// over.
#[tactic(auto, using(crate::proofs::UmFlow::Lives::first_life_begins, crate::proofs::UmFlow::Lives::next_life_begins))]
pub fn lives_begin()
    ensures first { FirstLifeBegins }
    ensures next { NextLifeBegins }
{}
