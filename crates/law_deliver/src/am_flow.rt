//! Laws of the acknowledged bearers of a link: in each direction and each life such a bearer is a
//! flow of both ends of RLC. They speak of the definitions that `bearer` meets, and do nothing.

ghost use Rattle.law_deliver.specs.AmFlow.Air.{ChannelsArePairs};
ghost use Rattle.law_deliver.specs.AmFlow.Carrying.{NumbersStay};
ghost use Rattle.law_deliver.specs.AmFlow.Channels.{CallsReachBearers, BlocksCarryPdus};
ghost use Rattle.law_deliver.specs.AmFlow.Flows.{BearersAreFlows};
ghost use Rattle.law_deliver.specs.AmFlow.Links.{ChannelsAreFlows, NumbersAreOrdered};
ghost use Rattle.law_deliver.specs.AmFlow.Lives.{AddsBegin, MovesBegin};
ghost use Rattle.law_deliver.specs.AmFlow.NoPdus.{CallsBringNoPdu, TurnsTellNoReordering};
ghost use Rattle.law_deliver.specs.AmFlow.Reordering.{BearersTellReordering};
ghost use Rattle.law_deliver.specs.AmFlow.UnderWay.{BlocksCarryFlows, StatusesAreOfReports};
ghost use Rattle.law_deliver.specs.AmFlow.Ups.{EndsTellWhatGoesUp, EndsTellOver, MovesTellTheEnd};

/// Whatever calls both ends of an acknowledged bearer get, where only PDUs come that the other end
/// wrote, what RLC's sender at one end and RLC's receiver at the other come to is what the steps of
/// a flow make of them, in each direction.
#[tactic(auto, using(crate::proofs::AmFlow::Flows::bearers_are_flows))]
pub fn bearers_are_flows()
    ensures { BearersAreFlows }
{}

/// Each call of an end in a life is to its bearer of a channel what calls of its own are: the PDUs
/// of the channel that a block carries come to it one by one, it writes once into a new block,
/// ticks once in a TTI, and nothing of another channel reaches it.
#[tactic(auto, using(crate::proofs::AmFlow::Channels::calls_reach_bearers))]
pub fn calls_reach_bearers()
    ensures { CallsReachBearers }
{}

/// A new block of an end carries on each channel just the PDUs that its bearer writes, in their
/// order, as the other end reads it.
#[tactic(auto, using(crate::proofs::AmFlow::Channels::blocks_carry_pdus))]
pub fn blocks_carry_pdus()
    ensures { BlocksCarryPdus }
{}

/// Two ends whose bearers of a channel are acknowledged and begin a life: whatever calls they get,
/// where HARQ brings only blocks that the other end built, and a new one is built only when the
/// blocks under way are those that processes hold, these bearers come to what the steps of a pair
/// make of them.
#[tactic(auto, using(crate::proofs::AmFlow::Air::channels_are_pairs))]
pub fn channels_are_pairs()
    ensures { ChannelsArePairs }
{}

/// So in each direction RLC's sender at one end and RLC's receiver at the other are those of a
/// flow: what holds of any flow holds of each acknowledged bearer of the two ends, in each life.
pub fn channels_are_flows()
    ensures { ChannelsAreFlows }
{}

/// Whatever the blocks under way carry of the channel is under way in these flows: a data PDU in
/// the one out, a STATUS, as old as its block, in the one back. One that reads as a STATUS has the
/// ACK and the entries of such a report, with 10 bits of their numbers.
pub fn blocks_carry_flows()
    ensures carries { BlocksCarryFlows }
    ensures reads { StatusesAreOfReports }
{}

/// A life of an acknowledged bearer begins, with RLC entities that begin, as the bearer is added
/// and as its end moves.
pub fn lives_begin()
    ensures adds { AddsBegin }
    ensures moves { MovesBegin }
{}

/// On each acknowledged bearer of the two ends, in each direction and at each moment of a life,
/// VT(A) ≤ VR(R) ≤ VR(MS) ≤ VR(H) ≤ VT(S) ≤ VT(A) + 512.
pub fn numbers_are_ordered()
    ensures { NumbersAreOrdered }
{}

/// In each call of a life an end tells of a channel just what its bearer tells in calls of its own.
/// So the SDUs that go up on the channel are those that these hand up: as PDUs come, as a timer
/// expires and as a TTI begins, none as blocks are built, and none of another channel.
#[tactic(auto, using(crate::proofs::AmFlow::Ups::ends_tell_what_goes_up))]
pub fn ends_tell_what_goes_up()
    ensures { EndsTellWhatGoesUp }
{}

/// So through all calls of a life, in which the bearer comes to what its own calls make of it.
#[tactic(auto, using(crate::proofs::AmFlow::Ups::ends_tell_over))]
pub fn ends_tell_over()
    ensures { EndsTellOver }
{}

/// As an end moves it tells of a channel just what its bearer tells at the end of its life, and the
/// bearer begins another.
pub fn moves_tell_the_end()
    ensures { MovesTellTheEnd }
{}

/// In each of its calls an acknowledged bearer tells that t-Reordering starts, or expires, just
/// where its receiver starts it and where it expires there, in this order.
pub fn bearers_tell_reordering()
    ensures { BearersTellReordering }
{}

/// A call of an end in which no block comes brings its bearer of a channel no PDU; and as an
/// acknowledged bearer writes into a new block it tells nothing of t-Reordering.
pub fn calls_bring_no_pdu()
    ensures calls { CallsBringNoPdu }
    ensures turns { TurnsTellNoReordering }
{}

/// Each block keeps the true numbers that its PDUs of the channel were written with, until it is
/// let go: a data PDU the number that the sender gave it, a STATUS its ACK and its entries. With
/// just these they are under way in the flows, at each moment.
pub fn numbers_stay()
    ensures { NumbersStay }
{}
