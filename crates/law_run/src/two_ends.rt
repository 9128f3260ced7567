//! Laws of what a link plays: its lines are steps of two ends between which only blocks come that
//! the other end built, through lives of their acknowledged bearers. A law is the contract of a
//! function that does nothing.

ghost use Rattle.law_run.specs.TwoEnds.ChannelLog.{EndsLogOnChannels, SidesLogTheirCalls};
ghost use Rattle.law_run.specs.TwoEnds.Coming.{BearersComeByAir, StepsComeByAir, EndsComeByAir};
ghost use Rattle.law_run.specs.TwoEnds.Going.{StepsGoByAir};
ghost use Rattle.law_run.specs.TwoEnds.SenderLog.{CallsGoAlong, EndsGoAlong, EndsGoAlongOver};
ghost use Rattle.law_run.specs.TwoEnds.Staying.{StepsStay, HandoversMove};
ghost use Rattle.law_run.specs.TwoEnds.Lives.{FirstIsAtRest, CallsRest, SubmissionsRest};
ghost use Rattle.law_run.specs.TwoEnds.Lives.{ChannelsBegin};
ghost use Rattle.law_run.specs.TwoEnds.Lived.{EndsLive, BearersLive, StepsLive, RunsLive};
ghost use Rattle.law_run.specs.TwoEnds.Links.{LinksAreFlows, LinksAreOrdered};

/// What a link plays as no other bearer of the channel comes, a TTI with both its blocks, a TTI of
/// a drain, a submission or any other call that forges no block, are steps of its two ends: a block
/// comes only as the other end has just sent it, a new one is built only when the blocks under way
/// are those that processes hold, no end builds two in a TTI, none is under way for more than 216
/// TTIs, and in a handover both ends move under the same keys and nothing is under way behind it.
/// What the records tell of each end is what it tells in its calls, and in one order what both
/// tell, the blocks that they build and those that come, each with its HARQ process. An end is
/// submitted what is handed in and not refused, and at the terminal what the test loop returns, as
/// records tell. Where a step hands in no SDU its records stand where these steps are: those of
/// each tell what both ends log in it, and just the SDUs that the loop submits in it; one that is
/// handed in goes on by itself, by one call of its end and no record, or it is refused, by no step,
/// and one record tells that. And they tell what goes by air on a channel in each direction, in
/// this order: the PDUs that the sending end's PDCP gives RLC, the PDUs of RLC in its new blocks,
/// and those in the blocks that come; a handover ends the life. Where they show the PDUs of the
/// channel as those of unacknowledged RLC they tell, as `um_losses` reads them, just what these
/// steps are to the flow from each side: the PDUs that are written into new blocks, those that
/// come, and the expiries of reordering timers.
pub fn lines_go_by_air()
    ensures { StepsGoByAir }
{}

/// A channel begins at both ends in one line, under one configuration and the same keys, where
/// neither has a bearer of it and nothing is under way: neither has ever had one. Nothing is under
/// way at first, and nothing but a TTI sends.
pub fn lives_begin_by_air()
    ensures first { FirstIsAtRest }
    ensures calls { CallsRest }
    ensures submissions { SubmissionsRest }
    ensures channels { ChannelsBegin }
{}

/// A channel of any kind goes so from the line on in which its bearers come at both ends where
/// nothing is under way, and through any steps since in which no other bearer of it comes and no
/// block is forged. Nothing but its ends and its TTIs so far matters of the link.
pub fn channels_go_by_air()
    ensures bearers { BearersComeByAir }
    ensures steps { StepsComeByAir }
    ensures ends { EndsComeByAir }
{}

/// From the line on in which acknowledged bearers come at both ends, and through any steps since in
/// which no other bearer of the channel comes and no block is forged, both ends live on by air,
/// from life to life; they have these bearers still; the records tell of each end what it tells in
/// all these calls; what it is submitted on each channel in them is what was handed in and what the
/// loop returned, in this order; what goes by air on the channel is what the records of each step
/// tell of it; and in none of them a discard timer is set on the channel, if no line sets one.
/// Nothing but its ends and its TTIs so far matters of the link.
pub fn lives_go_on()
    ensures bearers { BearersLive }
    ensures steps { StepsLive }
    ensures runs { RunsLive }
    ensures ends { EndsLive }
{}

/// So at each moment of such a run, from a link's beginning on, RLC's sender at one end and RLC's
/// receiver at the other are those of a flow, in each direction: what holds of any flow holds of
/// each acknowledged bearer of a link.
pub fn links_are_flows()
    ensures { LinksAreFlows }
{}

/// On each acknowledged bearer of a link, in each direction and at each moment of such a run,
/// VT(A) ≤ VR(R) ≤ VR(MS) ≤ VR(H) ≤ VT(S) ≤ VT(A) + 512.
pub fn links_are_ordered()
    ensures { LinksAreOrdered }
{}

/// In all of them but a handover both ends stay in their cell, so that no life ends. In a handover
/// both move under the same keys, and then only steps of the next life come, by which the test loop
/// may return SDUs; first the records tell what the ends tell as they move, and those behind them
/// stand where these steps are.
pub fn lines_are_of_lives()
    ensures steps { StepsStay }
    ensures handovers { HandoversMove }
{}

/// What an acknowledged bearer tells and writes in a call, behind a PDU that comes to it, is logged
/// along calls of RLC's sender by which it comes to its state: each SDU that is taken from PDCP,
/// the data PDU with its octets, a STATUS that is read and what is told of it, and the expiry of
/// its timer, in this order; nothing else tells of these. So in each call of an end in a life, and
/// in any of them, on each channel with such a bearer.
pub fn calls_go_along()
    ensures bearers { CallsGoAlong }
    ensures ends { EndsGoAlong }
    ensures over { EndsGoAlongOver }
{}

/// And what the end logs of the channel in the call is what its bearer logs: first the PDUs of the
/// channel in a block that comes, whichever HARQ process it is of, then what is told on the
/// channel, and then the PDUs of the channel in a new block. Of what both ends log in one order in
/// any steps, each block with its HARQ process, a side logs on the channel what it logs in its own
/// calls.
pub fn ends_log_on_channels()
    ensures calls { EndsLogOnChannels }
    ensures steps { SidesLogTheirCalls }
{}
