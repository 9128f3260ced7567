//! An unacknowledged receiver keeps of each number what the account of its flow keeps of it. A law
//! is the contract of a function that does nothing.

ghost use Rattle.law_um.specs.UmReceiving.{UmOutsetIsAccounted, UmArrivalsAreAccounted};
ghost use Rattle.law_um.specs.UmReceiving.{UmExpiriesAreAccounted, UmHandingIsAccounted};
ghost use Rattle.law_um.specs.UmReceiving.{UmLivesAreAccounted};
ghost use Rattle.law_um.specs.UmLossesTold.{LossesBegin, SendingLosesNone, ArrivalsAreReckoned};
ghost use Rattle.law_um.specs.UmLossesTold.{ExpiriesAreReckoned, LivesAreReckoned};
ghost use Rattle.law_um.specs.UmSending.{UmSendersBegin, UmOffersAreTold, UmPdusAreTold};
ghost use Rattle.law_um.specs.UmWriting.{WritingBegins, WritingIsReckoned, PdusKeepPieces};
ghost use Rattle.law_um.specs.UmTimers.{UmBearersTellReordering, UmBearersBeginBeside};
ghost use Rattle.law_um.specs.UmTimers.{UmBearersGoOnBeside, UmBearersLiveOnBeside};
ghost use Rattle.law_um.specs.UmLived.{UmPairsBegin, UmPairsAreLived, UmPairsLiveOn};
ghost use Rattle.law_um.specs.UmLived.{UmUpsAreJoined, UmUpsAreTrue, PdusComeInTime};
ghost use Rattle.law_um.specs.UmLived.{UmChannelsAreLived};
ghost use Rattle.law_um.specs.UmReading.{UmReadersBegin, UmCallsAreRead, UmLivesAreRead};
ghost use Rattle.law_um.specs.UmReading.{UmEndsAreRead};
ghost use Rattle.law_um.specs.UmGathered.{UmBearersComeOn, UmBearersGoOn, UmBearersLiveOn};
ghost use Rattle.law_um.specs.UmGathered.{UmEventsAreGathered, OtherEventsStayAway};
ghost use Rattle.law_um.specs.UmGathered.{UmToldIsGathered, UmBearersTellOwn, UmCallsAreGathered};
ghost use Rattle.law_um.specs.UmGathered.{UmPdusAreGathered, UmTakesAreGathered};
ghost use Rattle.law_um.specs.UmGathered.{UmArrivalsAreGathered};

/// They begin alike.
pub fn um_outset_is_accounted()
    ensures { UmOutsetIsAccounted }
{}

/// A PDU that comes does to both sides what the reading of its SN says, with what t-Reordering does
/// then.
pub fn um_arrivals_are_accounted()
    ensures { UmArrivalsAreAccounted }
{}

/// So does an expiry of t-Reordering.
pub fn um_expiries_are_accounted()
    ensures { UmExpiriesAreAccounted }
{}

/// Ticks change nothing of it, and an SDU that is handed up is the next of the account.
pub fn um_handing_is_accounted()
    ensures { UmHandingIsAccounted }
{}

/// As a life ends, the receiver hands up what the account joins, and the next begins alike.
pub fn um_lives_are_accounted()
    ensures { UmLivesAreAccounted }
{}

/// As the bearers of a channel come, what a run reckons of its losses is what an empty history says
/// of them: they are short.
pub fn losses_begin()
    ensures { LossesBegin }
{}

/// What is written, and a block that is begun, change nothing of it.
pub fn sending_loses_none()
    ensures { SendingLosesNone }
{}

/// Where a block arrives with a PDU that comes in time, the run reckons losses to be long exactly
/// where the history says so with that PDU, by the true number of the PDU and the places of the
/// SDUs that go up.
pub fn arrivals_are_reckoned()
    ensures { ArrivalsAreReckoned }
{}

/// So does an expiry of t-Reordering.
pub fn expiries_are_reckoned()
    ensures { ExpiriesAreReckoned }
{}

/// And the end of a life, behind which long losses aren't forgotten.
pub fn lives_are_reckoned()
    ensures { LivesAreReckoned }
{}

/// A sender begins as a history without events.
pub fn um_senders_begin()
    ensures { UmSendersBegin }
{}

/// An SDU that is offered waits behind the others, and the history says that RLC took it.
pub fn um_offers_are_told()
    ensures { UmOffersAreTold }
{}

/// A new PDU carries the next octets of the stream; as many SDUs end in it as its fields say, so
/// that the place of the SDU that goes on, or begins, is what the history says.
pub fn um_pdus_are_told()
    ensures { UmPdusAreTold }
{}

/// What a run reckons of a sender is what its history says, from the outset on and as a new PDU is
/// shown: which number is written next, and the place of the SDU that goes on or begins.
pub fn writing_is_reckoned()
    ensures begins { WritingBegins }
    ensures pdus { WritingIsReckoned }
{}

/// The elements of a PDU, and the tags that stand in their place, are kept as the pieces that the
/// history has with the place of the first.
pub fn pdus_keep_pieces()
    ensures { PdusKeepPieces }
{}

/// What an unacknowledged bearer tells of t-Reordering in a call is what its receiver does in it:
/// an arrival may start it, an expiry may start it again, and nothing else is told of it.
pub fn um_bearers_tell_reordering()
    ensures { UmBearersTellReordering }
{}

/// As an unacknowledged bearer comes, its receiver is beside an empty history.
pub fn um_bearers_begin_beside()
    ensures { UmBearersBeginBeside }
{}

/// In each call it goes on by the PDU that comes, if one does, and by what the bearer tells of
/// t-Reordering; what went up is what the history joins.
pub fn um_bearers_go_on_beside()
    ensures { UmBearersGoOnBeside }
{}

/// So it does as a life ends, with what goes up then, and the next one begins.
pub fn um_bearers_live_on_beside()
    ensures { UmBearersLiveOnBeside }
{}

/// As a life of a pair of unacknowledged bearers begins, both ends are beside an empty history of
/// each direction.
pub fn um_pairs_begin()
    ensures { UmPairsBegin }
{}

/// In any steps, with whatever HARQ loses, repeats and turns about, the histories go on: the
/// sender's number and place are those of its history, each PDU under way has the number and the
/// pieces that it was written with, and as it comes the receiver stays beside the history.
pub fn um_pairs_are_lived()
    ensures { UmPairsAreLived }
{}

/// So they do as both ends begin another life.
pub fn um_pairs_live_on()
    ensures { UmPairsLiveOn }
{}

/// All that goes up at an end is what the history of the flow to it joins.
pub fn um_ups_are_joined()
    ensures { UmUpsAreJoined }
{}

/// Where no number came UM_Window_Size or more above VR(UH), they are some of the SDUs that were
/// written, in order, and PDCP reads their COUNTs truly as long as not too many are left out.
pub fn um_ups_are_true()
    ensures { UmUpsAreTrue }
{}

/// Through lives the histories go on so from the outset, and PDUs come in time: a sender writes no
/// number that stands UM_Window_Size or more above one that is under way.
pub fn pdus_come_in_time()
    ensures { PdusComeInTime }
{}

/// So they go on along the steps of two ends with their blocks under way, of whose channel the
/// bearers are those of the pair.
pub fn um_channels_are_lived()
    ensures { UmChannelsAreLived }
{}

/// What goes up of unacknowledged data at a bearer is what PDCP reads, as a checker of journals
/// asks it, of the SDUs that RLC hands up: from the outset on, in each call, through a life, and as
/// it ends, behind which the next one begins with COUNT 0 under other keys.
pub fn um_ups_are_read()
    ensures begins { UmReadersBegin }
    ensures calls { UmCallsAreRead }
    ensures lives { UmLivesAreRead }
    ensures ends { UmEndsAreRead }
{}

/// An unacknowledged bearer is one of its channel, and owes no status report: as it comes, behind
/// each call, and as the next life begins.
pub fn um_bearers_stay_on()
    ensures comes { UmBearersComeOn }
    ensures goes { UmBearersGoOn }
    ensures lives { UmBearersLiveOn }
{}

/// What is gathered from a journal of a call of an unacknowledged bearer is what the histories of
/// its flows have of it. Its events tell the flow that it sends of the PDUs that RLC takes of PDCP,
/// each with its header, and the flow that comes of t-Reordering; those of other channels tell
/// neither of anything. The PDU that it writes then has the number and the pieces that the history
/// of its sender has of it, and a PDU that comes stands before what t-Reordering does then.
pub fn um_calls_are_gathered()
    ensures events { UmEventsAreGathered }
    ensures others { OtherEventsStayAway }
    ensures told { UmToldIsGathered }
    ensures own { UmBearersTellOwn }
    ensures calls { UmCallsAreGathered }
    ensures writes { UmPdusAreGathered }
    ensures takes { UmTakesAreGathered }
    ensures comes { UmArrivalsAreGathered }
{}
