//! What PDCP gives RLC of acknowledged data, as a bearer's calls change it, beside what a checker
//! gathers of it. A law is the contract of a function that does nothing.

ghost use Rattle.journal_given.specs.Supplies.{accounts, histories, History};
ghost use Rattle.journal_takes.specs.FlowTakes.{FlowTakes};
ghost use Rattle.law_given.specs.BearerRecords.{GroupRightOnOneBearer, MayTakeByOneBearer};
ghost use Rattle.law_given.specs.BearerRecords.{RightOnOneBearer, BearersStand, LandedByHistories};
ghost use Rattle.law_given.specs.BearerRecords.{FlowsSayOnOneBearer, OneBearerByHistories};
ghost use Rattle.law_given.specs.BearerRecords.{MayTakeByRecords, RightByRecords, WaitsByRecords};
ghost use Rattle.law_given.specs.OneBearer.{OneBearerByRecords, OneChannelBySteps};
ghost use Rattle.law_given.specs.OneBearer.{OneChannelByGroups};
ghost use Rattle.law_given.specs.Confirming.{SizesBeginTold, SizesGoOnTold, FlowsHaveSizesTold};
ghost use Rattle.law_given.specs.Confirming.{ConfirmsAsTold, StatusesConfirmAsTold};
ghost use Rattle.law_given.specs.Confirming.{OnlyStatusesConfirm, ConfirmedStays};
ghost use Rattle.law_given.specs.Confirming.{FlowsHandUpAsTold};
ghost use Rattle.law_given.specs.Deeds.{DeedsTakeAlike};
ghost use Rattle.law_given.specs.SupplyLaws.{CallsAreGathered, MoreIsTakeable, StatusesAreGathered};
ghost use Rattle.law_given.specs.SupplyLaws.{DataIsGathered, SaidIsRead};
ghost use Rattle.law_given.specs.SupplyLaws.{ArrivalsTellNothing, EndsTellNothing, RefusedStay};
ghost use Rattle.law_given.specs.SupplyLaws.{SuppliesBegin, LivesAreGathered};
ghost use Rattle.law_given.specs.Joined.{BearersAreJoined, ReportsAreRead};
ghost use Rattle.law_given.specs.SupplyLaws.{CallsAreGathered, GivenAreOffered, MoreIsTakeable};
ghost use Rattle.law_given.specs.SupplyLaws.{StatusesAreGathered, DataIsGathered};
ghost use Rattle.law_given.specs.SupplyPdus.{OfferedAreTold, KeptWereSubmitted};
ghost use Rattle.law_given.specs.Saying.{ReportsSayWhatHasCome, EndsSayWhatHasCome};
ghost use Rattle.law_given.specs.Saying.{LivesSayWhatHasCome, CountsComeAsHanded, LivesBeginBeside};
ghost use Rattle.law_given.specs.Saying.{WithinBeside, GivenBeside, EndedBeside, BegunAlike};
ghost use Rattle.law_given.specs.Saying.{DirectionsSayAlike};
ghost use Rattle.law_given.specs.Joined.{BearersAreJoined, ReportsAreRead, PdusAreGiven};
ghost use Rattle.law_given.specs.Joined.{JoinedGoOn, JoinedGoOnInLife, LivesBeginJoined};
ghost use Rattle.law_given.specs.Landing.{BlocksAreLanded, NewsAreAsTold, BringsAsTold};
ghost use Rattle.law_given.specs.Landing.{ReportsAreHeardSo, ReportsBeginInWindow, WindowsStay};
ghost use Rattle.law_given.specs.Landing.{WindowsAreRead};
ghost use Rattle.law_given.specs.Beside.{OwnCallsStayBeside, OtherStepsStayBeside};
ghost use Rattle.law_given.specs.Beside.{BlocksStayBeside, FirstLivesBeginBeside};
ghost use Rattle.law_given.specs.Beside.{NextLivesBeginBeside, NoneConfirmedAnew};
ghost use Rattle.law_given.specs.Beside.{ThoseConfirmedAnew, NewsAscend};

/// What a record leaves of the bearer of a channel follows from the record, that bearer, and the
/// accounts of its flows behind the record.
pub fn one_bearer_by_records()
    ensures histories { OneBearerByRecords History histories }
    ensures accounts { OneBearerByRecords FlowTakes accounts }
{}

/// So what is gathered goes on alone on each channel: there are always 11, and a line, a record and
/// the end of a group leave of one what follows from it.
pub fn one_channel_by_steps()
    ensures histories { OneChannelBySteps History histories }
    ensures accounts { OneChannelBySteps FlowTakes accounts }
{}

/// And so it does behind the groups of a journal, behind the records of a group, and behind its
/// first records.
pub fn one_channel_by_groups()
    ensures histories { OneChannelByGroups History histories }
    ensures accounts { OneChannelByGroups FlowTakes accounts }
{}

/// The `take`, `report` and `discard` records of a group, and of a journal, are right exactly where
/// those of each channel are, each by what the channel alone has before it.
pub fn right_on_one_bearer()
    ensures groups { GroupRightOnOneBearer }
    ensures journals { RightOnOneBearer }
{}

/// Whether RLC may take anything as t-PollRetransmit of a side of a channel expires is told by that
/// channel alone: by what the account of its acknowledged data has next, or by the SDUs that wait.
pub fn may_take_by_one_bearer()
    ensures { MayTakeByOneBearer }
{}

/// A channel has a bearer of acknowledged data exactly where its latest `bearer` line is of one.
pub fn bearers_stand()
    ensures histories { BearersStand History histories }
    ensures accounts { BearersStand FlowTakes accounts }
{}

/// Behind any records with which a group begins, what RLC confirms, which reports come, and which
/// COUNTs have come on a channel is what the histories of its flows say that the journal tells.
pub fn flows_say_on_one_bearer()
    ensures { FlowsSayOnOneBearer }
{}

/// So what a block that comes tells the bearer of acknowledged data of a channel follows from the
/// histories of both its flows.
pub fn landed_by_histories()
    ensures { LandedByHistories }
{}

/// So the bearer of acknowledged data of a channel goes on, record by record and at the end of each
/// group, by what is told of it and the histories of its flows.
pub fn one_bearer_by_histories()
    ensures { OneBearerByHistories }
{}

/// The `take`, `report` and `discard` records of a group are right where each is so by the bearer
/// of its channel before it.
pub fn right_by_records()
    ensures { RightByRecords }
{}

/// So do the SDUs that wait at a side of a channel where its bearer is of another kind, by what is
/// submitted, taken and discarded.
pub fn waits_by_records()
    ensures { WaitsByRecords }
{}

/// Whether RLC may take anything as t-PollRetransmit expires behind the first records of a group is
/// told by the bearer of the channel there, or by the SDUs that wait.
pub fn may_take_by_records()
    ensures { MayTakeByRecords }
{}

/// A history that tells the calls of a flow's sender tells the sizes of the SDUs that RLC was given
/// and of the data fields of the numbers; and so does the history of a flow's steps.
pub fn sizes_are_told()
    ensures begin { SizesBeginTold }
    ensures go_on { SizesGoOnTold }
    ensures flows { FlowsHaveSizesTold }
{}

/// The SDUs that the sender handed over as confirmed, with those that it will hand over next, are
/// exactly those that the history of its flow says are confirmed, each once. As a STATUS comes, the
/// sender adds to what it hands over next those that are confirmed behind it and weren't before it,
/// ascending; whatever else happens, none is newly confirmed; and what is confirmed stays so.
pub fn confirms_as_told()
    ensures all { ConfirmsAsTold }
    ensures news { StatusesConfirmAsTold }
    ensures only { OnlyStatusesConfirm }
    ensures stays { ConfirmedStays }
{}

/// SDUs are in sequence by the history of a flow exactly as far as its receiver handed them up or
/// has them ready, and one is whole by it where all its octets have arrived.
pub fn hands_up_as_told()
    ensures { FlowsHandUpAsTold }
{}

/// What each deed of an acknowledged data bearer makes of its PDCP sender is what happens to the
/// sender: RLC takes what is next, or confirms what it was given at a place; a status report comes;
/// an SDU is submitted or discarded; a TTI begins.
pub fn deeds_take_alike()
    ensures { DeedsTakeAlike }
{}

/// As a call of an acknowledged data bearer takes, submits or discards, what a checker gathers of
/// the events that it tells stays beside PDCP's sender, and each of them is right: what RLC takes
/// is what is takeable next, with the length of its SDU, and a status report says what has come.
pub fn calls_are_gathered()
    ensures { CallsAreGathered }
{}

/// The PDUs that RLC is offered in a call are, event by event of what it tells, the PDU of the SDU
/// that is kept for the COUNT of a `take`, and the status report of a `report`, where the one that
/// is owed is as it is written. What is kept for a COUNT was submitted.
pub fn offered_are_told()
    ensures pdus { OfferedAreTold }
    ensures kept { KeptWereSubmitted }
{}

/// What is counted as given is what RLC was offered, and it may take more of PDCP just where
/// something is takeable by what is gathered.
pub fn more_is_takeable()
    ensures given { GivenAreOffered }
    ensures more { MoreIsTakeable }
{}

/// As a STATUS arrives, PDCP's sender learns just what a checker finds confirmed among what it
/// counted, in the same order.
pub fn statuses_are_gathered()
    ensures { StatusesAreGathered }
{}

/// As a data PDU arrives, PDCP's sender hears the status reports among what RLC hands up, and a
/// checker hears them too.
pub fn data_is_gathered()
    ensures { DataIsGathered }
{}

/// A status report that says which COUNTs have come is read by the sender as just these, where its
/// FMS lies in the window.
pub fn said_is_read()
    ensures { SaidIsRead }
{}

/// What arrives, and what goes up as a life ends, tells nothing of what RLC takes; and what can't
/// be read changes nothing.
pub fn arrivals_tell_nothing()
    ensures arrivals { ArrivalsTellNothing }
    ensures ends { EndsTellNothing }
    ensures refused { RefusedStay }
{}

/// PDCP's sender and what is gathered of it begin alike.
pub fn supplies_begin()
    ensures { SuppliesBegin }
{}

/// And so does the next life, which owes a report of what has come the other way.
pub fn lives_are_gathered()
    ensures { LivesAreGathered }
{}

/// As two ends go on over the air, each direction of a bearer of acknowledged data is a flow of
/// PDCP through all lives and one of RLC in the life that runs, which belong to the bearers and to
/// the account of what is told. What goes back without a COUNT is the report of what had come as
/// the life began.
pub fn bearers_are_joined()
    ensures { BearersAreJoined }
{}

/// What PDCP gave RLC without a COUNT in the life that runs is read as a status report: its FMS as
/// the first COUNT that hadn't come of the other direction as the life began, and it tells those
/// that had. What has a COUNT is read as data.
pub fn reports_are_read()
    ensures { ReportsAreRead }
{}

/// The status report of a receiver says which COUNTs have come: its FMS is the first that hasn't,
/// and its bitmap marks those beyond it that have, up to the greatest. So does the report that is
/// made as a life of a direction ends, of what came in sequence or whole, and by its history.
pub fn reports_say_what_has_come()
    ensures reports { ReportsSayWhatHasCome }
    ensures ends { EndsSayWhatHasCome }
    ensures lives { LivesSayWhatHasCome }
{}

/// By a history beside PDCP's flow the same COUNTs have come as that flow was handed. It stays so
/// from the first life on: as RLC is given a PDU, whatever else happens in a life, and as it ends.
pub fn counts_come_as_handed()
    ensures directions { DirectionsSayAlike }
    ensures same { CountsComeAsHanded }
    ensures begins { LivesBeginBeside }
    ensures within { WithinBeside }
    ensures given { GivenBeside }
    ensures ended { EndedBeside }
    ensures begun { BegunAlike }
{}

/// What RLC was given with a COUNT in the life that runs, and hasn't handed up, is the PDU of the
/// SDU that was taken with the COUNT.
pub fn pdus_are_given()
    ensures { PdusAreGiven }
{}

/// A step further, each direction goes on by what the step tells, and the bearer of each side by
/// the calls of the side in it.
pub fn joined_go_on()
    ensures { JoinedGoOn }
{}

/// As both ends move, nothing is under way, and each owes the other a status report, which is read
/// as the report of the COUNTs that had come whole in the lives before.
pub fn lives_begin_joined()
    ensures { LivesBeginJoined }
{}

/// In a life RLC is given more behind what it was given, by what the step tells, and nothing that
/// has come is lost.
pub fn joined_go_on_in_life()
    ensures { JoinedGoOnInLife }
{}

/// A block of one side comes to the other: its STATUS confirms what RLC was given, and the status
/// report among what RLC hands up is heard, once; so what a checker gathers of both directions goes
/// on beside both senders. What a block confirms and brings is so by the histories of its flows.
pub fn blocks_are_landed()
    ensures landed { BlocksAreLanded }
    ensures news { NewsAreAsTold }
    ensures brings { BringsAsTold }
{}

/// The status report that comes is read as what it says: as two directions belong to their bearers;
/// and where what it says lies in the window, in which it is as the life begins and stays through
/// the life.
pub fn reports_are_heard_so()
    ensures heard { ReportsAreHeardSo }
    ensures begins { ReportsBeginInWindow }
    ensures stays { WindowsStay }
    ensures reads { WindowsAreRead }
{}

/// What a checker gathers of both sides of a bearer of acknowledged data stands beside both ends,
/// the directions between them and the histories of RLC's flows as the first life begins and as
/// each next one does. It stays so in a call of an end, whose events are right; where no bearer of
/// the channel is called; and as a block of one end comes to the other.
pub fn supplies_stay_beside()
    ensures calls { OwnCallsStayBeside }
    ensures others { OtherStepsStayBeside }
    ensures blocks { BlocksStayBeside }
    ensures begins { FirstLivesBeginBeside }
    ensures lives { NextLivesBeginBeside }
{}

/// As a direction goes on, those are newly confirmed by the history of its flow that its sender
/// confirms, and none where it confirms nothing. What one STATUS newly confirms ascends.
pub fn confirmed_anew()
    ensures none { NoneConfirmedAnew }
    ensures those { ThoseConfirmedAnew }
    ensures ascend { NewsAscend }
{}
