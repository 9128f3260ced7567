//! What follows of journals with what is promised of them. A law is the contract of a function that
//! does nothing.
ghost use Rattle.law_sound.specs.ComingLaws.{SameCountsCome};
ghost use Rattle.law_sound.specs.DeliveryLaw.{DeliveredFollows};
ghost use Rattle.law_sound.specs.StatusLaws.{StatusesAreGathered};
ghost use Rattle.law_sound.specs.ReportLaws.{ReportsAreGathered};
ghost use Rattle.law_sound.specs.HearingLaws.{ReorderingsAreEvents, ReceiversGoOnOver};
ghost use Rattle.law_sound.specs.HearingLaws.{BearersHear, BearersHearData, EndsReportTruly};
ghost use Rattle.law_sound.specs.HearingLaws.{BlocksAreHeard, UnderWayBrings};
ghost use Rattle.law_sound.specs.HearingLaws.{BearersReportTruly, BearersWriteOneData};
ghost use Rattle.law_sound.specs.AirHearing.{LivesBegin, EndsHearByAir, BlocksBringOneData};
ghost use Rattle.law_sound.specs.CallHearing.{BearersHearOver, EndsHearCalls};
ghost use Rattle.law_sound.specs.BlockStatuses.{EndsWriteTruly, ReportsAreTrue};
ghost use Rattle.law_sound.specs.LivedHistories.{EndsGoOnByAir, LivesBeginBeside};
ghost use Rattle.law_sound.specs.LivedHistories.{MovesBeginBeside, LivesGoOnBeside};
ghost use Rattle.law_sound.specs.LivedHistories.{LivesGoOver, LivesWriteTruly};
ghost use Rattle.law_sound.specs.LivedFails.{LivesComeNew, LivesFailRightly, MovesFailNone};
ghost use Rattle.law_sound.specs.LivedFails.{RecordsTellRightly};
ghost use Rattle.law_sound.specs.LivedLimits.{LimitsBegin, LimitsStay};
ghost use Rattle.law_sound.specs.IgnoredLaws.{LogsTellIgnored, NoBlockIsIgnored};
ghost use Rattle.law_sound.specs.GatherLaws.{EventsAreGathered, DataIsGathered};
ghost use Rattle.law_sound.specs.GatherLaws.{TrueStatusIsGathered};
ghost use Rattle.law_sound.specs.RecordLaws.{NewRecordsBuild, LandingRecordsBring};
ghost use Rattle.law_sound.specs.CarriedLaws.{ParcelsBring, CarriedPdusCome};
ghost use Rattle.law_sound.specs.ReorderingLaws.{ReorderingsAreGathered, ToldIsGathered};
ghost use Rattle.law_sound.specs.HeldLaws.{HeldBlocksStay, HeldBlocksAge, NewBlocksAreHeld};
ghost use Rattle.law_sound.specs.LoadLaws.{NewBlocksAreNamed, NewBlocksAreLoaded};
ghost use Rattle.law_sound.specs.LogLaws.{LogsTellCalls, LogsTellFlows};
ghost use Rattle.law_sound.specs.EqualBlocks.{EqualBlocksCarryAlike};
ghost use Rattle.law_sound.specs.BesideLaws.{OtherRecordsLeave, ActsAreGathered, TtisAreGathered};
ghost use Rattle.law_sound.specs.BesideLaws.{BlocksThatComeAreGathered, NewBlocksAreGathered};
ghost use Rattle.law_sound.specs.BesideLaws.{BearersBeginGathered, MovesAreGathered};
ghost use Rattle.law_sound.specs.BesideLaws.{OtherLinesLeave};
ghost use Rattle.law_sound.specs.BesideSteps.{StepsAreGathered};
ghost use Rattle.law_sound.specs.LoggedRecords.{RecordsTellTheLog, OwnRecordsTell};
ghost use Rattle.law_sound.specs.StepReading.{StepsAreRead};
ghost use Rattle.law_sound.specs.GroupReading.{GroupsAreRead};
ghost use Rattle.law_sound.specs.NumberLaws.{NumbersAreGiven, NewPdusAreGathered};
ghost use Rattle.law_sound.specs.SduLaws.{TakenAreTold};
ghost use Rattle.law_sound.specs.AirSending.{EndsSendByAir};
ghost use Rattle.law_sound.specs.FailLaws.{LogsGoOn, ReceiversFailNone, FailsJoin};
ghost use Rattle.law_sound.specs.RunLaws.{RunsTellFlows, RunsDeliver, RunsReportTruly};
ghost use Rattle.law_sound.specs.RunLaws.{RunsTakeRightly, RunsSendRightly, RunsFailRightly};
ghost use Rattle.law_sound.specs.AlikeLaws.{AlikeLivesRunAlike, AlikeHistoriesTellAlike};
ghost use Rattle.law_sound.specs.AlikeLaws.{AlikeJournalsGoOnAlike, JournalsAreAlike};
ghost use Rattle.law_sound.specs.AlikeLaws.{StatusNeedsNoFlags};
ghost use Rattle.law_sound.specs.ElsewhereLaws.{NoneStandsAbove, OthersTellNone, OthersAreRight};
ghost use Rattle.law_sound.specs.NamedLogs.{RecordsNameTheLog, EventsName, EndsSendAsTheyBuild};
ghost use Rattle.law_sound.specs.NamedLogs.{StepsLeaveNoneNamed};
ghost use Rattle.law_sound.specs.NamedSteps.{OtherRecordsWriteNone, CallsAreNumbered};
ghost use Rattle.law_sound.specs.NamedSteps.{NewBlocksHaveForm, BearersStayKnown};
ghost use Rattle.law_sound.specs.NamedSteps.{NewBlocksAreToldOf};
ghost use Rattle.law_sound.specs.AgreeLaws.{JournalsAgreeOnAChannel};

/// Which COUNTs have come of acknowledged data is the same by the octets of its PDUs and by the
/// history of its flow.
pub fn same_counts_come()
    ensures { SameCountsCome }
{}

/// What is handed up of acknowledged data is right where exactly what came is handed up, as it is
/// promised.
pub fn delivered_follows()
    ensures { DeliveredFollows }
{}

/// The journal of every script tells of its flows so, as is promised of it.
pub fn runs_tell_flows()
    ensures { RunsTellFlows }
{}

/// So what the journal of every script hands up of acknowledged data is right as its checker asks
/// it of any journal, through any losses, repeats, delays and handovers, where no block was forged.
pub fn runs_deliver()
    ensures { RunsDeliver }
{}

/// A STATUS that has 10 bits of numbers from VR(R) on is gathered from a journal with them.
pub fn statuses_are_gathered()
    ensures { StatusesAreGathered }
{}

/// So one that a receiver writes is gathered with the numbers that it was written for, and it is
/// true of the history of its flow with them.
pub fn reports_are_gathered()
    ensures { ReportsAreGathered }
{}

/// What happens in calls of a receiver that bring no PDU is what its t-Reordering does in them, and
/// along these events both ends stay beside the history of their flow.
pub fn reorderings_are_events()
    ensures events { ReorderingsAreEvents }
    ensures ends { ReceiversGoOnOver }
{}

/// So an acknowledged bearer stays beside the history of the flow that it hears in each of its
/// calls, by what it tells of t-Reordering; where a data PDU of the flow comes in it, however late,
/// its octets arrive first. A STATUS that it writes then is gathered as one that is true.
pub fn bearers_hear()
    ensures calls { BearersHear }
    ensures data_pdus { BearersHearData }
    ensures statuses { EndsReportTruly }
{}

/// So it does as all PDUs of a block come to it, of which the last one at most is a data PDU: its
/// octets arrive first, and then the history goes on by what the bearer tells of all of them. Of
/// PDUs that are under way in the flow and in the one back, just one that is of the flow is read as
/// a data PDU.
pub fn blocks_are_heard()
    ensures blocks { BlocksAreHeard }
    ensures under_way { UnderWayBrings }
{}

/// So, at each moment of a life of two ends over the air, a block that is under way brings the
/// acknowledged bearer of each channel at the other end what is under way in its flow, and with
/// this, and with what that bearer then tells, both ends stay beside the history of the flow. Each
/// block has one data PDU of the channel at most, behind its STATUS. A life begins with a history
/// without events.
pub fn ends_hear_by_air()
    ensures lives { LivesBegin }
    ensures hearing { EndsHearByAir }
    ensures blocks { BlocksBringOneData }
{}

/// And in each call of an end in which no block comes they stay so by what its bearer of the
/// channel tells in it: with the blocks that come, at each step of the end that hears.
pub fn ends_hear_calls()
    ensures calls { BearersHearOver }
    ensures hearing { EndsHearCalls }
{}

/// The STATUS that an acknowledged bearer writes then, with 3 octets of its share for a subheader,
/// is gathered as one that is true of the flow that it hears; behind it stands one data PDU at
/// most.
pub fn bearers_write()
    ensures statuses { BearersReportTruly }
    ensures data_pdus { BearersWriteOneData }
{}

/// So, at each moment of a life of two ends over the air, a new block that an end builds carries of
/// the channel STATUS PDUs that are gathered as true of the flow that it hears, and behind them one
/// data PDU at most: each that is gathered as a STATUS is true.
pub fn ends_write_truly()
    ensures lives { EndsWriteTruly }
    ensures reports { ReportsAreTrue }
{}

/// So along the lives of two ends over the air both acknowledged bearers of a channel stay beside a
/// history of each of its flows: it begins without events, with each life, and goes on in each step
/// by what the sender's bearer logs, by the data PDUs of a block that comes, with the numbers that
/// they were written with, and by what the receiver's bearer tells of t-Reordering. In each step
/// the SNs of the `fail` records of the sender's bearer are right by the history, and it tells just
/// so many STATUS as ignored as the history ignores; the STATUS PDUs in a new block are gathered as
/// true of it.
pub fn lives_go_on()
    ensures steps { EndsGoOnByAir }
    ensures begins { LivesBeginBeside }
    ensures moves { MovesBeginBeside }
    ensures lives { LivesGoOnBeside }
    ensures over { LivesGoOver }
    ensures writes { LivesWriteTruly }
{}

/// What an acknowledged bearer logs of a call of RLC's sender tells its event, entry by entry and
/// from the history so far: an SDU that is taken, a data PDU, a STATUS that comes and an expiry of
/// t-PollRetransmit; a `fail` record stands in it exactly where the call tells the limit.
pub fn logs_tell_calls()
    ensures { LogsTellCalls }
{}

/// So over any calls, with all else that is logged and whatever happens at the flow's receiver
/// between them, a sender follows the history that the log tells; and the SNs that the log tells
/// are right by this history, as the checker of `fail` records asks it.
pub fn logs_tell_flows()
    ensures { LogsTellFlows }
{}

/// Over any calls the log tells just so many STATUS PDUs as ignored as are ignored by the history
/// that it tells; in a call of an end in which no block comes it tells of none.
pub fn logs_tell_ignored()
    ensures logs { LogsTellIgnored }
    ensures no_block { NoBlockIsIgnored }
{}

/// On a channel with an acknowledged bearer, what is gathered from a journal of a record of its
/// sender's end adds just the event that the log tells of it to the history of the life that runs.
pub fn events_are_gathered()
    ensures { EventsAreGathered }
{}

/// A record of t-Reordering adds just what it tells to the history of the flow that its side hears;
/// no other record of that side adds anything to it. So all that a side tells adds on a channel
/// what is logged of it to the flow that the side sends, and what t-Reordering does to the other.
pub fn reorderings_are_gathered()
    ensures records { ReorderingsAreGathered }
    ensures all { ToldIsGathered }
{}

/// A data PDU whose record names its number is gathered as the log tells it.
pub fn data_is_gathered()
    ensures { DataIsGathered }
{}

/// A STATUS that comes is gathered as the log tells it, where it is gathered with 10 bits of
/// numbers near VT(S).
pub fn true_status_is_gathered()
    ensures { TrueStatusIsGathered }
{}

/// An SDU or a status report that RLC takes on an acknowledged bearer is told in the log with its
/// length, where one record tells it.
pub fn taken_are_told()
    ensures { TakenAreTold }
{}

/// In each step of a life of two ends over the air, whatever call comes to an end and whatever
/// block, both ends stay beside the history of the flow that the acknowledged bearer of the channel
/// sends on there, as it goes on by what this bearer logs in the step; and the SNs of the `fail`
/// records in it are right by this history, as their checker asks it.
pub fn ends_send_by_air()
    ensures { EndsSendByAir }
{}

/// A data PDU that the sender of a flow writes has the number of VT(S), if it is new; else the last
/// number below VT(S) that has its SN.
pub fn numbers_are_given()
    ensures { NumbersAreGiven }
{}

/// So each PDU that an acknowledged bearer writes into a new block, beside the histories of its two
/// flows, is gathered from a journal as the parcel of its own numbers, where its record names it by
/// what it is and by its number: a data PDU of the number that the sender gave it, a STATUS of the
/// ACK and the entries that it was written with.
pub fn new_pdus_are_gathered()
    ensures { NewPdusAreGathered }
{}

/// The records before a canonical block name its PDUs of an acknowledged channel as they are. So
/// such a block is gathered from them just so: among PDUs of other channels, whose parcels are of
/// theirs, stand on an acknowledged channel the parcels of what the block carries, and the history
/// of the flow out has its data PDU as it is written.
pub fn new_blocks_are_loaded()
    ensures names { NewBlocksAreNamed }
    ensures blocks { NewBlocksAreLoaded }
{}

/// So, on an acknowledged channel, what a journal tells that the processes of a side hold stays
/// what the blocks under way of these processes carry: as a new block is built, and through all
/// else in a life.
pub fn held_blocks_stay()
    ensures acts { HeldBlocksStay }
    ensures ttis { HeldBlocksAge }
    ensures builds { NewBlocksAreHeld }
{}

/// And as such a block comes, at any later moment of the life, what its parcels add to the
/// histories is what its PDUs bring: the octets of a data PDU arrive with the number that it was
/// written with, and both ends stay beside the history so; a STATUS is heard with its ACK and its
/// entries, which have true numbers at its sender then.
pub fn carried_pdus_come()
    ensures parcels { ParcelsBring }
    ensures blocks { CarriedPdusCome }
{}

/// Blocks of equal octets that are under way from an end carry the same parcels of an acknowledged
/// channel, at each moment of a life: so which of them comes is no matter to what is gathered.
pub fn equal_blocks_carry_alike()
    ensures { EqualBlocksCarryAlike }
{}

/// So the SNs of all `fail` records in many steps are right by the history where those of each step
/// are: they are told of stretches of it, one behind the other, to which a log adds events. By what
/// happens at the flow's receiver nothing fails.
pub fn fails_join()
    ensures logs { LogsGoOn }
    ensures receivers { ReceiversFailNone }
    ensures stretches { FailsJoin }
{}

/// So the SNs that an end tells of the channel in any steps of one life are right by the history of
/// the flow before these steps and the one behind them, as the checker of `fail` records asks it of
/// a group; and so are those in the records that tell of these steps. As a life ends none is told.
/// The limit that this history is asked by is maxRetxThreshold of the bearer's configuration, in
/// the first life and through all others.
pub fn lives_fail_rightly()
    ensures ends { LivesComeNew }
    ensures lives { LivesFailRightly }
    ensures moves { MovesFailNone }
    ensures records { RecordsTellRightly }
    ensures first { LimitsBegin }
    ensures limits { LimitsStay }
{}

/// So, behind the record of a new block, its process holds what it carries, on an acknowledged
/// channel just that was written, and no PDU is named that isn't in a block; behind a record that
/// tells that the block was got, just what it carries has come.
pub fn records_go_on()
    ensures blocks { NewRecordsBuild }
    ensures landings { LandingRecordsBring }
{}

/// So, at each moment of lives of two ends over the air, the history that is gathered of each flow
/// of an acknowledged channel is the one that both ends stay beside, and what processes hold is
/// what their blocks carry. A record that tells nothing of the flows, and sends or gets no new
/// block, leaves it so. What a side tells in a step in which no block is built or comes takes it to
/// the moment behind the step; so does the record that a block is got which has the octets of the
/// one that was sent last, with what its side then tells; and that of a new block, behind what its
/// side tells and the records that name its PDUs: so do all records of a step. It is so as a bearer
/// of the channel begins, and behind each handover, and no other line changes it.
pub fn records_stay_beside()
    ensures others { OtherRecordsLeave }
    ensures acts { ActsAreGathered }
    ensures ttis { TtisAreGathered }
    ensures blocks { BlocksThatComeAreGathered }
    ensures builds { NewBlocksAreGathered }
    ensures begins { BearersBeginGathered }
    ensures moves { MovesAreGathered }
    ensures lines { OtherLinesLeave }
    ensures steps { StepsAreGathered }
{}

/// What records tell of a channel's flows is just what a side's bearer logs of them, where they log
/// only what that side does, and this is on the channel what its bearer logs. Where the side only
/// tells, each of them is its own, or tells nothing of the flows.
pub fn records_tell_the_log()
    ensures told { RecordsTellTheLog }
    ensures own { OwnRecordsTell }
{}

/// So the records of any steps of a life take what is gathered from a moment of both ends to the
/// one behind them, where they log what these steps do and each new block carries what is named
/// before it: each STATUS of the channel that a new block carries is true of the flow that its side
/// hears, and just those that are ignored as they come are told of. And so the records of each
/// group do in the journal of every script, where no block was forged, on a channel with an
/// acknowledged bearer.
pub fn steps_are_read()
    ensures steps { StepsAreRead }
    ensures groups { GroupsAreRead }
{}

/// Histories are alike that differ only in whether an SDU might have been taken as t-PollRetransmit
/// expired. So are those of the lives that run, and of two such VT(S) and VR(R) are the same; the
/// same STATUS PDUs are true, and as many are ignored.
pub fn alike_histories()
    ensures lives { AlikeLivesRunAlike }
    ensures tells { AlikeHistoriesTellAlike }
{}

/// So what is gathered of a journal stays alike, whatever is said there of these expiries, behind
/// each record, each line and the end of each group: it is alike behind all of its groups, and
/// behind the records of the newest one.
pub fn alike_journals()
    ensures steps { AlikeJournalsGoOnAlike }
    ensures gathered { JournalsAreAlike }
{}

/// So whether the STATUS PDUs of a journal are right, as their checker asks it, doesn't depend on
/// what is said of these expiries.
pub fn status_needs_no_flags()
    ensures { StatusNeedsNoFlags }
{}

/// And what is gathered with two such answers agrees on a channel, where both answer alike there,
/// behind each record, each line and the end of each group.
pub fn journals_agree()
    ensures { JournalsAgreeOnAChannel }
{}

/// In the journal of every script a side tells, of a channel without an acknowledged bearer, no
/// `fail` record and no `drop` record of a STATUS that is ignored: so it is of each LCID above 10,
/// where no bearer stands. So the records of both kinds are right there, as their checkers ask it.
pub fn others_tell_none()
    ensures channels { NoneStandsAbove }
    ensures groups { OthersTellNone }
    ensures right { OthersAreRight }
{}

/// So the STATUS PDUs in the journal of every script are right, as its checker asks it of any
/// journal, through any losses, repeats, delays and handovers, where no block was forged: each that
/// a new block carries is true of the flow that it speaks of, and just those that come with an ACK
/// below VT(A) are ignored, as a `drop` record tells of each.
pub fn runs_report_truly()
    ensures { RunsReportTruly }
{}

/// What RLC takes of acknowledged data, its status reports and what PDCP discards are right in the
/// journal of any script that forges no block, as the checker asks it of any journal: each PDU and
/// each report is the one that is takeable next (TS 36.323 5.1.1, 5.2.1.1, 5.3.1, 5.4).
pub fn runs_take_rightly()
    ensures { RunsTakeRightly }
{}

/// So is what RLC takes and sends of every bearer: of others than acknowledged data the SDUs are
/// taken in their order, with the COUNTs of the life; each new PDU carries the octets that come
/// next of the PDUs that PDCP gives RLC, and each that is sent again octets of its number, which
/// isn't acknowledged; framing info, LIs, SNs and LSFs say where these octets stand (TS 36.322
/// 5.1, 5.2.1, 6.2.2.3 to 6.2.2.8, TS 36.323 5.1.1).
pub fn runs_send_rightly()
    ensures { RunsSendRightly }
{}

/// So are the `fail` records of its flows: a sender tells once of each number that is sent more
/// often than maxRetxThreshold times, by the history of its flow, and then nothing until the next
/// handover (TS 36.322 5.2.1).
pub fn runs_fail_rightly()
    ensures { RunsFailRightly }
{}

/// What is named of a side behind records is what their log tells of it: the PDUs that its end
/// tells of as sent since its last new block. An end tells of none but as it builds a block, which
/// has them all: so behind each step of both ends none is named that isn't in a block.
pub fn records_name_the_log()
    ensures records { RecordsNameTheLog }
    ensures events { EventsName }
    ensures calls { EndsSendAsTheyBuild }
    ensures steps { StepsLeaveNoneNamed }
{}

/// So, where an end builds a new block at a moment of lives of two ends over the air, the `send`
/// records before the block name just its PDUs: the block is canonical and carries them as they are
/// named, where the bearers of the end are known as what they are, as they stay in calls that add
/// none; and new ones of an acknowledged channel have the numbers from VT(S) on, as it is gathered,
/// which only new blocks change.
pub fn new_blocks_are_told_of()
    ensures others { OtherRecordsWriteNone }
    ensures numbers { CallsAreNumbered }
    ensures form { NewBlocksHaveForm }
    ensures known { BearersStayKnown }
    ensures named { NewBlocksAreToldOf }
{}
