//! What the window of an acknowledged sender keeps of each number is what the account of its flow
//! keeps of it, as numbers are written, sent again and named; and so what a receiver keeps of what
//! has come. A law is the contract of a function that does nothing.

ghost use Rattle.law_account.specs.Accounted.{OutsetIsAccounted, WritesAreAccounted};
ghost use Rattle.law_account.specs.Accounted.{ResendsAreAccounted, SegmentsAreAccounted};
ghost use Rattle.law_account.specs.Heard.{StatusIsAccounted};
ghost use Rattle.law_account.specs.TrueStatus.{TrueStatusesAreHeard, TrueNumbersAreOne};
ghost use Rattle.law_account.specs.LateStatus.{StatusesAreWrittenAhead, LateStatusesAreHeard};
ghost use Rattle.law_account.specs.Expired.{ExpiryIsAccounted};
ghost use Rattle.law_account.specs.History.{OutsetFollows, CallsFollow, ArrivalsFollow};
ghost use Rattle.law_account.specs.History.{CallsTellLimits};
ghost use Rattle.law_account.specs.HistoryRuns.{DeedsAreTold};
ghost use Rattle.law_account.specs.FlowHistory.{FlowsAreTold, FlowsTellLimits};
ghost use Rattle.law_account.specs.Limit.{SendingIsLimited, StatusIsLimited, ExpiryIsLimited};
ghost use Rattle.law_account.specs.Taken.{TakesAreAccounted, TakesAreLimited};
ghost use Rattle.law_account.specs.Receiving.{ReceiverOutsetIsAccounted, NumbersAreAwaited};
ghost use Rattle.law_account.specs.Receiving.{ArrivalsAreAccounted, ReorderingIsAccounted};
ghost use Rattle.law_account.specs.Receiving.{OtherCallsAreAccounted};
ghost use Rattle.law_account.specs.Reporting.{ReportsAreTrue};
ghost use Rattle.law_account.specs.FlowReceiving.{SenderEventsAreAwaited, AccountsHaveSizesAlike};
ghost use Rattle.law_account.specs.FlowReceiving.{CopiesAreAccounted, HistoriesTellReports};
ghost use Rattle.law_account.specs.EndsTold.{EndsBegin, SendersGoOn, ReceiversGoOn, CopiesGoOn};
ghost use Rattle.law_account.specs.EndsTold.{StatusesGoOn, EndsReport};
ghost use Rattle.law_account.specs.FlowReports.{ReceiversAreTold, FlowsReportTruly};
ghost use Rattle.law_account.specs.Ignored.{IgnoredAreTold, FlowsTellIgnored};

/// They begin alike.
pub fn outset_is_accounted()
    ensures { OutsetIsAccounted }
{}

/// A number that is written is accounted: nothing of it waits, and it was never named.
pub fn writes_are_accounted()
    ensures { WritesAreAccounted }
{}

/// Where a PDU is sent again whole, none of its octets waits any longer on either side.
pub fn resends_are_accounted()
    ensures { ResendsAreAccounted }
{}

/// Where a segment is sent again, just its octets wait no longer on either side.
pub fn segments_are_accounted()
    ensures { SegmentsAreAccounted }
{}

/// So each call of `take` does to both sides what its turn says.
pub fn takes_are_accounted()
    ensures { TakesAreAccounted }
{}

/// A STATUS, entry by entry as the sender reads it, acknowledges, wakes and counts what the account
/// has of it, and VT(A) moves as far.
pub fn status_is_accounted()
    ensures { StatusIsAccounted }
{}

/// The sender reads the true numbers of a STATUS that has 10 bits of each, as a receiver of the
/// flow writes it: none lies above VT(S), and VT(S) lies less than 1024 above each.
pub fn true_statuses_are_heard()
    ensures { TrueStatusesAreHeard }
{}

/// A STATUS has 10 bits of just one ACK and one list of entries so near to VT(S).
pub fn true_numbers_are_one()
    ensures { TrueNumbersAreOne }
{}

/// The ACK and the entries of a STATUS that a receiver of the flow writes lie from VR(R) on, and at
/// most 512 above it.
pub fn statuses_are_written_ahead()
    ensures { StatusesAreWrittenAhead }
{}

/// Whatever is lost, repeated and delayed, the sender reads the true numbers of each STATUS of the
/// flow that comes, however late it does.
pub fn late_statuses_are_heard()
    ensures { LateStatusesAreHeard }
{}

/// An expiry of the poll timer names the same number on both sides, or none.
pub fn expiry_is_accounted()
    ensures { ExpiryIsAccounted }
{}

/// As numbers are written and sent again, none comes to have been named too often.
pub fn sending_is_limited()
    ensures { SendingIsLimited }
{}

/// So none does in a call of `take`, and none fails.
pub fn takes_are_limited()
    ensures { TakesAreLimited }
{}

/// As a STATUS is heard, the limit comes at the sender exactly where the account finds its first
/// number that was named too often, and it is that number.
pub fn status_is_limited()
    ensures { StatusIsLimited }
{}

/// So it does as the poll timer expires.
pub fn expiry_is_limited()
    ensures { ExpiryIsLimited }
{}

/// A receiver and the account of what has arrived begin alike.
pub fn receiver_outset_is_accounted()
    ensures { ReceiverOutsetIsAccounted }
{}

/// As the sender writes a number, the account awaits its octets, and the receiver knows none.
pub fn numbers_are_awaited()
    ensures { NumbersAreAwaited }
{}

/// A PDU that comes, for the first time or again, brings both sides the same octets, and VR(R),
/// VR(MS) and VR(H) move as far; where t-Reordering starts, both mark the same VR(X).
pub fn arrivals_are_accounted()
    ensures { ArrivalsAreAccounted }
{}

/// An expiry of t-Reordering moves VR(MS) as far on both sides.
pub fn reordering_is_accounted()
    ensures { ReorderingIsAccounted }
{}

/// No other call of the receiver changes what is accounted.
pub fn other_calls_are_accounted()
    ensures { OtherCallsAreAccounted }
{}

/// The STATUS that a receiver writes, of whatever size, has 10 bits of the ACK and of the numbers
/// of one that is true by the account.
pub fn reports_are_true()
    ensures { ReportsAreTrue }
{}

/// Whatever happens at the sender changes nothing at the receiver, by the history of their flow.
pub fn sender_events_are_awaited()
    ensures { SenderEventsAreAwaited }
{}

/// Both sides of an account keep the same numbers up to VT(S), each as long.
pub fn accounts_have_sizes_alike()
    ensures { AccountsHaveSizesAlike }
{}

/// In a flow, through losses, repeats and delays, a data PDU that is under way brings the receiver
/// and the account the same octets as it comes, of the number that the sender gave it.
pub fn copies_are_accounted()
    ensures { CopiesAreAccounted }
{}

/// With the true numbers of its ACK and its entries, a STATUS of whatever size is true of the
/// history of its flow as it is written.
pub fn histories_tell_reports()
    ensures { HistoriesTellReports }
{}

/// A sender that begins is what a history without events says.
pub fn outset_follows()
    ensures { OutsetFollows }
{}

/// Along each call, told by its event, the window, the limit and what waits stay what the history
/// says, and the history stays a possible one.
pub fn calls_follow()
    ensures { CallsFollow }
{}

/// So they do whatever happens at the receiver.
pub fn arrivals_follow()
    ensures { ArrivalsFollow }
{}

/// So a call tells an SN as the limit exactly where its event is the one with which the flow fails,
/// by the history alone, and it has 10 bits of the number at which it does.
pub fn calls_tell_limits()
    ensures { CallsTellLimits }
{}

/// Over any calls, with whatever happens at the receiver between them, a sender that follows the
/// history still does; and one SN is told as the limit exactly where the flow fails in them.
pub fn deeds_are_told()
    ensures { DeedsAreTold }
{}

/// Along any steps of a flow, through losses, repeats and delays, its sender keeps what the history
/// of these steps says, and VR(R) is the least number that isn't complete by it.
pub fn flows_are_told()
    ensures { FlowsAreTold }
{}

/// A step of a flow tells an SN as the limit exactly where the flow fails with it, by the history
/// of the steps so far.
pub fn flows_tell_limits()
    ensures { FlowsTellLimits }
{}

/// A sender and a receiver that begin are what a history without events says.
pub fn ends_begin()
    ensures { EndsBegin }
{}

/// Both stay what the history says as the sender is called, and its event told.
pub fn senders_go_on()
    ensures { SendersGoOn }
{}

/// So they do as the receiver is called, and what its timer does is told.
pub fn receivers_go_on()
    ensures { ReceiversGoOn }
{}

/// So they do as a data PDU of their flow comes, however late, and for the first time or again.
pub fn copies_go_on()
    ensures { CopiesGoOn }
{}

/// So they do as a STATUS of their flow comes, however late.
pub fn statuses_go_on()
    ensures { StatusesGoOn }
{}

/// And a STATUS that the receiver writes then is true of the history.
pub fn ends_report()
    ensures { EndsReport }
{}

/// Along any steps of a flow, through losses, repeats and delays, its receiver keeps what the
/// history of these steps says.
pub fn receivers_are_told()
    ensures { ReceiversAreTold }
{}

/// So each STATUS that it writes, of whatever size, is true of the history, with the true numbers
/// of its ACK and its entries.
pub fn flows_report_truly()
    ensures { FlowsReportTruly }
{}

/// A STATUS counts among the ignored ones of a history exactly where its sender ignores it.
pub fn ignored_are_told()
    ensures { IgnoredAreTold }
{}

/// Along any steps of a flow just those STATUS count among the ignored ones of its history that its
/// sender ignores.
pub fn flows_tell_ignored()
    ensures { FlowsTellIgnored }
{}
