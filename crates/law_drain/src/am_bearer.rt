//! What an acknowledged bearer may still send at one end, PDCP's sender over RLC's, and what a
//! round of a drain costs the flow to the other end. The laws speak of the deeds that the calls of
//! a bearer are.

ghost use Rattle.law_drain.specs.Bearer.{BearerDuesFall, BearerQuietEnds};
ghost use Rattle.law_drain.specs.Done.{IdleIsDrained, SentIsDrained};
ghost use Rattle.law_drain.specs.Ends.{RoundsCostBoth};
ghost use Rattle.law_drain.specs.Left.{BearerDuesAreLeft};
ghost use Rattle.law_drain.specs.Paying.{WritersPay};
ghost use Rattle.law_drain.specs.Round.{FlowsCost};
ghost use Rattle.law_drain.specs.Settled.{BearersSettle, LivesBeginSettled, QuietAwaitsPoll};
ghost use Rattle.law_drain.specs.Signalling.{IdleStandsDrained, SignallingBeginsEmpty};
ghost use Rattle.law_drain.specs.Signalling.{SignallingGoesOnEmpty, SignallingKeepsNone};

/// What a bearer may still send falls with each data PDU that it writes, by one or more, and rises
/// with no call but the submission of an SDU: what PDCP gives to RLC, what PDUs come and which
/// timers expire adds nothing.
pub fn bearer_dues_fall()
    ensures { BearerDuesFall }
{}

/// An acknowledged bearer turns quiet in a drain, RLC's sender waiting for an acknowledgement and
/// PDCP's with nothing to give, only as it may send less; and an expiry of its poll timer leaves
/// none quiet.
pub fn bearer_quiet_ends()
    ensures { BearerQuietEnds }
{}

/// Three times what the near end may still send, what is pending at the far end and whether the
/// near end is quiet: this measure of a flow falls in a round of a drain by one for each data PDU
/// that is written, and never rises. Without data it falls as what was pending settles, and as the
/// poll timer of a quiet end expires.
pub fn flows_cost()
    ensures { FlowsCost }
{}

/// So in a round of a drain, in which each end hears at once just what the other writes, neither of
/// the flows between both ends of a bearer rises, in this measure, and each falls by the data PDUs
/// that its near end writes; and both ends stand as they did before.
pub fn rounds_cost_both()
    ensures { RoundsCostBoth }
{}

/// In each further round in which one of both ends writes a PDU, data or a STATUS, the flows in
/// both directions together fall by one or more.
pub fn writers_pay()
    ensures { WritersPay }
{}

/// A bearer of acknowledged data of which RLC's window is empty, with nothing left to send or to
/// take and no confirmation under way to PDCP, is drained: nothing at all is left in either
/// sender.
pub fn sent_is_drained()
    ensures { SentIsDrained }
{}

/// So a bearer of acknowledged data that needs nothing of a grant is drained, or quiet and waits
/// for its poll timer.
pub fn idle_is_drained()
    ensures { IdleIsDrained }
{}

/// PDCP of a signalling bearer keeps nothing of what it gave RLC, and COUNTs end below its bound:
/// no call changes that, if none is submitted that it refuses. So any acknowledged bearer, of data
/// or of signalling, that needs nothing of a grant is drained, or quiet and waits for its poll
/// timer.
pub fn idle_stands_drained()
    ensures signalling { SignallingKeepsNone }
    ensures any { IdleStandsDrained }
{}

/// An acknowledged bearer settles in each of its calls: where nothing is left to send or to take
/// and something isn't acknowledged, its poll timer runs. So does that of a quiet one, where it
/// runs with a shut window, whichever STATUS comes.
pub fn bearers_settle()
    ensures calls { BearersSettle }
    ensures begins { LivesBeginSettled }
    ensures awaits { QuietAwaitsPoll }
{}

/// PDCP of a signalling bearer keeps nothing as its first life begins, if its first COUNT has 32
/// bits, and as each further one begins.
pub fn signalling_begins_empty()
    ensures first { SignallingBeginsEmpty }
    ensures next { SignallingGoesOnEmpty }
{}

/// What a bearer may still send is at most M + 1 times what it has left: what RLC was offered and
/// isn't wholly acknowledged, the own report, and what isn't confirmed at PDCP, with a header and a
/// MAC-I for each octet.
pub fn bearer_dues_are_left()
    ensures { BearerDuesAreLeft }
{}
