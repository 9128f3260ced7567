//! What the rounds of a drain cost the flows of a link, and that they end it within its budget.

ghost use Rattle.law_run.specs.DrainBudget.{BudgetsSuffice, LinesHaveBudgets, MeasuresAreLeft};
ghost use Rattle.law_run.specs.DrainEnds.{DrainsAreDone, LinksHaveCounts, LinksKeepNoSignalling};
ghost use Rattle.law_run.specs.DrainEnds.{LinksMayDrain, RoundsEnd};
ghost use Rattle.law_run.specs.DrainFlows.{BearersStand, FlowsNeverRise, RoundsCostFlows};
ghost use Rattle.law_run.specs.DrainLinks.{LinksAreMeasured, LinksNeverRise};

/// Whatever calls an end has come by, each acknowledged bearer of it, of data or of signalling, is
/// what deeds leave of one with which its running life began, and nothing is left over between its
/// entities.
pub fn bearers_stand()
    ensures { BearersStand }
{}

/// From the ninth TTI of a drain on no flow of an acknowledged bearer rises in a round: three times
/// what its near end may still send, what is pending at the far end and whether the near end is
/// quiet. Each data PDU lowers it by one; and where none comes, so does an expiry of t-Reordering,
/// a STATUS that is written, or an expiry of the poll timer of a quiet end.
pub fn rounds_cost_flows()
    ensures rounds { RoundsCostFlows }
    ensures drains { FlowsNeverRise }
{}

/// And so a measure of the whole link never rises from there on: the sum over any channels that
/// both ends have, of these flows in both directions, and of the octets that wait at transparent
/// and unacknowledged bearers.
pub fn links_never_rise()
    ensures measured { LinksAreMeasured }
    ensures rounds { LinksNeverRise }
{}

/// Whatever lines a link has played, PDCP of a signalling bearer keeps nothing of what it gave RLC,
/// and its COUNTs end below their bound.
pub fn links_keep_no_signalling()
    ensures { LinksKeepNoSignalling }
{}

/// Behind lines of which none forges a block, on a link that may drain, by grants of 200 octets or
/// more: as many rounds behind the eight TTIs as the measure has there, and one more, leave both
/// ends drained.
pub fn rounds_end()
    ensures { RoundsEnd }
{}

/// Behind the first TTIs of a drain, whichever of their blocks are repeats, this measure lies below
/// 1024 times what the link has left as they begin, with 512 octets for each bearer and 64: so it
/// lies below the budget of the drain, COUNTs having 32 bits, since no sum of 64 bits is cut.
pub fn budgets_suffice()
    ensures left { MeasuresAreLeft }
    ensures budget { BudgetsSuffice }
    ensures lines { LinesHaveBudgets }
{}

/// Wherever a `drain` line is accepted the link may drain, whatever lines it has played: both ends
/// have come so far by calls, with eight processes each way, and no loop is on. Whatever lines a
/// link has played, the next COUNT of each bearer is at most 2^32. So both ends are drained behind
/// the line, in no more rounds than its budget has.
pub fn drains_end()
    ensures links { LinksMayDrain }
    ensures counts { LinksHaveCounts }
    ensures lines { DrainsAreDone }
{}
