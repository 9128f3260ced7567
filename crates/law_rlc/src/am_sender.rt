//! What an acknowledged sender promises over any list of calls. A law is the contract of a function
//! that does nothing.

ghost use Rattle.law_rlc.specs.AmSender.Acked.{BaseIsLeast};
ghost use Rattle.law_rlc.specs.AmSender.Confirmed.{ConfirmsEachOnce};
ghost use Rattle.law_rlc.specs.AmSender.Cutting.{CutIsLongest, CutsElements};
ghost use Rattle.law_rlc.specs.AmSender.Left.{LeavesOnlyUnconfirmed};
ghost use Rattle.law_rlc.specs.AmSender.Limit.{FailsAtLimit};
ghost use Rattle.law_rlc.specs.AmSender.Namings.{CountsNamings};
ghost use Rattle.law_rlc.specs.AmSender.Octets.{WritesTheStream};
ghost use Rattle.law_rlc.specs.AmSender.Polled.{PollsByCauses};
ghost use Rattle.law_rlc.specs.AmSender.Resent.{ResendsTheFirst};
ghost use Rattle.law_rlc.specs.AmSender.Stream.{CarriesTheStream};
ghost use Rattle.law_rlc.specs.AmSender.Watched.{RunsThePollTimer};

/// Whatever calls come, VT(A) is the least number that isn't acknowledged, and VT(S) lies at most
/// 512 above it.
pub fn base_is_least()
    ensures { BaseIsLeast }
{}

/// Of the octets that wait, a segment has the longest stretch from the first that fits with its
/// header and lengths, which is the only one so long.
pub fn cut_is_longest()
    ensures { CutIsLongest }
{}

/// The element lengths of a segment are those of the elements' parts that lie in it.
pub fn cuts_elements()
    ensures { CutsElements }
{}

/// New PDUs carry the octets of the SDUs offered, in their order, each once, and VT(S) is the
/// number of the next.
pub fn carries_the_stream()
    ensures { CarriesTheStream }
{}

/// Each SDU having an octet, a new PDU carries the next octets of the SDUs offered, with the FI and
/// the LIs of their boundaries. What is sent again is a PDU, or the largest segment of it that
/// fits, with octets of its number that wait: those that its new PDU carried, with the SO, the LSF,
/// the FI and the LIs of the stretch.
pub fn writes_the_stream()
    ensures { WritesTheStream }
{}

/// An octet waits to be resent exactly from its naming until it is sent again or its number is
/// acknowledged, and RETX_COUNT tells the namings that counted: the first, and those with an octet
/// that didn't wait.
pub fn counts_namings()
    ensures { CountsNamings }
{}

/// The limit comes exactly with the (maxRetxThreshold + 1)-th counted naming of a number, the least
/// such, and once; after it no data PDU is sent.
pub fn fails_at_limit()
    ensures { FailsAtLimit }
{}

/// What is sent again is what waits first, of the lowest number that waits: the PDU where all its
/// octets wait, or a segment of one octet or more with the first octets that do.
pub fn resends_the_first()
    ensures { ResendsTheFirst }
{}

/// A data PDU has a poll exactly where one of the four causes stands: so many new PDUs or octets
/// since the last poll, an expiry of the poll timer since, or nothing that waits with nothing left
/// to send or to take or the window shut.
pub fn polls_by_causes()
    ensures { PollsByCauses }
{}

/// Unless the limit came, the poll timer runs wherever something isn't acknowledged, nothing waits
/// to be resent, and nothing is left to send or to take, once `settle` was called, or the window is
/// shut. Each SDU has an octet. Each number that a STATUS names lies below its ACK_SN, and an octet
/// of it is named unless it is acknowledged.
pub fn runs_the_poll_timer()
    ensures { RunsThePollTimer }
{}

/// The place of an SDU is confirmed once, exactly if all its octets, one or more, lie in
/// acknowledged PDUs: in the order of the calls that acknowledged the last of them, and ascending
/// where one call did.
pub fn confirms_each_once()
    ensures { ConfirmsEachOnce }
{}

/// Each SDU having an octet, once nothing is left each one that was offered is confirmed.
pub fn leaves_only_unconfirmed()
    ensures { LeavesOnlyUnconfirmed }
{}
