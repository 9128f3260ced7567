//! What an acknowledged sender may still send, and when it has nothing to send. The laws speak of
//! the machine that `rlc_am_tx` meets.

ghost use Rattle.law_drain.specs.Budget.{DuesAreLeft};
ghost use Rattle.law_drain.specs.Done.{AcknowledgedIsDone};
ghost use Rattle.law_drain.specs.Dues.{DuesFall};
ghost use Rattle.law_drain.specs.Quiet.{QuietEnds};

/// What a sender owes falls with each data PDU that it sends, by one or more, and rises with no
/// call but the offer of an SDU: so a sender sends only so many data PDUs for what it was offered,
/// or reaches its limit.
pub fn dues_fall()
    ensures { DuesFall }
{}

/// A sender turns quiet, waiting for an acknowledgement with nothing to send, only as what it owes
/// falls; and an expiry of its poll timer leaves none quiet: it names a PDU to be sent again, or
/// the limit is reached.
pub fn quiet_ends()
    ensures { QuietEnds }
{}

/// A sender whose window is empty and that has nothing left to send has nothing left at all: each
/// SDU that was offered is wholly acknowledged.
pub fn acknowledged_is_done()
    ensures { AcknowledgedIsDone }
{}

/// What a sender owes is at most M + 1 times the octets that it was offered and that aren't wholly
/// acknowledged, M being maxRetxThreshold: the octets of the window that aren't acknowledged and
/// those that wait are such octets.
pub fn dues_are_left()
    ensures { DuesAreLeft }
{}
