//! The octets that wait at senders which nothing acknowledges. The laws speak of the machines that
//! `rlc_um` meets, and of the bearers over them.

ghost use Rattle.law_drain.specs.Others.{OthersFall, OthersNeverRise};
ghost use Rattle.law_drain.specs.Queues.{TransparentFalls, UnacknowledgedFalls};

/// What waits at a sender of unacknowledged mode falls with each PDU that is taken.
pub fn unacknowledged_falls()
    ensures { UnacknowledgedFalls }
{}

/// And so does what waits at a sender of transparent mode.
pub fn transparent_falls()
    ensures { TransparentFalls }
{}

/// What a transparent or unacknowledged bearer has still to send, at RLC and at PDCP over it, rises
/// with no call of a drain, and falls with each PDU that it writes.
pub fn others_fall()
    ensures rest { OthersNeverRise }
    ensures falls { OthersFall }
{}
