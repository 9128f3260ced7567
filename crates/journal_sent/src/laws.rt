//! Whether the PDUs that a journal sends are right. A law is the contract of a function that does
//! nothing.
ghost use Rattle.journal_sent.specs.Laws.{VerdictsAreExact};

/// The verdicts are true exactly where each PDU of the journal carries the octets that it may, and
/// where each header says truly where these stand.
pub fn verdicts_are_exact()
    ensures { VerdictsAreExact }
{}
