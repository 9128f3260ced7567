//! What PDCP's sender of an acknowledged data bearer keeps is what the account of takes keeps, as
//! SDUs are submitted and discarded, RLC takes and confirms, status reports come, and lives end. A
//! law is the contract of a function that does nothing.

ghost use Rattle.law_takes.specs.Laws.{SendersBegin, SubmitsAreAccounted, DiscardsAreAccounted};
ghost use Rattle.law_takes.specs.Laws.{OffersAreAccounted, TakesAreAccounted, LivesAreAccounted};
ghost use Rattle.law_takes.specs.Laws.{ConfirmsAreAccounted, ConfirmedStays, ReportsAreAccounted};
ghost use Rattle.law_takes.specs.Histories.{DeedsAreTold, RunsAreTold, SendersGoByHistory};

/// They begin alike.
pub fn senders_begin()
    ensures { SendersBegin }
{}

/// An SDU that is submitted waits behind the others on both sides.
pub fn submits_are_accounted()
    ensures { SubmitsAreAccounted }
{}

/// The first SDU that waits is discarded on both sides as its timer ends. TTIs change nothing else.
pub fn discards_are_accounted()
    ensures { DiscardsAreAccounted }
{}

/// What RLC may take first, if anything, is what the account says: the status report, or the PDU of
/// a COUNT, with the SDU that the account keeps of it. The first unconfirmed COUNT is U.
pub fn offers_are_accounted()
    ensures { OffersAreAccounted }
{}

/// And as RLC takes it, both sides change alike.
pub fn takes_are_accounted()
    ensures { TakesAreAccounted }
{}

/// As lower layers are re-established, the next life takes again the SDUs that the account says,
/// with the same bound.
pub fn lives_are_accounted()
    ensures { LivesAreAccounted }
{}

/// RLC confirms what it was given at a place: the PDU of a COUNT, or the status report.
pub fn confirms_are_accounted()
    ensures { ConfirmsAreAccounted }
{}

/// To tell the account once more that something is confirmed changes nothing.
pub fn confirmed_stays()
    ensures { ConfirmedStays }
{}

/// A status report of the other end confirms the same COUNTs on both sides.
pub fn reports_are_accounted()
    ensures { ReportsAreAccounted }
{}

/// Whatever happens at the sender is told by an event of its history, or by none: RLC takes only
/// what is takeable by that history, and the sender keeps what its account keeps, with what RLC was
/// given at each place.
pub fn deeds_are_told()
    ensures { DeedsAreTold }
{}

/// So it is behind any run of a sender through its lives.
pub fn runs_are_told()
    ensures { RunsAreTold }
{}

/// And the first unconfirmed COUNT, and what may be taken next, are what the standard says by the
/// history.
pub fn senders_go_by_history()
    ensures { SendersGoByHistory }
{}
