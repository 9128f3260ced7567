//! What a PDCP sender has still to give to RLC. The laws speak of the machine that `pdcp_tx` meets.

ghost use Rattle.law_drain.specs.Budget.{UnsentIsLeft};
ghost use Rattle.law_drain.specs.Done.{GivenIsDone};
ghost use Rattle.law_drain.specs.Offers.{OffersStay};
ghost use Rattle.law_drain.specs.Unsent.{UnsentFalls};

/// The octets of the PDUs that are still to be given fall by those of the PDU that RLC takes, and
/// rise with no call but the submission of an SDU and the own report of a life: what is confirmed,
/// reported, discarded or waits for its COUNT adds nothing.
pub fn unsent_falls()
    ensures { UnsentFalls }
{}

/// Through any lives of a sender no call lowers the bound on COUNTs. So where something may be
/// taken, it still may once more is confirmed; and a status report that leaves nothing tells of
/// SDUs that were to be given again.
pub fn offers_stay()
    ensures { OffersStay }
{}

/// A sender of acknowledged data of which RLC has acknowledged all that it was given, with nothing
/// that may be taken, has nothing left at all: the bound on COUNTs holds nothing back then.
pub fn given_is_done()
    ensures { GivenIsDone }
{}

/// What PDCP's sender has still to give is at most the own report, and the SDUs that aren't
/// confirmed, with a header and a MAC-I for each.
pub fn unsent_is_left()
    ensures { UnsentIsLeft }
{}
