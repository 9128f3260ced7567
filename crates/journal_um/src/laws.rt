// Laws of the accounts, each proved as the contract of a function that does nothing.
ghost use Rattle.journal_um.specs.Laws.{UmAccountsAreTrue, TakingIsFree, HandedGrows};
ghost use Rattle.journal_um.specs.Laws.{ReadsNumbers, DropsBelowEdge};
ghost use Rattle.journal_um.specs.LossLaws.{ReadsTruly, AcceptsTruly, LosesOnly, CountsAreRead};

/// The law that the account of any history tells what the history says.
pub fn um_accounts_are_true()
    ensures { UmAccountsAreTrue }
{}

/// The law that SDUs may be taken at any time.
pub fn taking_is_free()
    ensures { TakingIsFree }
{}

/// The law that what goes up only grows, at its end.
pub fn handed_grows()
    ensures { HandedGrows }
{}

/// The law that an SN is read as the one number with it in the window.
pub fn reads_numbers()
    ensures { ReadsNumbers }
{}

/// The law that a number which wasn't accepted is accepted exactly where it isn't below VR(UR).
pub fn drops_below_edge()
    ensures { DropsBelowEdge }
{}

/// The law that, while losses are short and PDUs come in time, each is read as its true number, and
/// what was accepted under a number came with it.
pub fn reads_truly()
    ensures reads { ReadsTruly }
    ensures accepts { AcceptsTruly }
{}

/// The law that what goes up then are some of the SDUs that the sender's PDUs join to, each once,
/// unchanged, in order.
pub fn loses_only()
    ensures { LosesOnly }
{}

/// The law that PDCP then reads the COUNT of each SDU that goes up from its SN, where not too many
/// are left out before one.
pub fn counts_are_read()
    ensures { CountsAreRead }
{}
