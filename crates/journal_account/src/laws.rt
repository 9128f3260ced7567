// Laws of the accounts, each proved as the contract of a function that does nothing.
ghost use Rattle.journal_account.specs.Laws.{AccountsAreTrue, ConfirmedAlike};

/// The law that the account of any history tells what the history says.
pub fn accounts_are_true()
    ensures { AccountsAreTrue }
{}

/// The law that `FlowAccount::confirmed` tells of each SDU what `is_confirmed` does.
pub fn confirmed_alike()
    ensures { ConfirmedAlike }
{}
