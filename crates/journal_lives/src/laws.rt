ghost use Rattle.journal_lives.specs.Laws.{LivesAreTrue};

/// The law that, through lives, the next COUNT of the account is the first that hasn't come.
pub fn lives_are_true()
    ensures { LivesAreTrue }
{}
