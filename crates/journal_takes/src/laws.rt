ghost use Rattle.journal_takes.specs.Laws.{TakesAreTrue, SdusStay};

/// The law that the account tells U, what is takeable and the SDUs of COUNTs as its history says.
pub fn takes_are_true()
    ensures { TakesAreTrue }
{}

/// The law that a COUNT that was taken has the same SDU ever after.
pub fn sdus_stay()
    ensures { SdusStay }
{}
