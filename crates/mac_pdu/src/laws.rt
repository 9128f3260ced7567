ghost use Rattle.mac_pdu.specs.Laws.{ReadsWhatWasWritten, ReadsOneList, NeverBoth, CanonicalFits};
ghost use Rattle.mac_pdu.specs.Laws.{CanonicalDiffers, WritingGrows};

/// The law that items that are written are the items that are read.
///
/// This law and those below speak of the definitions that reader and builder meet, and do nothing.
pub fn reads_what_was_written()
    ensures { ReadsWhatWasWritten }
{}

/// The law that a block has one list of items.
pub fn reads_one_list()
    ensures { ReadsOneList }
{}

/// The law that a block that has items isn't refused.
pub fn never_both()
    ensures { NeverBoth }
{}

/// The law that a canonical block has the size asked for, and that its items are read from it.
pub fn canonical_fits()
    ensures { CanonicalFits }
{}

/// The law that no two lists of items have one canonical block of one size.
pub fn canonical_differs()
    ensures { CanonicalDiffers }
{}

/// The law that an item more needs at most its octets and three more.
pub fn writing_grows()
    ensures { WritingGrows }
{}
