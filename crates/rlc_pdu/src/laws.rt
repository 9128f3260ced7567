ghost use Rattle.rlc_pdu.specs.Laws.{UmdAgain, AmdAgain, StatusAgain, CutAgain, DataSizes};
ghost use Rattle.rlc_pdu.specs.Laws.{StatusSizes};
ghost use Rattle.rlc_pdu.specs.Places.{CoversAll, GapsAreFirst};

/// The law that a UMD PDU is read again from the octets that it is written as, and that no other
/// PDU has them.
///
/// This law and those below speak of the definitions that readers and writers meet, and do nothing.
pub fn reads_umd_again()
    ensures { UmdAgain }
{}

/// The law that an AMD PDU or a segment is read again, likewise.
pub fn reads_amd_again()
    ensures { AmdAgain }
{}

/// The law that a STATUS PDU is read again, likewise.
pub fn reads_status_again()
    ensures { StatusAgain }
{}

/// The law that the elements that lengths cut a field into have these lengths and make up the
/// field.
pub fn cuts_again()
    ensures { CutAgain }
{}

/// The law that a header has the octets of its fixed part and 12 bits for each element but the
/// last.
pub fn data_sizes()
    ensures { DataSizes }
{}

/// The law that an entry of a STATUS takes 12 bits, and 30 more with a range.
pub fn status_sizes()
    ensures { StatusSizes }
{}

/// The law that one run of a set of places has all of some places exactly where the set has each of
/// them.
pub fn covers_all()
    ensures { CoversAll }
{}

/// The law that a gap of a set of places is the first largest run of places that aren't in it.
pub fn gaps_are_first()
    ensures { GapsAreFirst }
{}
