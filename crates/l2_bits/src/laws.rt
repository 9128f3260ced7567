ghost use Rattle.l2_bits.specs.Laws.{ReadsWhatWasWritten};

/// The law that bits that were written are the bits that are read, in their order.
///
/// It speaks of the definitions that `BitReader::take` and `BitWriter::put` meet, and does nothing.
pub fn reads_what_was_written()
    ensures { ReadsWhatWasWritten }
{}
