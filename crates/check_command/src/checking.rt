ghost use Rattle.line_player.specs.Streams.{streams};
ghost use Rattle.check_command.specs.Checking.{Checks};

use crate::judging::judge;
use crate::telling::tell_verdict;
use l2_io::{Sink, Source};
use line_player::Status;
use std::alloc::Global;

/// Reads a journal, one record's text a line, and tells whether it is sound.
///
/// To `out` goes `sound L` and nothing else, where L is the number of its `line` records; to `errs`
/// the first record that isn't right and why, or what kept the journal from being judged. A line
/// has at most 32,768 octets before its line feed, and at most 100,000,000 lines are read.
pub fn check_journal<S: Source, K: Sink, E: Sink>(
    alloc: Global,
    source: &mut S,
    out: &mut K,
    errs: &mut E,
) -> Status
    ensures { Checks (streams S.Source K.Sink E.Sink source.old out.old errs.old)
        (streams S.Source K.Sink E.Sink source.new out.new errs.new) result }
{
    let verdict = judge(alloc, source);
    tell_verdict(alloc, verdict, out, errs)
}
