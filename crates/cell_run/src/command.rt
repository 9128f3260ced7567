ghost use Rattle.std.specs.Prelude.{◌≡◌, ◌<◌};
ghost use Rattle.cell_run.specs.Alone.{AllAreWritten, AllHaveScripts, AllRunAlone};
ghost use Rattle.cell_run.specs.Cells.{cell_of};
ghost use Rattle.cell_run.specs.Main.{Refuses, Runs};
ghost use Rattle.line_player.specs.Streams.{output, streams};

use crate::CellStatus;
use crate::laws::all_run_alone;
use crate::player::CellPlayer;
use l2_io::{Sink, Source};
use line_player::{play, refuse_words, tell_ending};
use std::alloc::Global;

/// What is told where there are words behind the program's name.
const USAGE: &[u8] = b"usage: l2cell\n";

/// Plays a cell's input, where no word stands behind the program's name; `words` is their number.
///
/// The clause `run` says what is written, and what each answer means; `alone`, `scripts`
/// and `written` say that each terminal's part of a cell's journal is the journal of its own
/// script, and are the law `all_run_alone`.
pub fn cell_main<S: Source, K: Sink, E: Sink>(
    alloc: Global,
    words: usize,
    source: &mut S,
    out: &mut K,
    errs: &mut E,
) -> CellStatus
    ensures usage { 0 < words → Refuses (output E.Sink errs.old) (output E.Sink errs.new) result
        × (S.left source.new ≡ S.left source.old) × (K.written out.new ≡ K.written out.old) }
    ensures run { words ≡ 0 → Runs cell_of
        (streams S.Source K.Sink E.Sink source.old out.old errs.old)
        (streams S.Source K.Sink E.Sink source.new out.new errs.new) result }
    ensures alone { AllRunAlone }
    ensures scripts { AllHaveScripts }
    ensures written { AllAreWritten }
{
    all_run_alone();
    if words > 0 {
        return refuse_words(USAGE, errs);
    }
    let ending = play(alloc, CellPlayer::new(alloc), source, out);
    tell_ending(alloc, ending, errs)
}
