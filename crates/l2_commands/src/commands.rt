// The commands, each with what it tells of its ending.
ghost use Rattle.air_record.specs.Text.{text_of};
ghost use Rattle.air_run.specs.Journal.{journal_of};
ghost use Rattle.air_run.specs.Refusals.{refusal_word};
ghost use Rattle.l2_commands.specs.Generating.{Generates};
ghost use Rattle.l2_commands.specs.Journals.{blocks_of};
ghost use Rattle.line_player.specs.Answers.{Runs};
ghost use Rattle.line_player.specs.Streams.{output, streams};

use crate::blocks::show_blocks;
use crate::script::play_script;
use crate::summing::sum_script;
use l2_io::{Sink, Source};
use line_player::{Status, tell_ending};
use std::alloc::Global;

/// Plays the script that the source gives, and writes its journal.
///
/// The clause says what is written, and what each answer means.
pub fn run<S: Source, K: Sink, E: Sink>(
    alloc: Global,
    source: &mut S,
    out: &mut K,
    errs: &mut E,
) -> Status
    ensures { Runs text_of refusal_word journal_of
        (streams S.Source K.Sink E.Sink source.old out.old errs.old)
        (streams S.Source K.Sink E.Sink source.new out.new errs.new) result }
{
    let ending = play_script(alloc, source, out);
    tell_ending(alloc, ending, errs)
}

/// Shows the blocks that the source gives, field by field.
///
/// The clause says what is written, and what each answer means.
pub fn decode<S: Source, K: Sink, E: Sink>(
    alloc: Global,
    source: &mut S,
    out: &mut K,
    errs: &mut E,
) -> Status
    ensures { Runs text_of refusal_word blocks_of
        (streams S.Source K.Sink E.Sink source.old out.old errs.old)
        (streams S.Source K.Sink E.Sink source.new out.new errs.new) result }
{
    let ending = show_blocks(alloc, source, out);
    tell_ending(alloc, ending, errs)
}

/// Plays the script of a number, and writes its sums.
///
/// The clause says what is written, and what each answer means.
pub fn generate<K: Sink, E: Sink>(alloc: Global, number: u32, out: &mut K, errs: &mut E) -> Status
    ensures { Generates number (output K.Sink out.old) (output K.Sink out.new)
        (output E.Sink errs.old) (output E.Sink errs.new) result }
{
    let ending = sum_script(alloc, number, out);
    tell_ending(alloc, ending, errs)
}
