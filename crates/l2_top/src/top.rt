ghost use Rattle.std.specs.Prelude.{Some};
ghost use Rattle.cli_words.specs.Commands.{command_of};
ghost use Rattle.l2_top.specs.Main.{Does};
ghost use Rattle.line_player.specs.Streams.{streams};
ghost use Rattle.law_run.specs.Journals.{EveryJournal};
ghost use Rattle.law_sound.specs.RunLaws.{RunsDeliver, RunsReportTruly};
ghost use Rattle.law_sound.specs.RunLaws.{RunsFailRightly, RunsSendRightly, RunsTakeRightly};

use crate::{Command, Status, Words};
use check_command::check_journal;
use l2_commands::{decode, generate, run};
use l2_io::{Sink, Source};
use law_run::every_journal;
use law_sound::{
    runs_deliver, runs_fail_rightly, runs_report_truly, runs_send_rightly, runs_take_rightly,
};
use line_player::{refuse_words, tell_no_memory};
use std::alloc::Global;

/// What is told where the words are no command.
const USAGE: &[u8] = b"usage: l2 run | l2 decode | l2 generate N | l2 check\n";

// Obeys a command.
fn obey<S: Source, K: Sink, E: Sink>(
    alloc: Global,
    command: Command,
    source: &mut S,
    out: &mut K,
    errs: &mut E,
) -> Status
    ensures { Does (Some command) (streams S.Source K.Sink E.Sink source.old out.old errs.old)
        (streams S.Source K.Sink E.Sink source.new out.new errs.new) result }
{
    match command {
        Command::Run => run(alloc, source, out, errs),
        Command::Decode => decode(alloc, source, out, errs),
        Command::Check => check_journal(alloc, source, out, errs),
        Command::Generate { number } => generate(alloc, number, out, errs),
    }
}

/// Runs the command that the words name.
///
/// The clause `commands` says, by the command, what is written, and what each answer means;
/// `promises` says what holds of every journal of a script, and is the law `every_journal`. Where
/// no line forged a block, it is right as `l2 check` asks it of any journal: `delivered` says it of
/// what goes up of acknowledged data, `statuses` of the STATUS PDUs, `takes` of what RLC takes, of
/// status reports and of discards, `sends` of what RLC takes and sends of every bearer, `fails` of
/// the `fail` records (TS 36.323 5.1.1, 5.1.2.1.2, 5.3, 5.4, TS 36.322 5.1, 5.2.1, 5.2.3): the
/// laws `runs_deliver`, `runs_report_truly`, `runs_take_rightly`, `runs_send_rightly` and
/// `runs_fail_rightly`.
pub fn l2_main<S: Source, K: Sink, E: Sink>(
    alloc: Global,
    words: &Words,
    source: &mut S,
    out: &mut K,
    errs: &mut E,
) -> Status
    ensures commands { Does (command_of words.now)
        (streams S.Source K.Sink E.Sink source.old out.old errs.old)
        (streams S.Source K.Sink E.Sink source.new out.new errs.new) result }
    ensures promises { EveryJournal }
    ensures delivered { RunsDeliver }
    ensures statuses { RunsReportTruly }
    ensures takes { RunsTakeRightly }
    ensures sends { RunsSendRightly }
    ensures fails { RunsFailRightly }
{
    every_journal();
    runs_deliver();
    runs_report_truly();
    runs_take_rightly();
    runs_send_rightly();
    runs_fail_rightly();
    match words.command() {
        Ok(Some(command)) => obey(alloc, command, source, out, errs),
        Ok(None) => refuse_words(USAGE, errs),
        Err(_) => tell_no_memory(errs),
    }
}
