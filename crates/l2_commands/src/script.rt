// A script, run line by line.
ghost use Rattle.std.specs.Prelude.{◌≡◌, ◌≤◌, Some};
ghost use Rattle.l2_io.specs.Known.{HasRisen};
ghost use Rattle.air_record.specs.Text.{text_of};
ghost use Rattle.air_record.specs.declared.record.Record.{Record};
ghost use Rattle.air_run.specs.Journal.{script, journal_of};
ghost use Rattle.air_run.specs.Run.{RunState, fresh};
ghost use Rattle.line_player.specs.Journal.{finished};
ghost use Rattle.line_player.specs.Plays.{Plays, state_of};
ghost use Rattle.line_player.specs.Playing.{PlaysOn};
ghost use Rattle.line_player.specs.Streams.{input, output};

use air_run::{Run, RunRefusal, StepFault};
use air_text::{Line, LineFault, read_line};
use l2_io::{Sink, Source};
use line_player::{Ending, LineEnd, Player, Reason, play};
use std::alloc::Global;

/// The run of a script.
#[derive(Drop)]
struct ScriptRun {
    run: Run,
}

impl ScriptRun {
    // Before the first line.
    fn new(alloc: Global) -> ScriptRun
        ensures { state_of script result.run ≡ fresh }
    {
        ScriptRun {
            run: Run::new(alloc),
        }
    }
}

impl Player for ScriptRun {
    type Rule = RunRefusal;

    ghost State = { RunState };

    ghost Record = { Record };

    ghost text_of = { text_of };

    ghost machine = { script };

    ghost state = { λ m. state_of script m.run };

    /// Whether it may be a drain, whose records have no bound: what is read of the line and the
    /// word agree as far as both go.
    fn goes_past(kept: &[u8]) -> bool {
        kept.iter()
            .skip_while(|octet| **octet == b' ')
            .zip(b"drain")
            .all(|(octet, letter)| octet == letter)
    }

    #[tactic(auto, using(line_player::proofs::Nothing::part_nothing))]
    fn line<K: Sink>(
        &mut self,
        alloc: Global,
        number: u32,
        text: &[u8],
        out: &mut K,
    ) -> LineEnd<RunRefusal> {
        match read_line(alloc, text) {
            Ok(None) => LineEnd::Next,
            Ok(Some(line)) => {
                let is_end = matches!(&line, Line::End);
                match self.run.step(number, &line, out) {
                    Ok(()) if is_end => LineEnd::Ended,
                    Ok(()) => LineEnd::Next,
                    Err(StepFault::Refused(refusal)) => LineEnd::Refused(Reason::Rule(refusal)),
                    Err(StepFault::WriteFault) => LineEnd::WriteFault,
                    Err(StepFault::NoMemory) => LineEnd::NoMemory,
                }
            }
            Err(LineFault::Refused(refusal)) => LineEnd::Refused(Reason::Line(refusal)),
            Err(LineFault::NoMemory) => LineEnd::NoMemory,
        }
    }

    fn over<K: Sink>(self, out: &mut K) -> Ending<RunRefusal> {
        finish(self.run, out)
    }
}

/// Writes what stands at the end of a script.
pub fn finish<K: Sink>(run: Run, out: &mut K) -> Ending<RunRefusal>
    ensures over { Plays text_of (finished script (state_of script run)) (K.written out.old)
        (K.written out.new) ⊥ (HasRisen (K.faults out.old) (K.faults out.new)) result }
    ensures count { K.faults out.old ≤ K.faults out.new }
{
    match run.finish(out) {
        Ok(()) => Ending::Done,
        Err(StepFault::WriteFault) => Ending::WriteFault,
        Err(StepFault::NoMemory) => Ending::NoMemory,
        // A script isn't refused at its end.
        Err(StepFault::Refused(_)) => unreachable!(),
    }
}

/// Plays the script that a source gives, line by line.
pub fn play_script<S: Source, K: Sink>(
    alloc: Global,
    source: &mut S,
    out: &mut K,
) -> Ending<RunRefusal>
    ensures { PlaysOn text_of journal_of (input S.Source source.old) (input S.Source source.new)
        (output K.Sink out.old) (output K.Sink out.new) result }
{
    play(alloc, ScriptRun::new(alloc), source, out)
}
