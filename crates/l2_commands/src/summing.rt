ghost use Rattle.std.specs.Prelude.{◌≡◌, ◌≤◌, ℕ, List, [], true, None, Some};
ghost use Rattle.l2_io.specs.Known.{HasRisen};
ghost use Rattle.air_text.specs.Ranges.{IsInRange};
ghost use Rattle.air_run.specs.Run.{fresh, step};
ghost use Rattle.air_record.specs.Text.{text_of};
ghost use Rattle.air_run.specs.Journal.{script, left_by};
ghost use Rattle.script_generator.specs.Script.{script as script_of};
ghost use Rattle.script_generator.specs.Lines.{SayAll};
ghost use Rattle.l2_commands.specs.Journals.{PassesLines, sums_of};
ghost use Rattle.line_player.specs.Plays.{RunsLine, HasPlayed, state_of};

use crate::script::finish;
use air_run::{Run, RunRefusal, StepFault};
use air_text::{Line, MOST_LINES};
use l2_io::Sink;
use line_player::{Ending, LineEnd, Reason};
use script_generator::ScriptLines;
use std::alloc::Global;

// Runs one line without its records.
#[tactic(auto, using(line_player::proofs::Nothing::part_nothing))]
fn pass_line(run: &mut Run, line: &Line) -> LineEnd<RunRefusal>
    requires { IsInRange line.now }
    ensures { (number : ℕ)
        → RunsLine text_of (left_by line.now (step (state_of script run.old) number line.now))
        (Some (state_of script run.new)) None None ⊥ result }
{
    let is_end = matches!(line, Line::End);
    match run.pass(line) {
        Ok(()) if is_end => LineEnd::Ended,
        Ok(()) => LineEnd::Next,
        Err(StepFault::Refused(refusal)) => LineEnd::Refused(Reason::Rule(refusal)),
        Err(StepFault::WriteFault) => LineEnd::WriteFault,
        Err(StepFault::NoMemory) => LineEnd::NoMemory,
    }
}

// Runs lines to their end, or to what stops the run: then with its ending.
fn pass_lines(lines: &mut ScriptLines, run: &mut Run) -> Option<Ending<RunRefusal>>
    requires { state_of script run.old ≡ fresh }
    ensures { (octets : List ℕ) → SayAll octets lines.old
        → PassesLines (sums_of true octets) (state_of script run.new) result }
{
    for number in 1..MOST_LINES + 2 {
        let Ok(next) = lines.next() else {
            return Some(Ending::NoMemory);
        };
        let Some(line) = next else {
            return None;
        };
        if number > MOST_LINES {
            return Some(Ending::Refused {
                number,
                reason: Reason::Lines,
            });
        }
        match pass_line(run, &line) {
            LineEnd::Next => {}
            LineEnd::Ended => return None,
            LineEnd::Refused(reason) => return Some(Ending::Refused { number, reason }),
            LineEnd::WriteFault | LineEnd::NoMemory => return Some(Ending::NoMemory),
        }
    }
    unreachable!()
}

/// Plays the script of a number, and writes only what stands at its end. The lines are run as
/// values, without their text.
pub fn sum_script<K: Sink>(alloc: Global, number: u32, out: &mut K) -> Ending<RunRefusal>
    ensures played { HasPlayed text_of sums_of (Some (script_of number)) (Some [])
        (K.written out.old) (K.written out.new) (HasRisen 0 0)
        (HasRisen (K.faults out.old) (K.faults out.new)) result }
    ensures out_count { K.faults out.old ≤ K.faults out.new }
{
    let mut lines = ScriptLines::new(alloc, number);
    let mut run = Run::new(alloc);
    match pass_lines(&mut lines, &mut run) {
        Some(ending) => ending,
        None => finish(run, out),
    }
}
