ghost use Rattle.std.specs.Prelude.{◌≡◌, ◌<◌, ◌≤◌, true, false, ℕ, List, None, Some, IfOk};
ghost use Rattle.std.specs.Prelude.{IfErr, IfSome, replicate};
ghost use Rattle.std.specs.List.{All};
ghost use Rattle.l2_node.specs.Sums.{left};
ghost use Rattle.l2_io.specs.Known.{HasRisen};
ghost use Rattle.air_text.specs.Ranges.{IsInRange};
ghost use Rattle.air_run.specs.Playing.{played};
ghost use Rattle.air_run.specs.Rules.{rule_broken, refusal, accepted, is_idle};
ghost use Rattle.air_run.specs.Draining.{shown};
ghost use Rattle.air_run.specs.Written.{noted};
ghost use Rattle.air_run.specs.Putting.{TellsIf};
ghost use Rattle.air_run.specs.Run.{RunState, fresh};
ghost use Rattle.air_record.specs.Text.{texts_of};
ghost use Rattle.air_run.specs.Steps.{Steps, Puts, Finishes};

use crate::journal::{Journal, put};
use crate::playing::play;
use crate::refusal::{RunRefusal, StepFault};
use crate::rules::Rules;
use crate::sums::text_of_sums;
use air_link::Link;
use air_text::Line;
use l2_io::{Sink, SureSink};
use std::alloc::Global;
use std::marker::Model;

/// The run of a script: both ends over the air, what the lines so far rule out, and the journal.
/// Once memory has run out it answers so to every call.
#[derive(Drop)]
pub struct Run {
    alloc: Global,
    dead: bool,
    link: Link,
    rules: Rules,
    journal: Journal,
}

impl Model for Run {
    ghost use Rattle.std.specs.Prelude.{Option, Some, None, if◌then◌else◌};
    ghost use Rattle.air_run.specs.Run.{RunState};

    ghost Value = { Option RunState };

    ghost view = { λ m. if m.dead then None
        else Some (record {
          link = m.link;
          rules = m.rules;
          losses = m.journal.losses;
          buffers = m.journal.buffers;
        }) };
}

impl Run {
    /// A run before the first line. It takes no memory.
    #[tactic(auto, unfolding(crate::specs::Run::fresh))]
    pub fn new(alloc: Global) -> Run
        ensures { result ≡ Some fresh }
    {
        Run {
            alloc,
            dead: false,
            link: Link::new(alloc),
            rules: Rules::new(alloc),
            journal: Journal::new(alloc),
        }
    }

    /// Runs a line and writes its records. A refused line changes nothing and writes nothing.
    #[tactic(auto, using(crate::proofs::Beginning::begun))]
    pub fn step<K: Sink>(&mut self, number: u32, line: &Line, out: &mut K) -> Result<(), StepFault>
        requires { IsInRange line.now }
        ensures step { Steps self.old number line.now self.new (K.written out.old)
            (K.written out.new) (HasRisen (K.faults out.old) (K.faults out.new)) result }
        ensures count { K.faults out.old ≤ K.faults out.new }
    {
        if self.dead {
            return Err(StepFault::NoMemory);
        }
        if let Some(refusal) = self.rules.broken(line, &self.link) {
            return Err(StepFault::Refused(refusal));
        }
        if self.journal.begin(number, line).is_err() {
            self.dead = true;
            return Err(StepFault::NoMemory);
        }
        match run_line(
            &mut self.link,
            &mut self.rules,
            &mut self.journal,
            line,
            out,
        ) {
            Ok(true) => {
                let answer = put(self.journal.text(), out);
                self.dead = answer == Err(StepFault::NoMemory);
                answer
            }
            Ok(false) => Err(StepFault::Refused(RunRefusal::TimerIdle)),
            Err(StepFault::NoMemory) => {
                self.dead = true;
                Err(StepFault::NoMemory)
            }
            Err(StepFault::WriteFault) => Err(StepFault::WriteFault),
            Err(StepFault::Refused(_)) => unreachable!(),
        }
    }

    /// Runs a line as `step` does, whatever its number, and makes no text of its records.
    pub fn pass(&mut self, line: &Line) -> Result<(), StepFault>
        requires { IsInRange line.now }
        ensures { (number : ℕ) → Steps self.old number line.now self.new None None ⊥ result }
    {
        if self.dead {
            return Err(StepFault::NoMemory);
        }
        if let Some(refusal) = self.rules.broken(line, &self.link) {
            return Err(StepFault::Refused(refusal));
        }
        self.journal.begin_muted();
        let mut nowhere = SureSink::new(self.alloc);
        match run_line(
            &mut self.link,
            &mut self.rules,
            &mut self.journal,
            line,
            &mut nowhere,
        ) {
            Ok(true) => Ok(()),
            Ok(false) => Err(StepFault::Refused(RunRefusal::TimerIdle)),
            Err(fault) => {
                self.dead = fault == StepFault::NoMemory;
                Err(fault)
            }
        }
    }

    /// The Buffer Size levels of the terminal's four groups, each below 64, by the buffer status
    /// reports in the uplink blocks that arrived (TS 36.321 6.1.3.1): 0 at first and after a
    /// handover. A forged block tells none. It takes no memory; once memory has run out they
    /// are 0.
    pub fn told(&self) -> [u8; 4]
        ensures levels { IfSome self.now (λ r. result ≡ r.buffers.levels) }
        ensures none { self.now ≡ None → result ≡ replicate 4 0 }
        ensures within { All (λ level. level < 64) result }
    {
        if self.dead {
            return [0; 4];
        }
        self.journal.levels()
    }

    /// The octets that the base station has still to bring over, up to 2^64 - 1. It takes no
    /// memory; once memory has run out it is 0.
    pub fn left_down(&self) -> u64
        ensures octets { IfSome self.now (λ r. result ≡ left r.link.nb) }
        ensures none { self.now ≡ None → result ≡ 0 }
    {
        if self.dead {
            return 0;
        }
        self.link.left_down()
    }

    /// Writes the records at the end: for each bearer the SDUs submitted and delivered. It is never
    /// refused.
    pub fn finish<K: Sink>(self, out: &mut K) -> Result<(), StepFault>
        ensures finish { Finishes self (K.written out.old) (K.written out.new)
            (HasRisen (K.faults out.old) (K.faults out.new)) result }
        ensures count { K.faults out.old ≤ K.faults out.new }
    {
        if self.dead {
            return Err(StepFault::NoMemory);
        }
        let Ok(text) = text_of_sums(self.alloc, &self.link, &self.journal) else {
            return Err(StepFault::NoMemory);
        };
        put(text.as_slice(), out)
    }
}

// Runs a line that breaks no rule, and tells the journal. `false` where it asks for the expiry of a
// timer that doesn't run; then nothing but the journal's text has changed. Of a drain the text is
// put as it arises.
fn run_line<K: Sink>(
    link: &mut Link,
    rules: &mut Rules,
    journal: &mut Journal,
    line: &Line,
    out: &mut K,
) -> Result<bool, StepFault>
    requires range { IsInRange line.now }
    requires allowed { rule_broken line.now rules.old link.old ≡ None }
    ensures idle { IfOk result (λ ran. ran ≡ false
        → refusal line.now rules.old link.old ≡ Some RunRefusal.TimerIdle) }
    ensures link_stays { IfOk result (λ ran. ran ≡ false → link.new ≡ link.old) }
    ensures rules_stay { IfOk result (λ ran. ran ≡ false → rules.new ≡ rules.old) }
    ensures losses_stay { IfOk result (λ ran. ran ≡ false
        → journal.new.losses ≡ journal.old.losses) }
    ensures buffers_stay { IfOk result (λ ran. ran ≡ false
        → journal.new.buffers ≡ journal.old.buffers) }
    ensures allowed { IfOk result (λ ran. ran ≡ true → refusal line.now rules.old link.old ≡ None) }
    ensures link { IfOk result (λ ran. ran ≡ true
        → link.new ≡ shown (played line.now rules.old.keys link.old)) }
    ensures rules { IfOk result (λ ran. ran ≡ true → rules.new ≡ accepted line.now rules.old) }
    ensures put { TellsIf (played line.now rules.old.keys link.old).out
        (noted line.now (played line.now rules.old.keys link.old) journal.old) journal.new
        (K.written out.old) (K.written out.new) (HasRisen (K.faults out.old) (K.faults out.new))
        result }
    ensures count { K.faults out.old ≤ K.faults out.new }
    ensures stays { IfErr result (λ _. is_idle line.now link.old ≡ true
        → K.written out.new ≡ K.written out.old) }
{
    if !play(link, rules, line, journal, out)? {
        return Ok(false);
    }
    rules.accept(line)?;
    Ok(true)
}
