ghost use Rattle.std.specs.Prelude.{◌≡◌, ◌≤◌, ◌<◌, IfOk, IfSome, ◌∷◌, ◌++◌};
ghost use Rattle.air_text.specs.Ranges.{IsInRange};
ghost use Rattle.script_generator.specs.Lines.{lines};
ghost use Rattle.script_generator.specs.Fields.{from_step, from_tti, from_sdu, lines_from, IsStep};
ghost use Rattle.script_generator.specs.Fields.{Gave};

use super::draws::Draws;
use super::line::{am_line, handover_line, keys_line, sdu_line, tti_line, um_line};
use air_text::Line;
use l2_bits::NoMemory;
use std::alloc::Global;
use std::marker::Model;

/// A part of a script.
#[derive(Clone, Copy, Debug, PartialEq, Eq)]
pub enum Part {
    Harq,
    Keys,
    Am,
    Um,
    /// A step from its beginning, or the end behind the last.
    Step,
    Sdu,
    Tti,
    End,
    /// Behind the end.
    Over,
}

/// The script of a number, line by line: what the lines of its text say.
#[derive(Drop)]
pub struct ScriptLines {
    alloc: Global,
    draws: Draws,
    // The part of the next line, and its step.
    part: Part,
    at: u32,
}

impl Model for ScriptLines {
    ghost use Rattle.std.specs.Prelude.{List};
    ghost use Rattle.air_record.specs.declared.line.Line.{Line};
    ghost use Rattle.script_generator.specs.Fields.{lines_from, IsStep};

    ghost Value = { List Line };

    ghost view = { λ s. lines_from s.part s.at s.draws };

    ghost invariant = { λ s. IsStep s.part s.at };
}

fn give_tti(part: &mut Part, at: &mut u32, draws: &mut Draws) -> Line
    requires { at.old < 2000 }
    ensures line { from_tti at.old draws.old ≡ result ∷ lines_from part.new at.new draws.new }
    ensures range { IsInRange result }
    ensures place { IsStep part.new at.new }
{
    *part = Part::Step;
    *at += 1;
    tti_line(draws)
}

fn give_sdu(
    alloc: Global,
    part: &mut Part,
    at: &mut u32,
    draws: &mut Draws,
) -> Result<Line, NoMemory>
    requires { at.old < 2000 }
    ensures line { IfOk result (λ line. from_sdu at.old draws.old
        ≡ line ∷ lines_from part.new at.new draws.new) }
    ensures range { IfOk result (λ line. IsInRange line) }
    ensures place { IsStep part.new at.new }
{
    *part = Part::Tti;
    match sdu_line(alloc, *at, draws)? {
        Some(line) => Ok(line),
        None => Ok(give_tti(part, at, draws)),
    }
}

fn give_step(
    alloc: Global,
    part: &mut Part,
    at: &mut u32,
    draws: &mut Draws,
) -> Result<Line, NoMemory>
    requires { at.old ≤ 2000 }
    ensures line { IfOk result (λ line. from_step at.old draws.old
        ≡ line ∷ lines_from part.new at.new draws.new) }
    ensures range { IfOk result (λ line. IsInRange line) }
    ensures place { IsStep part.new at.new }
{
    if *at == 2000 {
        *part = Part::End;
        return Ok(Line::Drain { grant: 1500 });
    }
    *part = Part::Sdu;
    match handover_line(*at) {
        Some(line) => Ok(line),
        None => give_sdu(alloc, part, at, draws),
    }
}

impl ScriptLines {
    /// The script of a number, before its first line. It takes no memory.
    #[tactic(auto, unfolding(crate::specs::Lines::lines))]
    pub fn new(alloc: Global, number: u32) -> ScriptLines
        ensures { result ≡ lines number }
    {
        ScriptLines {
            alloc,
            draws: Draws::new(number),
            part: Part::Harq,
            at: 0,
        }
    }

    /// Gives the next line, and none behind the last. Where memory runs out, a line may be lost.
    pub fn next(&mut self) -> Result<Option<Line>, NoMemory>
        ensures line { IfOk result (λ line. Gave self.old self.new line) }
        ensures range { IfOk result (λ line. IfSome line IsInRange) }
    {
        match self.part {
            Part::Harq => {
                self.part = Part::Keys;
                Ok(Some(Line::Harq { visits: 4 }))
            }
            Part::Keys => {
                self.part = Part::Am;
                Ok(Some(keys_line()))
            }
            Part::Am => {
                self.part = Part::Um;
                Ok(Some(am_line(self.alloc)?))
            }
            Part::Um => {
                self.part = Part::Step;
                Ok(Some(um_line(self.alloc)))
            }
            Part::Step => Ok(Some(give_step(
                self.alloc,
                &mut self.part,
                &mut self.at,
                &mut self.draws,
            )?)),
            Part::Sdu => Ok(Some(give_sdu(
                self.alloc,
                &mut self.part,
                &mut self.at,
                &mut self.draws,
            )?)),
            Part::Tti => Ok(Some(give_tti(&mut self.part, &mut self.at, &mut self.draws))),
            Part::End => {
                self.part = Part::Over;
                Ok(Some(Line::End))
            }
            Part::Over => Ok(None),
        }
    }
}
