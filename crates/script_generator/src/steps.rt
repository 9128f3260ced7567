ghost use Rattle.std.specs.Prelude.{◌≡◌, ◌++◌, [], Some};
ghost use Rattle.script_generator.specs.Draws.{seeded};
ghost use Rattle.script_generator.specs.Fields.{to_come};

use super::draws::Draws;
use super::text::{Text, put_ending, put_step};
use std::marker::Model;

/// The steps of a script that are still to be made, and its end.
#[derive(Drop)]
pub struct Steps {
    draws: Draws,
    // The number of the next step.
    at: u32,
    // None once the end has been made.
    left: Option<u32>,
}

impl Model for Steps {
    ghost use Rattle.std.specs.Prelude.{ℕ, List, ◌+◌, ◌≤◌, IfSome};
    ghost use Rattle.script_generator.specs.Fields.{to_come};

    ghost Value = { List ℕ };

    ghost view = { λ s. to_come s.left s.at s.draws };

    ghost invariant = { λ s. IfSome s.left (λ n. n + s.at ≤ 2000) };
}

impl Steps {
    /// All steps of the script of a number.
    pub fn new(number: u32) -> Steps
        ensures { result ≡ to_come (Some 2000) 0 (seeded number) }
    {
        Steps {
            draws: Draws::new(number),
            at: 0,
            left: Some(2000),
        }
    }

    /// Makes the lines of the next step, or of the end. Behind the end there are none.
    pub fn make(&mut self, text: &mut Text)
        ensures made { self.old ≡ text.new.items ++ self.new }
        ensures end { text.new.items ≡ [] → self.new ≡ [] }
    {
        text.clear();
        let Some(left) = self.left else {
            return;
        };
        if left == 0 {
            put_ending(text);
            self.left = None;
            return;
        }
        put_step(text, self.at, &mut self.draws);
        self.at += 1;
        self.left = Some(left - 1);
    }
}
