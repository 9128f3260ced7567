ghost use Rattle.std.specs.Prelude.{◌≡◌, ◌<◌};
ghost use Rattle.script_generator.specs.Draws.{seeded, next, drawn};

use std::marker::Model;

/// Draws from a number, one after the other.
#[derive(Drop)]
pub struct Draws {
    number: u64,
}

impl Model for Draws {
    ghost use Rattle.std.specs.Prelude.{ℕ, ◌<◌, ◌^◌};

    ghost Value = { ℕ };

    ghost view = { λ d. d.number };

    ghost invariant = { λ d. d.number < 2 ^ 31 };
}

impl Draws {
    /// No draw has been made.
    pub fn new(number: u32) -> Draws
        ensures { result ≡ seeded number }
    {
        Draws {
            number: u64::from(number) % 0x8000_0000,
        }
    }

    /// Draws one of so many choices, counted from 0.
    pub fn draw(&mut self, choices: u64) -> u64
        requires { 0 < choices }
        ensures next { self.new ≡ next self.old }
        ensures drawn { result ≡ drawn choices self.new }
        ensures less { result < choices }
    {
        self.number = (self.number * 1_103_515_245 + 12_345) % 0x8000_0000;
        self.number / 65_536 % choices
    }
}
