ghost use Rattle.std.specs.Prelude.{ℕ};
ghost use Rattle.script_generator.specs.Script.{script};
ghost use Rattle.script_generator.specs.Lines.{lines, SayAll};

/// The text of a script says its lines.
pub fn script_says_its_lines()
    ensures { (number : ℕ) → SayAll (script number) (lines number) }
{}
