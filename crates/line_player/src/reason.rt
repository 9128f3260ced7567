ghost use Rattle.std.specs.Prelude.{◌≡◌, ℕ, List};
ghost use Rattle.line_player.specs.Answers.{reason_text};

use air_text::LineRefusal;

/// A rule that a line of the grammar breaks.
pub trait Rule: Copy {
    /// The text of its word.
    ghost word_of: { Self → List ℕ };

    /// The word that tells it.
    fn word(&self) -> &'static str
        ensures { result.now ≡ word_of self.now };
}

/// Why an input was refused at a line.
#[derive(Clone, Copy, Debug, PartialEq, Eq)]
pub enum Reason<R> {
    /// The line is outside the grammar.
    Line(LineRefusal),
    /// The line breaks a rule.
    Rule(R),
    /// More than 1,000,000 lines.
    Lines,
}

/// The word of why a line was refused.
pub fn reason_word<R: Rule>(reason: Reason<R>) -> &'static str
    ensures { result.now ≡ reason_text R.word_of reason }
{
    match reason {
        Reason::Line(LineRefusal::Word) => "word",
        Reason::Line(LineRefusal::Number) => "number",
        Reason::Line(LineRefusal::Range) => "range",
        Reason::Line(LineRefusal::Hex) => "hex",
        Reason::Line(LineRefusal::Fields) => "fields",
        Reason::Line(LineRefusal::Long) => "long",
        Reason::Rule(rule) => rule.word(),
        Reason::Lines => "lines",
    }
}
