ghost use Rattle.journal_text.specs.Records.{LinesAreOwn, TextsHaveOne};

/// Each line that a text says is what the text of its own record says: so what a run accepts can
/// stand in a journal.
pub fn lines_are_own()
    ensures { LinesAreOwn }
{}

/// A text has at most one record.
pub fn texts_have_one()
    ensures { TextsHaveOne }
{}
