ghost use Rattle.check_command.specs.Laws.{AnswersAreOne, RefusalsAreFinal};

/// A journal is sound with one number of lines, or refused at one line for one reason, and not
/// both; and what is refused of its first octets is refused of all. So what `check_journal` answers
/// to a journal is its one answer, unless a stream fails or memory runs out.
pub fn answers_are_one()
    ensures one { AnswersAreOne }
    ensures stays { RefusalsAreFinal }
{}
