ghost use Rattle.std.specs.Prelude.{◌≡◌};
ghost use Rattle.check_command.specs.Checking.{why_text};
ghost use Rattle.check_command.specs.Reading.{verdict_by};

use journal_check::{CheckFault, CheckWhy};

/// How the reading of a journal ended.
#[derive(Clone, Copy, Debug, PartialEq, Eq)]
pub(crate) enum Verdict {
    /// It is sound, and has so many lines.
    Sound { lines: u32 },
    /// A record isn't right, counted from 1.
    Unsound { at: u32, why: CheckWhy },
    /// The source failed.
    ReadFault,
    /// Memory ran out.
    NoMemory,
}

/// What the checker's fault says of the journal.
pub(crate) fn verdict_by(fault: CheckFault) -> Verdict
    ensures { result ≡ verdict_by fault }
{
    match fault {
        CheckFault::Refused { at, why } => Verdict::Unsound { at, why },
        CheckFault::NoMemory => Verdict::NoMemory,
    }
}

/// The word of why a record isn't right.
pub(crate) fn why_word(why: CheckWhy) -> &'static str
    ensures { result.now ≡ why_text why }
{
    match why {
        CheckWhy::Text => "text",
        CheckWhy::Records => "records",
        CheckWhy::Forged => "forged",
        CheckWhy::Order => "order",
        CheckWhy::Rules => "rules",
        CheckWhy::Sent => "sent",
        CheckWhy::Carried => "carried",
        CheckWhy::Delivered => "delivered",
        CheckWhy::Edge => "edge",
        CheckWhy::Failure => "failure",
        CheckWhy::Status => "status",
        CheckWhy::Form => "form",
    }
}
