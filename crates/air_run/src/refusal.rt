ghost use Rattle.air_run.specs.Refusals.{refusal_word};

use l2_bits::NoMemory;
use line_player::Rule;
use thiserror::Error;

/// Why a line of the grammar is not run.
#[derive(Clone, Copy, Debug, PartialEq, Eq, Error)]
pub enum RunRefusal {
    /// There is no bearer on the LCID.
    #[error("unknown bearer")]
    UnknownBearer = 1,
    /// There is a bearer on the LCID already.
    #[error("bearer twice")]
    BearerTwice = 2,
    /// A configuration stands behind a line that is none.
    #[error("configured late")]
    ConfiguredLate = 3,
    /// A key was used before, or stands twice in the line.
    #[error("key used")]
    KeyUsed = 4,
    /// The timer doesn't run.
    #[error("timer idle")]
    TimerIdle = 5,
    /// The grant of a drain is below 200 octets.
    #[error("small drain")]
    SmallDrain = 6,
    /// There are no keys as yet.
    #[error("no keys")]
    NoKeys = 7,
    /// There was such a line already.
    #[error("set twice")]
    SetTwice = 8,
    /// A test loop is on.
    #[error("loop on")]
    LoopOn = 9,
    /// The bearer has no discard timer.
    #[error("no discard")]
    NoDiscard = 10,
    /// A block was forged.
    #[error("forged")]
    Forged = 11,
    /// The on duration or the offset doesn't fit into the cycle.
    #[error("drx fields")]
    DrxFields = 12,
}

impl Rule for RunRefusal {
    ghost word_of = { refusal_word };

    fn word(&self) -> &'static str {
        match *self {
            RunRefusal::UnknownBearer => "unknown bearer",
            RunRefusal::BearerTwice => "bearer twice",
            RunRefusal::ConfiguredLate => "configured late",
            RunRefusal::KeyUsed => "key used",
            RunRefusal::TimerIdle => "timer idle",
            RunRefusal::SmallDrain => "small drain",
            RunRefusal::NoKeys => "no keys",
            RunRefusal::SetTwice => "set twice",
            RunRefusal::LoopOn => "loop on",
            RunRefusal::NoDiscard => "no discard",
            RunRefusal::Forged => "forged",
            RunRefusal::DrxFields => "drx fields",
        }
    }
}

/// Why a line was not run, or not to its end.
#[derive(Clone, Copy, Debug, PartialEq, Eq)]
pub enum StepFault {
    /// The line breaks a rule of the run; nothing was changed or written.
    Refused(RunRefusal),
    /// The sink failed.
    WriteFault,
    /// Memory ran out.
    NoMemory,
}

impl From<NoMemory> for StepFault {
    ghost use Rattle.std.specs.Prelude.{◌≡◌};
    ghost use Rattle.air_run.specs.declared.refusal.StepFault.TheVariants.{NoMemory};

    ghost from_gives = { λ _ e. e ≡ NoMemory };

    fn from(_: NoMemory) -> Self {
        StepFault::NoMemory
    }
}
