use l2_bits::NoMemory;
use std::alloc::AllocError;
use thiserror::Error;

/// Why a text is no line.
#[derive(Clone, Copy, Debug, PartialEq, Eq, Error)]
pub enum LineRefusal {
    /// A word that is none of those that may stand there.
    #[error("word")]
    Word = 1,
    /// No number where one has to be.
    #[error("number")]
    Number = 2,
    /// A number or a count of octets outside its range, or a kind that doesn't go with its LCID.
    #[error("range")]
    Range = 3,
    /// No octets in hexadecimal where they have to be.
    #[error("hex")]
    Hex = 4,
    /// Too few or too many fields, or an option twice.
    #[error("fields")]
    Fields = 5,
    /// More than 20,000 octets.
    #[error("long")]
    Long = 6,
}

/// Why no line was read.
#[derive(Clone, Copy, Debug, PartialEq, Eq)]
pub enum LineFault {
    /// The text is no line.
    Refused(LineRefusal),
    /// Memory ran out.
    NoMemory,
}

impl From<LineRefusal> for LineFault {
    ghost use Rattle.std.specs.Prelude.{◌≡◌};
    ghost use Rattle.air_text.specs.declared.fault.LineFault.TheVariants.{Refused};

    ghost from_gives = { λ r e. e ≡ Refused r };

    fn from(refusal: LineRefusal) -> Self {
        LineFault::Refused(refusal)
    }
}

impl From<NoMemory> for LineFault {
    ghost use Rattle.std.specs.Prelude.{◌≡◌};
    ghost use Rattle.air_text.specs.declared.fault.LineFault.TheVariants.{NoMemory};

    ghost from_gives = { λ _ e. e ≡ NoMemory };

    fn from(_: NoMemory) -> Self {
        LineFault::NoMemory
    }
}

impl From<AllocError> for LineFault {
    ghost use Rattle.std.specs.Prelude.{◌≡◌};
    ghost use Rattle.air_text.specs.declared.fault.LineFault.TheVariants.{NoMemory};

    ghost from_gives = { λ _ e. e ≡ NoMemory };

    fn from(_: AllocError) -> Self {
        LineFault::NoMemory
    }
}
