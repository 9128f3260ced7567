use l2_bits::NoMemory;
use thiserror::Error;

/// Why a journal is refused, in the order in which these are looked for at a line and behind a
/// group.
#[derive(Clone, Copy, Debug, PartialEq, Eq, Error)]
pub enum CheckWhy {
    /// A line that isn't the text of a record, or has more than 32,768 octets.
    #[error("text")]
    Text = 1,
    /// Line 100,000,001 begins.
    #[error("records")]
    Records = 2,
    /// The record of a `forge` line.
    #[error("forged")]
    Forged = 3,
    /// A record that stands before any line, behind the sums, or has a number that doesn't grow.
    #[error("order")]
    Order = 4,
    /// A line that breaks a rule of a run.
    #[error("rules")]
    Rules = 5,
    /// What a PDU carries isn't what its sender may send.
    #[error("sent")]
    Sent = 6,
    /// A block isn't carried as HARQ does.
    #[error("carried")]
    Carried = 7,
    /// What goes up isn't what acknowledged bearers deliver.
    #[error("delivered")]
    Delivered = 8,
    /// What goes up isn't what an unacknowledged bearer reads.
    #[error("edge")]
    Edge = 9,
    /// A sender gives up elsewhere than at its limit.
    #[error("failure")]
    Failure = 10,
    /// A STATUS that isn't true, or is applied or ignored wrongly.
    #[error("status")]
    Status = 11,
    /// A block or a PDU that isn't written as it has to be, or is shown otherwise than it is.
    #[error("form")]
    Form = 12,
}

/// Why a journal isn't read on.
#[derive(Clone, Copy, Debug, PartialEq, Eq)]
pub enum CheckFault {
    /// The line, counted from 1, isn't right.
    Refused { at: u32, why: CheckWhy },
    /// Memory ran out.
    NoMemory,
}

impl From<NoMemory> for CheckFault {
    ghost use Rattle.std.specs.Prelude.{◌≡◌};
    ghost use Rattle.journal_check.specs.declared.fault.CheckFault.TheVariants.{NoMemory};

    ghost from_gives = { λ _ e. e ≡ NoMemory };

    fn from(_: NoMemory) -> Self {
        CheckFault::NoMemory
    }
}
