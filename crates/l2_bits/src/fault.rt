ghost use Rattle.std.specs.Prelude.{◌≡◌};
ghost use Rattle.l2_bits.specs.declared.fault.SubmitRefusal.TheVariants as refusal;

use std::alloc::{AllocError, AllocFailed};

/// Memory ran out.
#[derive(Clone, Copy, Debug, PartialEq, Eq)]
pub struct NoMemory;

impl From<AllocError> for NoMemory {
    fn from(_error: AllocError) -> NoMemory {
        NoMemory
    }
}

impl<T: Drop> From<AllocFailed<T>> for NoMemory {
    fn from(_error: AllocFailed<T>) -> NoMemory {
        NoMemory
    }
}

/// Fewer bits are left than were asked for.
#[derive(Clone, Copy, Debug, PartialEq, Eq)]
pub struct Short {
    /// The place of the first bit that was to be read, counted from 0.
    pub at_bit: u32,
}

/// Why an entity does not take an SDU that is submitted to it, numbered from 1; `NoMemory` stands
/// apart.
#[derive(Clone, Copy, Debug, PartialEq, Eq)]
pub enum SubmitRefusal {
    /// The SDU has no octets.
    Empty = 1,
    /// The SDU has more octets than an SDU may have.
    TooLong,
    /// As many SDUs wait as may wait.
    Full,
    /// Every COUNT has been given out.
    CountEnd,
    /// Memory ran out.
    NoMemory,
}

impl From<NoMemory> for SubmitRefusal {
    ghost from_gives = { λ _ refused. refused ≡ refusal.NoMemory };

    fn from(_no_memory: NoMemory) -> SubmitRefusal {
        SubmitRefusal::NoMemory
    }
}
