use crate::reason::Reason;

/// How the reading of an input ended.
#[derive(Clone, Copy, Debug, PartialEq, Eq)]
pub enum Ending<R> {
    /// All was read and written.
    Done,
    /// A line was refused, counted from 1.
    Refused { number: u32, reason: Reason<R> },
    /// The source failed.
    ReadFault,
    /// The sink failed.
    WriteFault,
    /// Memory ran out.
    NoMemory,
}
