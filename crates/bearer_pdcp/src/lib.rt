//! What bearers over RLC are made of at one end of the link: both PDCP entities together, and how
//! the answers of RLC and PDCP are told as events.
//!
//! Contracts speak of an exact machine, which stands in `specs/`. What may run out of memory says
//! nothing of what it leaves then.
#![tactic(auto)]

mod ends;
mod stopped;
mod telling;
mod written;

pub use ends::{Pdcp, bearer_of, sends};
pub use stopped::StoppedPdcp;
pub use telling::{tell_expired, tell_landed, tell_wait};
pub use written::Written;
