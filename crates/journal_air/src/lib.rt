//! Whether what a journal tells of the air is right: the blocks of its TTIs, and what comes of
//! them, are those of HARQ (TS 36.321 5.3.2, 5.4.2). Another stack may have made the journal.
#![tactic(auto)]

mod checker;
mod ends;
mod granted;
pub mod laws;
mod told;

pub use checker::AirChecker;
pub use granted::{Due, Granted};
