//! Whether the STATUS PDUs of a journal are right: each that a block carries is true of the flow
//! that it speaks of, and `drop` records tell of those that the sender ignores (TS 36.322 5.2.1,
//! 5.2.3). Another stack may have made the journal.
#![tactic(auto)]

pub mod laws;
mod reports;
mod status_checker;
mod tolds;

pub use status_checker::StatusChecker;
