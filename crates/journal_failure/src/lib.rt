//! Whether the `fail` records of a journal are right: each flow that reaches its limit of
//! retransmissions is told of once, where it does, and its sender is silent from then on (TS 36.322
//! 5.2.1). Another stack may have made the journal.
#![tactic(auto)]

mod checker;
pub mod laws;
mod sender;
mod senders;

pub use checker::FailureChecker;
