//! Whether the SDUs that leave the queues of unacknowledged, transparent and signalling bearers, as
//! a journal tells of them, are the first of those that were submitted, by their lengths
//! (TS 36.323 5.1.1, 5.2, 5.4, TS 36.322 5.1.1.1). Another stack may have made the journal.
#![tactic(auto)]

mod channels;
mod checker;
pub mod laws;
mod leaving;

pub use checker::QueueChecker;
