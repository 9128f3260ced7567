//! Whether what goes up on unacknowledged bearers is what PDCP reads of the SDUs that their flows
//! hand up, whatever is lost (TS 36.322 5.1.2.2, TS 36.323 5.1.2.1.3). Another stack may have made
//! the journal.
#![tactic(auto)]

mod channels;
mod checker;
mod flow;
pub mod laws;
mod pairing;
mod reader;

pub use checker::{EdgeChecker, is_state};
