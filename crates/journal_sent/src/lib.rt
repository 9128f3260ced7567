//! Whether the PDUs that a journal sends carry the octets that they may (TS 36.322 5.1, 5.2.1, TS
//! 36.323 5.1.1): new ones those that come next of what PDCP gives RLC, those that are sent again
//! octets of their numbers; and whether their headers say truly where these octets stand. Another
//! stack may have made the journal.
#![tactic(auto)]

mod checker;
mod cover;
mod events;
mod flow;
mod flows;
pub mod laws;
mod marks;
mod stream;
mod verdict;

pub use checker::SentChecker;
