//! Whether the new blocks of a journal have right form: each is the canonical writing of the PDUs
//! that are told of as sent, and is shown behind it (TS 36.321 6.1.2, TS 36.322 6.2.1, TS 36.323
//! 6.2). Another stack may have made the journal.
#![tactic(auto)]

mod block;
mod canonical;
mod checker;
pub mod laws;
mod lines;
mod pdcp;
mod pdus;
mod rlc;
mod shown;

pub use checker::FormChecker;
pub use lines::has_layout;
