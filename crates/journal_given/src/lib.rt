//! What PDCP gives RLC of acknowledged data, gathered from the records of a journal beside the
//! accounts of its flows, and whether its `take` and `report` records are right (TS 36.323 5.1.1,
//! 5.2.1.1, 5.3). Another stack may have made the journal.
//!
//! `specs/Giving.antt` says what each record tells; `JournalGiven` keeps the account of what is
//! told of each bearer, as the law `takes_are_told` says.
#![tactic(auto)]

mod bearer;
mod bearers;
mod given;
pub mod laws;
mod said;
mod supply;
mod waits;

pub use given::JournalGiven;
