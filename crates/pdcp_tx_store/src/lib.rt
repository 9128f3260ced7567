//! The SDUs that the sending side of a PDCP entity holds (TS 36.323): those that wait for a COUNT,
//! those that were given to RLC in this life, with what is confirmed of them, and those that are to
//! be given again.
//!
//! Contracts see each as a list, by `specs/Waiting.antt` and `specs/Given.antt`, and say exactly
//! what each call leaves.
#![tactic(auto)]

mod again;
mod given;
mod sdu;
mod waiting;

pub use again::Again;
pub use given::{Entry, Ledger, Sent};
pub use sdu::Sdu;
pub use waiting::{Queue, Waiting};
