//! What a journal tells of acknowledged data in one direction through all its lives: which COUNTs
//! have come.
//!
//! `specs/LifeEvents.antt` says when a COUNT has come, in a history of events; the law
//! `lives_are_true` is that the account tells the first that hasn't.
#![tactic(auto)]

mod counts;
mod laws;
mod lives;

pub use laws::lives_are_true;
pub use lives::FlowLives;
