//! What a journal tells of acknowledged data in one direction at its PDCP sender, through all its
//! lives: which COUNTs are confirmed, which SDU each COUNT has, and what RLC may take next.
//!
//! `specs/TakeEvents.antt` says what a history of events tells of COUNTs, `specs/Takeable.antt`
//! what is takeable; the law `takes_are_true` is that the account tells the same.
#![tactic(auto)]

mod counts;
mod laws;
mod sdus;
mod take;
mod takes;

pub use laws::{sdus_stay, takes_are_true};
pub use take::Take;
pub use takes::FlowTakes;
