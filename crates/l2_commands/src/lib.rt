//! The commands that play scripts and show blocks, from the octets of an input to the octets
//! written.
#![tactic(auto)]

mod blocks;
mod commands;
mod script;
mod summing;

pub use commands::{decode, generate, run};
pub use line_player::Status;
