//! The words of a command line, and the command that they are.
#![tactic(auto)]

mod command;
mod line;
mod words;

pub use command::Command;
pub use words::Words;
