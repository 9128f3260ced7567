//! The program, from the words of a command line and the octets of an input to the octets written,
//! with what is promised of every journal that it writes.
#![tactic(auto)]

mod top;

pub use cli_words::{Command, Words};
pub use line_player::Status;
pub use top::l2_main;
