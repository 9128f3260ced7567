//! Plays the lines of an input: reads them, hands each to what plays it, gathers what that writes,
//! and tells how it ended. What a line does is its player's affair.
#![tactic(auto)]

mod ending;
mod player;
mod playing;
mod reason;
mod status;
mod telling;

pub use ending::Ending;
pub use player::{LineEnd, Player};
pub use playing::play;
pub use reason::{Reason, Rule, reason_word};
pub use status::Status;
pub use telling::{refuse_words, tell_ending, tell_no_memory};
