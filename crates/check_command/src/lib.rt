//! The command `check`: reads a journal, whoever made it, and tells whether it is sound.
#![tactic(auto)]

mod checking;
mod judging;
mod laws;
mod telling;
mod verdict;

pub use checking::check_journal;
pub use laws::answers_are_one;
