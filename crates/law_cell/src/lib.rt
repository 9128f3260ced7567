//! What is promised of every journal, of each terminal of a cell. The function does nothing: its
//! contract is the law.
#![tactic(auto)]

mod laws;

pub use laws::every_terminal;
