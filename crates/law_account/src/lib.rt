//! Laws of what an acknowledged sender keeps of its numbers, and a receiver of what has come,
//! against the account of the flow. They speak of the definitions that `rlc_am_tx`, `rlc_am_rx` and
//! `journal_account` meet. The functions do nothing: their contracts are the laws.
#![tactic(auto)]

pub mod laws;
