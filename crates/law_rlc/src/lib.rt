//! Laws of RLC: over any calls of a sender or a receiver, and of both ends of a flow with what is
//! under way between them. They speak of the machines that `rlc_um`, `rlc_am_tx` and `rlc_am_rx`
//! meet. The functions do nothing: their contracts are the laws.
#![tactic(auto)]

pub mod am_arrival;
pub mod am_pair;
pub mod am_receiver;
pub mod am_sender;
pub mod um_pair;
