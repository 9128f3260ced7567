//! The sending side of an acknowledged RLC entity (TS 36.322 5.1.3.1, 5.2): new PDUs,
//! retransmissions and segments of them, polls, STATUS reports that are heard, and the
//! retransmission limit.
//!
//! Contracts speak of an exact machine over true numbers, which stands in `specs/Machine.antt`.
#![tactic(auto)]

mod am_tx;
mod answers;
mod polls;
mod sender;
mod taking;
mod turn;

pub use am_tx::AmTx;
pub use answers::{Heard, PollExpired};
pub use l2_types::AmTxConfig;
pub use rlc_pdu::Taken;
pub use turn::Turn;
