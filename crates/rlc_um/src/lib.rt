//! Unacknowledged and transparent RLC entities (TS 36.322 5.1.1, 5.1.2).
//!
//! Contracts speak of exact machines over whole numbers, which stand in `specs/Transparent.antt`,
//! `specs/Sender.antt` and `specs/Receiver.antt`.
#![tactic(auto)]

mod joiner;
mod receiver;
mod stored;
mod tm_tx;
mod um_rx;
mod um_tx;
mod window;

pub use rlc_pdu::{Expired, Landed, Taken, Turned};
pub use tm_tx::TmTx;
pub use um_rx::UmRx;
pub use um_tx::UmTx;
