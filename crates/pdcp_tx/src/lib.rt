//! The sending side of a PDCP entity (TS 36.323): COUNTs, ciphering and integrity, what is kept
//! until it is confirmed, status reports, re-establishment and discard timers.
//!
//! Contracts speak of an exact machine over whole COUNTs, which stands in `specs/State.antt`.
#![tactic(auto)]

mod kind;
mod laws;
mod pdcp_tx;
mod security;
mod sender;

pub use l2_bits::SubmitRefusal;
pub use laws::{takes_in_order, takes_the_head};
pub use pdcp_pdu::PdcpKind;
pub use pdcp_tx::{Kept, PdcpTx};
pub use security::write_pdu;
pub use sender::Next;
