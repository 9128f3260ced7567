//! The receiving side of a PDCP entity (TS 36.323 5.1.2, 5.2.2, 5.3.1).
//!
//! A PDU brings the low bits of its COUNT. The receiver finds the whole COUNT, deciphers the SDU,
//! checks the MAC-I of a signalling bearer, and hands SDUs up in the order of their COUNTs, each
//! COUNT at most once. Contracts see it as the record of `specs/State`, and say exactly what each
//! call answers and leaves.
#![tactic(auto)]

mod entity;
mod got;
mod held;
mod kind;
pub mod laws;
mod reading;
mod receiver;
mod security;

pub use entity::{Held, PdcpRx};
pub use got::{Cause, Got};
