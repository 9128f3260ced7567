//! The receiving side of an acknowledged RLC entity (TS 36.322 5.1.3.2, 5.2.3).
//!
//! PDUs and segments of 512 numbers arrive in any order and may overlap. SDUs go up in sequence,
//! each as soon as every octet up to its end has arrived. A STATUS tells the sender what is missing
//! below VR(MS). Contracts see the receiver as the record of `specs/State`, and say exactly what
//! each call answers and leaves.
#![tactic(auto)]

mod entity;
mod receiver;
mod report;

pub use entity::AmRx;
pub use l2_types::AmRxConfig;
