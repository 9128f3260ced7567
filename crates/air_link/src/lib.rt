//! Both ends over the air: what a TTI, a handover and the other lines of a script do to the base
//! station and to the terminal, and the records that this leaves.
//!
//! Contracts speak of an exact machine, which stands in `specs/`.
#![tactic(auto)]

mod downlink;
mod draining;
mod lines;
mod link;
mod loops;
mod sums;
mod telling;
mod ttis;
mod uplink;

pub use link::{ALL_LCIDS, Link};
pub use sums::Sums;
