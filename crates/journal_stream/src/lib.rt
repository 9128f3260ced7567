//! The octets of an acknowledged flow in one life, at its sender: which of the stream come next,
//! and which stand in the data field of a number.
//!
//! `specs/OctetEvents.antt` says both of a history of events; the laws are that what is kept of it
//! tells so.
#![tactic(auto)]

mod laws;
mod octets;
mod unwritten;

pub use laws::{calls_are_steps, octets_are_told};
pub use octets::SentOctets;
