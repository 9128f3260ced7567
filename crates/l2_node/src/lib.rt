//! One end of the link: the bearers of a terminal or of a base station under one MAC entity (TS
//! 36.321), with its states as types. An attached one sends and hears blocks; a moving one, between
//! two cells, can only join or be abandoned.
//!
//! Contracts speak of an exact machine, which stands in `specs/`.
#![tactic(auto)]

mod building;
mod end;
mod finding;
mod hearing;
mod moving;
mod node;
mod reporting;
mod submitting;
mod writing;

pub use hearing::heard_by;
pub use node::{Attached, Built, Moving, Node};
pub use writing::sent_by;
