//! A bearer at one end of the link, of any kind, with its states as types: one in a life takes and
//! hears PDUs; one between two lives can only be restarted or released.
//!
//! Contracts speak of an exact machine, which stands in `specs/`.
#![tactic(auto)]

mod acknowledged;
mod bearer;
mod flow;
mod flow_stopped;
mod transparent;
mod unacknowledged;

pub use bearer::{Bearer, Released, Running, Stopped};
pub use bearer_pdcp::Written;
pub use bearer_types::{BearerConfig, Event, Events};
pub use l2_types::{Clock, How, Kind, Lost, Side, Waits};
