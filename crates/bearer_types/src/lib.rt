//! A bearer's configuration, and what happens at one end of the link.
#![tactic(auto)]

mod config;
mod event;
mod sides;

pub use config::BearerConfig;
pub use event::{Event, Events};
pub use sides::{other, sender_of};
