//! What is sent is right as the checker of a journal asks it: the PDUs that a sender of RLC writes,
//! and what is kept of a channel while they are checked. Each function does nothing: its contract
//! is the law.
#![tactic(auto)]

mod laws;

pub use laws::{channels_go_alone, flows_go_on, senders_write_rightly, um_senders_write_rightly};
