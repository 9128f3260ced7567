//! The SDUs that wait at an RLC sender, and the cutting of new data PDUs from them (TS 36.322
//! 4.2.1.2.2, 4.2.1.3.2), which unacknowledged and acknowledged senders share.
#![tactic(auto)]

mod cutting;
mod laws;
mod queue;

pub use cutting::{NewPdu, framing, has_room, new_pdu};
pub use laws::new_pdu_fits;
pub use queue::Queue;
