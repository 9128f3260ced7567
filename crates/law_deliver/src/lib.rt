//! Laws of delivery: both ends of a bearer, and of a link's channel, through lives, with what is
//! under way between them, for each kind of bearer. They speak of the machines that `bearer` and
//! `l2_node` meet. The functions do nothing: their contracts are the laws.
#![tactic(auto)]

pub mod am_channel;
pub mod am_delivery;
pub mod am_flow;
pub mod srb_channel;
pub mod srb_delivery;
pub mod um_channel;
pub mod um_delivery;
pub mod um_flow;
pub mod um_gaps;
