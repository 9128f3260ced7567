//! Laws of PDCP: of one end through lives, and of both ends on each kind of bearer. They speak of
//! the machines that `pdcp_tx` and `pdcp_rx` meet. The functions do nothing: their contracts are
//! the laws.
#![tactic(auto)]

pub mod am_pair;
pub mod one_end;
pub mod srb_pair;
pub mod um_pair;
