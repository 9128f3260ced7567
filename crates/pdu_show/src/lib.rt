//! Blocks and what they carry, shown field by field: the items of MAC, and the RLC and PDCP PDUs in
//! their SDUs.
#![tactic(auto)]

mod decoder;
mod entry;
mod kinds;
mod pdcp;
mod rlc;
mod show;
mod spares;

pub use decoder::Decoder;
pub use entry::{Entry, read_record};
pub use kinds::{Kinds, Layout};
pub use show::{Records, show_block, show_onto};
