//! Numbers and octets as text, and octets read from text: into lists that grow, with nothing
//! allocated for a piece.
#![tactic(auto)]

mod hexadecimal;
mod number;
mod reading;

pub use hexadecimal::append_hex;
pub use number::append_number;
pub use reading::{read_hex, read_lower_hex};
