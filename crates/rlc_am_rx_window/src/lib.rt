//! The window of an acknowledged receiver (TS 36.322 5.1.3.2, 7.1): what has arrived of each number
//! from VR(R) below VR(H), in PDUs and segments that may overlap, and the SDUs that are put
//! together from it in sequence.
//!
//! Contracts see it as the records of `specs/`, with one optional cell for each place of a number's
//! data field. It keeps the octets as they came, and takes time by the elements that came and not
//! by their octets.
#![tactic(auto)]

mod field;
mod laying;
mod missing;
mod output;
mod piece;
mod reading;
mod ring;
mod slot;
mod stretch;
mod window;

pub use missing::Missing;
pub use output::Output;
pub use window::Window;
