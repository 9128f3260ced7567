//! RLC PDUs (TS 36.322 section 6.2): data PDUs of the unacknowledged and the acknowledged mode, and
//! STATUS PDUs.
#![tactic(auto)]

mod constants;
mod elements;
mod entries;
mod fault;
mod header;
mod intervals;
mod laws;
mod outcome;
mod pdu;
mod reading;
mod status;
mod writing;

pub use constants::{
    AM_MODULUS, AM_WINDOW_SIZE, UM_LONG_MODULUS, UM_LONG_WINDOW_SIZE, UM_SHORT_MODULUS,
    UM_SHORT_WINDOW_SIZE,
};
pub use elements::Elements;
pub use entries::NackReader;
pub use fault::{RlcRefusal, RlcWhy};
pub use intervals::Intervals;
pub use laws::{
    covers_all, cuts_again, data_sizes, gaps_are_first, reads_amd_again, reads_status_again,
    reads_umd_again, status_sizes,
};
pub use outcome::{Expired, Landed, Taken, Turned};
pub use pdu::{AmPdu, Amd, Nack, Nacks, Part, Segment, StatusRead, Umd};
pub use reading::{read_am, read_umd};
pub use status::write_status;
pub use writing::{write_amd, write_umd};
