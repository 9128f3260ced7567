//! PDCP PDUs (TS 36.323 section 6): data PDUs and status reports of data bearers, and PDUs of
//! signalling bearers.
//!
//! The layouts with numbers of 15 bits are a profile of this project.
#![tactic(auto)]

mod kind;
mod laws;
mod pdu;
mod reading;
mod signalling;
mod writing;

pub use laws::{reads_signalling_again, reads_user_again};
pub use pdu::{PdcpKind, PdcpRefusal, PdcpWhy, Srb, User};
pub use reading::read_user;
pub use signalling::{read_srb, write_srb};
pub use writing::{write_long_report, write_report, write_user};
