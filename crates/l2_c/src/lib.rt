//! The ciphers and codecs, as C, C++ and Rust may call them.
#![tactic(auto)]

mod mac;
mod mac_reading;
mod mac_writing;
mod pdcp;
mod rlc;
mod rlc_reading;
mod rlc_writing;
mod room;
mod security;

pub use mac::{MOST_ITEMS, PlainItem, PlainRefusal};
pub use mac_reading::zubhanit_mac_read;
pub use mac_writing::zubhanit_mac_write;
pub use pdcp::{
    PlainPdcp, zubhanit_pdcp_srb_read, zubhanit_pdcp_srb_write, zubhanit_pdcp_user_read,
    zubhanit_pdcp_user_write,
};
pub use rlc::{PlainElement, PlainNack, PlainRlc};
pub use rlc_reading::{zubhanit_am_read, zubhanit_umd_read};
pub use rlc_writing::{zubhanit_amd_write, zubhanit_status_write, zubhanit_umd_write};
pub use security::{zubhanit_eea2, zubhanit_eia2};
