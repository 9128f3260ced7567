//! Whether what a journal hands up of acknowledged data is right: behind each group these are
//! exactly the SDUs of the COUNTs that have come, in order and each once (TS 36.322 5.1.3,
//! TS 36.323 5.1.2.1.2, 5.2, 5.4). Another stack may have made the journal.
#![tactic(auto)]

mod awaited_channels;
mod awaited_sdus;
mod delivered_checker;
pub mod delivery_laws;

pub use delivered_checker::DeliveredChecker;
