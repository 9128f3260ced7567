//! The window of an acknowledged sender (TS 36.322 5.2.1): what is kept of each PDU sent until it
//! is acknowledged, which octets wait to be resent, and which of the offered SDUs are wholly
//! acknowledged.
#![tactic(auto)]

mod cut;
mod ledger;
mod numbers;
mod ring;
mod slot;
mod window;

pub use ledger::Accounts;
pub use ring::is_named;
pub use slot::{Slot, Stretch};
pub use window::Window;
