//! Plain types that several parts of the stack name: ends, kinds of bearers, timers, losses and
//! configurations.
#![tactic(auto)]

mod channel;
mod config;
mod event;
mod limits;
mod side;

pub use channel::{Channel, Kind};
pub use config::{AmRxConfig, AmTxConfig, DrxConfig};
pub use event::{Clock, How, Lost, Waits};
pub use limits::{GREATEST_GRANT, GREATEST_SDU, MOST_WAITING};
pub use side::Side;
