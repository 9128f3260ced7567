//! Whether the losses of unacknowledged bearers were so long that numbers could be misread.
//!
//! Short are losses that leave the number of each PDU within the window around the highest one that
//! arrived (TS 36.322 7.1,
//! 7.2), and fewer COUNTs unused than PDCP has sequence numbers (TS 36.323 6.2.3). `Losses` tells
//! it by the records of a run alone. Contracts speak of the exact machine in `specs/`.
#![tactic(auto)]

mod cursor;
mod flow;
mod gaps;
mod laws;
mod losses;
mod pdu;
mod sending;
mod tags;

pub use flow::Happening;
pub use laws::{tag_is_read, tags_are_heard_alike};
pub use losses::Losses;
pub use pdu::Pdu;
