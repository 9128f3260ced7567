//! The events of the acknowledged and unacknowledged flows that the records of a journal tell, and
//! the account of each.
//!
//! `specs/FlowsTold.antt` says which history of a flow a journal tells; `JournalFlows` keeps of
//! each flow the account of that history, as the laws `flows_are_told` and `um_flows_are_told` say.
#![tactic(auto)]

mod account;
mod accounts;
mod channels;
mod copies;
mod entries;
mod events;
mod flow;
mod flows;
pub mod laws;
mod loading;
mod parcels;
mod sending;
mod um_ends;
mod um_pdus;
mod um_sender;

pub use entries::Entries;
pub use flows::{JournalFlows, is_got};
pub use parcels::Parcel;
