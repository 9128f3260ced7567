//! What a journal tells of a flow of an acknowledged bearer in a life, event by event: which
//! numbers were written and what has come of them, where VR(R), VR(MS) and VR(H) stand, and which
//! SDUs are in sequence.
//!
//! `specs/Arrived.antt` and `specs/Stream.antt` say what each of these is in a history of events;
//! the law `accounts_are_true` is that the account, which forgets what lies below VR(R), tells
//! just that.
#![tactic(auto)]

mod account;
mod arrivals;
mod confirmed;
mod entry;
mod field;
mod fields;
mod laws;
mod number;
mod numbers;
mod sdus;
mod sending;
mod status;

pub use account::FlowAccount;
pub use confirmed::ConfirmedSdus;
pub use entry::StatusEntry;
pub use laws::{accounts_are_true, confirmed_alike};
