//! What a journal tells of an unacknowledged flow through its lives, event by event: where VR(UR),
//! VR(UH) and VR(UX) stand, which SDUs go up, whatever is lost, and whether losses were long.
//!
//! `specs/UmNumbers.antt`, `specs/UmSdus.antt` and `specs/UmLosses.antt` say what each of these is
//! in a history of events; the law `um_accounts_are_true` is that the account, which forgets what
//! lies below VR(UR), tells just that.
#![tactic(auto)]

mod flow;
mod joiner;
mod laws;
mod pieces;
mod window;

pub use flow::UmFlow;
pub use laws::{
    counts_are_read, drops_below_edge, handed_grows, loses_only, reads_numbers, reads_truly,
    taking_is_free, um_accounts_are_true,
};
pub use pieces::{JoinedSdu, Piece, Pieces};
