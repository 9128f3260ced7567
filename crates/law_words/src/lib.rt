//! Words that promises and laws share: lists, sets of sequences, and what has arrived of a flow by
//! what its PDUs tell.
//!
//! The crate has definitions alone, in `specs`: it has no code.
#![tactic(auto)]
