//! The records of a journal, read from their texts.
#![tactic(auto)]

mod blocks;
mod events;
mod fault;
mod fields;
mod laws;
mod lists;
mod naming;
mod pdus;
mod pieces;
mod reading;

pub use fault::TextFault;
pub use laws::{lines_are_own, texts_have_one};
pub use reading::read_text;
