//! A checker of journals, whoever made them. `Checker` reads the record of each line, says whether
//! it may stand there, and whether the whole journal is sound: that its blocks, PDUs and SDUs are
//! those that the standard lets both ends send, carry, deliver and report (`specs/Soundness.antt`).
#![tactic(auto)]

mod blocks;
mod checker;
mod fault;
mod judge;
mod limits;
mod order;
mod rules;
mod sends;
mod told;

pub use checker::Checker;
pub use fault::{CheckFault, CheckWhy};
pub use journal_text::{TextFault, read_text};
pub use limits::{LONGEST_RECORD, MOST_RECORDS};
