//! Laws of both ends over the air, and over the journal of every script: over any calls of the
//! link, what its records tell, and that what it plays are calls of two ends and their channels,
//! through lives; and of every journal what is promised, in the subject's own words. The functions
//! do nothing: their contracts are the laws.
#![tactic(auto)]

pub mod any_calls;
mod drain_flows;
pub mod drain_rounds;
pub mod drain_ttis;
mod laws;
pub mod two_ends;

pub use drain_flows::{
    bearers_stand, budgets_suffice, drains_end, links_keep_no_signalling, links_never_rise,
    rounds_cost_flows, rounds_end,
};
pub use laws::{every_journal, lines_are_in_range};
