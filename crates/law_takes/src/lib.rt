//! What PDCP's sender of an acknowledged data bearer keeps is what the account of takes keeps. The
//! laws speak of the definitions that `pdcp_tx` and `journal_takes` meet. The functions do nothing:
//! their contracts are the laws.
#![tactic(auto)]

mod laws;

pub use laws::{
    confirmed_stays, confirms_are_accounted, deeds_are_told, discards_are_accounted,
    lives_are_accounted, offers_are_accounted, reports_are_accounted, runs_are_told, senders_begin,
    senders_go_by_history, submits_are_accounted, takes_are_accounted,
};
