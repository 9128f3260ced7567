//! Laws of what an unacknowledged receiver keeps of its numbers against the account of its flow.
//! They speak of the definitions that `rlc_um` and `journal_um` meet. The functions do nothing:
//! their contracts are the laws.
#![tactic(auto)]

mod laws;

pub use laws::{
    arrivals_are_reckoned, expiries_are_reckoned, lives_are_reckoned, losses_begin,
    pdus_come_in_time, pdus_keep_pieces, sending_loses_none, um_arrivals_are_accounted,
    um_bearers_begin_beside, um_bearers_go_on_beside, um_bearers_live_on_beside,
    um_bearers_stay_on, um_bearers_tell_reordering, um_calls_are_gathered, um_channels_are_lived,
    um_expiries_are_accounted, um_handing_is_accounted, um_lives_are_accounted, um_offers_are_told,
    um_outset_is_accounted, um_pairs_are_lived, um_pairs_begin, um_pairs_live_on, um_pdus_are_told,
    um_senders_begin, um_ups_are_joined, um_ups_are_read, um_ups_are_true, writing_is_reckoned,
};
