//! What PDCP gives RLC of acknowledged data at one end is what a checker gathers of it. The
//! functions do nothing: their contracts are the laws.
#![tactic(auto)]

mod laws;

pub use laws::{
    arrivals_tell_nothing, bearers_are_joined, bearers_stand, blocks_are_landed,
    calls_are_gathered, confirmed_anew, confirms_as_told, counts_come_as_handed, data_is_gathered,
    deeds_take_alike, flows_say_on_one_bearer, hands_up_as_told, joined_go_on,
    joined_go_on_in_life, landed_by_histories, lives_are_gathered, lives_begin_joined,
    may_take_by_one_bearer, may_take_by_records, more_is_takeable, offered_are_told,
    one_bearer_by_histories, one_bearer_by_records, one_channel_by_groups, one_channel_by_steps,
    pdus_are_given, reports_are_heard_so, reports_are_read, reports_say_what_has_come,
    right_by_records, right_on_one_bearer, said_is_read, sizes_are_told, statuses_are_gathered,
    supplies_begin, supplies_stay_beside, waits_by_records,
};
