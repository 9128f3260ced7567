//! What goes up of acknowledged data in a journal is right, as its checker asks it, where the
//! journal tells of its flows as a run does; so it is in the journal of every script that forges no
//! block. And what acknowledged bearers log, as they call their senders and as blocks come to them,
//! tells the history of their flows, as it is gathered from a journal. Each function does nothing:
//! its contract is the law.
#![tactic(auto)]

mod laws;

pub use laws::{
    alike_histories, alike_journals, bearers_hear, bearers_write, blocks_are_heard,
    carried_pdus_come, data_is_gathered, delivered_follows, ends_hear_by_air, ends_hear_calls,
    ends_send_by_air, ends_write_truly, equal_blocks_carry_alike, events_are_gathered, fails_join,
    held_blocks_stay, journals_agree, lives_fail_rightly, lives_go_on, logs_tell_calls,
    logs_tell_flows, logs_tell_ignored, new_blocks_are_loaded, new_blocks_are_told_of,
    new_pdus_are_gathered, numbers_are_given, others_tell_none, records_go_on,
    records_name_the_log, records_stay_beside, records_tell_the_log, reorderings_are_events,
    reorderings_are_gathered, reports_are_gathered, runs_deliver, runs_fail_rightly,
    runs_report_truly, runs_send_rightly, runs_take_rightly, runs_tell_flows, same_counts_come,
    status_needs_no_flags, statuses_are_gathered, steps_are_read, taken_are_told,
    true_status_is_gathered,
};
