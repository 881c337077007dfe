//! Laws of what [`asan_check`] defines: what the verdicts on a history of events come to, in the
//! words of somebody who reads the reports or writes a recorder. No program calls a function of
//! this crate.
#![tactic(auto)]

mod laws;
mod lean_recording;
mod recording;
mod runs;
mod traces;

pub use laws::{
    accesses_leave_no_trace, blocks_meet_where_spans_share_a_byte, each_event_has_its_verdict,
    held_since_its_free, later_reports_are_the_same, live_since_its_malloc, marks_are_only_added,
    marks_of_a_history_are_marks, overflow_is_reported, poison_is_reported,
    quiet_inside_live_block, reports_are_verdicts, spans_never_meet, the_class_of_a_report_is_true,
    the_same_stands_again, thinning_invents_nothing, use_after_free_is_reported,
    what_is_in_a_snapshot_stands_the_same,
};
pub use lean_recording::{
    a_free_looks_at_its_address, a_full_recording_is_a_lean_one,
    a_lean_recording_has_the_faults_of_the_run, a_poison_can_state_a_granule,
    a_recorder_can_keep_the_book, a_recorder_can_keep_the_shadow,
    a_stated_block_looks_as_in_the_run, each_event_can_be_recorded_in_a_new_segment,
    lean_segments_have_the_faults_of_the_run, what_is_recorded_leanly_has_a_number_in_both,
    what_stands_in_a_granule_says_its_shadow_byte,
};
pub use recording::{
    a_recording_has_the_faults_of_the_run, a_segment_begins_with_the_blocks_of_the_run,
    a_segment_may_leave_out_the_oldest_held_blocks, an_access_is_as_bad_but_for_its_class,
    an_access_looks_at_two_granules, what_is_recorded_has_a_number_in_both,
};
pub use runs::{
    a_run_reports_what_comes_to_a_held_block, a_run_that_releases_nothing_forgets_no_block,
    a_run_with_one_quarantine_is_as_its_history, a_shadow_can_follow_a_run,
};
pub use traces::{
    a_history_that_begins_anew_is_judged_by_itself, a_trace_has_the_faults_of_its_histories,
    a_trace_of_one_history_is_that_history,
};
