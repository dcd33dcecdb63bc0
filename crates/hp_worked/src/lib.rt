//! The machine's definitions, computed on whole traces that were worked out by hand.
#![tactic(auto)]

mod accounts;
mod adds;
mod ejects;
mod followed;
mod laws;
mod records;
mod safety;
mod steps;
mod voices;

pub use accounts::{
    an_apic_id_is_held, apic_ids_are_bound, apic_ids_are_known, reports_have_their_decision,
    sessions_are_disturbed, sessions_report,
};
pub use adds::{
    changed_adds_are_none, changed_adds_stop_at_the_change, files_make_worked_adds,
    instructions_of_worked_adds_are_locked, nobody_is_astray_in_worked_adds, worked_adds_are_runs,
};
pub use ejects::{
    changed_ejects_are_none, changed_ejects_stop_at_the_change, files_make_worked_ejects,
    worked_ejects_are_runs, worked_tseg_is_refused,
};
pub use followed::{
    hosts_and_entries_go_together, unsaid_accesses_are_steps, unsaid_accesses_follow_no_voice,
    voices_are_carried_on, worked_runs_are_hosted, worked_runs_follow_their_voices,
    worked_runs_leave_what_the_schedule_leaves,
};
pub use laws::{
    changed_traces_are_none, changed_traces_stop_at_the_change, files_make_traces_alone,
    files_make_worked_traces, nobody_is_astray_in_worked_traces, without_boot_one_is_astray,
    worked_boots_are_refused, worked_instructions_are_locked, worked_traces_are_runs,
    worked_traces_run_alone,
};
pub use records::monarch_believes_no_answer;
pub use safety::{
    nobody_is_astray_in_safe_traces, runs_are_recorded_well, worked_traces_are_safe,
    worked_traces_are_untouched, wrong_traces_are_no_runs, wrong_traces_are_recorded,
    wrong_traces_are_refused,
};
pub use steps::{wrong_steps_are_no_runs, wrong_steps_are_recorded, wrong_steps_are_refused};
pub use voices::{
    attackers_say_nothing_else, attackers_say_their_accesses, seeded_voices_say_their_words,
    the_operating_system_says_its_program, the_operating_system_says_nothing_else,
};
