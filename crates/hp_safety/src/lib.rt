//! Laws of safety, over every run of every platform that fits.
#![tactic(auto)]

mod laws;

pub use laws::{
    disturbed_sessions_are_flagged, locked_before, no_two_smbases, outcomes_answer_reports,
    processors_leave_by_the_register_block, runs_are_guarded, sessions_answer_all,
    smbase_changes_past_the_gate, smbase_changes_while_held,
};
