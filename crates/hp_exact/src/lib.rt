//! The law of sessions over every run of every platform that fits: sessions are quiet, their reports are true, and outcomes show what happened.
#![tactic(auto)]

mod laws;

pub use laws::{
    outcomes_lose_none, outcomes_show, prompt_sessions_are_undisturbed, reports_are_true,
    runs_are_safe, sessions_are_exact, sessions_are_quiet,
};
