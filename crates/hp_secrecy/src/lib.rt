//! Secrecy of locked memory: what it holds is not to be seen from outside SMM.
#![tactic(auto)]

mod laws;

pub use laws::{
    a_step_keeps_secrets, runs_keep_secrets, what_is_done_inside_is_not_seen, worked_twins,
};
