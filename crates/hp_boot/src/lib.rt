//! The firmware's boot sequence: which access comes next, and what an answer leads to.
#![tactic(auto)]

mod boots;
mod laws;
mod table;

pub use boots::{Boot, BootStage};
pub use laws::{
    boot_ends, boot_stops_at_its_fact, no_other_boot_is_handed_over, nothing_steps_after_a_refusal,
};
