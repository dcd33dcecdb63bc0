//! The machine at work: its firmware and its agents, one turn an actor or one event, and with the list of all steps that were made.
#![tactic(auto)]

mod boards;
mod comparing;
mod findings;
mod laws;
mod lives;
mod making;
mod normal;
mod worlds;

pub use laws::a_turn_is_the_schedules;
pub use lives::Live;
pub use worlds::{Turn, World};
