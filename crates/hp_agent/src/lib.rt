//! Agents: what decides what processors do outside SMM.
#![tactic(auto)]

mod asking;
mod churns;
mod diggers;
mod floods;
mod kinds;
mod laws;
mod pens;
mod places;
mod programs;
mod scripts;
mod seeds;
mod storms;
mod systems;

pub use asking::Agent;
pub use churns::Churn;
pub use diggers::Digger;
pub use floods::Flood;
pub use kinds::{Voice, voice_for};
pub use laws::{a_pen_stores_its_byte_once, a_script_says_its_steps_and_then_halts};
pub use pens::PenAgent;
pub use places::Agents;
pub use scripts::Script;
pub use seeds::Seeded;
pub use storms::Storm;
pub use systems::Os;
