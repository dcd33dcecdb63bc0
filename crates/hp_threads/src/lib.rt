//! Processors as threads: one worker a processor and one for the host's events, over one world under a lock.
#![tactic(auto)]

mod choosing;
mod paces;
mod running;
mod runs;

pub use paces::Pace;
pub use runs::{Finished, Marks, run};
