//! Judges the text of a trace piece by piece: whether it is the trace of a run, and else which line is at fault first.
#![tactic(auto)]

mod judges;
mod laws;
mod pieces;
mod refusals;
mod stages;

pub use judges::Judge;
pub use laws::judged_line_by_line;
pub use refusals::{Refusal, Stop, Why};
