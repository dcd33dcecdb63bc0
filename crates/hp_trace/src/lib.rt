//! The trace text: the header of a platform, the line of each entry, and the end line, appended to a vector of bytes.
#![tactic(auto)]

mod accesses;
mod digits;
mod lines;
mod outcomes;
mod pieces;
mod steps;
mod summaries;

pub use lines::{end, head, line};
pub use summaries::{Summary, gen_line, ok_line};
