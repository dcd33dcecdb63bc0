//! Collection: the monarch asks the register block for one processor after another that has an event (own rule).
#![tactic(auto)]

mod collects;
mod rows;

pub use collects::{Collect, Stage};
