//! Whether entries are a run of the machine, one by one or as a list.
#![tactic(auto)]

mod checking;
mod walks;

pub use checking::{Fault, check};
pub use walks::Walk;
