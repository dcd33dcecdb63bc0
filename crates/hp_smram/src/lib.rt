//! Lockable SMRAM: the memory controller's registers that lock ranges of memory, and what an access finds.
#![tactic(auto)]

mod flags;
mod laws;
mod locks;
mod registers;

pub use laws::{
    default_area_stays_locked, locks_start_as_the_machine, memory_is_open_in_smm,
    nothing_changes_once_all_is_locked, tseg_stays_once_fixed, what_is_locked_stays_locked,
};
pub use locks::{Locks, Touch};
