//! The boot sequence leaves SMRAM sealed: the half of the first law of safety that comes before the handlers.
#![tactic(auto)]

mod laws;

pub use laws::{boot_leaves_locked_smram, boot_seals_smram};
