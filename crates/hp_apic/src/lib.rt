//! Interrupt commands of the local APIC: what a command delivers, and whom it hits.
#![tactic(auto)]

mod commands;

pub use commands::{decode, decode_wide, hits};
