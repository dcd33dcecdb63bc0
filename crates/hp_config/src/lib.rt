//! The platform file: its TOML text, its rules in their order, and the grammar of script steps.
#![tactic(auto)]

mod faults;
mod generating;
mod keys;
mod kinds;
mod laws;
mod parts;
mod reading;
mod rows;
mod rules;
mod shape;
mod steps;
mod tree;

pub use faults::ConfigFault;
pub use generating::generated;
pub use laws::{
    generated_files_are_sound, good_files_are_sound, read_files_are_sound,
    steps_are_read_as_spelled,
};
pub use reading::read;
pub use steps::step_of;
