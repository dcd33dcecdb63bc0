//! The machine: memory behind its locks, processors and the register block, one step an event.
#![tactic(auto)]

mod enabling;
mod interrupts;
mod machines;
mod ports;
mod reach;
mod transfers;

pub use machines::Machine;
