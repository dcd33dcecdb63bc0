//! An eject: the monarch has one processor park in its handler, and has the register block eject it (own rule).
#![tactic(auto)]

mod ejects;
mod rows;
mod standing;

pub use ejects::Eject;
