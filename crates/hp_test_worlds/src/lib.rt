//! Worlds of tests: each is made, given its moves and dropped in one call, and what is expected of it is data.
#![tactic(auto)]

mod cases;
mod checking;
mod found;
mod headers;
mod making;
mod moving;
mod playing;

pub use cases::{Case, Fault, Header, Move};
pub use headers::{BOTH, TWO, platform_of};
pub use playing::{Counts, play, play_handed};
