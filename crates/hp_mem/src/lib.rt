//! Memory of 32-bit addresses: loads, stores, and compare and exchange.
#![tactic(auto)]

mod laws;
mod memory;
mod pages;
mod same;
mod words;

pub use laws::{a_store_leaves_what_lies_beside_it, a_store_reads_back};
pub use memory::Mem;
