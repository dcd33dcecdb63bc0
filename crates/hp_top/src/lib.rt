//! The top call of the program: words and bytes in, a status and a trace out. docs/PROOFS.md says what is proved.
#![tactic(auto)]

mod acting;
mod answering;
mod checking;
mod commands;
mod in_memory;
mod numbers;
mod outside;
mod reading;
mod running;
mod scripted;
mod sending;
mod sorting;
mod stalling;
mod statuses;
mod streams;
mod summing;
mod threading;
mod threads;
mod writing;

pub use answering::top;
pub use checking::TRACE_LIMIT;
pub use hp_judge::Why;
pub use in_memory::{SureSink, SureSource};
pub use outside::{Failed, Sink, Source, WriteStop};
pub use reading::LIMIT;
pub use scripted::{MemSink, MemSource};
pub use statuses::Status;
pub use streams::{StdSink, StdSource};
pub use threads::top_threads;
