//! The machine and its firmware: the types that all crates speak of, and in `specs/` each rule of the machine, once.
#![tactic(auto)]

mod accesses;
mod entries;
mod errors;
mod files;
mod generators;
mod labels;
mod laws;
mod layout;
mod outcomes;
mod platforms;
mod processors;
mod reports;
mod rules;
mod shared_bytes;
mod spans;
mod turns;
mod widths;

pub use accesses::{Access, Answer, Steps, Want};
pub use entries::{Actor, Entry, Event};
pub use errors::NoMemory;
pub use files::{File, HostEvent, Hosts, Stall, Stalls, VoiceKind, Voices};
pub use generators::Generator;
pub use labels::{Handler, Label};
pub use laws::{schedule_is_a_run, told_voices_alone_agree};
pub use layout::{icr_high, tile, tseg};
pub use outcomes::{BootFact, Outcome, Refusal, Step};
pub use platforms::{Delivery, Ids, Platform};
pub use processors::{Cpu, Ipi, Kind, Mode, Target};
pub use reports::{Decision, Facts, Report};
pub use rules::{Rule, fits, greatest_id};
pub use shared_bytes::{
    CLOSED, DEFAULT_SMBASE_FIELD, FLAG, GATE, NEW_SMBASE, arrived_byte, map_byte, parked_byte,
    release_byte, session_byte, tile_at,
};
pub use spans::Span;
pub use turns::Due;
pub use widths::{holds, is_memory_width, is_port_width};
