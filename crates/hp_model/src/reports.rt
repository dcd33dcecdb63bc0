//! Reports of the register block to the monarch, and what becomes of them.

use crate::outcomes::Outcome;

/// What the register block says of a processor with an event.
#[derive(Clone, Copy)]
pub struct Report {
    /// The place of the processor.
    pub cpu: u32,
    /// Its status byte.
    pub status: u8,
    /// Its APIC ID.
    pub apic: u32,
}

/// What the tests of a report go by.
#[derive(Clone, Copy)]
pub struct Facts {
    /// Its APIC ID is that of its processor, and that isn't processor 0.
    pub own: bool,
    /// Its APIC ID is a boot processor's or was added, and not ejected since.
    pub known: bool,
    /// The slot of its APIC ID among those bound, and their number where it isn't bound.
    pub slot: u32,
    /// The APIC ID whose add isn't complete.
    pub held: Option<u32>,
    /// The negotiated SMI features.
    pub features: u64,
    /// What was last read of its arrived byte in this session; 2 for nothing.
    pub look: u8,
}

/// What becomes of a report.
#[derive(Clone, Copy)]
pub enum Decision {
    /// This outcome is told.
    Tell(Outcome),
    /// An add begins.
    Add,
    /// An eject begins.
    Eject,
}
