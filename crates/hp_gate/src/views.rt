//! What the monarch and each processor know of a gate.
//!
//! No value of a view is made: views are for proofs alone, where an array is a list of any length.

/// A processor that a gate may name.
#[derive(Clone, Copy)]
pub struct Named {
    /// Its APIC ID, 32 bits.
    pub apic: u32,
    /// The SMBASE that it is to take, 32 bits.
    pub base: u32,
}

/// Where the monarch stands.
#[derive(Clone, Copy)]
pub enum Stage {
    /// The last opening is finished, or there is none.
    Idle,
    /// This base is stored for the next opening, and the last one is finished.
    Stored(u32),
    /// The last opening is of this APIC ID and isn't closed.
    Open(u32),
    /// The last opening is of this APIC ID, closed, and not finished.
    Shut(u32),
}

/// Where a processor stands with its last pass.
pub enum Work {
    /// It has arrived, or there was none.
    Free,
    /// It has passed, and not flagged.
    Passed,
    /// It has flagged, and not arrived.
    Flagged,
}

pub struct MonarchView {
    /// The processors that it may name.
    pub list: [Named; 0],
    /// How many seats there are of processors: those of the first ones in the list.
    pub seats: u64,
    /// The APIC ID of each opening, the first one first.
    pub named: [u32; 0],
    pub stage: Stage,
    /// The words that it found in the gate when it closed it, the first one first.
    pub closings: [u64; 0],
    /// The words that it read of arrived, the first one first.
    pub looks: [u64; 0],
}

pub struct CpuView {
    /// Its APIC ID and base.
    pub own: Named,
    /// The numbers of the openings that it has passed, the last one first.
    pub passes: [u32; 0],
    pub work: Work,
    /// The words that it found in the gate, the first one first.
    pub looks: [u64; 0],
}

pub enum View {
    Monarch(MonarchView),
    Cpu(CpuView),
}
