//! How adds, ejects and the boot sequence end.

/// What the monarch tells of one report of the register block.
///
/// `cpu` is the place of the processor (its selector), `apic` its APIC ID, `slot` the place of that APIC ID among those
/// that the firmware has bound.
#[derive(Clone, Copy)]
pub enum Outcome {
    /// The arrived byte of the slot was read as 1, after the gate was closed and that byte cleared. In a session that
    /// nobody outside SMM has disturbed the processor has the tile of the slot as its SMBASE.
    Added { cpu: u32, apic: u32, slot: u32 },
    /// The APIC ID is no longer known. In a session that nobody outside SMM has disturbed the processor became absent, by
    /// the monarch's eject.
    Ejected { cpu: u32, apic: u32, slot: u32 },
    /// Nothing of both, for this reason.
    Refused(Refusal),
}

/// Why a report was refused.
#[derive(Clone, Copy)]
pub enum Refusal {
    /// Status bit 0 was clear: the processor isn't enabled.
    Disabled { cpu: u32, status: u8 },
    /// Status bits 1 and 4 were both set: an insert event and a firmware eject at once.
    Both { cpu: u32, status: u8 },
    /// An insert event of an APIC ID that is known.
    AlreadyKnown { cpu: u32, apic: u32, slot: u32 },
    /// An insert event while the add of another APIC ID, `held`, isn't complete.
    GateHeld { cpu: u32, apic: u32, held: u32 },
    /// In the third attempt no look at the flag or the arrived byte read 1 before the monarch closed the gate.
    NotAtGate { cpu: u32, apic: u32 },
    /// In the third attempt one of these looks read 1, but once the gate was closed and the arrived byte cleared no look
    /// at that byte did.
    NotCheckedIn { cpu: u32, apic: u32 },
    /// A firmware eject without hot-unplug among the negotiated features, which are in `features`.
    NoUnplug { cpu: u32, features: u64 },
    /// A firmware eject of an APIC ID that isn't known.
    NotKnown { cpu: u32, apic: u32 },
    /// A firmware eject of a processor whose arrived byte was last read as 0 in this session.
    NotArrived { cpu: u32, apic: u32 },
    /// A firmware eject, and no look at the processor's parked byte read 1.
    NotParked { cpu: u32, apic: u32 },
    /// The APIC ID that was read isn't that of the processor, or the processor is the monarch itself.
    Foreign { cpu: u32, apic: u32 },
    /// The status that was read after the eject was asked of the register block had bit 4 set.
    StillPending { cpu: u32, status: u8 },
}

/// Why the boot sequence was refused: the value that it read where another was needed.
#[derive(Clone, Copy, Debug, PartialEq)]
pub enum BootFact {
    /// Command data 2 (4 bytes) read other than 0: the register block stayed in its legacy form.
    NotModern(u32),
    /// Register 0x9C (1 byte) read other than 0x01: there is no lockable default SMRAM.
    NoDefaultSmram(u8),
    /// `etc/smi/features-ok` (1 byte) read other than 1: the features weren't negotiated.
    NotNegotiated(u8),
    /// Register 0x50 (1 byte) read other than 0x30: there is no TSEG of 48 MiB.
    NoExtTseg(u8),
}

/// What one answer leads a running add or eject to.
#[derive(Clone, Copy)]
pub enum Step {
    /// There is a next access.
    Go,
    Added,
    Ejected,
    Refused(Refusal),
}
