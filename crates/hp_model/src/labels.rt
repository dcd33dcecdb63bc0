//! The SMI handlers and their labels.

/// An SMI handler.
#[derive(Clone, Copy)]
pub enum Handler {
    /// At the default SMBASE, for a processor that has no tile yet.
    First,
    /// At the tile of a slot from 1 on.
    Relocated,
    /// Processor 0's, at the tile of slot 0.
    Monarch,
}

/// Where an SMI handler stands. Each label has its row in the handlers' tables, its cell in SMRAM, and its mark.
#[derive(Clone, Copy)]
pub enum Label {
    // the first handler, at SMBASE 0x30000
    F1,
    F2,
    F3,
    F4,
    F5,
    F6,
    // the relocated handler, at the tile of a slot
    R1,
    R2,
    R3,
    R4,
    R5,
    R6,
    // the monarch: the start of a session
    S0,
    S1,
    S2,
    S3,
    S4,
    // the monarch: collection
    C1,
    C2,
    C3,
    C4,
    C5,
    C6,
    // the monarch: an add
    NB,
    N0,
    N1,
    N2,
    N3,
    N4,
    N5,
    N6,
    N7,
    N8a,
    N8b,
    N9,
    N10,
    N11,
    // the monarch: an eject
    E0,
    E1,
    E2,
    E3,
    E4a,
    E4b,
    E4c,
    E4d,
    E4e,
    E4f,
    E4g,
    E4h,
    // the monarch: an outcome is told, and the end of a session
    T,
    E5,
    E6,
    E7,
}
