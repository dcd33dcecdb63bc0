//! What the calls of a gate answer.

/// What closing found.
#[derive(Clone, Copy, Debug, PartialEq)]
pub enum Closed {
    /// The opening, which is finished: nobody has passed it, and nobody will.
    Unpassed,
    /// The gate, closed: the processor that was named has passed.
    Passed,
}

/// What a look at the arrived word found.
#[derive(Clone, Copy, Debug, PartialEq)]
pub enum Look {
    /// The number of the last opening, which is finished: its processor has arrived.
    Arrived,
    /// Another word, which is this.
    NotYet(u64),
}

/// What a try to pass came to.
#[derive(Clone, Copy, Debug, PartialEq)]
pub enum Pass {
    /// The gate held this word, no opening of the processor's APIC ID.
    Closed(u64),
    /// The gate held an opening of its APIC ID, and this other word when it was to be exchanged.
    Moved(u64),
    /// It has passed the opening of this number, and closed the gate in the same step.
    Through(u32),
}
