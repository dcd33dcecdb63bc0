//! Actors, the events of the machine, and the entries of a trace.

use crate::accesses::{Access, Answer};
use crate::outcomes::Outcome;

/// Who acts: the host with an event on a processor, a processor, or its latched SMI, each by the processor's place.
#[derive(Clone, Copy)]
pub enum Actor {
    /// The host inserts this processor.
    Insert(u32),
    /// The host requests the removal of this processor.
    Remove(u32),
    /// This processor steps.
    Cpu(u32),
    /// This processor's latched SMI is taken.
    Smi(u32),
}

/// One step of the machine. Processors are named by place.
#[derive(Clone, Copy)]
pub enum Event {
    Insert(u32),
    Remove(u32),
    /// An access, outside SMM or in it.
    Do(u32, Access),
    /// SMI entry.
    TakeSmi(u32),
    /// The processor takes INIT and waits for SIPI.
    TakeInit(u32),
    /// RSM.
    Resume(u32),
    /// The monarch tells an outcome.
    Tell(Outcome),
}

/// One line of a trace: a step, with the instruction address where its actor was in SMM before it.
#[derive(Clone, Copy)]
pub struct Entry {
    pub event: Event,
    /// The 32-bit instruction address before the step where the actor is in SMM, else None.
    pub at: Option<u32>,
    pub answer: Answer,
}
