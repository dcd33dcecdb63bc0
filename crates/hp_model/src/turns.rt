//! What an actor's turn comes to.

use crate::entries::Event;

/// What the machine and its firmware have for an actor now: decided once, for the schedule, for a world's turns and for what is read back.
#[derive(Clone, Copy)]
pub enum Due {
    /// No step.
    Idle,
    /// This step, which no voice has a say in.
    Makes(Event),
    /// Any access that the voice of this processor says.
    Asks(u32),
}
