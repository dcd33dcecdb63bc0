//! What comes before each turn.

use hp_model::Actor;

/// Comes before each turn. Nothing is assumed of it.
pub trait Pace {
    /// `turn` counts the turns of the actor's processor, or the host events, of one call from 0. Events past number 4,294,967,295 are told
    /// by that number too.
    fn before(&self, actor: Actor, turn: u32);
}
