//! What a platform file holds.

use crate::accesses::Steps;
use crate::entries::Actor;
use crate::platforms::Platform;
use std::marker::Model;

/// A host event and the turn that makes it. Its actor is an insert or a removal.
#[derive(Clone, Copy)]
pub struct HostEvent {
    pub turn: u32,
    pub actor: Actor,
}

/// A processor gets no turn from one turn to another, both included.
#[derive(Clone, Copy)]
pub struct Stall {
    pub cpu: u32,
    pub from: u32,
    pub to: u32,
}

/// Who decides what a processor does outside SMM.
#[derive(Drop)]
pub enum VoiceKind {
    /// These steps in order, then halts.
    Script(Steps),
    /// The operating system's processor events, by its scan and eject methods.
    Os,
    /// The page where a new processor waits for the operating system.
    Pen,
    /// Accesses drawn from a generator with this seed.
    Seeded(u64),
    /// An agent that the caller hands in.
    Handed,
}

/// Host events, in the order of the file.
#[derive(Drop)]
pub struct Hosts(pub Vec<HostEvent>);

impl Model for Hosts {
    ghost use Rattle.std.specs.Prelude.{List};
    ghost use Rattle.hp_model.specs.declared.files.HostEvent.{HostEvent};

    ghost Value = { List HostEvent };

    ghost view = { λ s. s.0.items };
}

/// Stalls, in the order of the file.
#[derive(Drop)]
pub struct Stalls(pub Vec<Stall>);

impl Model for Stalls {
    ghost use Rattle.std.specs.Prelude.{List};
    ghost use Rattle.hp_model.specs.declared.files.Stall.{Stall};

    ghost Value = { List Stall };

    ghost view = { λ s. s.0.items };
}

/// One kind of voice for each possible processor.
#[derive(Drop)]
pub struct Voices(pub Vec<VoiceKind>);

impl Model for Voices {
    ghost use Rattle.std.specs.Prelude.{List};
    ghost use Rattle.hp_model.specs.declared.files.VoiceKind.{VoiceKind};

    ghost Value = { List VoiceKind };

    ghost view = { λ s. s.0.items };
}

/// A platform file as data.
#[derive(Drop)]
pub struct File {
    pub platform: Platform,
    pub hosts: Hosts,
    pub stalls: Stalls,
    pub voices: Voices,
}
