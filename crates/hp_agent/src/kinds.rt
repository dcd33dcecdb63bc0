//! The kinds of agents.

ghost use Rattle.std.specs.Prelude.{◌≡◌, [], Some, IfOk};
ghost use Rattle.hp_model.specs.Platform.{IsFit};
ghost use Rattle.hp_model.specs.Voices.{voice_of};
ghost use Rattle.hp_agent.specs.Kinds.{has_heard, own_voice};

use crate::asking::Agent;
use crate::pens::PenAgent;
use crate::scripts::Script;
use crate::seeds::Seeded;
use crate::systems::Os;
use hp_model::{Access, Answer, NoMemory, Platform, Steps, VoiceKind};
use std::alloc::Global;

/// One of the agents of this crate, or one that a caller hands in.
#[derive(Drop)]
pub enum Voice<A: Agent> {
    Script(Script),
    Os(Os),
    Pen(PenAgent),
    Seeded(Seeded),
    Handed(A),
}

impl<A: Agent> Agent for Voice<A> {
    ghost voice = { λ v. own_voice A.voice v };

    ghost heard = { λ v. has_heard A.heard v };

    fn next(&mut self, cpu: u32, page: u32, last: Answer) -> Access {
        match self {
            Voice::Script(script) => script.next(cpu, page, last),
            Voice::Os(os) => os.next(cpu, page, last),
            Voice::Pen(pen) => pen.next(cpu, page, last),
            Voice::Seeded(seeded) => seeded.next(cpu, page, last),
            Voice::Handed(agent) => agent.next(cpu, page, last),
        }
    }
}

/// An agent of a kind, for a processor of this platform. One that is to be handed in isn't made here: of that kind it halts.
pub fn voice_for<A: Agent>(
    alloc: Global,
    p: &Platform,
    kind: VoiceKind,
) -> Result<Voice<A>, NoMemory>
    requires { IsFit p.now }
    ensures voice { IfOk result (λ v. own_voice A.voice v ≡ Some (voice_of p.now kind)) }
    ensures heard { IfOk result (λ v. has_heard A.heard v ≡ []) }
{
    Ok(match kind {
        VoiceKind::Script(steps) => Voice::Script(Script::new(steps)),
        VoiceKind::Os => Voice::Os(Os::new(alloc, p)?),
        VoiceKind::Pen => Voice::Pen(PenAgent::new()),
        VoiceKind::Seeded(seed) => Voice::Seeded(Seeded::new(seed)),
        VoiceKind::Handed => Voice::Script(Script::new(Steps(Vec::new(alloc)))),
    })
}
