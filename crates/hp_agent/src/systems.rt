//! The operating system of a platform, by its processor events.

ghost use Rattle.std.specs.Prelude.{◌≡◌, Some, IfOk};
ghost use Rattle.hp_agent.specs.Speaking.{fresh};
ghost use Rattle.hp_model.specs.declared.files.VoiceKind.TheVariants as kind;
ghost use Rattle.hp_model.specs.Platform.{IsFit};
ghost use Rattle.hp_model.specs.Voices.{voice_of};

use crate::asking::Agent;
use crate::programs::Program;
use hp_model::{Access, Answer, NoMemory, Platform};
use http_server::Log;
use std::alloc::Global;
use std::marker::Model;

/// Looks for processor events, and starts and ejects the processors that they are of, again and again.
#[derive(Drop)]
pub struct Os {
    program: Program,
    log: Log<(u32, u32, Answer), Access>,
}

impl Model for Os {
    ghost use Rattle.hp_agent.specs.Programs.{IsSound, voice_in};
    ghost use Rattle.hp_agent.specs.Speaking.{Speaker};

    ghost Value = { Speaker };

    ghost view = { λ s. record { voice = voice_in s.program; heard = s.log.items } };

    ghost invariant = { λ s. IsSound s.program };
}

impl Os {
    /// The operating system of this platform, which knows its APIC IDs. Later calls take no memory.
    pub fn new(alloc: Global, p: &Platform) -> Result<Os, NoMemory>
        requires { IsFit p.now }
        ensures { IfOk result (λ s. s ≡ fresh (voice_of p.now kind.Os)) }
    {
        Ok(Os {
            program: Program::new(alloc, p)?,
            log: Log::new(),
        })
    }
}

impl Agent for Os {
    ghost voice = { λ s. Some s.voice };

    ghost heard = { λ s. s.heard };

    #[tactic(auto, unfolding(hp_model::specs::Voices::says))]
    fn next(&mut self, cpu: u32, page: u32, last: Answer) -> Access {
        let access = self.program.go_on(last);
        self.log = self.log.and(&(cpu, page, last), &access);
        access
    }
}
