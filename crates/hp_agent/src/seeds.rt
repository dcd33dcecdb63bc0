//! Accesses that are drawn from a generator.

ghost use Rattle.std.specs.Prelude.{◌≡◌, Some};
ghost use Rattle.hp_agent.specs.Speaking.{fresh};
ghost use Rattle.hp_model.specs.Seeded.{drawn_access, generator_of};
ghost use Rattle.hp_model.specs.Voices.{seeded};

use crate::asking::Agent;
use hp_model::{Access, Answer, Generator};
use http_server::Log;
use std::marker::Model;

/// One drawn access each time that it is asked, whatever it is asked.
#[derive(Drop)]
pub struct Seeded {
    generator: Generator,
    log: Log<(u32, u32, Answer), Access>,
}

impl Model for Seeded {
    ghost use Rattle.hp_model.specs.Voices.{seeded};
    ghost use Rattle.hp_agent.specs.Speaking.{Speaker};

    ghost Value = { Speaker };

    ghost view = { λ s. record { voice = seeded s.generator; heard = s.log.items } };
}

/// A word as an access.
fn access_of(word: u32) -> Access
    ensures { result ≡ drawn_access word }
{
    let upper = word / 256;
    match word % 8 {
        0 => Access::Load {
            addr: 4 * (upper % 262144),
            width: 4,
        },
        1 => Access::Store {
            addr: 4 * (upper % 262144),
            width: 4,
            value: u64::from(word),
        },
        2 => Access::In {
            port: 0xcdc,
            width: 1,
        },
        3 => Access::Out {
            port: 0xcd8,
            width: 4,
            value: upper % 80,
        },
        4 => Access::In {
            port: 0xce0,
            width: 4,
        },
        5 => Access::Icr {
            high: upper % 64 * 0x1000000,
            low: 0x200,
        },
        6 => Access::Load {
            addr: 0x30000,
            width: 8,
        },
        _ => Access::Nop,
    }
}

impl Seeded {
    /// Of the generator that this seed gives.
    pub fn new(seed: u64) -> Seeded
        ensures { result ≡ fresh (seeded (generator_of seed)) }
    {
        Seeded {
            generator: Generator::new(seed),
            log: Log::new(),
        }
    }
}

impl Agent for Seeded {
    ghost voice = { λ s. Some s.voice };

    ghost heard = { λ s. s.heard };

    #[tactic(auto, unfolding(hp_model::specs::Voices::says))]
    fn next(&mut self, cpu: u32, page: u32, last: Answer) -> Access {
        let access = access_of(self.generator.draw());
        self.log = self.log.and(&(cpu, page, last), &access);
        access
    }
}
