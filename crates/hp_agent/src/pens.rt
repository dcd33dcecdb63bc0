//! Pens: where new processors wait for the operating system.

ghost use Rattle.std.specs.Prelude.{◌≡◌, false, Some};
ghost use Rattle.hp_agent.specs.Speaking.{fresh};
ghost use Rattle.hp_model.specs.Voices.{pen};

use crate::asking::Agent;
use hp_model::{Access, Answer};
use http_server::Log;
use std::marker::Model;

/// The page of the pen: address bits 31:12.
const PEN_PAGE: u32 = 0x9f;

/// The byte 1, stored in the pen's page: what tells the operating system that a processor has come (own rule).
const PEN_STORE: Access = Access::Store {
    addr: 0x9f010,
    width: 1,
    value: 1,
};

/// Stores its byte the first time that it is asked at the pen's page, and halts else.
#[derive(Drop)]
pub struct PenAgent {
    stored: bool,
    log: Log<(u32, u32, Answer), Access>,
}

impl Model for PenAgent {
    ghost use Rattle.hp_model.specs.Voices.{pen};
    ghost use Rattle.hp_agent.specs.Speaking.{Speaker};

    ghost Value = { Speaker };

    ghost view = { λ p. record { voice = pen p.stored; heard = p.log.items } };
}

impl PenAgent {
    pub fn new() -> PenAgent
        ensures { result ≡ fresh (pen false) }
    {
        PenAgent {
            stored: false,
            log: Log::new(),
        }
    }
}

impl Agent for PenAgent {
    ghost voice = { λ p. Some p.voice };

    ghost heard = { λ p. p.heard };

    #[tactic(auto, unfolding(hp_model::specs::Voices::says))]
    fn next(&mut self, cpu: u32, page: u32, last: Answer) -> Access {
        let access = if self.stored || page != PEN_PAGE {
            Access::Halt
        } else {
            self.stored = true;
            PEN_STORE
        };
        self.log = self.log.and(&(cpu, page, last), &access);
        access
    }
}
