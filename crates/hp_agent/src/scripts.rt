//! Scripts: accesses in order.

ghost use Rattle.std.specs.Prelude.{◌≡◌, Some};
ghost use Rattle.hp_model.specs.Voices.{script};
ghost use Rattle.hp_agent.specs.Speaking.{fresh};

use crate::asking::Agent;
use hp_model::{Access, Answer, Steps};
use http_server::Log;
use std::marker::Model;
use std::vec;

/// The steps of a script in order, then halts.
#[derive(Drop)]
pub struct Script {
    rest: vec::IntoIter<Access>,
    log: Log<(u32, u32, Answer), Access>,
}

impl Model for Script {
    ghost use Rattle.std.specs.Vec.Iter.{into_iter_items};
    ghost use Rattle.hp_model.specs.Voices.{script};
    ghost use Rattle.hp_agent.specs.Speaking.{Speaker};

    ghost Value = { Speaker };

    ghost view = { λ s. record { voice = script (into_iter_items s.rest); heard = s.log.items } };
}

impl Script {
    pub fn new(steps: Steps) -> Script
        ensures { result ≡ fresh (script steps) }
    {
        Script {
            rest: steps.0.into_iter(),
            log: Log::new(),
        }
    }
}

impl Agent for Script {
    ghost voice = { λ s. Some s.voice };

    ghost heard = { λ s. s.heard };

    #[tactic(auto, unfolding(hp_model::specs::Voices::says))]
    fn next(&mut self, cpu: u32, page: u32, last: Answer) -> Access {
        let access = self.rest.next().unwrap_or(Access::Halt);
        self.log = self.log.and(&(cpu, page, last), &access);
        access
    }
}
