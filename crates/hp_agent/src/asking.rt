//! What an agent is.

ghost use Rattle.std.specs.Prelude.{◌≡◌, Option};
ghost use Rattle.hp_model.specs.Voices.{Voice};
ghost use Rattle.hp_agent.specs.Speaking.{Heard, Speaks, asked, heard_with};

use hp_model::{Access, Answer};

/// Decides what a processor does outside SMM.
pub trait Agent: Drop {
    /// The voice that it tells of itself: what it says is then what the voice says. `None`: it may say anything.
    ghost voice: { Self → Option Voice };

    /// The questions that it was asked, in their order, each with what it said. Proofs alone read it.
    ghost heard: { Self → Heard };

    /// The next access of processor `cpu`, which runs at page `page` (address bits 31:12). `last` is the answer to the
    /// access before; `Quiet` where there was none.
    fn next(&mut self, cpu: u32, page: u32, last: Answer) -> Access
        ensures says { Speaks (voice self.old) (voice self.new) (asked cpu page last) result }
        ensures hears { heard self.new ≡ heard_with (heard self.old) (asked cpu page last) result };
}

impl Agent for Box<dyn Agent + Send> {
    ghost voice = { λ b. (Agent-box b).voice b.value };

    ghost heard = { λ b. (Agent-box b).heard b.value };

    fn next(&mut self, cpu: u32, page: u32, last: Answer) -> Access {
        (**self).next(cpu, page, last)
    }
}
