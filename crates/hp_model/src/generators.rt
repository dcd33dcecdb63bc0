//! Words that a number makes, always the same.

ghost use Rattle.std.specs.Prelude.{◌≡◌};
ghost use Rattle.hp_model.specs.Seeded.{draw as draw_of, generator_of};

use rand_core::SeedableRng;
use rand_core::utils::NextWord;
use rand_pcg::Lcg64Xsh32;
use std::marker::Model;

/// A generator of words of 32 bits: rand_pcg's `Lcg64Xsh32`.
#[derive(Drop)]
pub struct Generator {
    words: Lcg64Xsh32,
}

impl Model for Generator {
    ghost use Rattle.rand_pcg.specs.Lcg.{Lcg};

    ghost Value = { Lcg };

    ghost view = { λ g. g.words };
}

impl Generator {
    /// That of a seed, as `seed_from_u64` of `rand_core` makes it.
    #[tactic(auto, unfolding(crate::specs::Seeded::generator_of))]
    pub fn new(seed: u64) -> Generator
        ensures { result ≡ generator_of seed }
    {
        Generator {
            words: Lcg64Xsh32::seed_from_u64(seed),
        }
    }

    /// The next word.
    #[tactic(auto, unfolding(crate::specs::Seeded::draw))]
    pub fn draw(&mut self) -> u32
        ensures word { result ≡ (draw_of self.old).0 }
        ensures rest { self.new ≡ (draw_of self.old).1 }
    {
        self.words.next_word()
    }
}
