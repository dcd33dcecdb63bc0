//! A case file from its first line to its last.

use crate::players::{Found, Player};
use hp_model::NoMemory;
use std::alloc::Global;

/// What became of a case file.
#[derive(Drop)]
pub enum Verdict<'a> {
    /// So many lines were compared, and each came out.
    Kept(u32),
    /// The first line that didn't come out, by its number from 1 on, and what came in its stead.
    Broken {
        line: u32,
        wanted: &'a str,
        found: Vec<u8>,
    },
}

/// Plays the lines in their order. A file without a line to compare is broken too.
pub fn verdict_of(alloc: Global, text: &str) -> Result<Verdict<'_>, NoMemory> {
    let mut player = Player::new(alloc);
    let mut number = 0u32;
    let mut compared = 0u32;
    for line in text.lines() {
        number = number.saturating_add(1);
        match player.play(line)? {
            Found::Nothing => {}
            Found::AsSaid => compared = compared.saturating_add(1),
            Found::Other(found) => {
                return Ok(Verdict::Broken {
                    line: number,
                    wanted: line,
                    found,
                });
            }
        }
    }
    if compared == 0 {
        return Ok(Verdict::Broken {
            line: number,
            wanted: "a line to compare",
            found: Vec::from_slice(alloc, b"none")?,
        });
    }
    Ok(Verdict::Kept(compared))
}
