//! A reader that is given a trace line by line.

ghost use Rattle.std.specs.Prelude.{◌≡◌, IfSome, option_map};
ghost use Rattle.hp_model.specs.Platform.{IsFit};
ghost use Rattle.hp_reading.specs.Reader.{nothing_read, line_piece as text_piece, Fed};

use crate::entries::{end_number, read_entry};
use crate::faults::LineFault;
use crate::headers::read_head;
use hp_model::{Entry, Platform};
use std::alloc::Global;
use std::marker::Model;

/// What a line says.
#[derive(Clone, Copy)]
pub enum Piece {
    /// The header. Its platform fits.
    Head,
    /// An entry.
    Entry(Entry),
    /// The end, with its number of entries.
    End(u64),
}

/// Reads a trace that it is given line by line. It holds the platform of the header and nothing of the entries.
#[derive(Drop)]
pub struct Reader {
    alloc: Global,
    platform: Option<Platform>,
    /// The number of the last line, from 1; 0 before the first.
    lines: u64,
    refused: bool,
}

impl Model for Reader {
    ghost use Rattle.hp_reading.specs.Reader.{Reading, IsRead};

    ghost Value = { Reading };

    ghost view = { λ r. record { platform = r.platform; lines = r.lines; refused = r.refused } };

    ghost invariant = { λ r. IsRead r.platform };
}

/// What a line behind the header says.
#[tactic(auto, unfolding(crate::specs::Reader::line_piece))]
fn line_piece(line: &[u8]) -> Option<Piece>
    ensures { result ≡ text_piece line.now }
{
    if let Some(entry) = read_entry(line) {
        return Some(Piece::Entry(entry));
    }
    let entries = end_number(line)?;
    Some(Piece::End(entries))
}

impl Reader {
    /// A reader that was given nothing.
    pub fn new(alloc: Global) -> Reader
        ensures { result ≡ nothing_read }
    {
        Reader {
            alloc,
            platform: None,
            lines: 0,
            refused: false,
        }
    }

    /// The platform of the header, once it was read.
    pub fn platform(&self) -> Option<&Platform>
        ensures value { option_map (λ p. p.now) result ≡ self.now.platform }
        ensures fit { IfSome result (λ p. IsFit p.now) }
    {
        self.platform.as_ref()
    }

    /// Takes the next line, without its line feed, and answers what it says: line 1 is the header of a platform that
    /// fits, each later line an entry or the end. `BadLine` comes exactly where it is none of these, or where a line was
    /// refused before, with that line's number. After `NoMemory`, which comes at the header alone, the reader is as it was.
    #[tactic(auto, using(crate::proofs::Heads::head_facts))]
    pub fn feed(&mut self, line: &[u8]) -> Result<Piece, LineFault>
        ensures { Fed self.old line.now self.new result }
    {
        if self.refused {
            return Err(LineFault::BadLine(self.lines));
        }
        let number = self.lines.saturating_add(1);
        if self.platform.is_none() {
            match read_head(self.alloc, line) {
                Ok(Some(p)) => {
                    self.platform = Some(p);
                    self.lines = number;
                    return Ok(Piece::Head);
                }
                Ok(None) => {}
                Err(_) => return Err(LineFault::NoMemory),
            }
        } else if let Some(piece) = line_piece(line) {
            self.lines = number;
            return Ok(piece);
        }
        self.lines = number;
        self.refused = true;
        Err(LineFault::BadLine(number))
    }
}
