//! The lines of a case that are no lines of a trace.

use crate::firmware::Move;

/// A line that says something of the firmware, in words of its own.
#[derive(Clone, Copy)]
pub enum Word {
    /// `features N`: these SMI features are negotiated.
    Features(u64),
    /// `stand CPU SMBASE MARK BASE`: the processor is in SMM at this SMBASE, with this base, and this mark stands at its
    /// instruction address.
    Stand(u32, Move),
    /// `seat CPU ADDRESS BASE`: the instruction address and the base of a processor.
    Seat(u32),
    /// `astray CPU`: a processor in SMM without a row.
    Astray(u32),
    /// `boot ..`: how the boot stands.
    Boot,
}

fn hex(word: &str) -> Option<u32> {
    u32::from_str_radix(word, 16).ok()
}

fn decimal(word: &str) -> Option<u32> {
    word.parse::<u32>().ok()
}

fn stand(words: &str) -> Option<Word> {
    let (cpu, rest) = words.split_once(' ')?;
    let (smbase, rest) = rest.split_once(' ')?;
    let (mark, base) = rest.split_once(' ')?;
    let to = Move::To {
        smbase: hex(smbase)?,
        mark: hex(mark)?,
        base: hex(base)?,
    };
    Some(Word::Stand(decimal(cpu)?, to))
}

fn seat(words: &str) -> Option<Word> {
    let (cpu, _) = words.split_once(' ')?;
    Some(Word::Seat(decimal(cpu)?))
}

/// What a line says; none where it is no such line.
pub fn word_of(line: &str) -> Option<Word> {
    let (first, rest) = line.split_once(' ')?;
    match first {
        "features" => Some(Word::Features(rest.parse::<u64>().ok()?)),
        "stand" => stand(rest),
        "seat" => seat(rest),
        "astray" => Some(Word::Astray(decimal(rest)?)),
        "boot" => Some(Word::Boot),
        _ => None,
    }
}
