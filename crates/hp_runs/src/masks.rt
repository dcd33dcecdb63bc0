//! A trace with one byte changed, each byte in turn. What is wanted of each stands below the trace's line, as a letter for a byte.

use crate::runs::{Fails, run};
use std::alloc::{AllocError, Global};
use std::{fs, io};

/// How a byte is changed.
#[derive(Clone, Copy)]
enum Change {
    /// In bit 0.
    Bit,
    To(u8),
}

/// The bytes of a trace, and which line of it is looked at.
#[derive(Clone, Copy)]
struct Place<'a> {
    bytes: &'a [u8],
    /// The line's number, from 1, and its first byte.
    number: u64,
    start: usize,
}

impl Change {
    /// The change that a letter at the front of a row names.
    fn of(letter: &str) -> Option<Change> {
        match letter {
            "bit" => Some(Change::Bit),
            "spc" => Some(Change::To(b' ')),
            "lf" => Some(Change::To(b'\n')),
            _ => None,
        }
    }

    fn made(self, byte: u8) -> u8 {
        match self {
            Change::Bit => byte ^ 1,
            Change::To(other) => other,
        }
    }
}

/// The status and its text that a letter stands for. `data` says what those stand for that aren't of the changed line.
fn wanted(alloc: Global, data: &str, letter: char, number: u64) -> Result<String, AllocError> {
    match letter {
        'l' => format!(in alloc; "9 trace refused at line {number}: line"),
        's' => format!(in alloc; "9 trace refused at line {number}: step"),
        'e' => format!(in alloc; "9 trace refused at line {number}: end"),
        _ => {
            let front = format!(in alloc; "{letter} = ")?;
            for line in data.lines() {
                if let Some(meant) = line.strip_prefix(front.as_str()) {
                    return meant
                        .split_once(" | ")
                        .unwrap_or((meant, ""))
                        .0
                        .to_string(alloc);
                }
            }
            "a letter that isn't said".to_string(alloc)
        }
    }
}

/// The status, its text, and what is written, of a trace with one byte changed.
fn found(alloc: Global, bytes: &[u8], at: usize, change: Change) -> Result<String, AllocError> {
    let mut bytes = bytes.to_vec(alloc)?;
    if let Some(byte) = bytes.get_mut(at) {
        *byte = change.made(*byte);
    }
    let ran = run(alloc, "check", bytes, Fails::Nothing)?;
    let answer = ran.answer(alloc)?;
    match ran.text.lines().next() {
        Some(line) => format!(in alloc; "{answer}, {line}"),
        None => Ok(answer),
    }
}

/// Changes each byte of the line, and says which has another answer. Answers how many were as wanted; none where one wasn't. At a
/// point the byte would stay as it is.
fn play_row(
    rt: &HostRuntime,
    data: &str,
    place: &Place<'_>,
    change: Change,
    letters: &str,
) -> io::Result<Option<u64>> {
    let mut count = 0u64;
    let mut at = place.start;
    for letter in letters.chars() {
        if letter != '.' {
            let wanted = wanted(rt.alloc(), data, letter, place.number)?;
            let found = found(rt.alloc(), place.bytes, at, change)?;
            if found.as_str() != wanted.as_str() {
                let made = place
                    .bytes
                    .get(at)
                    .map(|byte| change.made(*byte))
                    .unwrap_or(0);
                println!(rt; "byte {at} as {made}: wanted {wanted}, found {found}")?;
                return Ok(None);
            }
            count = count.saturating_add(1);
        }
        at = at.saturating_add(1);
    }
    Ok(Some(count))
}

/// The change of a row, and its letters; none where it is no row of a change.
fn split_row(row: &str) -> Option<(Change, &str)> {
    let (name, letters) = row.split_once(' ')?;
    Some((Change::of(name)?, letters))
}

/// How many bytes were changed in each way.
#[derive(Clone, Copy)]
struct Counts {
    bit: u64,
    space: u64,
    line_feed: u64,
}

impl Counts {
    fn add(&mut self, change: Change, count: u64) {
        let sum = match change {
            Change::Bit => &mut self.bit,
            Change::To(b' ') => &mut self.space,
            Change::To(_) => &mut self.line_feed,
        };
        *sum = sum.saturating_add(count);
    }
}

/// Changes each byte of a trace as the rows of the file below its lines say. Answers how many rows went wrong.
pub fn play_all(rt: &HostRuntime, file: &str, trace: &str) -> io::Result<u64> {
    let data = fs::read_to_string(rt, file)?;
    let bytes = fs::read(rt, trace)?;
    let mut place = Place {
        bytes: bytes.as_slice(),
        number: 0,
        start: 0,
    };
    let mut behind = 0usize;
    let mut counts = Counts {
        bit: 0,
        space: 0,
        line_feed: 0,
    };
    let mut failed = 0u64;
    for row in data.lines() {
        if let Some(line) = row.strip_prefix("    ") {
            place.number = place.number.saturating_add(1);
            place.start = behind;
            behind = behind.saturating_add(line.len()).saturating_add(1);
        } else if let Some((letter, letters)) = split_row(row) {
            match play_row(rt, data.as_str(), &place, letter, letters)? {
                Some(count) => counts.add(letter, count),
                None => failed = failed.saturating_add(1),
            }
        }
    }
    println!(rt;
        "{file}: {behind} bytes in {} lines; {} changed in bit 0, {} to a space, {} to a line feed, as written",
        place.number, counts.bit, counts.space, counts.line_feed
    )?;
    Ok(failed)
}
