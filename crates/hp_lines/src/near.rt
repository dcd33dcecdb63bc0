//! Texts that differ from a line of an entry in one byte.

use crate::forms::or_error;
use hp_model::NoMemory;
use hp_reading::read_entry;
use std::alloc::Global;
use std::io;

/// What is found of the texts near a line.
#[derive(Clone, Copy)]
struct Found {
    /// Some of them is the line of an entry.
    has_entry: bool,
    /// Each of those is written again as it was.
    is_fine: bool,
}

/// Changes each byte of the line in turn, in one bit.
fn look_near(alloc: Global, line: &[u8]) -> Result<Found, NoMemory> {
    let mut found = Found {
        has_entry: false,
        is_fine: true,
    };
    let mut bytes = Vec::from_slice(alloc, line)?;
    let mut written = Vec::new(alloc);
    for place in 0..bytes.len() {
        for mask in [1, 2, 4, 16, 32] {
            bytes[place] ^= mask;
            if let Some(other) = read_entry(bytes.as_slice()) {
                written.clear();
                hp_trace::line(&other, &mut written)?;
                found.has_entry = true;
                found.is_fine = found.is_fine
                    && written.strip_suffix(b"\n") == Some(bytes.as_slice());
            }
            bytes[place] ^= mask;
        }
    }
    Ok(found)
}

/// Looks near all lines of entries.
pub fn try_near(rt: &HostRuntime, text: &str) -> io::Result<bool> {
    let mut has_entry = false;
    let mut is_fine = true;
    for line in text.lines() {
        if let Some(quoted) = line.strip_prefix("entry \"") {
            let line = quoted.trim_end_matches('"').as_bytes();
            let found = or_error(look_near(rt.alloc(), line))?;
            has_entry = has_entry || found.has_entry;
            is_fine = is_fine && found.is_fine;
        }
    }
    println!(rt; "near entries: some is an entry {has_entry}, each of these of its own {is_fine}")?;
    Ok(has_entry && is_fine)
}
