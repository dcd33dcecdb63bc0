//! A whole trace through a reader that is given it line by line.

use hp_reading::{LineFault, Piece, Reader};
use std::{fs, io};

/// Says what the lines of a file are, and whether there was a header.
pub fn read_trace(rt: &HostRuntime, file: &str) -> io::Result<()> {
    let text = fs::read_to_string(rt, file)?;
    let mut reader = Reader::new(rt.alloc());
    let mut entries = 0u64;
    for line in text.lines() {
        match reader.feed(line.as_bytes()) {
            Ok(Piece::Head) => println!(rt; "{file}: a header")?,
            Ok(Piece::Entry(_)) => entries = entries.saturating_add(1),
            Ok(Piece::End(count)) => println!(rt;
                "{file}: {entries} entries, and an end of {count}"
            )?,
            Err(LineFault::BadLine(number)) => println!(rt;
                "{file}: line {number} refused at {line}"
            )?,
            Err(LineFault::NoMemory) => println!(rt; "{file}: no memory")?,
        }
    }
    let has = reader.platform().is_some();
    println!(rt; "{file}: a platform {has}")
}
