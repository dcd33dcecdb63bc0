//! One run of the top call, with its source and its sink in memory.

ghost use Rattle.std.specs.Prelude.{None};

use hp_top::{Failed, MemSink, MemSource, Source, Status, top};
use std::alloc::{AllocError, Global};

/// Which call of the source or of the sink fails, counted from 1, or that the source gives one byte a read.
#[derive(Clone, Copy)]
pub enum Fails {
    Nothing,
    Read(u64),
    Write(u64),
    Drips,
}

/// A source that gives one byte a read, and doesn't tell which.
#[derive(Drop)]
struct Dripping {
    bytes: Vec<u8>,
    at: usize,
}

impl Source for Dripping {
    ghost left = { λ _. None };

    ghost faults = { λ _. 0 };

    fn read(&mut self, buf: &mut [u8]) -> Result<usize, Failed> {
        match (self.bytes.as_slice().get(self.at), buf.first_mut()) {
            (Some(byte), Some(place)) => {
                *place = *byte;
                self.at = self.at.saturating_add(1);
                Ok(1)
            }
            _ => Ok(0),
        }
    }
}

/// How a run ended, and what it wrote.
#[derive(Drop)]
pub struct Ran {
    pub status: Status,
    pub text: String,
}

fn words_of(alloc: Global, words: &str) -> Result<Vec<String>, AllocError> {
    let mut all = Vec::new(alloc);
    for word in words.split_whitespace() {
        all.push(word.to_string(alloc)?)?;
    }
    Ok(all)
}

/// Runs the top call with these words over these bytes. No agent is handed in.
pub fn run(alloc: Global, words: &str, bytes: Vec<u8>, fails: Fails) -> Result<Ran, AllocError> {
    let words = words_of(alloc, words)?;
    let mut reads = Vec::new(alloc);
    let mut writes = Vec::new(alloc);
    match fails {
        Fails::Nothing => {}
        Fails::Read(call) => reads.push(call)?,
        Fails::Write(call) => writes.push(call)?,
        Fails::Drips => {}
    }
    let mut out = MemSink::new(Vec::new(alloc), writes);
    let words = words.as_slice();
    let status = if matches!(fails, Fails::Drips) {
        let mut src = Dripping { bytes, at: 0 };
        top(alloc, words, &mut src, &mut out, Vec::new(alloc))
    } else {
        let mut src = MemSource::new(bytes, reads);
        top(alloc, words, &mut src, &mut out, Vec::new(alloc))
    };
    let text = String::from_utf8_lossy(alloc, out.held())?;
    Ok(Ran { status, text })
}

impl Ran {
    /// The exit status and the text of the status.
    pub fn answer(&self, alloc: Global) -> Result<String, AllocError> {
        format!(in alloc; "{} {}", self.status.code(), self.status)
    }
}
