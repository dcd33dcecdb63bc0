//! Sources and sinks in memory: sure ones, and ones that fail at calls that were told.

ghost use Rattle.std.specs.Prelude.{◌≡◌, ◌<◌, ◌≤◌, ◌++◌, [], Some, IfOk, drop, take, length};
ghost use Rattle.std.specs.Io.{WritesAtMost};
ghost use Rattle.std.specs.Io.KnownBytes.{WriteAppends};
ghost use Rattle.hp_top.specs.Faults.{StopsFor};

use crate::outside::{Failed, Sink, Source, WriteStop};
use std::marker::Model;

/// Copies what fits, and answers how much that is.
pub(crate) fn give(bytes: &[u8], buf: &mut [u8]) -> usize
    ensures bound { result ≤ length buf.new }
    ensures bytes { bytes.now ≡ take result buf.new ++ drop result bytes.now }
    ensures end { result ≡ 0 → 0 < length buf.new → bytes.now ≡ [] }
{
    let count = bytes.len().min(buf.len());
    buf[..count].copy_from_slice(&bytes[..count]);
    count
}

/// A source that gives these bytes and never fails.
#[derive(Drop)]
pub struct SureSource {
    bytes: Vec<u8>,
    at: usize,
}

impl Model for SureSource {
    ghost use Rattle.std.specs.Prelude.{◌≤◌, List, ℕ, drop, length};

    ghost Value = { List ℕ };

    ghost view = { λ s. drop s.at s.bytes.items };

    ghost invariant = { λ s. s.at ≤ length s.bytes.items };
}

impl SureSource {
    pub fn new(bytes: Vec<u8>) -> SureSource
        ensures { result ≡ bytes.items }
    {
        SureSource { bytes, at: 0 }
    }
}

impl Source for SureSource {
    ghost left = { λ s. Some s };

    ghost faults = { λ _. 0 };

    fn read(&mut self, buf: &mut [u8]) -> Result<usize, Failed> {
        let count = give(&self.bytes[self.at..], buf);
        self.at += count;
        Ok(count)
    }
}

/// A sink that takes each piece whole and never fails but for memory.
#[derive(Drop)]
pub struct SureSink {
    held: Vec<u8>,
}

impl Model for SureSink {
    ghost use Rattle.std.specs.Prelude.{List, ℕ};

    ghost Value = { List ℕ };

    ghost view = { λ s. s.held.items };
}

impl SureSink {
    /// Holds these bytes at first.
    pub fn new(held: Vec<u8>) -> SureSink
        ensures { result ≡ held.items }
    {
        SureSink { held }
    }

    /// What it holds.
    pub fn held(&self) -> &[u8]
        ensures { result.now ≡ self.now }
    {
        self.held.as_slice()
    }
}

impl Sink for SureSink {
    ghost held = { λ s. Some s };

    ghost faults = { λ _. 0 };

    /// Takes the piece whole, but for want of memory.
    fn write(&mut self, buf: &[u8]) -> Result<usize, WriteStop>
        ensures bound { WritesAtMost result buf.now }
        ensures took { IfOk result (λ n. 0 < length buf.now → 0 < n) }
        ensures bytes { WriteAppends (Some self.old) (Some self.new) result buf.now }
        ensures cause { StopsFor 0 0 result }
        ensures whole { IfOk result (λ n. n ≡ length buf.now) }
    {
        match self.held.extend_from_slice(buf) {
            Ok(()) => Ok(buf.len()),
            Err(_) => Err(WriteStop::NoMemory),
        }
    }
}
