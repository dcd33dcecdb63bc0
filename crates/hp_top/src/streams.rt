//! The edge to the outside: a source over any reader and a sink over any writer.

ghost use Rattle.std.specs.Prelude.{◌≡◌, ◌<◌, true, IfOk, OnErr, length};
ghost use Rattle.std.specs.Io.{ReadsAtMost, WritesAtMost};
ghost use Rattle.std.specs.Io.KnownBytes.{Keeps, ReadConsumes, WriteAppends};
ghost use Rattle.hp_top.specs.Faults.{HasCause, StopsFor, count_up, is_failed};

use crate::outside::{Failed, Sink, Source, WriteStop};
use std::io::{Read, Write};

/// A source over a reader, such as standard input. It tells what the reader tells, and counts the reader's errors.
#[derive(Drop)]
pub struct StdSource<R: Read> {
    from: R,
    faults: u64,
}

impl<R: Read> StdSource<R> {
    pub fn new(from: R) -> StdSource<R>
        ensures from { result.from ≡ from }
        ensures faults { result.faults ≡ 0 }
    {
        StdSource { from, faults: 0 }
    }
}

impl<R: Read> Source for StdSource<R> {
    ghost left = { λ s. R.remaining s.from };

    ghost faults = { λ s. s.faults };

    /// `Failed` where the reader failed, which counts as one fault.
    fn read(&mut self, buf: &mut [u8]) -> Result<usize, Failed>
        ensures bound { ReadsAtMost result buf.new }
        ensures bytes { ReadConsumes (R.remaining self.old.from) (R.remaining self.new.from) result buf.new }
        ensures cause { HasCause self.old.faults self.new.faults result }
        ensures counted { OnErr result (self.new.faults ≡ count_up self.old.faults) }
    {
        match self.from.read(buf) {
            Ok(count) => Ok(count),
            Err(_) => {
                self.faults = self.faults.saturating_add(1);
                Err(Failed)
            }
        }
    }
}

/// A sink over a writer, such as standard output. It tells what the writer tells, and counts the writer's errors and the
/// writes that took nothing. What a writer with a buffer holds back counts as written; `finish` hands it on.
#[derive(Drop)]
pub struct StdSink<W: Write> {
    to: W,
    faults: u64,
}

impl<W: Write> StdSink<W> {
    pub fn new(to: W) -> StdSink<W>
        ensures to { result.to ≡ to }
        ensures faults { result.faults ≡ 0 }
    {
        StdSink { to, faults: 0 }
    }

    /// Hands on what the writer holds back. `Failed` where the writer can't, which counts as one fault: then some of what was written
    /// hasn't left the writer.
    pub fn finish(&mut self) -> Result<(), Failed>
        ensures bytes { Keeps (W.contents self.old.to) (W.contents self.new.to) }
        ensures cause { HasCause self.old.faults self.new.faults result }
        ensures counted { OnErr result (self.new.faults ≡ count_up self.old.faults) }
    {
        match self.to.flush() {
            Ok(()) => Ok(()),
            Err(_) => {
                self.faults = self.faults.saturating_add(1);
                Err(Failed)
            }
        }
    }
}

impl<W: Write> Sink for StdSink<W> {
    ghost held = { λ s. W.contents s.to };

    ghost faults = { λ s. s.faults };

    /// `Failed` where the writer failed, or took nothing of a piece that isn't empty, which counts as one fault.
    fn write(&mut self, buf: &[u8]) -> Result<usize, WriteStop>
        ensures bound { WritesAtMost result buf.now }
        ensures took { IfOk result (λ n. 0 < length buf.now → 0 < n) }
        ensures bytes { WriteAppends (W.contents self.old.to) (W.contents self.new.to) result buf.now }
        ensures cause { StopsFor self.old.faults self.new.faults result }
        ensures counted { is_failed result ≡ true → self.new.faults ≡ count_up self.old.faults }
    {
        match self.to.write(buf) {
            Ok(count) if 0 < count || buf.is_empty() => Ok(count),
            _ => {
                self.faults = self.faults.saturating_add(1);
                Err(WriteStop::Failed)
            }
        }
    }
}
