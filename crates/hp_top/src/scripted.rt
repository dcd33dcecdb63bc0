//! A source and a sink in memory that fail at the calls that they were told.

ghost use Rattle.std.specs.Prelude.{◌≡◌, ◌<◌, ◌≤◌, ◌↔◌, ◌==◌, true, List, ℕ, Some, IfOk, IsErr, OnErr, length};
ghost use Rattle.std.specs.List.{list_any};
ghost use Rattle.std.specs.Io.{ReadsAtMost, WritesAtMost};
ghost use Rattle.std.specs.Io.KnownBytes.{ReadConsumes, WriteAppends};
ghost use Rattle.hp_top.specs.Faults.{HasCause, StopsFor, count_up, is_failed};
ghost use Rattle.hp_top.specs.Scripted.{is_due, next_call};

use crate::in_memory::give;
use crate::outside::{Failed, Sink, Source, WriteStop};
use std::marker::Model;

fn is_among(number: u64, numbers: &[u64]) -> bool
    ensures { result ≡ list_any (λ y. y == number) numbers.now }
{
    numbers.iter().any(|other| *other == number)
}

/// A source that gives these bytes, and fails at the calls with these numbers, counted from 1.
#[derive(Drop)]
pub struct MemSource {
    bytes: Vec<u8>,
    at: usize,
    fails: Vec<u64>,
    calls: u64,
    faults: u64,
}

impl Model for MemSource {
    ghost use Rattle.std.specs.Prelude.{◌≤◌, drop, length};
    ghost use Rattle.hp_top.specs.Scripted.{Scripted};

    ghost Value = { Scripted };

    ghost view = { λ s. record { bytes = drop s.at s.bytes.items; calls = s.calls; fails = s.fails.items; faults = s.faults } };

    ghost invariant = { λ s. s.at ≤ length s.bytes.items };
}

impl MemSource {
    pub fn new(bytes: Vec<u8>, fails: Vec<u64>) -> MemSource
        ensures { result ≡ record { bytes = bytes.items; calls = 0; fails = fails.items; faults = 0 } }
    {
        MemSource {
            bytes,
            at: 0,
            fails,
            calls: 0,
            faults: 0,
        }
    }
}

impl Source for MemSource {
    ghost left = { λ s. Some s.bytes };

    ghost faults = { λ s. s.faults };

    /// Fails exactly at the calls that were told, and counts one fault then. A count stands still at 2^64 - 1.
    fn read(&mut self, buf: &mut [u8]) -> Result<usize, Failed>
        ensures bound { ReadsAtMost result buf.new }
        ensures bytes { ReadConsumes (Some self.old.bytes) (Some self.new.bytes) result buf.new }
        ensures cause { HasCause self.old.faults self.new.faults result }
        ensures counted { OnErr result (self.new.faults ≡ count_up self.old.faults) }
        ensures due { IsErr result ↔ (is_due self.old ≡ true) }
        ensures calls { self.new.calls ≡ next_call self.old }
        ensures fails { self.new.fails ≡ self.old.fails }
    {
        self.calls = self.calls.saturating_add(1);
        if is_among(self.calls, self.fails.as_slice()) {
            self.faults = self.faults.saturating_add(1);
            return Err(Failed);
        }
        let count = give(&self.bytes[self.at..], buf);
        self.at += count;
        Ok(count)
    }
}

/// A sink that takes each piece whole, and fails at the calls with these numbers, counted from 1.
#[derive(Drop)]
pub struct MemSink {
    held: Vec<u8>,
    fails: Vec<u64>,
    calls: u64,
    faults: u64,
}

impl Model for MemSink {
    ghost use Rattle.hp_top.specs.Scripted.{Scripted};

    ghost Value = { Scripted };

    ghost view = { λ s. record { bytes = s.held.items; calls = s.calls; fails = s.fails.items; faults = s.faults } };
}

impl MemSink {
    /// Holds these bytes at first.
    pub fn new(held: Vec<u8>, fails: Vec<u64>) -> MemSink
        ensures { result ≡ record { bytes = held.items; calls = 0; fails = fails.items; faults = 0 } }
    {
        MemSink {
            held,
            fails,
            calls: 0,
            faults: 0,
        }
    }

    /// What it holds.
    pub fn held(&self) -> &[u8]
        ensures { result.now ≡ self.now.bytes }
    {
        self.held.as_slice()
    }
}

impl Sink for MemSink {
    ghost held = { λ s. Some s.bytes };

    ghost faults = { λ s. s.faults };

    /// Fails exactly at the calls that were told, and counts one fault then; else takes the piece whole, but for want of memory.
    fn write(&mut self, buf: &[u8]) -> Result<usize, WriteStop>
        ensures bound { WritesAtMost result buf.now }
        ensures took { IfOk result (λ n. 0 < length buf.now → 0 < n) }
        ensures bytes { WriteAppends (Some self.old.bytes) (Some self.new.bytes) result buf.now }
        ensures cause { StopsFor self.old.faults self.new.faults result }
        ensures counted { is_failed result ≡ true → self.new.faults ≡ count_up self.old.faults }
        ensures due { is_failed result ≡ is_due self.old }
        ensures whole { IfOk result (λ n. n ≡ length buf.now) }
        ensures calls { self.new.calls ≡ next_call self.old }
        ensures fails { self.new.fails ≡ self.old.fails }
    {
        self.calls = self.calls.saturating_add(1);
        if is_among(self.calls, self.fails.as_slice()) {
            self.faults = self.faults.saturating_add(1);
            return Err(WriteStop::Failed);
        }
        if self.held.extend_from_slice(buf).is_err() {
            return Err(WriteStop::NoMemory);
        }
        Ok(buf.len())
    }
}
