//! Judges the whole input as a trace, up to a limit, and keeps none of it.

ghost use Rattle.std.specs.Prelude.{◌≡◌, ◌≢◌, ◌≤◌, ◌<◌, ◌+◌, MatchResult, None, OnErr, OnOk};
ghost use Rattle.std.specs.Io.KnownBytes.{Appends};
ghost use Rattle.hp_reading.specs.Fault.{fault_of};
ghost use Rattle.hp_trace.specs.Summary.{ok_text};
ghost use Rattle.hp_top.specs.Answers.{IsDoneOrNoMemory};
ghost use Rattle.hp_top.specs.Checked.{EndsJudged};
ghost use Rattle.hp_top.specs.Faults.{Rose, StopsFor};
ghost use Rattle.hp_top.specs.Input.{HasRead, StaysReading, StopsReading, trace_limit};
ghost use Rattle.hp_top.specs.Sent.{HoldsFront};

use crate::outside::{Sink, Source, WriteStop};
use crate::reading::{PIECE, ReadStop};
use crate::statuses::Status;
use crate::writing::write_all;
use hp_judge::{Judge, Stop};
use std::alloc::Global;

/// How many bytes a trace may have: 64 MiB.
pub const TRACE_LIMIT: usize = 67_108_864;

/// Reads to the end, or up to one byte past the limit, and gives a judge each piece. A refusal that is known early doesn't end it.
pub(crate) fn judge_all<S: Source>(alloc: Global, src: &mut S) -> Result<Judge, ReadStop>
    ensures later { S.faults src.old ≤ S.faults src.new }
    ensures ends { MatchResult result (λ judge. HasRead trace_limit (S.left src.old) (S.left src.new) judge)
        (λ stop. StopsReading trace_limit (S.left src.old) (S.left src.new) (S.faults src.old) (S.faults src.new) stop) }
    ensures calm { MatchResult result (λ judge. S.faults src.new ≡ S.faults src.old)
        (λ stop. StaysReading (S.faults src.old) (S.faults src.new) stop) }
{
    let mut judge = Judge::new(alloc);
    let mut taken = 0usize;
    let mut piece = [0u8; PIECE];
    'source: while taken <= TRACE_LIMIT {
        // not past the byte that tells that the input is too long
        let most = PIECE.min(TRACE_LIMIT + 1 - taken);
        let count = match src.read(&mut piece[..most]) {
            Ok(count) => count,
            Err(_) => return Err(ReadStop::ReadFault),
        };
        if count == 0 {
            return Ok(judge);
        }
        match judge.feed(&piece[..count]) {
            Ok(()) => {}
            Err(Stop::Refused(_)) => {}
            Err(Stop::NoMemory) => return Err(ReadStop::NoMemory),
        }
        taken += count;
    }
    Err(ReadStop::TooLong)
}

/// Writes how many entries were accepted.
fn send_ok<K: Sink>(alloc: Global, entries: u64, out: &mut K) -> Result<(), WriteStop>
    ensures all { OnOk result (Appends (K.held out.old) (K.held out.new) (ok_text entries)) }
    ensures part { OnErr result (HoldsFront (K.held out.old) (K.held out.new) (ok_text entries)) }
    ensures cause { StopsFor (K.faults out.old) (K.faults out.new) result }
{
    let mut text = Vec::new(alloc);
    if hp_trace::ok_line(entries, &mut text).is_err() {
        return Err(WriteStop::NoMemory);
    }
    write_all(out, text.as_slice())
}

/// Tells the judgement of the input that was read.
pub(crate) fn tell<K: Sink>(alloc: Global, judge: Judge, out: &mut K) -> Status
    ensures ends { EndsJudged judge (K.held out.old) (K.held out.new) result }
    ensures fault { result ≡ Status.WriteFault → Rose (K.faults out.old) (K.faults out.new) }
    ensures calm { result ≢ Status.WriteFault → K.faults out.new ≡ K.faults out.old }
    ensures later { K.faults out.old ≤ K.faults out.new }
    ensures completes { fault_of judge ≡ None → ¬ Rose (K.faults out.old) (K.faults out.new) → IsDoneOrNoMemory result }
{
    match judge.finish() {
        Ok(entries) => match send_ok(alloc, entries, out) {
            Ok(()) => Status::Done,
            Err(WriteStop::Failed) => Status::WriteFault,
            Err(WriteStop::NoMemory) => Status::NoMemory,
        },
        Err(refusal) => Status::TraceRefused(refusal.line, refusal.why),
    }
}
