//! A judge of a trace's text, which is given it in pieces.

ghost use Rattle.std.specs.Prelude.{◌≡◌, ℕ, true, false, List, [], ◌∷◌, ◌++◌, IfOk, IfSome, None, OnErr, Some};
ghost use Rattle.hp_judge.specs.Bytes.{has_no_feed};
ghost use Rattle.hp_judge.specs.Judging.{Feeds, HasFront, Judges, fault_told};
ghost use Rattle.hp_judge.specs.Standing.{heading, is_refused, after_lines};
ghost use Rattle.hp_reading.specs.Fault.{fault_of};
ghost use Rattle.hp_reading.specs.Trace.{cut};

use crate::pieces::{line_feed, note};
use crate::refusals::{Refusal, Stop};
use crate::stages::{LONGEST, Stage, close, end_kept, end_line, keep};
use hp_exact::runs_are_safe;
use hp_model::NoMemory;
use http_server::Log;
use std::alloc::Global;
use std::marker::Model;

/// Judges a text that it is given piece by piece: whether it is the trace of a run, and else which line is at fault first, and why.
///
/// It keeps the machine that the entries so far have led, their number, and the bytes of the line that hasn't ended, of which there are at most
/// 12 KiB: a longer line is at fault before it ends. Beside that its memory grows by pages of the machine's RAM that entries store to alone.
#[derive(Drop)]
pub struct Judge {
    alloc: Global,
    stage: Stage,
    rest: Vec<u8>,
    /// The bytes that were taken, for proofs alone: it takes no memory.
    taken: Log<u8, ()>,
}

impl Model for Judge {
    ghost use Rattle.std.specs.Prelude.{ℕ, List};
    ghost use Rattle.hp_judge.specs.Stages.{IsJudging, text_of};

    ghost Value = { List ℕ };

    ghost view = { λ j. text_of j.taken.items };

    ghost invariant = { λ j. IsJudging (text_of j.taken.items) j.stage j.rest.items };
}

impl Judge {
    /// A judge that has taken nothing.
    pub fn new(alloc: Global) -> Judge
        ensures { result ≡ [] }
    {
        Judge {
            alloc,
            stage: Stage::Heading,
            rest: Vec::new(alloc),
            taken: Log::new(),
        }
    }

    /// Takes bytes of a line that they don't end. After `NoMemory` they aren't taken.
    fn take_part(&mut self, bytes: &[u8]) -> Result<(), NoMemory>
        requires { has_no_feed bytes.now ≡ true }
        ensures taken { IfOk result (λ _. self.new ≡ self.old ++ bytes.now) }
        ensures no_memory { OnErr result (self.new ≡ self.old) }
    {
        keep(&mut self.stage, &mut self.rest, bytes)?;
        note(&mut self.taken, bytes);
        Ok(())
    }

    /// Takes the line feed behind the bytes that are kept. After `NoMemory` it isn't taken.
    fn take_feed(&mut self) -> Result<(), NoMemory>
        ensures taken { IfOk result (λ _. self.new ≡ self.old ++ 10 ∷ []) }
        ensures no_memory { OnErr result (self.new ≡ self.old) }
    {
        end_kept(self.alloc, &mut self.stage, &mut self.rest)?;
        self.taken = self.taken.and(&b'\n', &());
        Ok(())
    }

    /// Takes the bytes up to a line feed, and it. After `NoMemory` bytes at their front were taken and those behind them weren't.
    fn take_line(&mut self, line: &[u8]) -> Result<(), NoMemory>
        requires { has_no_feed line.now ≡ true }
        ensures taken { IfOk result (λ _. self.new ≡ self.old ++ (line.now ++ 10 ∷ [])) }
        ensures no_memory { OnErr result (HasFront self.old (line.now ++ 10 ∷ []) self.new) }
    {
        if self.rest.as_slice().is_empty() && line.len() <= LONGEST {
            // The line lies in the piece whole: none of its bytes is copied.
            end_line(self.alloc, &mut self.stage, line)?;
            note(&mut self.taken, line);
            note(&mut self.taken, b"\n");
            return Ok(());
        }
        self.take_part(line)?;
        self.take_feed()
    }

    /// The first line at fault, if it is found already.
    fn refusal(&self) -> Option<Refusal>
        ensures fault { IfSome result (λ r. (more : List ℕ) → fault_of (self.now ++ more) ≡ Some (fault_told r)) }
        ensures none { result ≡ None → is_refused (after_lines heading (cut self.now).lines) ≡ false }
    {
        match self.stage {
            Stage::Refused(refusal) => Some(refusal),
            _ => None,
        }
    }

    /// Takes the next piece of the text, cut anywhere. `Refused` comes where the first line at fault is known already: whatever follows, the
    /// judgement is this one, and so it stays. It comes at once where a line that has ended is at fault. After `NoMemory` bytes at the front of the
    /// piece were taken and those behind them weren't.
    pub fn feed(&mut self, bytes: &[u8]) -> Result<(), Stop>
        ensures { Feeds self.old bytes.now self.new result }
    {
        let mut left = bytes;
        'lines: while let Some(at) = line_feed(left) {
            let (line, more) = left.split_at(at);
            match self.take_line(line) {
                Ok(()) => {}
                Err(NoMemory) => return Err(Stop::NoMemory),
            }
            let (_, more) = more.split_at(1);
            left = more;
        }
        match self.take_part(left) {
            Ok(()) => {}
            Err(NoMemory) => return Err(Stop::NoMemory),
        }
        match self.refusal() {
            Some(refusal) => Err(Stop::Refused(refusal)),
            None => Ok(()),
        }
    }

    /// The judgement of the text that was taken, which ends here. `Ok` exactly where it has no fault: then it is the trace of so many entries, they
    /// are a run of its platform, and the run is safe. Else the first line at fault, from 1, and why: where the end line is missing, the line behind
    /// the last one.
    pub fn finish(self) -> Result<u64, Refusal>
        ensures { Judges self result }
    {
        runs_are_safe();
        close(&self.stage, self.rest.as_slice())
    }
}
