//! How far a text has led.

ghost use Rattle.std.specs.Prelude.{◌≡◌, ◌+◌, true, false, Err, IfOk, OnErr};
ghost use Rattle.hp_reading.specs.Header.{head_of};
ghost use Rattle.hp_judge.specs.Bytes.{after_byte, after_bytes, has_no_feed, overlong};
ghost use Rattle.hp_judge.specs.Judging.{cause_of, fault_told};
ghost use Rattle.hp_judge.specs.Stages.{IsCounted, IsHeld, Tells, end_by, judged, standing, told_by};
ghost use Rattle.hp_judge.specs.Standing.{after_line, by_end, by_head, is_refused as is_over, refused as refused_at, refusing, verdict, without_end};

use crate::refusals::{Refusal, Why};
use hp_check::Walk;
use hp_model::NoMemory;
use hp_reading::{end_number, headers_are_read_as_spelled, read_entry, read_head};
use std::alloc::Global;

/// No line of the grammar has so many bytes.
pub(crate) const LONGEST: usize = 12288;

/// How far the lines have led that have ended.
#[derive(Drop)]
pub enum Stage {
    /// None has ended.
    Heading,
    /// The header and so many entries have led to the state of this walk.
    Going(Walk, u64),
    /// The end line has ended too, with their number.
    Ended(u64),
    /// A line is at fault.
    Refused(Refusal),
}

/// What a line behind the header comes to.
#[derive(Clone, Copy)]
pub enum Told {
    /// An entry, which is a step.
    Step,
    /// The end line, with the right number.
    Last,
    /// It is at fault.
    Fault(Why),
}

/// A fault of the line behind so many entries.
fn behind(entries: u64, why: Why) -> Refusal
    requires { IsCounted entries }
    ensures { refused_at (fault_told result) ≡ refusing (entries + 2) (cause_of why) }
{
    Refusal {
        line: entries + 2,
        why,
    }
}

/// What line 1 leads to.
fn headed(alloc: Global, line: &[u8]) -> Result<Stage, NoMemory>
    ensures led { IfOk result (λ s. standing s ≡ by_head (head_of line.now)) }
    ensures held { IfOk result IsHeld }
{
    headers_are_read_as_spelled();
    match read_head(alloc, line)? {
        Some(p) => {
            let walk = Walk::new(alloc, &p)?;
            Ok(Stage::Going(walk, 0))
        }
        None => Ok(Stage::Refused(Refusal {
            line: 1,
            why: Why::Line,
        })),
    }
}

/// Line 1 has ended. That is once a text, and a function of its own keeps its locals out of what each line goes through.
#[inline(never)]
fn begin(alloc: Global, stage: &mut Stage, line: &[u8]) -> Result<(), NoMemory>
    requires { IsHeld stage.old }
    ensures held { IsHeld stage.new }
    ensures led { IfOk result (λ _. standing stage.new ≡ by_head (head_of line.now)) }
    ensures no_memory { OnErr result (stage.new ≡ stage.old) }
{
    *stage = headed(alloc, line)?;
    Ok(())
}

/// Why a line that is no entry's isn't the end line of so many entries; None where it is.
fn end_fault(entries: u64, number: Option<u64>) -> Option<Why>
    ensures { end_by entries result ≡ by_end entries number }
{
    match number {
        Some(number) => if number == entries {
            None
        } else {
            Some(Why::End)
        },
        None => Some(Why::Line),
    }
}

/// What a line behind so many entries comes to, and leads the walk on by an entry.
fn tell(walk: &mut Walk, entries: u64, line: &[u8]) -> Result<Told, NoMemory>
    requires going { walk.old.stopped ≡ false }
    ensures told { IfOk result (Tells walk.old walk.new entries line.now) }
    ensures no_memory { OnErr result (walk.new ≡ walk.old) }
{
    let Some(entry) = read_entry(line) else {
        return match end_fault(entries, end_number(line)) {
            Some(why) => Ok(Told::Fault(why)),
            None => Ok(Told::Last),
        };
    };
    // The number of the next line has 64 bits.
    if entries >= u64::MAX - 2 {
        return Err(NoMemory);
    }
    match walk.step(&entry) {
        Ok(true) => Ok(Told::Step),
        Ok(false) => Ok(Told::Fault(Why::Step)),
        Err(NoMemory) => Err(NoMemory),
    }
}

/// The line behind so many entries is the end line, or at fault. That too is once a text.
#[inline(never)]
fn settle(stage: &mut Stage, entries: u64, fault: Option<Why>)
    requires { IsCounted entries }
    ensures held { IsHeld stage.new }
    ensures led { standing stage.new ≡ end_by entries fault }
{
    *stage = match fault {
        Some(why) => Stage::Refused(behind(entries, why)),
        None => Stage::Ended(entries),
    };
}

/// A line has ended.
#[tactic(auto, unfolding(crate::specs::Standing::after_line))]
pub(crate) fn end_line(alloc: Global, stage: &mut Stage, line: &[u8]) -> Result<(), NoMemory>
    requires { IsHeld stage.old }
    ensures held { IsHeld stage.new }
    ensures led { IfOk result (λ _. standing stage.new ≡ after_line (standing stage.old) line.now) }
    ensures no_memory { OnErr result (stage.new ≡ stage.old) }
{
    match stage {
        Stage::Heading => begin(alloc, stage, line)?,
        Stage::Going(walk, entries) => match tell(walk, *entries, line)? {
            Told::Step => *entries += 1,
            Told::Last => {
                let before = *entries;
                settle(stage, before, None);
            }
            Told::Fault(why) => {
                let before = *entries;
                settle(stage, before, Some(why));
            }
        },
        Stage::Ended(entries) => {
            let before = *entries;
            settle(stage, before, Some(Why::End));
        }
        Stage::Refused(_) => {}
    }
    Ok(())
}

/// The line has too many bytes, whatever follows.
fn over(stage: &Stage) -> Stage
    requires { IsHeld stage.now }
    ensures held { IsHeld result }
    ensures led { standing result ≡ overlong (standing stage.now) }
{
    Stage::Refused(match stage {
        Stage::Heading => Refusal {
            line: 1,
            why: Why::Line,
        },
        Stage::Going(_, entries) => behind(*entries, Why::Line),
        Stage::Ended(entries) => behind(*entries, Why::End),
        Stage::Refused(refusal) => *refusal,
    })
}

fn is_refused(stage: &Stage) -> bool
    ensures { result ≡ is_over (standing stage.now) }
{
    matches!(stage, Stage::Refused(_))
}

/// Takes bytes of a line that they don't end, behind those that are kept of it. After `NoMemory` nothing has changed.
pub(crate) fn keep(stage: &mut Stage, rest: &mut Vec<u8>, bytes: &[u8]) -> Result<(), NoMemory>
    requires held { IsHeld stage.old }
    requires free { has_no_feed bytes.now ≡ true }
    ensures held { IsHeld stage.new }
    ensures led { IfOk result (λ _. judged stage.new rest.new.items ≡ after_bytes (judged stage.old rest.old.items) bytes.now) }
    ensures no_memory { OnErr result ((stage.new ≡ stage.old) × (rest.new.items ≡ rest.old.items)) }
{
    if is_refused(stage) {
        return Ok(());
    }
    if bytes.len() <= LONGEST.saturating_sub(rest.as_slice().len()) {
        rest.extend_from_slice(bytes)?;
    } else {
        *stage = over(stage);
        rest.clear();
    }
    Ok(())
}

/// Takes the line feed behind the bytes that are kept. After `NoMemory` nothing has changed.
pub(crate) fn end_kept(alloc: Global, stage: &mut Stage, rest: &mut Vec<u8>) -> Result<(), NoMemory>
    requires { IsHeld stage.old }
    ensures held { IsHeld stage.new }
    ensures led { IfOk result (λ _. judged stage.new rest.new.items ≡ after_byte (judged stage.old rest.old.items) 10) }
    ensures no_memory { OnErr result ((stage.new ≡ stage.old) × (rest.new.items ≡ rest.old.items)) }
{
    if is_refused(stage) {
        return Ok(());
    }
    end_line(alloc, stage, rest.as_slice())?;
    rest.clear();
    Ok(())
}

/// A text without an end line.
fn lacking(line: u64, rest: &[u8]) -> Refusal
    ensures { Err (fault_told result) ≡ without_end line rest.now }
{
    Refusal {
        line,
        why: if rest.is_empty() { Why::End } else { Why::Line },
    }
}

/// The judgement where the text ends.
pub(crate) fn close(stage: &Stage, rest: &[u8]) -> Result<u64, Refusal>
    requires { IsHeld stage.now }
    ensures { told_by result ≡ verdict (standing stage.now) rest.now }
{
    match stage {
        Stage::Heading => Err(lacking(1, rest)),
        Stage::Going(_, entries) => Err(lacking(*entries + 2, rest)),
        Stage::Ended(entries) => if rest.is_empty() {
            Ok(*entries)
        } else {
            Err(behind(*entries, Why::End))
        },
        Stage::Refused(refusal) => Err(*refusal),
    }
}
