//! The top call.

ghost use Rattle.std.specs.Prelude.{◌≡◌, ◌≢◌, ◌≤◌, ◌↔◌, ℕ, map, string_bytes, true, Ok};
ghost use Rattle.hp_model.specs.declared.files.File.{File as AFile};
ghost use Rattle.hp_model.specs.Voices.{told_of};
ghost use Rattle.hp_boot.specs.Ending.{hands_over};
ghost use Rattle.hp_config.specs.Reading.{IsReadAs};
ghost use Rattle.hp_config.specs.Sound.{IsSound};
ghost use Rattle.hp_top.specs.Faults.{Rose};
ghost use Rattle.hp_top.specs.Commands.{AreGen, AreNone, are_check, are_run};
ghost use Rattle.hp_top.specs.Answers.{EndsFile, EndsRun, Ends, HoldsFile, IsDoneOrNoMemory};
ghost use Rattle.hp_top.specs.Checked.{EndsCheck, HoldsTrace};
ghost use Rattle.hp_top.specs.Ending.{EndsBy};
ghost use Rattle.hp_top.specs.Generated.{WritesGen};

use crate::checking::{judge_all, tell};
use crate::commands::{Command, command_of};
use crate::outside::{Sink, Source, WriteStop};
use crate::reading::{ReadStop, read_all};
use crate::running::run_file;
use crate::statuses::Status;
use crate::summing::run_generated;
use hp_agent::Agent;
use hp_boot::{boot_ends, boot_stops_at_its_fact};
use hp_config::{ConfigFault, read, read_files_are_sound};
use hp_exact::runs_are_safe;
use hp_model::{File, schedule_is_a_run, told_voices_alone_agree};
use std::alloc::Global;

/// Runs the file that was read.
fn run_read<A: Agent, K: Sink>(alloc: Global, file: File, agents: Vec<A>, out: &mut K) -> Status
    requires { IsSound file }
    ensures ends { EndsFile file (told_of file (map A.voice agents.items)) (K.held out.old) (K.held out.new) result }
    ensures fault { result ≡ Status.WriteFault → Rose (K.faults out.old) (K.faults out.new) }
    ensures later { K.faults out.old ≤ K.faults out.new }
    ensures calm { result ≢ Status.WriteFault → K.faults out.new ≡ K.faults out.old }
{
    match run_file(alloc, file, agents, out) {
        Ok(None) => Status::Done,
        Ok(Some(fact)) => Status::BootRefused(fact),
        Err(WriteStop::Failed) => Status::WriteFault,
        Err(WriteStop::NoMemory) => Status::NoMemory,
    }
}

/// Runs the file that the bytes are.
fn run_bytes<A: Agent, K: Sink>(alloc: Global, bytes: &[u8], agents: Vec<A>, out: &mut K) -> Status
    ensures ends { EndsRun bytes.now (map A.voice agents.items) (K.held out.old) (K.held out.new) result }
    ensures fault { result ≡ Status.WriteFault → Rose (K.faults out.old) (K.faults out.new) }
    ensures later { K.faults out.old ≤ K.faults out.new }
    ensures calm { result ≢ Status.WriteFault → K.faults out.new ≡ K.faults out.old }
{
    schedule_is_a_run();
    runs_are_safe();
    read_files_are_sound();
    boot_stops_at_its_fact();
    told_voices_alone_agree();
    match read(alloc, bytes) {
        Ok(file) => run_read(alloc, file, agents, out),
        Err(ConfigFault::NotToml) => Status::NotToml,
        Err(ConfigFault::Rule(rule)) => Status::Rule(rule),
        Err(ConfigFault::NoMemory) => Status::NoMemory,
    }
}

/// The same, and what a file whose machine is handed over ends with.
fn complete<A: Agent, K: Sink>(alloc: Global, bytes: &[u8], agents: Vec<A>, out: &mut K) -> Status
    ensures ends { EndsRun bytes.now (map A.voice agents.items) (K.held out.old) (K.held out.new) result }
    ensures fault { result ≡ Status.WriteFault → Rose (K.faults out.old) (K.faults out.new) }
    ensures later { K.faults out.old ≤ K.faults out.new }
    ensures calm { result ≢ Status.WriteFault → K.faults out.new ≡ K.faults out.old }
    ensures completes { (file : AFile) → IsReadAs bytes.now (Ok file) → hands_over file.platform ≡ true
        → ¬ Rose (K.faults out.old) (K.faults out.new) → IsDoneOrNoMemory result }
{
    read_files_are_sound();
    boot_ends();
    run_bytes(alloc, bytes, agents, out)
}

/// Reads the file to its end, and runs it.
fn serve_run<A: Agent, S: Source, K: Sink>(
    alloc: Global,
    src: &mut S,
    out: &mut K,
    agents: Vec<A>,
) -> Status
    ensures ends { Ends (map A.voice agents.items) (S.left src.old) (S.left src.new) (K.held out.old) (K.held out.new) result }
    ensures read_fault { result ≡ Status.ReadFault → Rose (S.faults src.old) (S.faults src.new) }
    ensures read_calm { result ≢ Status.ReadFault → S.faults src.new ≡ S.faults src.old }
    ensures write_fault { result ≡ Status.WriteFault → Rose (K.faults out.old) (K.faults out.new) }
    ensures write_calm { result ≢ Status.WriteFault → K.faults out.new ≡ K.faults out.old }
    ensures completes { HoldsFile (S.left src.old)
        → ¬ Rose (S.faults src.old) (S.faults src.new) → ¬ Rose (K.faults out.old) (K.faults out.new)
        → IsDoneOrNoMemory result }
    ensures read_count { S.faults src.old ≤ S.faults src.new }
    ensures write_count { K.faults out.old ≤ K.faults out.new }
{
    match read_all(alloc, src) {
        Ok(bytes) => complete(alloc, bytes.as_slice(), agents, out),
        Err(ReadStop::ReadFault) => Status::ReadFault,
        Err(ReadStop::TooLong) => Status::TooLong,
        Err(ReadStop::NoMemory) => Status::NoMemory,
    }
}

/// Reads the trace to its end, and tells how it is judged.
fn serve_check<S: Source, K: Sink>(alloc: Global, src: &mut S, out: &mut K) -> Status
    ensures ends { EndsCheck (S.left src.old) (S.left src.new) (K.held out.old) (K.held out.new) result }
    ensures read_fault { result ≡ Status.ReadFault → Rose (S.faults src.old) (S.faults src.new) }
    ensures read_calm { result ≢ Status.ReadFault → S.faults src.new ≡ S.faults src.old }
    ensures write_fault { result ≡ Status.WriteFault → Rose (K.faults out.old) (K.faults out.new) }
    ensures write_calm { result ≢ Status.WriteFault → K.faults out.new ≡ K.faults out.old }
    ensures completes { HoldsTrace (S.left src.old)
        → ¬ Rose (S.faults src.old) (S.faults src.new) → ¬ Rose (K.faults out.old) (K.faults out.new)
        → IsDoneOrNoMemory result }
    ensures read_count { S.faults src.old ≤ S.faults src.new }
    ensures write_count { K.faults out.old ≤ K.faults out.new }
{
    match judge_all(alloc, src) {
        Ok(judge) => tell(alloc, judge, out),
        Err(ReadStop::ReadFault) => Status::ReadFault,
        Err(ReadStop::TooLong) => Status::TooLong,
        Err(ReadStop::NoMemory) => Status::NoMemory,
    }
}

/// Makes the run of the file that a number makes, and writes its line.
fn serve_gen<A: Agent, K: Sink>(alloc: Global, number: u32, out: &mut K) -> Status
    requires { number ≤ 1000 }
    ensures ends { WritesGen number (K.held out.old) (K.held out.new) result }
    ensures fault { result ≡ Status.WriteFault → Rose (K.faults out.old) (K.faults out.new) }
    ensures calm { result ≢ Status.WriteFault → K.faults out.new ≡ K.faults out.old }
    ensures later { K.faults out.old ≤ K.faults out.new }
{
    match run_generated::<A, K>(alloc, number, out) {
        Ok(()) => Status::Done,
        Err(WriteStop::Failed) => Status::WriteFault,
        Err(WriteStop::NoMemory) => Status::NoMemory,
    }
}

/// Serves a command, with agents of any type that are handed in.
fn serve<A: Agent, S: Source, K: Sink>(
    alloc: Global,
    words: &[String],
    src: &mut S,
    out: &mut K,
    agents: Vec<A>,
) -> Status
    ensures bad_words { (result ≡ Status.BadWords) ↔ AreNone (map string_bytes words.now) }
    ensures ends { EndsBy (map string_bytes words.now) (map A.voice agents.items) (S.left src.old) (S.left src.new) (K.held out.old) (K.held out.new) result }
    ensures read_fault { result ≡ Status.ReadFault → Rose (S.faults src.old) (S.faults src.new) }
    ensures read_calm { result ≢ Status.ReadFault → S.faults src.new ≡ S.faults src.old }
    ensures write_fault { result ≡ Status.WriteFault → Rose (K.faults out.old) (K.faults out.new) }
    ensures write_calm { result ≢ Status.WriteFault → K.faults out.new ≡ K.faults out.old }
    ensures completes { HoldsFile (S.left src.old) → are_run (map string_bytes words.now) ≡ true
        → ¬ Rose (S.faults src.old) (S.faults src.new) → ¬ Rose (K.faults out.old) (K.faults out.new)
        → IsDoneOrNoMemory result }
    ensures completes_check { HoldsTrace (S.left src.old) → are_check (map string_bytes words.now) ≡ true
        → ¬ Rose (S.faults src.old) (S.faults src.new) → ¬ Rose (K.faults out.old) (K.faults out.new)
        → IsDoneOrNoMemory result }
    ensures completes_gen { (n : ℕ) → AreGen (map string_bytes words.now) n → ¬ Rose (K.faults out.old) (K.faults out.new)
        → IsDoneOrNoMemory result }
    ensures read_count { S.faults src.old ≤ S.faults src.new }
    ensures write_count { K.faults out.old ≤ K.faults out.new }
{
    match command_of(words) {
        Some(Command::Run) => serve_run(alloc, src, out, agents),
        Some(Command::Check) => serve_check(alloc, src, out),
        Some(Command::Gen(number)) => serve_gen::<A, K>(alloc, number, out),
        None => Status::BadWords,
    }
}

/// Serves a command: `run`, `check`, or `gen` and a number from 1 to 1000 in decimal, without sign or leading zero.
///
/// `run` reads a platform file to its end, and writes the trace of its run, line by line:
///
/// For every platform, agents and interleaving, the trace written is a run of the written machine; every instruction executed
/// in SMM lies in SMRAM locked before it, no two processors hold one relocated SMBASE, a processor's SMBASE changes only after
/// passing the gate while the monarch had named its APIC ID, and in each undisturbed session completed adds and ejects change
/// exactly the processors reported, each refusal naming its fact.
///
/// Clause `ends` carries it: `IsSafe` of what was written, whole, cut or of a refused boot. The interleaving is the file's schedule.
/// Agents are those of the file's kinds and those that are handed in: the first for the first processor of kind handed, by their
/// numbers, the next for the next, and so on. Such a processor for which none is left halts, and agents that are left over are dropped.
/// Where all of them tell their voices the text is that of the schedule's run by these. Of an agent that tells none nothing is
/// presumed: the text is that of the schedule's run in which some script says what that agent said, and each other its voice.
///
/// `check` reads a trace to its end, of at most 67,108,864 bytes, and keeps none of it. Where it is the trace of a run it writes `ok` and
/// the number of the entries; the run is safe then, as above. Else `TraceRefused` has the first line at fault, from 1, and why, and
/// nothing is written. Agents that are handed in are dropped.
///
/// `gen` reads nothing. It makes the platform file of its number, runs it, and writes one line: how many entries the run has, and
/// how many of them tell an add, an eject, and a refusal. Agents that are handed in are dropped.
///
/// That each line goes to the sink when its step is made is no clause. docs/PROOFS.md says in words what the clauses do.
pub fn top<S: Source, K: Sink>(
    alloc: Global,
    words: &[String],
    src: &mut S,
    out: &mut K,
    agents: Vec<Box<dyn Agent + Send>>,
) -> Status
    ensures bad_words { (result ≡ Status.BadWords) ↔ AreNone (map string_bytes words.now) }
    ensures ends { EndsBy (map string_bytes words.now) (map (λ b. voice b) agents.items) (S.left src.old) (S.left src.new) (K.held out.old) (K.held out.new) result }
    ensures read_fault { result ≡ Status.ReadFault → Rose (S.faults src.old) (S.faults src.new) }
    ensures read_calm { result ≢ Status.ReadFault → S.faults src.new ≡ S.faults src.old }
    ensures write_fault { result ≡ Status.WriteFault → Rose (K.faults out.old) (K.faults out.new) }
    ensures write_calm { result ≢ Status.WriteFault → K.faults out.new ≡ K.faults out.old }
    ensures completes { HoldsFile (S.left src.old) → are_run (map string_bytes words.now) ≡ true
        → ¬ Rose (S.faults src.old) (S.faults src.new) → ¬ Rose (K.faults out.old) (K.faults out.new)
        → IsDoneOrNoMemory result }
    ensures completes_check { HoldsTrace (S.left src.old) → are_check (map string_bytes words.now) ≡ true
        → ¬ Rose (S.faults src.old) (S.faults src.new) → ¬ Rose (K.faults out.old) (K.faults out.new)
        → IsDoneOrNoMemory result }
    ensures completes_gen { (n : ℕ) → AreGen (map string_bytes words.now) n → ¬ Rose (K.faults out.old) (K.faults out.new)
        → IsDoneOrNoMemory result }
    ensures read_count { S.faults src.old ≤ S.faults src.new }
    ensures write_count { K.faults out.old ≤ K.faults out.new }
{
    serve(alloc, words, src, out, agents)
}
