//! The top call of the command that waits: processors as threads.

ghost use Rattle.std.specs.Prelude.{◌≡◌, ◌≢◌, ◌≤◌, ◌↔◌, false, map, string_bytes, true, Ok};
ghost use Rattle.hp_model.specs.declared.files.File.{File as AFile};
ghost use Rattle.hp_boot.specs.Ending.{hands_over};
ghost use Rattle.hp_config.specs.Reading.{IsReadAs};
ghost use Rattle.hp_top.specs.Answers.{HoldsFile, IsDoneOrNoMemory};
ghost use Rattle.hp_top.specs.Commands.{are_threads as are_the_threads};
ghost use Rattle.hp_top.specs.Faults.{Rose};
ghost use Rattle.hp_top.specs.Threaded.{EndsThreads, EndsThreadsRun, ServesThreads};

use crate::commands::are_threads;
use crate::outside::{Sink, Source};
use crate::reading::{ReadStop, read_all};
use crate::statuses::Status;
use crate::threading::thread_file;
use hp_agent::Agent;
use hp_boot::{boot_ends, boot_stops_at_its_fact};
use hp_config::{ConfigFault, read, read_files_are_sound};
use hp_exact::runs_are_safe;
use hp_model::{schedule_is_a_run, told_voices_alone_agree};
use hp_threads::Pace;
use std::alloc::Global;
use std::sync::Wait;
use std::thread::Threads;

/// Runs the file that the bytes are.
fn thread_bytes<A: Agent + Send, R: Threads + Wait + Sync, K: Sink, P: Pace + Sync>(
    rt: &R,
    alloc: Global,
    bytes: &[u8],
    agents: Vec<A>,
    out: &mut K,
    pace: &P,
) -> Status
    ensures ends { EndsThreadsRun bytes.now (map A.voice agents.items) (K.held out.old) (K.held out.new) result }
    ensures fault { result ≡ Status.WriteFault → Rose (K.faults out.old) (K.faults out.new) }
    ensures later { K.faults out.old ≤ K.faults out.new }
    ensures calm { result ≢ Status.WriteFault → K.faults out.new ≡ K.faults out.old }
{
    schedule_is_a_run();
    runs_are_safe();
    read_files_are_sound();
    boot_stops_at_its_fact();
    told_voices_alone_agree();
    match read(alloc, bytes) {
        Ok(file) => thread_file(rt, alloc, file, agents, out, pace),
        Err(ConfigFault::NotToml) => Status::NotToml,
        Err(ConfigFault::Rule(rule)) => Status::Rule(rule),
        Err(ConfigFault::NoMemory) => Status::NoMemory,
    }
}

/// The same, and what a file whose machine is handed over ends with.
fn complete<A: Agent + Send, R: Threads + Wait + Sync, K: Sink, P: Pace + Sync>(
    rt: &R,
    alloc: Global,
    bytes: &[u8],
    agents: Vec<A>,
    out: &mut K,
    pace: &P,
) -> Status
    ensures ends { EndsThreadsRun bytes.now (map A.voice agents.items) (K.held out.old) (K.held out.new) result }
    ensures fault { result ≡ Status.WriteFault → Rose (K.faults out.old) (K.faults out.new) }
    ensures later { K.faults out.old ≤ K.faults out.new }
    ensures calm { result ≢ Status.WriteFault → K.faults out.new ≡ K.faults out.old }
    ensures completes { (file : AFile) → IsReadAs bytes.now (Ok file) → hands_over file.platform ≡ true
        → ¬ Rose (K.faults out.old) (K.faults out.new) → IsDoneOrNoMemory result }
{
    read_files_are_sound();
    boot_ends();
    thread_bytes(rt, alloc, bytes, agents, out, pace)
}

/// Reads the file to its end, and runs it.
fn serve_threads<A: Agent + Send, R: Threads + Wait + Sync, S: Source, K: Sink, P: Pace + Sync>(
    rt: &R,
    alloc: Global,
    src: &mut S,
    out: &mut K,
    agents: Vec<A>,
    pace: &P,
) -> Status
    ensures ends { ServesThreads (map A.voice agents.items) (S.left src.old) (S.left src.new) (K.held out.old) (K.held out.new) result }
    ensures read_fault { result ≡ Status.ReadFault → Rose (S.faults src.old) (S.faults src.new) }
    ensures read_calm { result ≢ Status.ReadFault → S.faults src.new ≡ S.faults src.old }
    ensures write_fault { result ≡ Status.WriteFault → Rose (K.faults out.old) (K.faults out.new) }
    ensures write_calm { result ≢ Status.WriteFault → K.faults out.new ≡ K.faults out.old }
    ensures completes { HoldsFile (S.left src.old)
        → ¬ Rose (S.faults src.old) (S.faults src.new) → ¬ Rose (K.faults out.old) (K.faults out.new)
        → IsDoneOrNoMemory result }
    ensures read_count { S.faults src.old ≤ S.faults src.new }
    ensures write_count { K.faults out.old ≤ K.faults out.new }
{
    match read_all(alloc, src) {
        Ok(bytes) => complete(rt, alloc, bytes.as_slice(), agents, out, pace),
        Err(ReadStop::ReadFault) => Status::ReadFault,
        Err(ReadStop::TooLong) => Status::TooLong,
        Err(ReadStop::NoMemory) => Status::NoMemory,
    }
}

/// Serves the command, with agents of any type that are handed in.
fn serve<A: Agent + Send, R: Threads + Wait + Sync, S: Source, K: Sink, P: Pace + Sync>(
    rt: &R,
    alloc: Global,
    words: &[String],
    src: &mut S,
    out: &mut K,
    agents: Vec<A>,
    pace: &P,
) -> Status
    ensures bad_words { (result ≡ Status.BadWords) ↔ (are_the_threads (map string_bytes words.now) ≡ false) }
    ensures ends { EndsThreads (map string_bytes words.now) (map A.voice agents.items) (S.left src.old) (S.left src.new) (K.held out.old) (K.held out.new) result }
    ensures read_fault { result ≡ Status.ReadFault → Rose (S.faults src.old) (S.faults src.new) }
    ensures read_calm { result ≢ Status.ReadFault → S.faults src.new ≡ S.faults src.old }
    ensures write_fault { result ≡ Status.WriteFault → Rose (K.faults out.old) (K.faults out.new) }
    ensures write_calm { result ≢ Status.WriteFault → K.faults out.new ≡ K.faults out.old }
    ensures completes { HoldsFile (S.left src.old) → are_the_threads (map string_bytes words.now) ≡ true
        → ¬ Rose (S.faults src.old) (S.faults src.new) → ¬ Rose (K.faults out.old) (K.faults out.new)
        → IsDoneOrNoMemory result }
    ensures read_count { S.faults src.old ≤ S.faults src.new }
    ensures write_count { K.faults out.old ≤ K.faults out.new }
{
    if are_threads(words) {
        serve_threads(rt, alloc, src, out, agents, pace)
    } else {
        Status::BadWords
    }
}

/// Serves the command `threads`, alone: reads a platform file to its end, makes its boot, then the turns of its processors in threads, and
/// at last writes the trace, as `top` does for `run`. Of `turns` each processor has as many as they come to over all of them, rounded
/// down; its stalls and the turns of its host events aren't looked at. Before each turn comes `pace`, outside the lock under which turns
/// are made.
///
/// For every platform, agents and interleaving, the trace written is a run of the written machine; every instruction executed
/// in SMM lies in SMRAM locked before it, no two processors hold one relocated SMBASE, a processor's SMBASE changes only after
/// passing the gate while the monarch had named its APIC ID, and in each undisturbed session completed adds and ejects change
/// exactly the processors reported, each refusal naming its fact.
///
/// Clause `ends` carries it: `IsSafe` of what was written, whole, cut or of a refused boot. The interleaving is the one that the threads
/// had: the run follows the voices of the file and of the agents that are handed in (`Follows`), as for `top`; it is hosted by the
/// file's host events in their order (`IsHosted`); and of each processor it has at most its turns, fewer where there was no step of it.
///
/// It may wait, so its clauses hold if it returns. The statuses are those of `top`. Before the threads have ended nothing is written.
pub fn top_threads<R: Threads + Wait + Sync, S: Source, K: Sink, P: Pace + Sync>(
    rt: &R,
    alloc: Global,
    words: &[String],
    src: &mut S,
    out: &mut K,
    agents: Vec<Box<dyn Agent + Send>>,
    pace: &P,
) -> Status
    ensures bad_words { (result ≡ Status.BadWords) ↔ (are_the_threads (map string_bytes words.now) ≡ false) }
    ensures ends { EndsThreads (map string_bytes words.now) (map (λ b. voice b) agents.items) (S.left src.old) (S.left src.new) (K.held out.old) (K.held out.new) result }
    ensures read_fault { result ≡ Status.ReadFault → Rose (S.faults src.old) (S.faults src.new) }
    ensures read_calm { result ≢ Status.ReadFault → S.faults src.new ≡ S.faults src.old }
    ensures write_fault { result ≡ Status.WriteFault → Rose (K.faults out.old) (K.faults out.new) }
    ensures write_calm { result ≢ Status.WriteFault → K.faults out.new ≡ K.faults out.old }
    ensures completes { HoldsFile (S.left src.old) → are_the_threads (map string_bytes words.now) ≡ true
        → ¬ Rose (S.faults src.old) (S.faults src.new) → ¬ Rose (K.faults out.old) (K.faults out.new)
        → IsDoneOrNoMemory result }
    ensures read_count { S.faults src.old ≤ S.faults src.new }
    ensures write_count { K.faults out.old ≤ K.faults out.new }
{
    serve(rt, alloc, words, src, out, agents, pace)
}
