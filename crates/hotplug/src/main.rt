//! The program: words, standard input and standard output in, an exit status out. docs/PROOFS.md says what is proved.
#![tactic(auto)]

ghost use Rattle.std.specs.Prelude.{◌≡◌, drop, IsErr, IsOk};

use hp_agent::{Agent, Seeded, Storm};
use hp_model::Actor;
use hp_threads::Pace;
use hp_top::{Failed, Status, StdSink, StdSource, top, top_threads};
use std::alloc::AllocError;
use std::io::BufWriter;
use std::process::ExitCode;
use std::sync::Wait;
use std::thread::Threads;
use std::{env, io};

/// The words that the system hands over, of which the first is the program's name.
fn words_of(rt: &HostRuntime) -> Result<Vec<String>, Status> {
    match env::args(rt) {
        Ok(all) => all.collect(rt.alloc()).map_err(|_| Status::NoMemory),
        Err(error) if error.kind() == io::ErrorKind::OutOfMemory => Err(Status::NoMemory),
        // A word that isn't UTF-8 is in no command.
        Err(_) => Err(Status::BadWords),
    }
}

/// The words after the program's name.
fn after_name(words: &[String]) -> &[String]
    ensures { result.now ≡ drop 1 words.now }
{
    match words {
        [_, rest @ ..] => rest,
        [] => words,
    }
}

/// Whether the first word asks for processors as threads.
fn asks_for_threads(words: &[String]) -> bool {
    match words {
        [word, ..] => word.as_str() == "threads",
        [] => false,
    }
}

/// Each turn comes at once.
struct AtOnce;

impl Pace for AtOnce {
    fn before(&self, _actor: Actor, _turn: u32) {}
}

/// How many bytes of standard output are held back: a line is no system call.
const HELD_BACK: usize = 0x10000;

/// How the program ends, where the call ended so: a write failed, where what was held back at its end couldn't be written.
fn ended(status: Status, finished: Result<(), Failed>) -> Status
    ensures kept { IsOk finished → result ≡ status }
    ensures fault { IsErr finished → result ≡ Status.WriteFault }
{
    match finished {
        Ok(()) => status,
        Err(Failed) => Status::WriteFault,
    }
}

/// The call for these words. Processors of kind handed get accesses that are drawn, and a storm over 64 processors. `waits` is the
/// runtime again, which may start threads and wait: only `main` has that of it.
fn call<R: Threads + Wait + Sync>(
    rt: &HostRuntime,
    waits: &R,
    words: &[String],
) -> Result<Status, AllocError> {
    let alloc = rt.alloc();
    let mut agents: Vec<Box<dyn Agent + Send>> = Vec::new(alloc);
    agents.push(Box::new(alloc, Seeded::new(1))?)?;
    agents.push(Box::new(alloc, Storm::new(64))?)?;
    let Ok(buffered) = BufWriter::with_capacity(alloc, HELD_BACK, rt.stdout()) else {
        return Ok(Status::NoMemory);
    };
    let mut src = StdSource::new(rt.stdin());
    let mut out = StdSink::new(buffered);
    let status = if asks_for_threads(words) {
        top_threads(waits, alloc, words, &mut src, &mut out, agents, &AtOnce)
    } else {
        top(alloc, words, &mut src, &mut out, agents)
    };
    Ok(ended(status, out.finish()))
}

fn serve<R: Threads + Wait + Sync>(rt: &HostRuntime, waits: &R) -> Status {
    match words_of(rt) {
        Ok(words) => call(rt, waits, after_name(words.as_slice())).unwrap_or(Status::NoMemory),
        Err(status) => status,
    }
}

fn main(rt: HostRuntime) -> ExitCode {
    let status = serve(&rt, &rt);
    if !matches!(status, Status::Done) {
        // Where standard error is gone too, the exit status still says it.
        let _ = eprintln!(rt; "hotplug: {status}");
    }
    ExitCode::from(status.code())
}
