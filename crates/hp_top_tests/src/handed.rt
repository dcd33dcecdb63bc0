//! Runs with agents that are handed in.

ghost use Rattle.std.specs.Prelude.{None};

use hp_agent::{Agent, Digger, Storm};
use hp_model::{Access, Answer};
use hp_top::{Sink, Status, SureSink, SureSource, WriteStop, top};
use http_server::Log;
use std::alloc::Global;
use std::process::Abort;
use std::sync::Arc;
use std::sync::atomic::{AtomicU32, Ordering};
use std::test::Fail;

/// Says one access, whatever it is asked, and counts its drops. It tells no voice.
struct Always {
    access: Access,
    drops: Arc<AtomicU32, Global>,
    log: Log<(u32, u32, Answer), Access>,
}

impl Always {
    fn new(access: Access, drops: Arc<AtomicU32, Global>) -> Always {
        Always {
            access,
            drops,
            log: Log::new(),
        }
    }
}

impl Drop for Always {
    fn drop(self) {
        self.drops.fetch_add(1, Ordering::SeqCst);
        let Self {
            access: _,
            drops: _,
            log: _,
        } = self;
    }
}

impl Agent for Always {
    ghost voice = { λ _. None };

    ghost heard = { λ a. a.log.items };

    fn next(&mut self, cpu: u32, page: u32, last: Answer) -> Access {
        let access = self.access;
        self.log = self.log.and(&(cpu, page, last), &access);
        access
    }
}

/// An agent that a run is given.
#[derive(Clone, Copy)]
enum Given {
    Always(Access),
    Digger,
    Storm(u32),
}

const STORE: Access = Access::Store {
    addr: 0x38000,
    width: 4,
    value: 0,
};

const FIRST: Access = Access::Out {
    port: 0x80,
    width: 1,
    value: 1,
};

const SECOND: Access = Access::Out {
    port: 0x80,
    width: 1,
    value: 2,
};

/// A run with agents that are handed in.
struct Run<'a> {
    /// The APIC IDs of all processors, which are there at boot.
    all: &'a str,
    turns: u32,
    /// What the file says of its agents.
    kinds: &'a str,
    given: &'a [Given],
    /// The lines after those of the boot.
    lines: &'a str,
}

/// Processor 0 has a script of one step, and the agent of processor 1 is handed in.
const A_LOAD: &str = "[[agent]]
cpu = 0
kind = \"script\"
steps = [\"load 4 00038000\"]
[[agent]]
cpu = 1
kind = \"handed\"
";

const RUNS: [Run<'_>; 5] = [
    Run {
        all: "0, 1",
        turns: 4,
        kinds: A_LOAD,
        given: &[Given::Always(STORE)],
        lines: "p0 load 4 00038000 = ffffffff
p1 store 4 00038000 00000000
p0 halt
p1 store 4 00038000 00000000
end 31
",
    },
    Run {
        all: "0, 1",
        turns: 8,
        kinds: A_LOAD,
        given: &[Given::Digger],
        lines: "p0 load 4 00038000 = ffffffff
p1 store 8 00001000 080000000a002200
p0 halt
p1 store 8 00001008 0080030000000000
p1 out 4 0518 00100000
p1 store 4 00038000 00000000
end 33
",
    },
    Run {
        all: "0, 1",
        turns: 24,
        kinds: "[[agent]]
cpu = 1
kind = \"handed\"
",
        given: &[Given::Storm(2)],
        lines: "p0 halt
p1 out 4 0cd8 00000000
p1 out 1 0cdc 10
p1 icr 00000000 000c0500
p0 init
p1 icr 00000000 000c0200
p1 store 8 00030000 0000000000000000
p1 out 1 00b2 04
p1 smi
p1 @07f38000 store 1 07f00001 01
p1 @07f38004 load 1 07f02001 = 00
p1 @07f38008 load 1 07f01001 = 01
p1 @07f3800c store 1 07f00001 00
p1 @07f38010 rsm
end 41
",
    },
    // the first for the lowest of these processors; one that is left over is dropped
    Run {
        all: "0, 1, 2",
        turns: 3,
        kinds: "[[agent]]
cpu = 2
kind = \"handed\"
[[agent]]
cpu = 0
kind = \"handed\"
",
        given: &[
            Given::Always(FIRST),
            Given::Always(SECOND),
            Given::Always(STORE),
        ],
        lines: "p0 out 1 0080 01
p1 halt
p2 out 1 0080 02
end 30
",
    },
    // one for which none is left halts
    Run {
        all: "0, 1, 2",
        turns: 3,
        kinds: "[[agent]]
cpu = 1
kind = \"handed\"
[[agent]]
cpu = 2
kind = \"handed\"
",
        given: &[Given::Always(FIRST)],
        lines: "p0 halt
p1 out 1 0080 01
p2 halt
end 30
",
    },
];

fn file_of(alloc: Global, run: &Run<'_>) -> Result<String, Fail> {
    Ok(format!(in alloc;
        "[platform]\napic = [{}]\nboot = [{}]\nlow_memory = 0x8000000\ntseg_mib = 1\nfeatures = 7\npolls = 8\nturns = {}\n{}",
        run.all, run.all, run.turns, run.kinds
    )?)
}

/// How many lines the header and the boot make.
const BOOT_LINES: usize = 28;

/// Runs the file with these agents.
fn run_with<K: Sink>(
    alloc: Global,
    file: &str,
    out: &mut K,
    agents: Vec<Box<dyn Agent + Send>>,
) -> Result<Status, Fail> {
    let mut words = Vec::new(alloc);
    words.push("run".to_string(alloc)?)?;
    let mut src = SureSource::new(file.as_bytes().to_vec(alloc)?);
    Ok(top(alloc, words.as_slice(), &mut src, out, agents))
}

fn try_lines(rt: &impl Abort, alloc: Global, held: &[u8], want: &str) -> Result<(), Fail> {
    let text = String::from_utf8_lossy(alloc, held)?;
    let mut lines = text.lines().skip(BOOT_LINES);
    for line in want.lines() {
        assert_eq!(rt; lines.next(), Some(line));
    }
    assert!(rt; lines.next().is_none(), "{want}");
    Ok(())
}

#[test]
fn agents_that_are_handed_in_run(rt: HostRuntime) -> Result<(), Fail> {
    let alloc = rt.alloc();
    for run in &RUNS {
        let drops = Arc::new(alloc, AtomicU32::new(0))?;
        let mut counting = 0u32;
        let mut agents: Vec<Box<dyn Agent + Send>> = Vec::new(alloc);
        for one in run.given {
            match one {
                Given::Always(access) => {
                    counting = counting.saturating_add(1);
                    let agent = Always::new(*access, Arc::try_clone(&drops)?);
                    agents.push(Box::new(alloc, agent)?)?;
                }
                Given::Digger => agents.push(Box::new(alloc, Digger::new())?)?,
                Given::Storm(count) => agents.push(Box::new(alloc, Storm::new(*count))?)?,
            }
        }
        let mut out = SureSink::new(Vec::new(alloc));
        let status = run_with(alloc, file_of(alloc, run)?.as_str(), &mut out, agents)?;
        assert_eq!(rt; status, Status::Done);
        try_lines(&rt, alloc, out.held(), run.lines)?;
        assert_eq!(rt; drops.load(Ordering::SeqCst), counting, "{}", run.lines);
    }
    Ok(())
}

/// Holds each piece behind the number of drops at its time.
struct Counted {
    held: Vec<u8>,
    drops: Arc<AtomicU32, Global>,
}

impl Drop for Counted {
    fn drop(self) {
        let Self { held: _, drops: _ } = self;
    }
}

impl Sink for Counted {
    ghost held = { λ _. None };

    ghost faults = { λ _. 0 };

    fn write(&mut self, buf: &[u8]) -> Result<usize, WriteStop> {
        let count = if self.drops.load(Ordering::SeqCst) == 0 {
            b'0'
        } else {
            b'1'
        };
        if self.held.push(count).is_err() || self.held.extend_from_slice(buf).is_err() {
            return Err(WriteStop::NoMemory);
        }
        Ok(buf.len())
    }
}

/// Processor 1, whose agent is handed in, is added, ejected, and added again.
const ADDED_AND_EJECTED: &str = "[platform]
apic = [0, 1]
boot = [0]
low_memory = 0x8000000
tseg_mib = 1
features = 7
polls = 8
turns = 200
[[host]]
turn = 0
insert = 1
[[host]]
turn = 121
insert = 1
[[agent]]
cpu = 0
kind = \"script\"
steps = [\"out 1 00b2 04\", \"out 4 0cd8 00000001\", \"out 1 0cdc 02\", \"out 1 0cdc 10\", \"out 1 00b2 04\", \"out 1 00b2 04\"]
[[agent]]
cpu = 1
kind = \"handed\"
";

/// The lines before the eject's have the count 0, and those from it on 1. How often each outcome was told.
fn try_counts(rt: &impl Abort, text: &str) -> Result<(), Fail> {
    let mut ejected = false;
    let mut told = (0u32, 0u32);
    for line in text.lines() {
        ejected = ejected || line.ends_with(" out 1 0cdc 08");
        assert_eq!(rt; line.starts_with('1'), ejected, "{line}");
        if line.contains(" tell added 1 1 1") {
            told.0 = told.0.saturating_add(1);
        }
        if line.contains(" tell ejected 1 1 1") {
            told.1 = told.1.saturating_add(1);
        }
    }
    assert!(rt; ejected && told == (2, 1));
    Ok(())
}

#[test]
fn an_agent_is_dropped_when_its_processor_is_ejected(rt: HostRuntime) -> Result<(), Fail> {
    let alloc = rt.alloc();
    let drops = Arc::new(alloc, AtomicU32::new(0))?;
    let mut agents: Vec<Box<dyn Agent + Send>> = Vec::new(alloc);
    let agent = Always::new(Access::Halt, Arc::try_clone(&drops)?);
    agents.push(Box::new(alloc, agent)?)?;
    let mut out = Counted {
        held: Vec::new(alloc),
        drops: Arc::try_clone(&drops)?,
    };
    let status = run_with(alloc, ADDED_AND_EJECTED, &mut out, agents)?;
    assert_eq!(rt; status, Status::Done);
    assert_eq!(rt; drops.load(Ordering::SeqCst), 1);
    let text = String::from_utf8_lossy(alloc, out.held.as_slice())?;
    try_counts(&rt, text.as_str())
}
