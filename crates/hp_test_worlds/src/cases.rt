//! What a test says of a world, as data.

use hp_model::{Access, Actor, BootFact, Entry, Event, NoMemory};
use std::alloc::AllocFailed;

/// The header of a trace of a platform.
#[derive(Clone, Copy)]
pub enum Header<'a> {
    /// This line.
    Line(&'a str),
    /// That of so many processors, all of them there at boot, with the APIC IDs from 0. `more` is what stands behind the delivery.
    Many {
        count: u32,
        tseg_mib: u32,
        more: &'a str,
    },
}

/// A world, and what is done in it. Processors after those that are spoken of have no agent.
#[derive(Clone, Copy)]
pub struct Case<'a> {
    pub header: Header<'a>,
    /// What processor 0 says, as steps of a platform file.
    pub steps: &'a [&'a str],
    /// What processor 1 says, with the lines that come of it; it has a script only where it says something.
    pub said: &'a [(Access, &'a str)],
    pub moves: &'a [Move<'a>],
}

/// What is done in a world, or asked of it, with what has to come.
#[derive(Clone, Copy)]
pub enum Move<'a> {
    /// So many turns of processor 0 before the hand-over, each of which makes a step.
    Boot(u32),
    /// Turns, with the line that each makes, or `idle`.
    Turns(&'a [(Actor, &'a str)]),
    /// Such turns, with how many questions agents that are handed in were asked by then.
    Heard(&'a [(Actor, &'a str, u32)]),
    /// Turns of processor 1, until it has said all that the case says of it.
    Said,
    /// So many turns of each of the first processors, round and round.
    Rounds {
        count: u32,
        rounds: u32,
    },
    /// At most 200 turns of processor 0, each after one of its SMI, until it makes a line that begins so.
    Reach(&'a str),
    /// Events that are applied, with the line of each entry, or `none`.
    Apply(&'a [(Event, &'a str)]),
    /// How many turns actors had.
    Asked(&'a [(Actor, u64)]),
    /// Each processor from one place to before another had so many turns.
    AskedEach {
        from: u32,
        to: u32,
        turns: u64,
    },
    /// How many entries have a line.
    Times(&'a [(&'a str, u64)]),
    /// Whether the machine is handed over, what refused its boot, and how many entries there are.
    Stands {
        handed: bool,
        refused: Option<BootFact>,
        entries: u64,
    },
    /// How many agents that were handed in are dropped.
    Dropped(u32),
    /// Lists of entries: so many of the world's first, and these behind them. With the number, from 1, of the first that is no step
    /// after those before it, 0 where all are a run.
    Check(&'a [(usize, &'a [Entry], u64)]),
}

/// Why a case isn't played to its end.
#[derive(Debug, Drop)]
pub enum Fault {
    NoMemory,
    /// There is no such platform, no such step of a script, or the agents have no places.
    NotACase,
    /// What came in place of what a move says. Cases, and the moves of each, are numbered from 0.
    Found {
        case: usize,
        number: usize,
        found: String,
    },
}

impl From<NoMemory> for Fault {
    fn from(_refused: NoMemory) -> Fault {
        Fault::NoMemory
    }
}

impl<T: Drop> From<AllocFailed<T>> for Fault {
    fn from(_refused: AllocFailed<T>) -> Fault {
        Fault::NoMemory
    }
}
