//! In which order a worker's pace and its turns come: the pace of a turn comes before it, and the worker makes the turn before the
//! pace of the next one.

ghost use Rattle.std.specs.Prelude.{◌≡◌, true, All};
ghost use Rattle.hp_model.specs.Hosting.{is_host};

use crate::worlds::{handed_over, repeated};
use hp_agent::{PenAgent, Voice};
use hp_model::{Access, Actor, Entry, Event, HostEvent};
use hp_test_worlds::{BOTH, Header, TWO};
use hp_threads::{Pace, run};
use std::alloc::Global;
use std::process::Abort;
use std::sync::Wait;
use std::sync::atomic::{AtomicU32, Ordering};
use std::test::Fail;
use std::thread::Threads;

/// Whose first turn has to fall between turns 4 and 5 of processor 0: before it the worker waits for turn 4, and turn 5 for the worker's second turn.
#[derive(Clone, Copy, PartialEq)]
enum Other {
    /// The host's worker.
    Host,
    /// That of processor 1.
    Second,
}

impl Other {
    fn is_of(self, actor: Actor) -> bool {
        match actor {
            Actor::Insert(_) | Actor::Remove(_) => self == Other::Host,
            Actor::Cpu(cpu) | Actor::Smi(cpu) => self == Other::Second && cpu == 1,
        }
    }
}

#[derive(Drop)]
struct Between {
    other: Other,
    /// Whether the other's first turn was reached, turn 4 of processor 0, and the other's second turn.
    first: AtomicU32,
    fourth: AtomicU32,
    second: AtomicU32,
    /// How many waits ended with what they waited for.
    met: AtomicU32,
}

impl Between {
    fn new(other: Other) -> Between {
        Between {
            other,
            first: AtomicU32::new(0),
            fourth: AtomicU32::new(0),
            second: AtomicU32::new(0),
            met: AtomicU32::new(0),
        }
    }

    fn wait(&self, reached: &AtomicU32) {
        for _look in 0..100_000_000u32 {
            if reached.load(Ordering::SeqCst) == 1 {
                self.met.fetch_add(1, Ordering::SeqCst);
                return;
            }
        }
    }

    fn before_other(&self, turn: u32) {
        match turn {
            0 => {
                self.first.store(1, Ordering::SeqCst);
                self.wait(&self.fourth);
            }
            1 => self.second.store(1, Ordering::SeqCst),
            _ => {}
        }
    }

    fn before_first(&self, turn: u32) {
        match turn {
            1 => self.wait(&self.first),
            4 => self.fourth.store(1, Ordering::SeqCst),
            5 => self.wait(&self.second),
            _ => {}
        }
    }
}

impl Pace for Between {
    fn before(&self, actor: Actor, turn: u32) {
        match actor {
            Actor::Cpu(0) => self.before_first(turn),
            _ if self.other.is_of(actor) => self.before_other(turn),
            _ => {}
        }
    }
}

/// How many entries come before the first of the other's.
fn place_of(entries: &[Entry], other: Other) -> usize {
    let mut before = 0usize;
    for entry in entries {
        let is_its = match entry.event {
            Event::Insert(_) => other == Other::Host,
            Event::Do(1, _) => other == Other::Second,
            _ => false,
        };
        if is_its {
            return before;
        }
        before = before.saturating_add(1);
    }
    before
}

const HOSTS: [HostEvent; 2] = [
    HostEvent {
        turn: 0,
        actor: Actor::Insert(1),
    },
    HostEvent {
        turn: 0,
        actor: Actor::Remove(1),
    },
];

/// Processor 0 makes a step in each of its turns, so the other's first turn comes after 4 or 5 of its entries.
fn try_between<R: Threads + Wait + Abort + Sync>(
    rt: &R,
    alloc: Global,
    other: Other,
    header: &Header,
    hosts: &[HostEvent],
) -> Result<(), Fail>
    requires { All (λ h. is_host h.actor ≡ true) hosts.now }
{
    let mut voices: Vec<Option<Voice<PenAgent>>> = Vec::new(alloc);
    voices.push(Some(Voice::Script(repeated(alloc, Access::Nop, 8)?)))?;
    voices.push(Some(Voice::Script(repeated(alloc, Access::Nop, 8)?)))?;
    let world = handed_over(alloc, header, voices)?;
    let pace = Between::new(other);
    let finished = run(rt, alloc, world, hosts, 8, &pace)?;
    assert_eq!(rt; pace.met.load(Ordering::SeqCst), 3);
    let place = place_of(finished.world.entries(), other);
    assert!(rt; place == 31 || place == 32, "{place}");
    Ok(())
}

#[test]
fn a_pace_comes_before_its_turn_and_after_the_one_before(rt: HostRuntime) -> Result<(), Fail> {
    let alloc = rt.alloc();
    try_between(&rt, alloc, Other::Second, &BOTH, &[])?;
    try_between(&rt, alloc, Other::Host, &TWO, &HOSTS)
}
