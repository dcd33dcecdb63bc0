//! Events of the host, made by a worker of their own.

use crate::worlds::{handed_over, repeated};
use hp_agent::{PenAgent, Voice};
use hp_model::{Access, Actor, Entry, Event, HostEvent};
use hp_test_worlds::{Header, TWO};
use hp_threads::{Pace, run};
use std::test::Fail;

/// Comes at once.
#[derive(Drop)]
pub(crate) struct AtOnce;

impl Pace for AtOnce {
    fn before(&self, _actor: Actor, _turn: u32) {}
}

fn inserts(entries: &[Entry]) -> u32 {
    let mut found = 0u32;
    for entry in entries {
        if let Event::Insert(1) = entry.event {
            found = found.saturating_add(1);
        }
    }
    found
}

/// The second insert of one processor is no step, and the removal is one where the processor is there.
#[test]
fn each_event_is_made_once(rt: HostRuntime) -> Result<(), Fail> {
    let alloc = rt.alloc();
    let mut voices: Vec<Option<Voice<PenAgent>>> = Vec::new(alloc);
    voices.push(Some(Voice::Script(repeated(alloc, Access::Nop, 16)?)))?;
    voices.push(None)?;
    let world = handed_over(alloc, &TWO, voices)?;
    let hosts = [
        HostEvent {
            turn: 0,
            actor: Actor::Insert(1),
        },
        HostEvent {
            turn: 0,
            actor: Actor::Insert(1),
        },
        HostEvent {
            turn: 0,
            actor: Actor::Remove(1),
        },
    ];
    let finished = run(&rt, alloc, world, &hosts, 16, &AtOnce)?;
    assert_eq!(rt; inserts(finished.world.entries()), 1);
    assert_eq!(rt; finished.marks.0.len(), 3);
    assert_eq!(rt; finished.world.asked(&Actor::Insert(0)), 3);
    assert_eq!(rt; finished.world.asked(&Actor::Cpu(0)), 43);
    assert_eq!(rt; finished.world.asked(&Actor::Cpu(1)), 16);
    Ok(())
}

const MANY: Header<'static> = Header::Many {
    count: 512,
    tseg_mib: 48,
    more: " x2apic=true",
};

#[test]
fn as_many_workers_as_processors(rt: HostRuntime) -> Result<(), Fail> {
    let alloc = rt.alloc();
    let mut voices: Vec<Option<Voice<PenAgent>>> = Vec::new(alloc);
    for _cpu in 0..512 {
        voices.push(None)?;
    }
    let world = handed_over(alloc, &MANY, voices)?;
    let hosts = [HostEvent {
        turn: 0,
        actor: Actor::Remove(511),
    }];
    let finished = run(&rt, alloc, world, &hosts, 2, &AtOnce)?;
    assert_eq!(rt; finished.made, 513);
    assert_eq!(rt; finished.world.asked(&Actor::Cpu(511)), 2);
    assert_eq!(rt; finished.world.asked(&Actor::Insert(0)), 1);
    Ok(())
}
