//! Late delivery: which turns are those of a processor's SMI.

use crate::worlds::{handed_over, repeated};
use hp_agent::{PenAgent, Voice};
use hp_model::{Access, Actor, Entry, Event};
use hp_test_worlds::Header;
use hp_threads::{Pace, run};
use std::sync::atomic::{AtomicU32, Ordering};
use std::test::Fail;

const LATE: Header<'static> = Header::Line(
    "platform apic=0,1 boot=0,1 low=08000000 tseg=1 features=7 polls=8 turns=0 modern=true smram=true delivery=late lag=3",
);

/// Counts the turns that it comes before.
#[derive(Drop)]
struct Counting {
    cpus: AtomicU32,
    smis: AtomicU32,
}

impl Pace for Counting {
    fn before(&self, actor: Actor, turn: u32) {
        match actor {
            Actor::Cpu(_) if turn % 4 != 3 => {
                self.cpus.fetch_add(1, Ordering::SeqCst);
            }
            Actor::Smi(_) if turn % 4 == 3 => {
                self.smis.fetch_add(1, Ordering::SeqCst);
            }
            _ => {}
        }
    }
}

fn smis_taken(entries: &[Entry]) -> u32 {
    let mut found = 0u32;
    for entry in entries {
        if let Event::TakeSmi(0) = entry.event {
            found = found.saturating_add(1);
        }
    }
    found
}

const COMMAND: Access = Access::Out {
    port: 0xb2,
    width: 1,
    value: 5,
};

/// Processor 0 calls all to SMM in its first turn, and takes its SMI in its fourth.
#[test]
fn one_turn_in_four_is_the_smis(rt: HostRuntime) -> Result<(), Fail> {
    let alloc = rt.alloc();
    let mut voices: Vec<Option<Voice<PenAgent>>> = Vec::new(alloc);
    voices.push(Some(Voice::Script(repeated(alloc, COMMAND, 1)?)))?;
    voices.push(None)?;
    let world = handed_over(alloc, &LATE, voices)?;
    let pace = Counting {
        cpus: AtomicU32::new(0),
        smis: AtomicU32::new(0),
    };
    let finished = run(&rt, alloc, world, &[], 16, &pace)?;
    assert_eq!(rt; pace.cpus.load(Ordering::SeqCst), 24);
    assert_eq!(rt; pace.smis.load(Ordering::SeqCst), 8);
    assert_eq!(rt; smis_taken(finished.world.entries()), 1);
    assert_eq!(rt; finished.world.asked(&Actor::Smi(1)), 16);
    Ok(())
}
