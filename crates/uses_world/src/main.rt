//! A world with an agent of one's own, as the test of a hypervisor would drive it. README.md tells what happens.
#![tactic(auto)]

ghost use Rattle.std.specs.Prelude.{None, IfOk};
ghost use Rattle.hp_model.specs.Platform.{IsFit};

use hp_agent::{Agent, Agents, PenAgent, Voice};
use hp_model::{Access, Actor, Answer, Delivery, Entry, Event, Ids, NoMemory, Platform, fits};
use hp_platform::World;
use http_server::Log;
use std::alloc::Global;
use std::io::{self, Write};
use std::process::ExitCode;

/// Bit 1 of a status byte, and what clears the event.
const INSERT_EVENT: u64 = 0x02;

/// What an operating system has done that calls the firmware once, and then acknowledges the insert: it looks at the new processor's status,
/// clears the insert event where it is there, and halts where it isn't.
#[derive(Drop)]
struct Plan {
    called: bool,
    selected: bool,
}

impl Plan {
    /// What it does next, by the answer to the access before.
    fn next(&mut self, last: Answer) -> Access {
        if !self.called {
            self.called = true;
            return Access::Out {
                port: 0xb2,
                width: 1,
                value: 4,
            };
        }
        if !self.selected {
            self.selected = true;
            return Access::Out {
                port: 0xcd8,
                width: 4,
                value: 1,
            };
        }
        match last {
            Answer::Quiet => Access::In {
                port: 0xcdc,
                width: 1,
            },
            Answer::Value(status) if status & INSERT_EVENT != 0 => Access::Out {
                port: 0xcdc,
                width: 1,
                value: 2,
            },
            Answer::Value(_) => Access::Halt,
        }
    }
}

#[derive(Drop)]
struct Guest {
    plan: Plan,
    /// What it was asked and said, for proofs alone: it takes no memory.
    log: Log<(u32, u32, Answer), Access>,
}

impl Guest {
    fn new() -> Guest {
        Guest {
            plan: Plan {
                called: false,
                selected: false,
            },
            log: Log::new(),
        }
    }
}

impl Agent for Guest {
    ghost voice = { λ _. None };

    ghost heard = { λ g. g.log.items };

    fn next(&mut self, cpu: u32, page: u32, last: Answer) -> Access {
        let access = self.plan.next(last);
        self.log = self.log.and(&(cpu, page, last), &access);
        access
    }
}

/// Two processors are possible, and the first is there at boot.
fn platform(alloc: Global) -> Result<Platform, NoMemory> {
    Ok(Platform {
        apic: Ids(Vec::from_array(alloc, [0, 1])?),
        boot: Ids(Vec::from_array(alloc, [0])?),
        low_memory: 0x800_0000,
        tseg_mib: 1,
        features: 7,
        polls: 8,
        turns: 0,
        modern: true,
        default_smram: true,
        delivery: Delivery::Prompt,
        x2apic: false,
        ext_tseg: false,
    })
}

/// The world before its first step, the guest on processor 0, a pen on processor 1; `None` for a platform that doesn't fit.
fn world(alloc: Global) -> Result<Option<World<Guest>>, NoMemory> {
    let p = platform(alloc)?;
    let mut voices = Vec::new(alloc);
    voices.push(Some(Voice::Handed(Guest::new())))?;
    voices.push(Some(Voice::Pen(PenAgent::new())))?;
    if fits(&p).is_err() || voices.len() != p.apic.0.len() {
        return Ok(None);
    }
    Ok(Some(World::new(alloc, &p, Agents::new(voices))?))
}

/// The turns that this test chose: the boot's, the host's insert, and then two of processor 0 for each of processor 1.
fn drive(world: &mut World<Guest>) -> Result<(), NoMemory> {
    for _turn in 0..27 {
        world.turn(Actor::Cpu(0))?;
    }
    world.turn(Actor::Insert(1))?;
    for _round in 0..40 {
        world.turn(Actor::Cpu(0))?;
        world.turn(Actor::Cpu(0))?;
        world.turn(Actor::Cpu(1))?;
    }
    Ok(())
}

/// Whether the entry tells an outcome.
fn is_told(entry: &Entry) -> bool {
    matches!(entry.event, Event::Tell(_))
}

/// Writes the lines of all entries.
fn write_lines(rt: &HostRuntime, entries: &[Entry]) -> io::Result<bool> {
    let mut text = Vec::new(rt.alloc());
    for entry in entries {
        if hp_trace::line(entry, &mut text).is_err() {
            return Ok(false);
        }
    }
    rt.stdout().write_all(text.as_slice())?;
    Ok(true)
}

fn play(rt: &HostRuntime, world: &mut World<Guest>) -> io::Result<bool> {
    if drive(world).is_err() || !write_lines(rt, world.entries())? {
        return Ok(false);
    }
    let told = world
        .entries()
        .iter()
        .filter(|entry| is_told(entry))
        .count();
    println!(rt;
        "{} entries, {told} told, {} turns of processor 0",
        world.entries().len(),
        world.asked(&Actor::Cpu(0))
    )?;
    Ok(true)
}

fn main(rt: HostRuntime) -> io::Result<ExitCode> {
    let Ok(Some(mut world)) = world(rt.alloc()) else {
        return Ok(ExitCode::FAILURE);
    };
    Ok(if play(&rt, &mut world)? {
        ExitCode::SUCCESS
    } else {
        ExitCode::FAILURE
    })
}
