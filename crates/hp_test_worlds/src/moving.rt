//! What each move does.

use crate::checking::stops;
use crate::found::{Found, line, number, shown};
use hp_agent::Agent;
use hp_model::{Access, Actor, BootFact, Entry, Event, NoMemory};
use hp_platform::{Turn, World};
use std::alloc::Global;

/// The line of an entry, without its line feed.
fn line_of(alloc: Global, entry: &Entry) -> Result<Vec<u8>, NoMemory> {
    let mut text = Vec::new(alloc);
    hp_trace::line(entry, &mut text)?;
    let _feed = text.pop();
    Ok(text)
}

/// An actor's turn: the line that it makes, or `idle`.
fn turn<A: Agent>(alloc: Global, world: &mut World<A>, actor: Actor) -> Result<Vec<u8>, NoMemory> {
    match world.turn(actor)? {
        Turn::Made(entry) => line_of(alloc, &entry),
        Turn::Idle => Ok(b"idle".to_vec(alloc)?),
    }
}

/// An actor's turn, from which this has to come.
pub(crate) fn turn_to<A: Agent>(
    alloc: Global,
    world: &mut World<A>,
    actor: Actor,
    want: &str,
) -> Result<Found, NoMemory> {
    let made = turn(alloc, world, actor)?;
    line(alloc, made.as_slice(), want)
}

pub(crate) fn boot<A: Agent>(
    alloc: Global,
    world: &mut World<A>,
    count: u32,
) -> Result<Found, NoMemory> {
    for _turn in 0..count {
        if world.handed() || world.boot_fact().is_some() {
            return shown(alloc, "the boot's end", "its next step");
        }
        if matches!(world.turn(Actor::Cpu(0))?, Turn::Idle) {
            return shown(alloc, "idle", "the boot's next step");
        }
    }
    Ok(None)
}

pub(crate) fn turns<A: Agent>(
    alloc: Global,
    world: &mut World<A>,
    rows: &[(Actor, &str)],
) -> Result<Found, NoMemory> {
    for (actor, want) in rows {
        let found = turn_to(alloc, world, *actor, want)?;
        if found.is_some() {
            return Ok(found);
        }
    }
    Ok(None)
}

pub(crate) fn says<A: Agent>(
    alloc: Global,
    world: &mut World<A>,
    said: &[(Access, &str)],
) -> Result<Found, NoMemory> {
    for (_access, want) in said {
        let found = turn_to(alloc, world, Actor::Cpu(1), want)?;
        if found.is_some() {
            return Ok(found);
        }
    }
    Ok(None)
}

pub(crate) fn rounds<A: Agent>(
    world: &mut World<A>,
    count: u32,
    rounds: u32,
) -> Result<(), NoMemory> {
    for _round in 0..rounds {
        for k in 0..count {
            let _made = world.turn(Actor::Cpu(k))?;
        }
    }
    Ok(())
}

pub(crate) fn reach<A: Agent>(
    alloc: Global,
    world: &mut World<A>,
    front: &str,
) -> Result<Found, NoMemory> {
    for _turn in 0..200u32 {
        let _taken = world.turn(Actor::Smi(0))?;
        if turn(alloc, world, Actor::Cpu(0))?.starts_with(front.as_bytes()) {
            return Ok(None);
        }
    }
    shown(alloc, "200 turns", front)
}

/// An event that is applied: the line of its entry, or `none`.
fn applied<A: Agent>(
    alloc: Global,
    world: &mut World<A>,
    event: &Event,
) -> Result<Vec<u8>, NoMemory> {
    match world.apply(event)? {
        Some(entry) => line_of(alloc, &entry),
        None => Ok(b"none".to_vec(alloc)?),
    }
}

pub(crate) fn applies<A: Agent>(
    alloc: Global,
    world: &mut World<A>,
    rows: &[(Event, &str)],
) -> Result<Found, NoMemory> {
    for (event, want) in rows {
        let made = applied(alloc, world, event)?;
        let found = line(alloc, made.as_slice(), want)?;
        if found.is_some() {
            return Ok(found);
        }
    }
    Ok(None)
}

pub(crate) fn asked<A: Agent>(
    alloc: Global,
    world: &World<A>,
    rows: &[(Actor, u64)],
) -> Result<Found, NoMemory> {
    for (actor, want) in rows {
        let found = number(alloc, world.asked(actor), *want)?;
        if found.is_some() {
            return Ok(found);
        }
    }
    Ok(None)
}

pub(crate) fn asked_each<A: Agent>(
    alloc: Global,
    world: &World<A>,
    from: u32,
    to: u32,
    turns: u64,
) -> Result<Found, NoMemory> {
    for k in from..to {
        let found = number(alloc, world.asked(&Actor::Cpu(k)), turns)?;
        if found.is_some() {
            return Ok(found);
        }
    }
    Ok(None)
}

/// How many entries have this line.
fn count_of(alloc: Global, entries: &[Entry], want: &str) -> Result<u64, NoMemory> {
    let mut count = 0u64;
    for entry in entries {
        if line_of(alloc, entry)?.as_slice() == want.as_bytes() {
            count = count.saturating_add(1);
        }
    }
    Ok(count)
}

pub(crate) fn times(
    alloc: Global,
    entries: &[Entry],
    rows: &[(&str, u64)],
) -> Result<Found, NoMemory> {
    for (want, count) in rows {
        let found = number(alloc, count_of(alloc, entries, want)?, *count)?;
        if found.is_some() {
            return Ok(found);
        }
    }
    Ok(None)
}

pub(crate) fn stands<A: Agent>(
    alloc: Global,
    world: &World<A>,
    handed: bool,
    refused: Option<BootFact>,
    entries: u64,
) -> Result<Found, NoMemory> {
    if world.handed() != handed {
        return shown(alloc, "another stage", "that of the hand-over");
    }
    let fact = world.boot_fact();
    if fact != refused {
        let text = format!(in alloc; "{fact:?}")?;
        return shown(alloc, text.as_str(), "another value");
    }
    number(alloc, world.entries().len() as u64, entries)
}

pub(crate) fn checks<A: Agent>(
    alloc: Global,
    world: &World<A>,
    rows: &[(usize, &[Entry], u64)],
) -> Result<Found, NoMemory> {
    world.sound();
    for (first, more, want) in rows {
        let (checked, walked) = stops(alloc, world.platform(), world.entries(), *first, more)?;
        let found = number(alloc, checked, *want)?;
        if found.is_some() {
            return Ok(found);
        }
        let found = number(alloc, walked, *want)?;
        if found.is_some() {
            return Ok(found);
        }
    }
    Ok(None)
}
