//! Cases, played.

ghost use Rattle.hp_model.specs.Platform.{IsFit};

use crate::cases::{Case, Fault, Move};
use crate::found::{Found, number};
use crate::headers::platform_of;
use crate::making::voices_of;
use crate::moving::{
    applies, asked, asked_each, boot, checks, reach, rounds, says, stands, times, turn_to, turns,
};
use hp_agent::{Agent, Agents, PenAgent, Voice};
use hp_model::{Actor, NoMemory, Platform};
use hp_platform::World;
use std::alloc::Global;
use std::sync::atomic::{AtomicU32, Ordering};

/// What agents that are handed in count.
#[derive(Clone, Copy)]
pub struct Counts<'a> {
    /// Their questions.
    pub asked: &'a AtomicU32,
    /// Their drops.
    pub drops: &'a AtomicU32,
}

/// Turns with what each makes, and how many questions were asked by then.
fn heard<A: Agent>(
    alloc: Global,
    world: &mut World<A>,
    questions: &AtomicU32,
    rows: &[(Actor, &str, u32)],
) -> Result<Found, NoMemory> {
    for (actor, want, count) in rows {
        let found = turn_to(alloc, world, *actor, want)?;
        if found.is_some() {
            return Ok(found);
        }
        let found = counted(alloc, questions, *count)?;
        if found.is_some() {
            return Ok(found);
        }
    }
    Ok(None)
}

fn counted(alloc: Global, count: &AtomicU32, want: u32) -> Result<Found, NoMemory> {
    number(
        alloc,
        u64::from(count.load(Ordering::SeqCst)),
        u64::from(want),
    )
}

/// Makes a move: what came in place of what it says.
fn go<A: Agent>(
    alloc: Global,
    world: &mut World<A>,
    case: &Case,
    counts: &Counts,
    step: &Move,
) -> Result<Found, NoMemory> {
    match *step {
        Move::Boot(count) => boot(alloc, world, count),
        Move::Turns(rows) => turns(alloc, world, rows),
        Move::Heard(rows) => heard(alloc, world, counts.asked, rows),
        Move::Said => says(alloc, world, case.said),
        Move::Rounds { count, rounds: n } => {
            rounds(world, count, n)?;
            Ok(None)
        }
        Move::Reach(front) => reach(alloc, world, front),
        Move::Apply(rows) => applies(alloc, world, rows),
        Move::Asked(rows) => asked(alloc, world, rows),
        Move::AskedEach { from, to, turns: n } => asked_each(alloc, world, from, to, n),
        Move::Times(rows) => times(alloc, world.entries(), rows),
        Move::Stands {
            handed,
            refused,
            entries,
        } => stands(alloc, world, handed, refused, entries),
        Move::Dropped(count) => counted(alloc, counts.drops, count),
        Move::Check(rows) => checks(alloc, world, rows),
    }
}

/// Makes all moves of the case in this place.
fn go_on<A: Agent>(
    alloc: Global,
    world: &mut World<A>,
    place: usize,
    case: &Case,
    counts: &Counts,
) -> Result<(), Fault> {
    for (number, step) in case.moves.iter().enumerate() {
        if let Some(found) = go(alloc, world, case, counts, step)? {
            return Err(Fault::Found {
                case: place,
                number,
                found,
            });
        }
    }
    Ok(())
}

/// A world, from its making to its drop.
fn live<A: Agent>(
    alloc: Global,
    p: &Platform,
    voices: Vec<Option<Voice<A>>>,
    place: usize,
    case: &Case,
    counts: &Counts,
) -> Result<(), Fault>
    requires { IsFit p.now }
{
    if voices.len() != p.apic.0.len() {
        return Err(Fault::NotACase);
    }
    let mut world = World::new(alloc, p, Agents::new(voices))?;
    go_on(alloc, &mut world, place, case, counts)
}

/// Plays the case in this place of its list.
fn play_at<A: Agent>(
    alloc: Global,
    place: usize,
    case: &Case,
    handed: Vec<A>,
    counts: &Counts,
) -> Result<(), Fault> {
    let p = platform_of(alloc, &case.header)?;
    let voices = voices_of(alloc, case, handed, p.apic.0.len())?;
    live(alloc, &p, voices, place, case, counts)
}

/// Plays a case. The processors behind those with scripts have these agents, in their order.
pub fn play_handed<A: Agent>(
    alloc: Global,
    case: &Case,
    handed: Vec<A>,
    counts: &Counts,
) -> Result<(), Fault> {
    play_at(alloc, 0, case, handed, counts)
}

/// Plays cases in which no agent is handed in.
pub fn play(alloc: Global, cases: &[Case]) -> Result<(), Fault> {
    let none = AtomicU32::new(0);
    let counts = Counts {
        asked: &none,
        drops: &none,
    };
    for (place, case) in cases.iter().enumerate() {
        let handed: Vec<PenAgent> = Vec::new(alloc);
        play_at(alloc, place, case, handed, &counts)?;
    }
    Ok(())
}
