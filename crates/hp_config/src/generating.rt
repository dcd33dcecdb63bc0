//! A large file from a number.

ghost use Rattle.std.specs.Prelude.{◌≡◌, ◌≤◌, ◌<◌, IfOk};
ghost use Rattle.hp_model.specs.Seeded.{generator_of};
ghost use Rattle.hp_config.specs.Generated.{generated_file, generated_kind, generated_kinds, generated_platform, numbers_below, rounds};

use hp_model::{
    Actor, Delivery, File, Generator, HostEvent, Hosts, Ids, NoMemory, Platform, Stalls, VoiceKind,
    Voices,
};
use std::alloc::Global;

/// How many processors are possible, and how many of them are there at boot.
const COUNT: u32 = 64;

const BOOT: u32 = 4;

/// How often a processor is inserted and its removal is requested, and how many turns that takes.
const ROUNDS: u32 = 39;

const TURNS: u32 = 5000;

#[tactic(auto, unfolding(crate::specs::Generated::numbers_below))]
fn first_numbers(alloc: Global, count: u32) -> Result<Ids, NoMemory>
    ensures { IfOk result (λ ids. ids ≡ numbers_below count) }
{
    let mut ids = Vec::new(alloc);
    for number in 0..count {
        ids.push(number)?;
    }
    Ok(Ids(ids))
}

fn platform(alloc: Global) -> Result<Platform, NoMemory>
    ensures { IfOk result (λ p. p ≡ generated_platform) }
{
    Ok(Platform {
        apic: first_numbers(alloc, COUNT)?,
        boot: first_numbers(alloc, BOOT)?,
        low_memory: 0x8000000,
        tseg_mib: 8,
        features: 7,
        polls: 64,
        turns: 200000,
        modern: true,
        default_smram: true,
        delivery: Delivery::Prompt,
        x2apic: false,
        ext_tseg: true,
    })
}

#[tactic(auto, unfolding(crate::specs::Generated::rounds))]
fn hosts(alloc: Global, seed: u32) -> Result<Hosts, NoMemory>
    ensures { IfOk result (λ hosts. hosts ≡ (rounds 39 (generator_of seed)).events) }
{
    let mut generator = Generator::new(u64::from(seed));
    let mut events = Vec::new(alloc);
    for before in 0..ROUNDS {
        let cpu = BOOT + generator.draw() % (COUNT - BOOT);
        let turn = TURNS * (before + 1);
        events.push(HostEvent {
            turn,
            actor: Actor::Insert(cpu),
        })?;
        events.push(HostEvent {
            turn: turn + TURNS / 2,
            actor: Actor::Remove(cpu),
        })?;
    }
    Ok(Hosts(events))
}

fn kind_of(n: u32, cpu: u32) -> VoiceKind
    requires number { n ≤ 1000 }
    requires possible { cpu < 64 }
    ensures { result ≡ generated_kind n cpu }
{
    match cpu {
        0 => VoiceKind::Os,
        1..BOOT => VoiceKind::Seeded(u64::from(n * COUNT + cpu)),
        _ => VoiceKind::Pen,
    }
}

#[tactic(auto, unfolding(crate::specs::Generated::generated_kinds))]
fn voices(alloc: Global, n: u32) -> Result<Voices, NoMemory>
    requires { n ≤ 1000 }
    ensures { IfOk result (λ voices. voices ≡ generated_kinds n 64) }
{
    let mut kinds = Vec::new(alloc);
    for cpu in 0..COUNT {
        kinds.push(kind_of(n, cpu))?;
    }
    Ok(Voices(kinds))
}

/// The file that this number from 1 to 1000 makes: 64 processors and 200,000 turns of an operating system, of seeded processors, and of 39
/// drawn processors that are inserted and, 2,500 turns later, are to be removed (own rule).
pub fn generated(alloc: Global, n: u32) -> Result<File, NoMemory>
    requires { n ≤ 1000 }
    ensures { IfOk result (λ file. file ≡ generated_file n) }
{
    Ok(File {
        platform: platform(alloc)?,
        hosts: hosts(alloc, n)?,
        stalls: Stalls(Vec::new(alloc)),
        voices: voices(alloc, n)?,
    })
}
