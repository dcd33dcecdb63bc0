//! The run of a file whose processors are threads: a machine boots, its turns are made by threads, and then its trace is written.

ghost use Rattle.std.specs.Prelude.{◌≡◌, ◌≢◌, ◌<◌, ◌≤◌, ◌+◌, ◌^◌, ℕ, [], true, List, ◌∷◌, map, length, IfOk, OnOk, Option, Some, slice_index_or};
ghost use Rattle.hp_model.specs.declared.entries.Actor.{Actor as AnActor};
ghost use Rattle.hp_model.specs.declared.entries.Actor.TheVariants.{Cpu};
ghost use Rattle.hp_model.specs.declared.platforms.Platform.{Platform as APlatform};
ghost use Rattle.hp_model.specs.Boot.{is_handed};
ghost use Rattle.hp_model.specs.Platform.{IsFit, count_of};
ghost use Rattle.hp_model.specs.Runs.{run as run_of};
ghost use Rattle.hp_model.specs.State.{State};
ghost use Rattle.hp_model.specs.Voices.{Voice as Told, told_by, told_of};
ghost use Rattle.hp_config.specs.Rules.{hosts_are_hosts};
ghost use Rattle.hp_config.specs.Sound.{IsSound};
ghost use Rattle.hp_top.specs.Faults.{Rose};
ghost use Rattle.hp_top.specs.Threaded.{EndsThreaded, IsThreaded, turns_each};
ghost use Rattle.hp_top.specs.Turns.{boot_left, with_voices};
ghost use Rattle.hp_top.specs.Worlds.{HasEntries, IsBooted, IsBooting};

use crate::outside::{Sink, WriteStop};
use crate::running::{agents_of, boot_turns, hosts_in, take_voices};
use crate::sending::{send_front, send_trace};
use crate::statuses::Status;
use hp_agent::Agent;
use hp_boot::boot_ends;
use hp_model::{Actor, BootFact, File, NoMemory, Platform, VoiceKind};
use hp_platform::{World, a_turn_is_the_schedules};
use hp_threads::{Pace, run};
use std::alloc::Global;
use std::sync::Wait;
use std::thread::Threads;

/// A turn of processor 0, in which it boots.
fn boot_turn<A: Agent>(world: &mut World<A>) -> Result<(), NoMemory>
    ensures boots { (p : APlatform) (told : List (Option Told)) (all more : List AnActor) → IsBooting p told all (Cpu 0 ∷ more) world.old
        → OnOk result (IsBooting p told all more world.new) }
    ensures small { (most : ℕ) → ((place : ℕ) → slice_index_or world.old.asked place 0 < most)
        → OnOk result ((place : ℕ) → slice_index_or world.new.asked place 0 < most + 1) }
{
    a_turn_is_the_schedules();
    let _made = world.turn(Actor::Cpu(0))?;
    Ok(())
}

/// So many turns of processor 0.
fn boot<A: Agent>(world: &mut World<A>, turns: u32) -> Result<(), NoMemory>
    ensures boots { (p : APlatform) (told : List (Option Told)) → IsBooting p told (boot_left turns) (boot_left turns) world.old
        → OnOk result (IsBooting p told (boot_left turns) [] world.new) }
    ensures small { (most : ℕ) → ((place : ℕ) → slice_index_or world.old.asked place 0 < most)
        → OnOk result ((place : ℕ) → slice_index_or world.new.asked place 0 < most + turns) }
{
    'turns: for _turn in 0..turns {
        match boot_turn(world) {
            Ok(()) => {}
            Err(NoMemory) => return Err(NoMemory),
        }
    }
    Ok(())
}

/// The world after its boot, where each processor's agent is of the kind in its place, or one that is handed in.
fn booted_world<A: Agent>(
    alloc: Global,
    p: &Platform,
    kinds: Vec<VoiceKind>,
    handed: Vec<A>,
) -> Result<World<A>, NoMemory>
    requires fit { IsFit p.now }
    requires voices { length kinds.items ≡ count_of p.now }
    ensures booted { IfOk result (IsBooted p.now (told_by p.now kinds.items (map A.voice handed.items))) }
    ensures small { IfOk result (λ w. (place : ℕ) → slice_index_or w.asked place 0 < 2 ^ 63) }
{
    let agents = agents_of(alloc, p, kinds, handed)?;
    let mut world = World::new(alloc, p, agents)?;
    boot(&mut world, boot_turns(p))?;
    Ok(world)
}

/// How many turns each processor has: those of the file, over the possible processors, rounded down.
fn turns_of_each(file: &File) -> u32
    requires { IsFit file.now.platform }
    ensures { result ≡ turns_each file.now.platform }
{
    let count = file.platform.apic.0.len() as u32;
    file.platform.turns / count
}

/// Makes the turns of a world that is handed over: of each processor as many as the file's come to over all of them.
fn run_booted<A: Agent + Send, R: Threads + Wait + Sync, P: Pace + Sync>(
    rt: &R,
    alloc: Global,
    world: World<A>,
    file: &File,
    pace: &P,
) -> Result<World<A>, NoMemory>
    requires fit { IsFit file.now.platform }
    requires actors { hosts_are_hosts file.now.hosts ≡ true }
    requires platform { world.platform ≡ file.now.platform }
    requires handed { (s : State) → run_of world.platform world.entries ≡ Some s → is_handed s.stage ≡ true }
    requires small { (place : ℕ) → slice_index_or world.asked place 0 < 2 ^ 63 }
    ensures platform { IfOk result (λ w. w.platform ≡ file.now.platform) }
    ensures threaded { (told : List (Option Told)) → IsBooted file.now.platform told world → IfOk result (λ w. IsThreaded file.now told w.entries) }
{
    let finished = run(rt, alloc, world, hosts_in(file), turns_of_each(file), pace)?;
    Ok(finished.world)
}

/// What becomes of the machine of a file, and the value that refused its boot, if one did.
fn make_world<A: Agent + Send, R: Threads + Wait + Sync, P: Pace + Sync>(
    rt: &R,
    alloc: Global,
    file: &File,
    kinds: Vec<VoiceKind>,
    handed: Vec<A>,
    pace: &P,
) -> Result<(World<A>, Option<BootFact>), NoMemory>
    requires { IsSound (with_voices kinds.items file.now) }
    ensures platform { IfOk result (λ r. r.0.platform ≡ file.now.platform) }
    ensures entries { IfOk result (λ r. HasEntries r.1 file.now (told_by file.now.platform kinds.items (map A.voice handed.items)) r.0.entries) }
{
    boot_ends();
    let world = booted_world(alloc, &file.platform, kinds, handed)?;
    match world.boot_fact() {
        Some(fact) => Ok((world, Some(fact))),
        None => {
            let ran = run_booted(rt, alloc, world, file, pace)?;
            Ok((ran, None))
        }
    }
}

/// The header and the lines of a boot that this value refused.
fn write_boot<A: Agent, K: Sink>(
    alloc: Global,
    file: &File,
    world: &World<A>,
    fact: BootFact,
    out: &mut K,
) -> Status
    ensures ends { (told : List (Option Told)) → HasEntries (Some fact) file.now told world.now.entries
        → EndsThreaded file.now told (K.held out.old) (K.held out.new) result }
    ensures fault { result ≡ Status.WriteFault → Rose (K.faults out.old) (K.faults out.new) }
    ensures later { K.faults out.old ≤ K.faults out.new }
    ensures calm { result ≢ Status.WriteFault → K.faults out.new ≡ K.faults out.old }
{
    let mut text = Vec::new(alloc);
    match send_front(&file.platform, world.entries(), &mut text, out) {
        Ok(()) => Status::BootRefused(fact),
        Err(WriteStop::Failed) => Status::WriteFault,
        Err(WriteStop::NoMemory) => Status::NoMemory,
    }
}

/// The whole trace of a world that threads ran.
fn write_run<A: Agent, K: Sink>(alloc: Global, file: &File, world: &World<A>, out: &mut K) -> Status
    requires platform { world.now.platform ≡ file.now.platform }
    ensures ends { (told : List (Option Told)) → IsThreaded file.now told world.now.entries
        → EndsThreaded file.now told (K.held out.old) (K.held out.new) result }
    ensures fault { result ≡ Status.WriteFault → Rose (K.faults out.old) (K.faults out.new) }
    ensures later { K.faults out.old ≤ K.faults out.new }
    ensures calm { result ≢ Status.WriteFault → K.faults out.new ≡ K.faults out.old }
{
    let mut text = Vec::new(alloc);
    match send_trace(&file.platform, world.entries(), &mut text, out) {
        Ok(()) => Status::Done,
        Err(WriteStop::Failed) => Status::WriteFault,
        Err(WriteStop::NoMemory) => Status::NoMemory,
    }
}

/// Writes what became of the machine of a file.
fn write_world<A: Agent, K: Sink>(
    alloc: Global,
    file: &File,
    world: &World<A>,
    fact: Option<BootFact>,
    out: &mut K,
) -> Status
    requires platform { world.now.platform ≡ file.now.platform }
    ensures ends { (told : List (Option Told)) → HasEntries fact file.now told world.now.entries
        → EndsThreaded file.now told (K.held out.old) (K.held out.new) result }
    ensures fault { result ≡ Status.WriteFault → Rose (K.faults out.old) (K.faults out.new) }
    ensures later { K.faults out.old ≤ K.faults out.new }
    ensures calm { result ≢ Status.WriteFault → K.faults out.new ≡ K.faults out.old }
{
    match fact {
        Some(fact) => write_boot(alloc, file, world, fact, out),
        None => write_run(alloc, file, world, out),
    }
}

/// Runs the file of these voices and of the rest of this file, with agents for its processors of kind handed.
fn thread_voices<A: Agent + Send, R: Threads + Wait + Sync, K: Sink, P: Pace + Sync>(
    rt: &R,
    alloc: Global,
    file: &File,
    kinds: Vec<VoiceKind>,
    handed: Vec<A>,
    out: &mut K,
    pace: &P,
) -> Status
    requires { IsSound (with_voices kinds.items file.now) }
    ensures ends { EndsThreaded file.now (told_by file.now.platform kinds.items (map A.voice handed.items)) (K.held out.old) (K.held out.new) result }
    ensures fault { result ≡ Status.WriteFault → Rose (K.faults out.old) (K.faults out.new) }
    ensures later { K.faults out.old ≤ K.faults out.new }
    ensures calm { result ≢ Status.WriteFault → K.faults out.new ≡ K.faults out.old }
{
    match make_world(rt, alloc, file, kinds, handed, pace) {
        Ok((world, fact)) => write_world(alloc, file, &world, fact, out),
        Err(NoMemory) => Status::NoMemory,
    }
}

/// Runs the file, with agents for its processors of kind handed.
pub(crate) fn thread_file<A: Agent + Send, R: Threads + Wait + Sync, K: Sink, P: Pace + Sync>(
    rt: &R,
    alloc: Global,
    file: File,
    handed: Vec<A>,
    out: &mut K,
    pace: &P,
) -> Status
    requires { IsSound file }
    ensures ends { EndsThreaded file (told_of file (map A.voice handed.items)) (K.held out.old) (K.held out.new) result }
    ensures fault { result ≡ Status.WriteFault → Rose (K.faults out.old) (K.faults out.new) }
    ensures later { K.faults out.old ≤ K.faults out.new }
    ensures calm { result ≢ Status.WriteFault → K.faults out.new ≡ K.faults out.old }
{
    let (rest, kinds) = take_voices(alloc, file);
    thread_voices(rt, alloc, &rest, kinds, handed, out, pace)
}
