//! The run of the file that a number makes, summed up as it goes: its four counts alone are kept.

ghost use Rattle.std.specs.Prelude.{ℕ, ◌≡◌, ◌≤◌, ◌<◌, ◌+◌, ◌-◌, ◌^◌, List, [], Option, length, IfOk, OnOk, OnErr};
ghost use Rattle.std.specs.Io.KnownBytes.{Appends};
ghost use Rattle.hp_model.specs.declared.platforms.Platform.{Platform};
ghost use Rattle.hp_model.specs.Following.{Carried};
ghost use Rattle.hp_model.specs.Schedule.{act, act_all};
ghost use Rattle.hp_model.specs.Voices.{Voice as Told, told_by, told_of};
ghost use Rattle.hp_config.specs.Sound.{IsSound};
ghost use Rattle.hp_trace.specs.Summary.{IsSummary, summary as summary_of};
ghost use Rattle.hp_top.specs.Actors.{IsAhead, actors_from, to_come};
ghost use Rattle.hp_top.specs.Doing.{Sums};
ghost use Rattle.hp_top.specs.Faults.{StopsFor};
ghost use Rattle.hp_top.specs.Generated.{IsSummed, gen_text, generated_run};
ghost use Rattle.hp_top.specs.Lives.{StandsFor};
ghost use Rattle.hp_top.specs.Sent.{HoldsFront};
ghost use Rattle.hp_top.specs.Turns.{boot_left, carried_start, with_voices};

use crate::acting::Actors;
use crate::outside::{Sink, WriteStop};
use crate::running::{
    boot_turns, hosts_of, live_of, stalled_of, stalls_of, take_turn, take_voices,
};
use crate::writing::write_all;
use hp_agent::Agent;
use hp_config::{generated, generated_files_are_sound};
use hp_model::{Actor, File, NoMemory, VoiceKind, told_voices_alone_agree};
use hp_platform::{Live, Turn};
use hp_trace::{Summary, gen_line};
use std::alloc::Global;

/// What one actor does is counted.
fn sum_turn<A: Agent>(live: &mut Live<A>, actor: Actor, sum: &mut Summary) -> Result<(), NoMemory>
    requires sums { IsSummary sum.old }
    requires room { sum.old.entries < 2 ^ 64 - 1 }
    ensures done { (p : Platform) (c : Carried) → StandsFor p live.old c → OnOk result (Sums p live.new c (λ w. act p w actor) sum.old sum.new) }
    ensures sums { IsSummary sum.new }
    ensures most { sum.new.entries ≤ sum.old.entries + 1 }
{
    match take_turn(live, actor) {
        Ok(Turn::Made(entry)) => {
            sum.count(&entry);
            Ok(())
        }
        Ok(Turn::Idle) => Ok(()),
        Err(NoMemory) => Err(NoMemory),
    }
}

/// So many turns of processor 0, in which it boots.
fn sum_boot<A: Agent>(live: &mut Live<A>, turns: u32, sum: &mut Summary) -> Result<(), NoMemory>
    requires sums { IsSummary sum.old }
    requires none { sum.old.entries ≡ 0 }
    ensures done { (p : Platform) (c : Carried) → StandsFor p live.old c → OnOk result (Sums p live.new c (λ w. act_all p w (boot_left turns)) sum.old sum.new) }
    ensures sums { IsSummary sum.new }
    ensures most { sum.new.entries ≤ turns }
{
    'turns: for _turn in 0..turns {
        match sum_turn(live, Actor::Cpu(0), sum) {
            Ok(()) => {}
            Err(NoMemory) => return Err(NoMemory),
        }
    }
    Ok(())
}

/// All actors that are still to come.
fn sum_turns<A: Agent>(
    live: &mut Live<A>,
    actors: &mut Actors,
    sum: &mut Summary,
) -> Result<(), NoMemory>
    requires ahead { IsAhead actors.old }
    requires sums { IsSummary sum.old }
    requires room { sum.old.entries + length (to_come actors.old) < 2 ^ 64 - 1 }
    ensures done { (p : Platform) (c : Carried) → StandsFor p live.old c → OnOk result (Sums p live.new c (λ w. act_all p w (to_come actors.old)) sum.old sum.new) }
{
    'actors: while let Some(actor) = actors.next() {
        match sum_turn(live, actor, sum) {
            Ok(()) => {}
            Err(NoMemory) => return Err(NoMemory),
        }
    }
    Ok(())
}

/// The boot, and all turns of the machine, which has the agents; the file has the rest.
fn sum_live<A: Agent>(
    live: &mut Live<A>,
    file: &File,
    actors: &mut Actors,
) -> Result<Summary, NoMemory>
    requires ahead { IsAhead actors.old }
    requires all { to_come actors.old ≡ actors_from file.now file.now.platform.turns 0 }
    requires few { length (to_come actors.old) < 2 ^ 64 - 2 ^ 32 }
    ensures { (told : List (Option Told)) → StandsFor file.now.platform live.old (carried_start file.now.platform told) → IfOk result (IsSummed file.now told) }
{
    let mut sum = Summary::new();
    match sum_boot(live, boot_turns(&file.platform), &mut sum) {
        Ok(()) => {}
        Err(NoMemory) => return Err(NoMemory),
    }
    match sum_turns(live, actors, &mut sum) {
        Ok(()) => Ok(sum),
        Err(NoMemory) => Err(NoMemory),
    }
}

/// The summary of the run of these voices and of the rest of this file, where no agent is handed in.
fn sum_voices<A: Agent>(
    alloc: Global,
    file: &File,
    kinds: Vec<VoiceKind>,
) -> Result<Summary, NoMemory>
    requires { IsSound (with_voices kinds.items file.now) }
    ensures { IfOk result (IsSummed file.now (told_by file.now.platform kinds.items [])) }
{
    let mut live: Live<A> = match live_of(alloc, &file.platform, kinds, Vec::new(alloc)) {
        Ok(live) => live,
        Err(NoMemory) => return Err(NoMemory),
    };
    let hosts = match hosts_of(alloc, file) {
        Ok(hosts) => hosts,
        Err(NoMemory) => return Err(NoMemory),
    };
    let stalls = match stalls_of(alloc, file) {
        Ok(stalls) => stalls,
        Err(NoMemory) => return Err(NoMemory),
    };
    let stalled = match stalled_of(alloc, file, stalls.as_slice()) {
        Ok(stalled) => stalled,
        Err(NoMemory) => return Err(NoMemory),
    };
    let mut actors = Actors::new(file, hosts.as_slice(), stalled);
    sum_live(&mut live, file, &mut actors)
}

/// The summary of the run of the file, where no agent is handed in.
fn sum_file<A: Agent>(alloc: Global, file: File) -> Result<Summary, NoMemory>
    requires { IsSound file }
    ensures { IfOk result (IsSummed file (told_of file [])) }
{
    let (rest, kinds) = take_voices(alloc, file);
    sum_voices::<A>(alloc, &rest, kinds)
}

/// The summary of the run that the number makes.
fn sum_generated<A: Agent>(alloc: Global, number: u32) -> Result<Summary, NoMemory>
    requires { number ≤ 1000 }
    ensures { IfOk result (λ s. s ≡ summary_of (generated_run number)) }
{
    generated_files_are_sound();
    told_voices_alone_agree();
    match generated(alloc, number) {
        Ok(file) => sum_file::<A>(alloc, file),
        Err(NoMemory) => Err(NoMemory),
    }
}

/// Makes the run of the file that the number makes, and writes its line.
pub(crate) fn run_generated<A: Agent, K: Sink>(
    alloc: Global,
    number: u32,
    out: &mut K,
) -> Result<(), WriteStop>
    requires { number ≤ 1000 }
    ensures all { OnOk result (Appends (K.held out.old) (K.held out.new) (gen_text number)) }
    ensures part { OnErr result (HoldsFront (K.held out.old) (K.held out.new) (gen_text number)) }
    ensures cause { StopsFor (K.faults out.old) (K.faults out.new) result }
{
    let mut text = Vec::new(alloc);
    let sum = match sum_generated::<A>(alloc, number) {
        Ok(sum) => sum,
        Err(NoMemory) => return Err(WriteStop::NoMemory),
    };
    if gen_line(number, &sum, &mut text).is_err() {
        return Err(WriteStop::NoMemory);
    }
    write_all(out, text.as_slice())
}
