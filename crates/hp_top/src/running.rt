//! The boot and the run of a file: each line is handed to the sink when its entry is made.

ghost use Rattle.std.specs.Prelude.{ℕ, ◌≡◌, ◌≤◌, ◌<◌, ◌+◌, ◌-◌, ◌^◌, List, ◌∷◌, map, IfOk, OnOk, OnErr, Option, length};
ghost use Rattle.std.specs.Vec.Iter.{into_iter_items};
ghost use Rattle.std.specs.Io.KnownBytes.{Appends};
ghost use Rattle.hp_model.specs.declared.platforms.Platform.{Platform};
ghost use Rattle.hp_model.specs.declared.files.VoiceKind.{VoiceKind as AKind};
ghost use Rattle.hp_model.specs.Following.{Carried};
ghost use Rattle.hp_model.specs.Platform.{IsFit, count_of};
ghost use Rattle.hp_model.specs.Schedule.{act, act_all, boot_turns as turns_of_boot, hosts_of as of_turn, is_stalled, turns_from};
ghost use Rattle.hp_model.specs.Voices.{Voice as Told, told_by, told_of};
ghost use Rattle.hp_agent.specs.Kinds.{own_voice};
ghost use Rattle.hp_config.specs.Sound.{IsSound};
ghost use Rattle.hp_top.specs.Actors.{IsAhead, actors_from, to_come};
ghost use Rattle.hp_top.specs.Doing.{Sends};
ghost use Rattle.hp_top.specs.Faults.{StopsFor};
ghost use Rattle.hp_top.specs.Lives.{StandsFor, Takes};
ghost use Rattle.hp_top.specs.Sent.{HoldsFront};
ghost use Rattle.hp_top.specs.Stalls.{IsTracking};
ghost use Rattle.hp_top.specs.Turns.{Cuts, Rises, Writes, at_turn, boot_left, carried_start, lines_of, start_of, turn_of, turns_text, with_voices};
ghost use Rattle.hp_top.specs.Answers.{IsCut, IsWritten};
ghost use Rattle.hp_top.specs.Handing.{first_for, rest_for};

use crate::acting::Actors;
use crate::outside::{Sink, WriteStop};
use crate::sending::{send_end, send_head, send_line};
use crate::sorting::by_turn;
use crate::stalling::{Stalled, by_start};
use hp_agent::{Agent, Agents, Voice, voice_for};
use hp_model::{Actor, BootFact, File, HostEvent, NoMemory, Platform, Stall, VoiceKind, Voices};
use hp_platform::{Live, Turn, a_turn_is_the_schedules};
use std::alloc::Global;
use std::vec::IntoIter;

/// How many turns of processor 0 the boot sequence takes, one an access: two more where it asks for a TSEG of 48 MiB.
pub(crate) fn boot_turns(p: &Platform) -> u32
    ensures value { result ≡ turns_of_boot p.now }
    ensures most { result ≤ 29 }
{
    if p.tseg_mib == 48 { 29 } else { 27 }
}

/// An actor's turn, which makes what the schedule makes of that actor.
pub(crate) fn take_turn<A: Agent>(live: &mut Live<A>, actor: Actor) -> Result<Turn, NoMemory>
    ensures { (p : Platform) (c : Carried) → StandsFor p live.old c → IfOk result (Takes p live.new c (λ w. act p w actor)) }
{
    a_turn_is_the_schedules();
    live.turn(actor)
}

/// What one actor does, and how many entries that made.
#[tactic(auto, using(crate::proofs::Lines::one_actor))]
fn make_step<A: Agent, K: Sink>(
    live: &mut Live<A>,
    actor: Actor,
    text: &mut Vec<u8>,
    out: &mut K,
) -> Result<u64, WriteStop>
    ensures bound { IfOk result (λ made. made ≤ 1) }
    ensures made { (p : Platform) (c : Carried) → StandsFor p live.old c
        → IfOk result (λ made. Sends p live.new c (λ w. act p w actor) made (K.held out.old) (K.held out.new)) }
    ensures part { (p : Platform) (c : Carried) → StandsFor p live.old c
        → OnErr result (Cuts c (lines_of (λ w. act p w actor)) (K.held out.old) (K.held out.new)) }
    ensures cause { StopsFor (K.faults out.old) (K.faults out.new) result }
{
    match take_turn(live, actor) {
        Ok(Turn::Made(entry)) => match send_line(&entry, text, out) {
            Ok(()) => Ok(1),
            Err(stop) => Err(stop),
        },
        Ok(Turn::Idle) => Ok(0),
        Err(NoMemory) => Err(WriteStop::NoMemory),
    }
}

/// All actors that are still to come, and how many entries they made.
fn make_turns<A: Agent, K: Sink>(
    live: &mut Live<A>,
    actors: &mut Actors,
    text: &mut Vec<u8>,
    out: &mut K,
) -> Result<u64, WriteStop>
    requires ahead { IsAhead actors.old }
    requires few { length (to_come actors.old) < 2 ^ 64 - 2 ^ 32 }
    ensures bound { IfOk result (λ made. made ≤ length (to_come actors.old)) }
    ensures made { (p : Platform) (c : Carried) → StandsFor p live.old c
        → IfOk result (λ made. Sends p live.new c (λ w. act_all p w (to_come actors.old)) made (K.held out.old) (K.held out.new)) }
    ensures part { (p : Platform) (c : Carried) → StandsFor p live.old c
        → OnErr result (Cuts c (lines_of (λ w. act_all p w (to_come actors.old))) (K.held out.old) (K.held out.new)) }
    ensures cause { StopsFor (K.faults out.old) (K.faults out.new) result }
{
    let mut made = 0u64;
    'actors: while let Some(actor) = actors.next() {
        match make_step(live, actor, text, out) {
            Ok(count) => made += count,
            Err(stop) => return Err(stop),
        }
    }
    Ok(made)
}

pub(crate) fn hosts_in(file: &File) -> &[HostEvent]
    ensures { result.now ≡ file.now.hosts }
{
    file.hosts.0.as_slice()
}

/// The file without its voices, and these.
pub(crate) fn take_voices(alloc: Global, file: File) -> (File, Vec<VoiceKind>)
    ensures { with_voices result.1.items result.0 ≡ file }
{
    let File {
        platform,
        hosts,
        stalls,
        voices,
    } = file;
    let rest = File {
        platform,
        hosts,
        stalls,
        voices: Voices(Vec::new(alloc)),
    };
    (rest, voices.0)
}

/// The next of the agents that are handed in, for a processor of this kind.
fn next_handed<A: Agent>(kind: &VoiceKind, handed: &mut IntoIter<A>) -> Option<A>
    ensures next { result ≡ first_for kind.now (into_iter_items handed.old) }
    ensures rest { into_iter_items handed.new ≡ rest_for kind.now (into_iter_items handed.old) }
{
    match kind {
        VoiceKind::Handed => handed.next(),
        VoiceKind::Script(_) | VoiceKind::Os | VoiceKind::Pen | VoiceKind::Seeded(_) => None,
    }
}

/// An agent for a processor of this kind: the next of those that are handed in, if it gets one of them, or one that is made.
fn agent_for<A: Agent>(
    alloc: Global,
    p: &Platform,
    kind: VoiceKind,
    handed: &mut IntoIter<A>,
) -> Result<Voice<A>, NoMemory>
    requires { IsFit p.now }
    ensures { IfOk result (λ v. (kinds : List AKind) → told_by p.now (kind ∷ kinds) (map A.voice (into_iter_items handed.old))
        ≡ own_voice A.voice v ∷ told_by p.now kinds (map A.voice (into_iter_items handed.new))) }
{
    match next_handed(&kind, handed) {
        Some(agent) => Ok(Voice::Handed(agent)),
        None => voice_for(alloc, p, kind),
    }
}

/// An agent of each of these kinds, for processors of this platform: those of kind handed get these, in their order, as long as there
/// are some. Those that are left over are dropped.
pub(crate) fn agents_of<A: Agent>(
    alloc: Global,
    p: &Platform,
    kinds: Vec<VoiceKind>,
    handed: Vec<A>,
) -> Result<Agents<A>, NoMemory>
    requires { IsFit p.now }
    ensures { IfOk result (λ agents. agents.voices ≡ told_by p.now kinds.items (map A.voice handed.items)) }
{
    let mut places = Vec::new(alloc);
    let mut left = handed.into_iter();
    for kind in kinds {
        let agent = agent_for(alloc, p, kind, &mut left)?;
        places.push(Some(agent))?;
    }
    Ok(Agents::new(places))
}

/// The machine before its first step, where each processor's agent is of the kind in its place, or one that is handed in.
pub(crate) fn live_of<A: Agent>(
    alloc: Global,
    p: &Platform,
    kinds: Vec<VoiceKind>,
    handed: Vec<A>,
) -> Result<Live<A>, NoMemory>
    requires fit { IsFit p.now }
    requires voices { length kinds.items ≡ count_of p.now }
    ensures { IfOk result (λ live. StandsFor p.now live (carried_start p.now (told_by p.now kinds.items (map A.voice handed.items)))) }
{
    let agents = agents_of(alloc, p, kinds, handed)?;
    let live = Live::new(alloc, p, agents)?;
    Ok(live)
}

/// The host events of the file, by turn.
pub(crate) fn hosts_of(alloc: Global, file: &File) -> Result<Vec<HostEvent>, NoMemory>
    ensures rises { IfOk result (λ sorted. Rises turn_of 0 sorted.items) }
    ensures same { IfOk result (λ sorted. (turn : ℕ) → at_turn turn sorted.items ≡ of_turn file.now turn) }
{
    by_turn(alloc, hosts_in(file))
}

fn stalls_in(file: &File) -> &[Stall]
    ensures { result.now ≡ file.now.stalls }
{
    file.stalls.0.as_slice()
}

/// The stalls of the file, by the turn they start.
pub(crate) fn stalls_of(alloc: Global, file: &File) -> Result<Vec<Stall>, NoMemory>
    ensures rises { IfOk result (λ sorted. Rises start_of 0 sorted.items) }
    ensures same { IfOk result (λ sorted. (k t : ℕ) → is_stalled sorted.items k t ≡ is_stalled file.now.stalls k t) }
{
    by_start(alloc, stalls_in(file))
}

/// The stalls of the file before its first turn. Takes them by the turn they start.
pub(crate) fn stalled_of<'s>(
    alloc: Global,
    file: &File,
    sorted: &'s [Stall],
) -> Result<Stalled<'s>, NoMemory>
    requires rises { Rises start_of 0 sorted.now }
    requires same { (k t : ℕ) → is_stalled sorted.now k t ≡ is_stalled file.now.stalls k t }
    ensures { IfOk result (IsTracking file.now 0) }
{
    Stalled::new(alloc, sorted, file.platform.apic.0.len())
}

/// So many turns of processor 0, in which it boots. How many entries they made: fewer where the boot is refused.
fn make_boot<A: Agent, K: Sink>(
    live: &mut Live<A>,
    turns: u32,
    text: &mut Vec<u8>,
    out: &mut K,
) -> Result<u64, WriteStop>
    ensures bound { IfOk result (λ made. made ≤ turns) }
    ensures made { (p : Platform) (c : Carried) → StandsFor p live.old c
        → IfOk result (λ made. Sends p live.new c (λ w. act_all p w (boot_left turns)) made (K.held out.old) (K.held out.new)) }
    ensures part { (p : Platform) (c : Carried) → StandsFor p live.old c
        → OnErr result (Cuts c (lines_of (λ w. act_all p w (boot_left turns))) (K.held out.old) (K.held out.new)) }
    ensures cause { StopsFor (K.faults out.old) (K.faults out.new) result }
{
    let mut made = 0u64;
    'turns: for turn in 0..turns {
        match make_step(live, Actor::Cpu(0), text, out) {
            Ok(count) => made += count,
            Err(stop) => return Err(stop),
        }
    }
    Ok(made)
}

/// All turns after a boot that made so many entries, and the end line.
fn run_turns<A: Agent, K: Sink>(
    live: &mut Live<A>,
    file: &File,
    actors: &mut Actors,
    booted: u64,
    text: &mut Vec<u8>,
    out: &mut K,
) -> Result<(), WriteStop>
    requires ahead { IsAhead actors.old }
    requires all { to_come actors.old ≡ actors_from file.now file.now.platform.turns 0 }
    requires few { length (to_come actors.old) < 2 ^ 64 - 2 ^ 32 }
    requires booted { booted ≤ 29 }
    ensures all { (c : Carried) → StandsFor file.now.platform live.old c
        → OnOk result (Writes c (λ w. turns_text booted (turns_from file.now file.now.platform.turns 0 w)) (K.held out.old) (K.held out.new)) }
    ensures part { (c : Carried) → StandsFor file.now.platform live.old c
        → OnErr result (Cuts c (λ w. turns_text booted (turns_from file.now file.now.platform.turns 0 w)) (K.held out.old) (K.held out.new)) }
    ensures cause { StopsFor (K.faults out.old) (K.faults out.new) result }
{
    let made = match make_turns(live, actors, text, out) {
        Ok(made) => made,
        Err(stop) => return Err(stop),
    };
    send_end(booted + made, text, out)
}

/// Boots the machine and runs the file's turns: header, one line an entry, end line. Where the boot is refused, the lines
/// end with the access that read the value in the fact, which is answered. The machine has the agents, and the file the rest.
fn run_live<A: Agent, K: Sink>(
    live: &mut Live<A>,
    file: &File,
    actors: &mut Actors,
    text: &mut Vec<u8>,
    out: &mut K,
) -> Result<Option<BootFact>, WriteStop>
    requires ahead { IsAhead actors.old }
    requires all { to_come actors.old ≡ actors_from file.now file.now.platform.turns 0 }
    requires few { length (to_come actors.old) < 2 ^ 64 - 2 ^ 32 }
    ensures all { (told : List (Option Told)) → StandsFor file.now.platform live.old (carried_start file.now.platform told)
        → IfOk result (λ fact. IsWritten file.now told fact (K.held out.old) (K.held out.new)) }
    ensures part { (told : List (Option Told)) → StandsFor file.now.platform live.old (carried_start file.now.platform told)
        → OnErr result (IsCut file.now told (K.held out.old) (K.held out.new)) }
    ensures cause { StopsFor (K.faults out.old) (K.faults out.new) result }
{
    if let Err(stop) = send_head(&file.platform, text, out) {
        return Err(stop);
    }
    let booted = match make_boot(live, boot_turns(&file.platform), text, out) {
        Ok(booted) => booted,
        Err(stop) => return Err(stop),
    };
    match live.boot_fact() {
        Some(fact) => return Ok(Some(fact)),
        None => {}
    }
    match run_turns(live, file, actors, booted, text, out) {
        Ok(()) => Ok(None),
        Err(stop) => Err(stop),
    }
}

/// Runs the file of these voices and of the rest of this file, with agents for its processors of kind handed: what is written for
/// it, and the value that refused its boot, if one did.
#[tactic(auto, using(crate::proofs::Booting::none_written))]
fn run_voices<A: Agent, K: Sink>(
    alloc: Global,
    file: &File,
    kinds: Vec<VoiceKind>,
    handed: Vec<A>,
    out: &mut K,
) -> Result<Option<BootFact>, WriteStop>
    requires { IsSound (with_voices kinds.items file.now) }
    ensures all { IfOk result (λ fact. IsWritten file.now (told_by file.now.platform kinds.items (map A.voice handed.items)) fact (K.held out.old) (K.held out.new)) }
    ensures part { OnErr result (IsCut file.now (told_by file.now.platform kinds.items (map A.voice handed.items)) (K.held out.old) (K.held out.new)) }
    ensures cause { StopsFor (K.faults out.old) (K.faults out.new) result }
{
    let mut text = Vec::new(alloc);
    let mut live: Live<A> = match live_of(alloc, &file.platform, kinds, handed) {
        Ok(live) => live,
        Err(NoMemory) => return Err(WriteStop::NoMemory),
    };
    let hosts = match hosts_of(alloc, file) {
        Ok(hosts) => hosts,
        Err(NoMemory) => return Err(WriteStop::NoMemory),
    };
    let stalls = match stalls_of(alloc, file) {
        Ok(stalls) => stalls,
        Err(NoMemory) => return Err(WriteStop::NoMemory),
    };
    let stalled = match stalled_of(alloc, file, stalls.as_slice()) {
        Ok(stalled) => stalled,
        Err(NoMemory) => return Err(WriteStop::NoMemory),
    };
    let mut actors = Actors::new(file, hosts.as_slice(), stalled);
    run_live(&mut live, file, &mut actors, &mut text, out)
}

/// Runs the file, with agents for its processors of kind handed: what is written for it, and the value that refused its boot, if
/// one did.
pub(crate) fn run_file<A: Agent, K: Sink>(
    alloc: Global,
    file: File,
    handed: Vec<A>,
    out: &mut K,
) -> Result<Option<BootFact>, WriteStop>
    requires { IsSound file }
    ensures all { IfOk result (λ fact. IsWritten file (told_of file (map A.voice handed.items)) fact (K.held out.old) (K.held out.new)) }
    ensures part { OnErr result (IsCut file (told_of file (map A.voice handed.items)) (K.held out.old) (K.held out.new)) }
    ensures cause { StopsFor (K.faults out.old) (K.faults out.new) result }
{
    let (rest, kinds) = take_voices(alloc, file);
    run_voices(alloc, &rest, kinds, handed, out)
}
