//! The call: its workers, and what they leave.

ghost use Rattle.std.specs.Prelude.{◌≡◌, ◌≤◌, ◌<◌, ◌+◌, ◌^◌, ◌++◌, ◌≢◌, ℕ, Some, true, All, IfOk, OnOk, length, slice_index_or};
ghost use Rattle.hp_model.specs.declared.entries.Actor.{Actor};
ghost use Rattle.hp_model.specs.Boot.{is_handed};
ghost use Rattle.hp_model.specs.Following.{Follows, carried_all};
ghost use Rattle.hp_model.specs.Hosting.{IsHosted, is_host};
ghost use Rattle.hp_model.specs.Platform.{count_of};
ghost use Rattle.hp_model.specs.Runs.{run as run_of};
ghost use Rattle.hp_model.specs.State.{State};
ghost use Rattle.hp_threads.specs.Leaving.{IsLeft, added};
ghost use Rattle.hp_threads.specs.Running.{IsReady, host_actors};
ghost use Rattle.hp_threads.specs.Shares.{share};
ghost use Rattle.hp_threads.specs.Sharing.{HadNone, IsOfProcessor, owned_by};
ghost use Rattle.hp_threads.specs.Voicing.{IsCarried, carried_from};

use crate::choosing::turn_actor;
use crate::paces::Pace;
use crate::running::{Entered, Running};
use hp_agent::Agent;
use hp_model::{Delivery, HostEvent, NoMemory};
use hp_platform::World;
use std::alloc::Global;
use std::marker::{Brand, Model};
use std::sync::{Mutex, Wait};
use std::thread;
use std::thread::Threads;

/// How many entries there were before each host event, in the order of the events.
#[derive(Drop)]
pub struct Marks(pub Vec<u64>);

impl Model for Marks {
    ghost use Rattle.std.specs.Prelude.{List, ℕ};

    ghost Value = { List ℕ };

    ghost view = { λ s. s.0.items };
}

/// What a call leaves.
#[derive(Drop)]
pub struct Finished<A: Agent> {
    pub world: World<A>,
    /// How many entries it added.
    pub made: u64,
    pub marks: Marks,
}

/// A list that lies in memory is no longer than this.
fn few(hosts: &[HostEvent])
    ensures { length hosts.now < 2 ^ 63 }
{
    let _many = hosts.len();
}

/// All turns of one processor.
fn work_cpu<E: Entered, A: Agent, R: Wait, P: Pace>(
    rt: &R,
    shared: &Mutex<Running<E, A>>,
    pace: &P,
    delivery: Delivery,
    cpu: u32,
    turns: u32,
) -> Result<(), NoMemory>
    requires cpu { cpu < count_of E.world.platform }
{
    for turn in 0..turns {
        pace.before(turn_actor(delivery, turn, cpu), turn);
        shared.lock(rt).turn_cpu(cpu)?;
    }
    Ok(())
}

/// All events of the host.
fn work_host<E: Entered, A: Agent, R: Wait, P: Pace>(
    rt: &R,
    shared: &Mutex<Running<E, A>>,
    pace: &P,
    hosts: &[HostEvent],
) -> Result<(), NoMemory>
    requires hosts { hosts.now ≡ E.hosts }
{
    for i in 0..hosts.len() {
        pace.before(hosts[i].actor, u32::try_from(i).unwrap_or(u32::MAX));
        shared.lock(rt).turn_host(hosts)?;
    }
    Ok(())
}

/// The turns of a processor that are still missing.
fn rest_cpu<E: Entered, A: Agent, P: Pace>(
    running: &mut Running<E, A>,
    pace: &P,
    delivery: Delivery,
    cpu: u32,
    turns: u32,
) -> Result<(), NoMemory>
    requires cpu { cpu < count_of E.world.platform }
    requires turns { turns ≡ E.turns }
    ensures others { OnOk result ((j : ℕ) → j ≢ cpu → slice_index_or running.new.world.asked j 0 ≡ slice_index_or running.old.world.asked j 0) }
    ensures all { OnOk result (slice_index_or running.new.world.asked cpu 0 ≡ slice_index_or E.world.asked cpu 0 + E.turns) }
    ensures marks { OnOk result (running.new.marks ≡ running.old.marks) }
{
    for turn in running.own_turns(cpu)..turns {
        pace.before(turn_actor(delivery, turn, cpu), turn);
        running.turn_cpu(cpu)?;
    }
    Ok(())
}

/// The events of the host that are still missing.
fn rest_host<E: Entered, A: Agent, P: Pace>(
    running: &mut Running<E, A>,
    pace: &P,
    hosts: &[HostEvent],
) -> Result<(), NoMemory>
    requires hosts { hosts.now ≡ E.hosts }
    ensures others { OnOk result ((j : ℕ) → j < count_of E.world.platform → slice_index_or running.new.world.asked j 0 ≡ slice_index_or running.old.world.asked j 0) }
    ensures all { OnOk result (length running.new.marks ≡ length E.hosts) }
{
    for i in running.hosted()..hosts.len() {
        pace.before(hosts[i].actor, u32::try_from(i).unwrap_or(u32::MAX));
        running.turn_host(hosts)?;
    }
    Ok(())
}

/// All turns that are still missing.
fn rest<E: Entered, A: Agent, P: Pace>(
    running: &mut Running<E, A>,
    pace: &P,
    delivery: Delivery,
    count: usize,
    hosts: &[HostEvent],
    turns: u32,
) -> Result<(), NoMemory>
    requires count { count ≡ count_of E.world.platform }
    requires fit { count < 2 ^ 32 }
    requires turns { turns ≡ E.turns }
    requires hosts { hosts.now ≡ E.hosts }
    ensures cpus { OnOk result ((k : ℕ) → k < count_of E.world.platform → slice_index_or running.new.world.asked k 0 ≡ slice_index_or E.world.asked k 0 + E.turns) }
    ensures host { OnOk result (length running.new.marks ≡ length E.hosts) }
{
    for place in 0..count {
        rest_cpu(running, pace, delivery, place as u32, turns)?;
    }
    rest_host(running, pace, hosts)
}

fn run_named<E: Entered + Send, A: Agent + Send, R: Threads + Wait + Sync, P: Pace + Sync>(
    rt: &R,
    alloc: Global,
    world: World<A>,
    hosts: &[HostEvent],
    turns: u32,
    pace: &P,
) -> Result<Finished<A>, NoMemory>
    requires world { world ≡ E.world }
    requires turns { turns ≡ E.turns }
    requires hosts { hosts.now ≡ E.hosts }
    requires ready { IsReady E.world E.turns E.hosts }
    ensures left { IfOk result (λ r. IsLeft E.world E.turns E.hosts r.world r.marks) }
    ensures made { IfOk result (λ r. r.made ≡ length (added E.world r.world)) }
{
    world.sound();
    let count = world.platform().apic.0.len();
    let delivery = world.platform().delivery;
    let many = world.entries().len();
    let shared: Mutex<Running<E, A>> = Mutex::new(Running::new(alloc, world, turns)?);
    let each = |i: usize| -> Result<(), NoMemory>
        requires { (count ≡ count_of E.world.platform) × (count < 2 ^ 32) × (hosts.now ≡ E.hosts) }
    {
        if i < count {
            work_cpu(rt, &shared, pace, delivery, i as u32, turns)
        } else {
            work_host(rt, &shared, pace, hosts)
        }
    };
    let ended = thread::map_indices(rt, alloc, count + 1, &each)?;
    for end in ended {
        end?;
    }
    let mut running = shared.into_inner();
    rest(&mut running, pace, delivery, count, hosts, turns)?;
    let (world, marks) = running.finish();
    let made = (world.entries().len() - many) as u64;
    Ok(Finished {
        world,
        made,
        marks: Marks(marks),
    })
}

/// Makes so many turns of each processor, and the host's events in their order. One worker a possible processor makes those of that
/// processor, and one more the events, each in a thread of its own where one can be made. Before each turn comes `pace`, outside the lock;
/// the turn is made while a lock round the world is held. Where SMIs may come late, one turn in `lag` + 1 of a processor is its SMI's. In
/// which order turns fall is left open.
///
/// After `NoMemory` the world is dropped.
pub fn run<A: Agent + Send, R: Threads + Wait + Sync, P: Pace + Sync>(
    rt: &R,
    alloc: Global,
    world: World<A>,
    hosts: &[HostEvent],
    turns: u32,
    pace: &P,
) -> Result<Finished<A>, NoMemory>
    requires handed { (s : State) → run_of world.platform world.entries ≡ Some s → is_handed s.stage ≡ true }
    requires asked { (place : ℕ) → slice_index_or world.asked place 0 < 2 ^ 63 }
    requires hosts { All (λ h. is_host h.actor ≡ true) hosts.now }
    ensures platform { IfOk result (λ r. r.world.platform ≡ world.platform) }
    ensures entries { IfOk result (λ r. r.world.entries ≡ world.entries ++ added world r.world) }
    ensures made { IfOk result (λ r. r.made ≡ length (added world r.world)) }
    ensures asked { IfOk result (λ r. (k : ℕ) → k < count_of world.platform → slice_index_or r.world.asked k 0 ≡ slice_index_or world.asked k 0 + turns) }
    ensures asked_host { IfOk result (λ r. slice_index_or r.world.asked (count_of world.platform) 0 ≡ slice_index_or world.asked (count_of world.platform) 0 + length hosts.now) }
    ensures most { IfOk result (λ r. (a : Actor) → IsOfProcessor world.platform a → owned_by world.platform a (added world r.world) ≤ share world.platform.delivery a turns) }
    ensures fewer { IfOk result (λ r. (a : Actor) → IsOfProcessor world.platform a → owned_by world.platform a (added world r.world) < share world.platform.delivery a turns → HadNone world.platform r.world.entries (length world.entries) a) }
    ensures follows { IfOk result (λ r. (s : State) → run_of world.platform world.entries ≡ Some s → Follows world.platform (carried_from world s) (added world r.world)) }
    ensures carried { IfOk result (λ r. (s : State) → run_of world.platform world.entries ≡ Some s → IsCarried world.platform (carried_all world.platform (carried_from world s) (added world r.world)) r.world) }
    ensures hosted { IfOk result (λ r. IsHosted world.platform r.world.entries (length world.entries) (host_actors hosts.now) r.marks) }
{
    few(hosts);
    run_named::<Brand, A, R, P>(rt, alloc, world, hosts, turns, pace)
}
