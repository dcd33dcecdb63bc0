//! What is under the lock: a world between two turns, with what is kept of it since the call's entry.

ghost use Rattle.std.specs.Prelude.{◌≡◌, ◌≢◌, ◌≤◌, ◌<◌, ◌+◌, ℕ, List, [], IfOk, OnOk, Some, length, slice_get, slice_index_or};
ghost use Rattle.hp_model.specs.declared.files.HostEvent.{HostEvent};
ghost use Rattle.hp_model.specs.Platform.{count_of};
ghost use Rattle.hp_platform.specs.World as seen;
ghost use Rattle.hp_platform.specs.World.{IsSound};
ghost use Rattle.hp_threads.specs.Running.{IsKept, IsReady, host_actors, no_world};
ghost use Rattle.hp_threads.specs.Running as run;

use crate::choosing::turn_actor;
use hp_agent::Agent;
use hp_model::{Actor, HostEvent, NoMemory};
use hp_platform::World;
use std::alloc::Global;
use std::marker::{Brand, Model, PhantomData};

/// What stood at the entry of a call. No value of it is made.
pub(crate) trait Entered {
    ghost world: { seen.World };

    ghost turns: { ℕ };

    ghost hosts: { List HostEvent };
}

impl Entered for Brand {
    ghost world = { no_world };

    ghost turns = { 0 };

    ghost hosts = { [] };
}

/// A world with the marks of the host events that were made, and what is read of what stood at entry.
#[derive(Drop)]
pub(crate) struct Running<E: Entered, A: Agent> {
    world: World<A>,
    marks: Vec<u64>,
    before: Vec<u64>,
    turns: u32,
    of: PhantomData<E>,
}

impl<E: Entered, A: Agent> Model for Running<E, A> {
    ghost use Rattle.std.specs.Prelude.{◌≡◌};
    ghost use Rattle.hp_threads.specs.Running as run;
    ghost use Rattle.hp_threads.specs.Running.{IsKept};

    ghost Value = { run.Running };

    ghost view = { λ r. record { world = r.world; marks = r.marks.items } };

    ghost invariant = { λ r. IsKept E.world E.turns E.hosts (record { world = r.world; marks = r.marks.items }) × (r.before.items ≡ E.world.asked) × (r.turns ≡ E.turns) };
}

/// How many turns each processor had, and then how many the host.
fn asked_all<A: Agent>(alloc: Global, world: &World<A>) -> Result<Vec<u64>, NoMemory>
    requires sound { IsSound world.now }
    ensures { IfOk result (λ v. v.items ≡ world.now.asked) }
{
    let count = world.platform().apic.0.len();
    let mut asked = Vec::new(alloc);
    for place in 0..count {
        asked.push(world.asked(&Actor::Cpu(place as u32)))?;
    }
    asked.push(world.asked(&Actor::Insert(0)))?;
    Ok(asked)
}

/// The actor of a host event.
fn actor_at(hosts: &[HostEvent], i: usize) -> Actor
    requires { i < length hosts.now }
    ensures { slice_get (host_actors hosts.now) i ≡ Some result }
{
    hosts[i].actor
}

impl<E: Entered, A: Agent> Running<E, A> {
    /// A world at entry.
    pub(crate) fn new(alloc: Global, world: World<A>, turns: u32) -> Result<Running<E, A>, NoMemory>
        requires world { world ≡ E.world }
        requires turns { turns ≡ E.turns }
        requires ready { IsReady E.world E.turns E.hosts }
    {
        world.sound();
        let before = asked_all(alloc, &world)?;
        Ok(Running {
            world,
            marks: Vec::new(alloc),
            before,
            turns,
            of: PhantomData,
        })
    }

    /// How many turns of its own a processor had since entry.
    pub(crate) fn own_turns(&self, cpu: u32) -> u32
        requires cpu { cpu < count_of E.world.platform }
        ensures within { result ≤ E.turns }
        ensures asked { slice_index_or self.now.world.asked cpu 0 ≡ slice_index_or E.world.asked cpu 0 + result }
    {
        self.world.sound();
        let now = self.world.asked(&Actor::Cpu(cpu));
        (now - self.before[cpu as usize]) as u32
    }

    /// Makes a turn of a processor, or of its SMI, where one is left.
    pub(crate) fn turn_cpu(&mut self, cpu: u32) -> Result<(), NoMemory>
        requires cpu { cpu < count_of E.world.platform }
        ensures others { OnOk result ((j : ℕ) → j ≢ cpu → slice_index_or self.new.world.asked j 0 ≡ slice_index_or self.old.world.asked j 0) }
        ensures asked { OnOk result (slice_index_or self.old.world.asked cpu 0 < slice_index_or E.world.asked cpu 0 + E.turns → slice_index_or self.new.world.asked cpu 0 ≡ slice_index_or self.old.world.asked cpu 0 + 1) }
        ensures marks { OnOk result (self.new.marks ≡ self.old.marks) }
    {
        let own = self.own_turns(cpu);
        if own >= self.turns {
            return Ok(());
        }
        self.world.sound();
        let delivery = self.world.platform().delivery;
        self.world.turn(turn_actor(delivery, own, cpu))?;
        Ok(())
    }

    /// Makes the next of the host's events where one is left.
    pub(crate) fn turn_host(&mut self, hosts: &[HostEvent]) -> Result<(), NoMemory>
        requires hosts { hosts.now ≡ E.hosts }
        ensures others { OnOk result ((j : ℕ) → j < count_of E.world.platform → slice_index_or self.new.world.asked j 0 ≡ slice_index_or self.old.world.asked j 0) }
        ensures marked { OnOk result (length self.old.marks < length E.hosts → length self.new.marks ≡ length self.old.marks + 1) }
    {
        let next = self.marks.len();
        if next >= hosts.len() {
            return Ok(());
        }
        self.world.sound();
        self.marks.reserve(1)?;
        let mark = self.world.entries().len() as u64;
        self.world.turn(actor_at(hosts, next))?;
        self.marks.push_reserved(mark);
        Ok(())
    }

    /// How many of the host's events were made.
    pub(crate) fn hosted(&self) -> usize
        ensures within { result ≤ length E.hosts }
        ensures value { result ≡ length self.now.marks }
    {
        self.marks.len()
    }

    /// The world and the marks, with what is kept of them.
    pub(crate) fn finish(self) -> (World<A>, Vec<u64>)
        ensures world { result.0 ≡ self.world }
        ensures marks { result.1.items ≡ self.marks }
        ensures kept { IsKept E.world E.turns E.hosts (record { world = result.0; marks = result.1.items }) }
        ensures sound { IsSound result.0 }
    {
        let Running {
            world,
            marks,
            before: _,
            turns: _,
            of: _,
        } = self;
        world.sound();
        (world, marks)
    }
}
