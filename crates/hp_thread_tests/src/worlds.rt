//! Worlds that are handed over, with what a call of threads asks of them.

ghost use Rattle.std.specs.Prelude.{◌≡◌, ◌<◌, ◌^◌, ℕ, true, IfOk, Some, slice_index_or};
ghost use Rattle.hp_model.specs.Boot.{is_handed};
ghost use Rattle.hp_model.specs.Runs.{run as run_of};
ghost use Rattle.hp_model.specs.State.{State};

use hp_agent::{Agent, Agents, Script, Voice};
use hp_model::{Access, Actor, Steps};
use hp_platform::World;
use hp_test_worlds::{Fault, Header, platform_of};
use std::alloc::Global;

/// A script of this access, so often.
pub(crate) fn repeated(alloc: Global, access: Access, times: u32) -> Result<Script, Fault> {
    let mut list = Vec::new(alloc);
    for _time in 0..times {
        list.push(access)?;
    }
    Ok(Script::new(Steps(list)))
}

/// A world after its boot, with these agents, one a processor. `NotACase` where it isn't handed over then.
pub(crate) fn handed_over<A: Agent>(
    alloc: Global,
    header: &Header,
    voices: Vec<Option<Voice<A>>>,
) -> Result<World<A>, Fault>
    ensures handed { IfOk result (λ w. (s : State) → run_of w.platform w.entries ≡ Some s → is_handed s.stage ≡ true) }
    ensures asked { IfOk result (λ w. (place : ℕ) → slice_index_or w.asked place 0 < 2 ^ 63) }
{
    let p = platform_of(alloc, header)?;
    if voices.len() != p.apic.0.len() {
        return Err(Fault::NotACase);
    }
    let turns = if p.tseg_mib == 48 { 29u32 } else { 27u32 };
    let mut world = World::new(alloc, &p, Agents::new(voices))?;
    for _turn in 0..turns {
        world.turn(Actor::Cpu(0))?;
    }
    if !world.handed() {
        return Err(Fault::NotACase);
    }
    Ok(world)
}
