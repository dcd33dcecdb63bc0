//! The agents of all processors, by place.

ghost use Rattle.std.specs.Prelude.{◌≡◌, None, Some, slice_set};
ghost use Rattle.hp_model.specs.Voices.{silent};
ghost use Rattle.hp_agent.specs.Kinds.{all_heard, place_voices, hears, hears_at, place_heard, place_voice};
ghost use Rattle.hp_model.specs.Following.{voice_told};
ghost use Rattle.hp_agent.specs.Speaking.{Speaks, asked};

use crate::asking::Agent;
use crate::kinds::Voice;
use hp_model::{Access, Answer};
use std::marker::Model;

/// One place for each processor, with an agent or without one.
#[derive(Drop)]
pub struct Agents<A: Agent> {
    places: Vec<Option<Voice<A>>>,
}

impl<A: Agent> Model for Agents<A> {
    ghost use Rattle.hp_agent.specs.Kinds.{Places, all_heard, place_voices};

    ghost Value = { Places };

    ghost view = { λ a. record { voices = place_voices A.voice a.places.items; heard = all_heard A.heard a.places.items } };
}

/// Asks a place; it answers `Halt` where it has no agent.
#[tactic(auto, using(crate::proofs::Said::silent_halts))]
fn ask<A: Agent>(place: &mut Option<Voice<A>>, cpu: u32, page: u32, last: Answer) -> Access
    ensures says { Speaks (place_voice A.voice place.old) (place_voice A.voice place.new) (asked cpu page last) result }
    ensures hears { place_heard A.heard place.new ≡ hears (place_heard A.heard place.old) (asked cpu page last) result }
{
    match place {
        Some(agent) => agent.next(cpu, page, last),
        None => Access::Halt,
    }
}

/// Asks the agent in a place, if it is one.
#[tactic(auto, using(crate::proofs::Told::told_facts))]
fn ask_at<A: Agent>(places: &mut [Option<Voice<A>>], cpu: u32, page: u32, last: Answer) -> Access
    ensures says { Speaks (voice_told (place_voices A.voice places.old) cpu) (voice_told (place_voices A.voice places.new) cpu) (asked cpu page last) result }
    ensures others { place_voices A.voice places.new ≡ slice_set (place_voices A.voice places.old) cpu (voice_told (place_voices A.voice places.new) cpu) }
    ensures hears { all_heard A.heard places.new ≡ hears_at (all_heard A.heard places.old) cpu (asked cpu page last) result }
{
    let place = cpu as usize;
    if place < places.len() {
        ask(&mut places[place], cpu, page, last)
    } else {
        Access::Halt
    }
}

/// Drops the agent of a place.
fn empty<A: Agent>(place: &mut Option<Voice<A>>)
    ensures tells { place_voice A.voice place.new ≡ Some silent }
    ensures heard { place_heard A.heard place.new ≡ None }
{
    *place = None;
}

/// Drops the agent in a place, if it is one.
#[tactic(auto, using(crate::proofs::Told::dropped_facts))]
fn drop_at<A: Agent>(places: &mut [Option<Voice<A>>], cpu: u32)
    ensures tells { place_voices A.voice places.new ≡ slice_set (place_voices A.voice places.old) cpu (Some silent) }
    ensures heard { all_heard A.heard places.new ≡ slice_set (all_heard A.heard places.old) cpu None }
{
    let place = cpu as usize;
    if place < places.len() {
        empty(&mut places[place]);
    }
}

impl<A: Agent> Agents<A> {
    /// An agent, or none, for each processor, in the order of their places.
    pub fn new(list: Vec<Option<Voice<A>>>) -> Agents<A>
        ensures voices { result.voices ≡ place_voices A.voice list.items }
        ensures heard { result.heard ≡ all_heard A.heard list.items }
    {
        Agents { places: list }
    }

    /// Asks the agent of processor `cpu`, which runs at page `page` (address bits 31:12). `last` is the answer to that
    /// processor's access before. `Halt` where there is no agent, or no such place.
    #[tactic(auto, using(crate::proofs::Said::silent_halts))]
    pub fn next(&mut self, cpu: u32, page: u32, last: Answer) -> Access
        ensures says { Speaks (voice_told self.old.voices cpu) (voice_told self.new.voices cpu) (asked cpu page last) result }
        ensures halts { voice_told self.old.voices cpu ≡ Some silent → result ≡ Access.Halt }
        ensures others { self.new.voices ≡ slice_set self.old.voices cpu (voice_told self.new.voices cpu) }
        ensures hears { self.new.heard ≡ hears_at self.old.heard cpu (asked cpu page last) result }
    {
        ask_at(&mut self.places, cpu, page, last)
    }

    /// Drops the agent of processor `cpu`. Its place then has none.
    pub fn drop_of(&mut self, cpu: u32)
        ensures voices { self.new.voices ≡ slice_set self.old.voices cpu (Some silent) }
        ensures heard { self.new.heard ≡ slice_set self.old.heard cpu None }
    {
        drop_at(&mut self.places, cpu);
    }
}
