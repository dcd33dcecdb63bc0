//! A machine that is led by entries.

ghost use Rattle.std.specs.Prelude.{◌≡◌, false, length, IfOk, OnErr};
ghost use Rattle.hp_model.specs.Platform.{IsFit};
ghost use Rattle.hp_model.specs.State.{start};
ghost use Rattle.hp_check.specs.Walk.{IsSound, Steps, is_told};

use hp_agent::{Agents, PenAgent, Voice};
use hp_model::{Answer, Entry, NoMemory, Platform};
use hp_platform::Live;
use std::alloc::Global;
use std::marker::Model;

/// A machine with its firmware that is led by entries, one after the other, and asks nobody. It keeps no list of them.
///
/// Its state is one that a run of the machine leads to (`Walk::sound`), so what is said of every run holds of it.
#[derive(Drop)]
pub struct Walk {
    live: Live<PenAgent>,
    stopped: bool,
}

impl Model for Walk {
    ghost use Rattle.hp_check.specs.Walk as seen;

    ghost Value = { seen.Walk };

    ghost view = { λ w. record { platform = w.live.platform; state = w.live.state; stopped = w.stopped } };
}

/// A place without an agent for each possible processor.
fn nobody(alloc: Global, count: usize) -> Result<Agents<PenAgent>, NoMemory>
    ensures { IfOk result (λ agents. length agents.voices ≡ count) }
{
    let mut places: Vec<Option<Voice<PenAgent>>> = Vec::new(alloc);
    for _place in 0..count {
        places.push(None)?;
    }
    Ok(Agents::new(places))
}

/// Whether this is the answer of an entry, and this its address. Where there was no answer it was no step.
fn is_entry(e: &Entry, answer: Option<Answer>, at: Option<u32>) -> bool
    ensures { result ≡ is_told e.now answer at }
{
    match answer {
        Some(answer) => answer == e.answer && at == e.at,
        None => false,
    }
}

impl Walk {
    /// A machine before its first step.
    pub fn new(alloc: Global, p: &Platform) -> Result<Walk, NoMemory>
        requires { IsFit p.now }
        ensures platform { IfOk result (λ w. w.platform ≡ p.now) }
        ensures state { IfOk result (λ w. w.state ≡ start p.now) }
        ensures going { IfOk result (λ w. w.stopped ≡ false) }
    {
        let agents = nobody(alloc, p.apic.0.len())?;
        let live = Live::new(alloc, p, agents)?;
        Ok(Walk {
            live,
            stopped: false,
        })
    }

    /// Goes on by an entry. `true` exactly where it is a step of the machine now, with the step's answer and with the instruction
    /// address that its processor has before it; then the state is the one after that step. `false` exactly where it isn't;
    /// after it the walk has stopped, and its state says nothing. After `NoMemory` nothing has changed but room.
    pub fn step(&mut self, e: &Entry) -> Result<bool, NoMemory>
        requires { self.old.stopped ≡ false }
        ensures platform { self.new.platform ≡ self.old.platform }
        ensures stepped { IfOk result (Steps self.old self.new e.now) }
        ensures no_memory { OnErr result (self.new ≡ self.old) }
    {
        let at = self.live.address_of(&e.event);
        let answer = self.live.apply(&e.event)?;
        let same = is_entry(e, answer, at);
        self.stopped = !same;
        Ok(same)
    }

    /// What each walk keeps, as callers see it: its platform fits, and a run of that platform leads to its state.
    pub fn sound(&self)
        ensures { IsSound self.now }
    {
        self.live.sound();
    }

    /// The platform that it started with.
    pub fn platform(&self) -> &Platform
        ensures { result.now ≡ self.now.platform }
    {
        self.live.platform()
    }

    /// Whether an entry was no step.
    pub fn stopped(&self) -> bool
        ensures { result ≡ self.now.stopped }
    {
        self.stopped
    }
}
