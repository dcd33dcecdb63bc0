//! A machine at work: its state, its firmware and its agents, one step an event.

ghost use Rattle.std.specs.Prelude.{◌≡◌, ◌≤◌, ◌<◌, ◌^◌, IfOk, OnErr, is_some, length, replicate, slice_index_or, slice_set};
ghost use Rattle.hp_model.specs.declared.accesses.Answer.TheVariants.{Quiet};
ghost use Rattle.hp_model.specs.Boot.{fact_of, is_handed};
ghost use Rattle.hp_model.specs.Cpu.{smm_address};
ghost use Rattle.hp_model.specs.Following.{without_agent};
ghost use Rattle.hp_model.specs.Platform.{IsFit, count_of};
ghost use Rattle.hp_model.specs.Runs.{address_of as address_in};
ghost use Rattle.hp_model.specs.State.{at, start};
ghost use Rattle.hp_model.specs.Step.{step};
ghost use Rattle.hp_platform.specs.Agents.{without_heard};
ghost use Rattle.hp_platform.specs.Board.{IsFound, IsReady, event_of};
ghost use Rattle.hp_platform.specs.Live.{Applies, HasMade, IsSound, IsTurned};

use crate::boards::Board;
use crate::findings::{Finding, Found};
use crate::normal::normal;
use crate::worlds::Turn;
use hp_agent::{Agent, Agents};
use hp_model::{Actor, Answer, BootFact, Entry, Event, NoMemory, Platform};
use http_server::Log;
use std::alloc::Global;
use std::marker::Model;

/// A machine with its firmware and one agent a processor, between two steps. It keeps no list of the steps that were made.
///
/// Its type keeps that its state is one that a run of the machine leads to.
#[derive(Drop)]
pub struct Live<A: Agent> {
    board: Board,
    agents: Agents<A>,
    last: Vec<Answer>,
    /// Each step with its answer, for proofs alone: it takes no memory.
    steps: Log<Event, Answer>,
}

impl<A: Agent> Model for Live<A> {
    ghost use Rattle.hp_model.specs.State.{start};
    ghost use Rattle.hp_platform.specs.Live as seen;
    ghost use Rattle.hp_platform.specs.Live.{IsKept, state_after};

    ghost Value = { seen.Live };

    ghost view = { λ l. record { platform = l.board.platform; state = state_after l.board.platform (start l.board.platform) l.steps.items; voices = l.agents.voices; heard = l.agents.heard; last = l.last.items } };

    ghost invariant = { λ l. IsKept l.board (state_after l.board.platform (start l.board.platform) l.steps.items) };
}

/// How many processors are possible.
pub(crate) fn possible(p: &Platform) -> usize
    ensures value { result ≡ count_of p.now }
    ensures few { result < 2 ^ 63 }
{
    p.apic.0.as_slice().len()
}

/// The answer in the place of a processor; `Quiet` past the last place.
fn answer_at(last: &[Answer], cpu: u32) -> Answer
    ensures { result ≡ slice_index_or last.now cpu Quiet }
{
    let place = cpu as usize;
    if place < last.len() {
        last[place]
    } else {
        Answer::Quiet
    }
}

/// The answer to what an agent was asked for.
fn note_answer(last: &mut Vec<Answer>, cpu: u32, answer: Answer)
    ensures { last.new.items ≡ slice_set last.old.items cpu answer }
{
    let place = cpu as usize;
    if place < last.len() {
        last[place] = answer;
    }
}

/// An ejected processor loses its agent.
fn drop_ejected<A: Agent>(agents: &mut Agents<A>, ejected: Option<u32>)
    ensures voices { agents.new.voices ≡ without_agent ejected agents.old.voices }
    ensures heard { agents.new.heard ≡ without_heard ejected agents.old.heard }
{
    if let Some(cpu) = ejected {
        agents.drop_of(cpu);
    }
}

/// Makes a step that was found. Room for what it writes was taken.
fn make(board: &mut Board, steps: &mut Log<Event, Answer>, found: &Found) -> Entry
    requires room { 272 ≤ board.old.machine.memory.spare }
    requires ready { IsReady board.old (event_of found.now) }
    requires found { IsFound board.old found.now }
    ensures event { result.event ≡ event_of found.now }
    ensures made { HasMade board.old board.new steps.old.items steps.new.items result }
{
    let event = *found.event();
    let at = board.address_of(&event);
    let answer = board.make(found);
    *steps = steps.and(&event, &answer);
    Entry { event, at, answer }
}

impl<A: Agent> Live<A> {
    /// A machine before its first step, in front of its boot sequence, with an agent, or none, for each possible processor.
    pub fn new(alloc: Global, p: &Platform, agents: Agents<A>) -> Result<Live<A>, NoMemory>
        requires fit { IsFit p.now }
        requires places { length agents.voices ≡ count_of p.now }
        ensures platform { IfOk result (λ l. l.platform ≡ p.now) }
        ensures state { IfOk result (λ l. l.state ≡ start p.now) }
        ensures voices { IfOk result (λ l. l.voices ≡ agents.voices) }
        ensures heard { IfOk result (λ l. l.heard ≡ agents.heard) }
        ensures last { IfOk result (λ l. l.last ≡ replicate (count_of p.now) Quiet) }
    {
        let last = vec![in alloc; Answer::Quiet; possible(p)]?;
        let board = Board::new(alloc, p)?;
        Ok(Live {
            board,
            agents,
            last,
            steps: Log::new(),
        })
    }

    /// A turn of an actor, as `turn` has it, where the actor may have a step.
    #[inline(never)]
    fn take_step(&mut self, a: Actor) -> Result<Turn, NoMemory>
        ensures platform { self.new.platform ≡ self.old.platform }
        ensures turned { IfOk result (IsTurned self.old self.new a) }
        ensures no_memory { OnErr result (self.new ≡ self.old) }
    {
        self.board.reserve()?;
        match self.board.due(a) {
            Finding::Idle => Ok(Turn::Idle),
            Finding::Makes(found) => {
                let entry = make(&mut self.board, &mut self.steps, &found);
                drop_ejected(&mut self.agents, self.board.ejected());
                Ok(Turn::Made(entry))
            }
            Finding::Asks(cpu) => {
                let page = self.board.page(cpu);
                let access = self
                    .agents
                    .next(cpu, page, answer_at(self.last.as_slice(), cpu));
                let found = Found::Plain(Event::Do(cpu, normal(access)));
                let entry = make(&mut self.board, &mut self.steps, &found);
                note_answer(&mut self.last, cpu, entry.answer);
                drop_ejected(&mut self.agents, self.board.ejected());
                Ok(Turn::Made(entry))
            }
        }
    }

    /// One turn of an actor: its step, if the machine and its firmware have one of it now, and the entry of that step.
    ///
    /// Before the hand-over processor 0 alone has steps, those of the boot sequence; after a refusal of the boot nobody has.
    /// After the hand-over the host inserts an absent processor or requests the removal of one that is present and isn't
    /// processor 0; a processor takes a latched SMI, else a latched INIT, else in SMM does what its handler wants, and outside
    /// SMM makes the access that its agent says, where it is running. The SMI of a processor is an actor too; where SMIs may
    /// come late it alone takes them, and a running processor goes on until then. An access of a width that there is none is made as
    /// `Nop`, and a value is cut to its width. A step that ejects a processor drops its agent.
    ///
    /// Where the step is an agent's, that agent alone is asked, and once: as that processor, at the page where it runs, with the
    /// answer to its last access. `Idle` comes exactly where there is no step of the actor; no agent is asked then. All this is said
    /// of each agent but one that the step itself drops: what that one has heard ends with it. Room for what the step writes is
    /// taken first, so after `NoMemory` no agent was asked and nothing has changed but that room.
    pub fn turn(&mut self, a: Actor) -> Result<Turn, NoMemory>
        ensures platform { self.new.platform ≡ self.old.platform }
        ensures turned { IfOk result (IsTurned self.old self.new a) }
        ensures no_memory { OnErr result (self.new ≡ self.old) }
    {
        if self.board.sleeps(a) {
            return Ok(Turn::Idle);
        }
        self.take_step(a)
    }

    /// Makes an event, if the machine and its firmware have it as a step now, and gives that step's answer. No agent is asked,
    /// and the answers to their last accesses stay; a step that ejects a processor drops its agent. `None` comes exactly where
    /// the event is no step now, and changes nothing. Room for what the step writes is taken first, so after `NoMemory` nothing
    /// has changed but that room.
    pub fn apply(&mut self, e: &Event) -> Result<Option<Answer>, NoMemory>
        ensures platform { self.new.platform ≡ self.old.platform }
        ensures applied { IfOk result (Applies self.old self.new e.now) }
        ensures no_memory { OnErr result (self.new ≡ self.old) }
    {
        self.board.reserve()?;
        match self.board.step_of(e) {
            Some(found) => {
                let entry = make(&mut self.board, &mut self.steps, &found);
                drop_ejected(&mut self.agents, self.board.ejected());
                Ok(Some(entry.answer))
            }
            None => Ok(None),
        }
    }

    /// Whether the machine and its firmware have the event as a step now: by presence, modes and latches, and in the boot
    /// sequence and in SMM by what is wanted.
    pub fn can(&self, e: &Event) -> bool
        ensures { result ≡ is_some (step self.now.platform self.now.state e.now) }
    {
        self.board.step_of(e).is_some()
    }

    /// The instruction address of a processor, 32 bits, where it is in SMM; else None, and so past the last processor.
    pub fn address(&self, cpu: u32) -> Option<u32>
        ensures { result ≡ smm_address (at self.now.state cpu) }
    {
        self.board.address(cpu)
    }

    /// The instruction address that an entry of this event would have now.
    pub fn address_of(&self, e: &Event) -> Option<u32>
        ensures { result ≡ address_in self.now.state e.now }
    {
        self.board.address_of(e)
    }

    /// What each live machine keeps, as callers see it: its platform fits, and a run of that platform leads to its state. So what is
    /// said of every run holds of it.
    pub fn sound(&self)
        ensures { IsSound self.now }
    {
        let _ = &self.board;
    }

    /// Whether the boot is over and the machine handed over.
    pub fn handed(&self) -> bool
        ensures { result ≡ is_handed self.now.state.stage }
    {
        self.board.handed()
    }

    /// The value that refused the boot; None while it goes on, and after the hand-over.
    pub fn boot_fact(&self) -> Option<BootFact>
        ensures { result ≡ fact_of self.now.state.stage }
    {
        self.board.boot_fact()
    }

    pub fn platform(&self) -> &Platform
        ensures { result.now ≡ self.now.platform }
    {
        self.board.platform()
    }
}
