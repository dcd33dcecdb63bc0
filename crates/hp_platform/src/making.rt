//! What makes a step: the machine's part of it, and what the boot or a handler makes of its answer.

ghost use Rattle.std.specs.Prelude.{◌≡◌, ◌≤◌, true, length, slice_set};
ghost use Rattle.hp_model.specs.Block.{ejected_by};
ghost use Rattle.hp_model.specs.Boot.{is_booting};
ghost use Rattle.hp_model.specs.declared.platforms.Platform.{Platform as APlatform};
ghost use Rattle.hp_model.specs.Cpu.{cpu_at};
ghost use Rattle.hp_model.specs.State.{State};
ghost use Rattle.hp_model.specs.Step.{after as step_after, answer_of, can_do};
ghost use Rattle.hp_machine.specs.Machine.{FitsEvent, StandsFor as MachineStandsFor, IsStep};
ghost use Rattle.hp_platform.specs.Board.{IsFound, IsOther, IsReady, IsRow, StandsFor, event_of, moved_to, session_after};

use crate::boards::{Board, is_in_smm};
use crate::findings::Found;
use hp_machine::Machine;
use hp_model::{Answer, Event, Label, NoMemory};
use hp_smm::{Handlers, SmmCpu};

/// The machine's part of a step. Room for it was taken.
fn step(machine: &mut Machine, event: &Event) -> Answer
    requires room { 272 ≤ machine.old.memory.spare }
    requires enabled { can_do machine.old.late (length machine.old.apic) machine.old.cpus event.now ≡ true }
    ensures step { (p : APlatform) (s : State) → MachineStandsFor p machine.old s → IsStep p machine.new s event.now result }
    ensures fits { FitsEvent event.now result }
    ensures ejected { machine.new.ejected ≡ ejected_by machine.old.block machine.new.block }
{
    match machine.step(event) {
        Ok(answer) => answer,
        Err(NoMemory) => unreachable!(),
    }
}

/// A processor goes on at this instruction address, with this base, if it is in SMM.
#[tactic(auto, using(crate::proofs::Setting::setting))]
fn move_to(machine: &mut Machine, cpu: u32, address: u32, base: u32)
    ensures { machine.new ≡ record machine.old { cpus = slice_set machine.old.cpus cpu (moved_to address base (cpu_at machine.old.cpus cpu)) } }
{
    if is_in_smm(&machine.cpu(cpu)) {
        machine.go(cpu, address, base);
    }
}

/// SMI entry is told to the handlers.
fn tell(handlers: &mut Handlers, event: &Event)
    ensures { handlers.new ≡ session_after event.now handlers.old }
{
    if let Event::TakeSmi(cpu) = *event {
        handlers.entered(cpu);
    }
}

impl Board {
    /// A step of the boot, which takes its answer; the monarch is told the features that were agreed on.
    fn make_boot(&mut self, event: &Event) -> Answer
        requires room { 272 ≤ self.old.machine.memory.spare }
        requires ready { IsReady self.old event.now }
        requires booting { is_booting self.old.boot.stage ≡ true }
        ensures platform { self.new.platform ≡ self.old.platform }
        ensures state { (s : State) → StandsFor self.old s → StandsFor self.new (step_after self.old.platform s event.now).state }
        ensures answer { (s : State) → StandsFor self.old s → result ≡ answer_of s event.now }
        ensures ejected { self.new.machine.ejected ≡ ejected_by self.old.machine.block self.new.machine.block }
    {
        let answer = step(&mut self.machine, event);
        self.boot.feed(answer);
        self.handlers
            .features(self.machine.negotiated().unwrap_or(0));
        answer
    }

    /// A row of a handler: its answer leads the processor on.
    fn make_row(&mut self, smm_cpu: &SmmCpu, label: Label, event: &Event) -> Answer
        requires room { 272 ≤ self.old.machine.memory.spare }
        requires ready { IsReady self.old event.now }
        requires row { IsRow self.old smm_cpu.now label event.now }
        ensures platform { self.new.platform ≡ self.old.platform }
        ensures state { (s : State) → StandsFor self.old s → StandsFor self.new (step_after self.old.platform s event.now).state }
        ensures answer { (s : State) → StandsFor self.old s → result ≡ answer_of s event.now }
        ensures ejected { self.new.machine.ejected ≡ ejected_by self.old.machine.block self.new.machine.block }
    {
        let answer = step(&mut self.machine, event);
        let (address, base) = self.handlers.feed(smm_cpu, label, answer);
        move_to(&mut self.machine, smm_cpu.cpu, address, base);
        answer
    }

    /// A step whose answer no handler takes. SMI entry is told to the handlers.
    fn make_plain(&mut self, event: &Event) -> Answer
        requires room { 272 ≤ self.old.machine.memory.spare }
        requires ready { IsReady self.old event.now }
        requires other { IsOther self.old event.now }
        ensures platform { self.new.platform ≡ self.old.platform }
        ensures state { (s : State) → StandsFor self.old s → StandsFor self.new (step_after self.old.platform s event.now).state }
        ensures answer { (s : State) → StandsFor self.old s → result ≡ answer_of s event.now }
        ensures ejected { self.new.machine.ejected ≡ ejected_by self.old.machine.block self.new.machine.block }
    {
        let answer = step(&mut self.machine, event);
        tell(&mut self.handlers, event);
        answer
    }

    /// Makes a step that is due: the machine's, and what the firmware makes of its answer. Room for it was taken.
    pub(crate) fn make(&mut self, found: &Found) -> Answer
        requires room { 272 ≤ self.old.machine.memory.spare }
        requires ready { IsReady self.old (event_of found.now) }
        requires found { IsFound self.old found.now }
        ensures platform { self.new.platform ≡ self.old.platform }
        ensures state { (s : State) → StandsFor self.old s → StandsFor self.new (step_after self.old.platform s (event_of found.now)).state }
        ensures answer { (s : State) → StandsFor self.old s → result ≡ answer_of s (event_of found.now) }
        ensures ejected { self.new.machine.ejected ≡ ejected_by self.old.machine.block self.new.machine.block }
    {
        match found {
            Found::Boot(event) => self.make_boot(event),
            Found::Row(smm_cpu, label, event) => self.make_row(smm_cpu, *label, event),
            Found::Plain(event) => self.make_plain(event),
        }
    }
}
