//! The machine with its boot and its handlers, between two steps.

ghost use Rattle.std.specs.Prelude.{◌≡◌, ◌≤◌, ◌<◌, IfOk, IfSome, OnOk, None, Some, length, option_map};
ghost use Rattle.hp_model.specs.Access.{stands_in_smm};
ghost use Rattle.hp_model.specs.Boot.{fact_of, is_handed};
ghost use Rattle.hp_model.specs.Cpu.{cpu_at, page_of, smm_address};
ghost use Rattle.hp_model.specs.Firmware.{mark_at, wanted};
ghost use Rattle.hp_model.specs.Platform.{IsFit, apic_of, greatest_id};
ghost use Rattle.hp_model.specs.Runs.{address_of as address_in};
ghost use Rattle.hp_model.specs.State.{State, at, start};
ghost use Rattle.hp_machine.specs.Machine.{StandsFor as MachineStandsFor};
ghost use Rattle.hp_smm.specs.Rows.{row_for};
ghost use Rattle.hp_platform.specs.Board.{IsSmmCpu, StandsFor, is_asleep as asleep};

use hp_boot::{Boot, BootStage};
use hp_image::image;
use hp_machine::Machine;
use hp_model::{BootFact, Cpu, Event, Label, Mode, NoMemory, Platform, Want};
use hp_smm::{Handlers, SmmCpu};
use std::alloc::Global;
use std::marker::Model;

/// The machine, its boot and its handlers.
#[derive(Drop)]
pub(crate) struct Board {
    pub(crate) platform: Platform,
    pub(crate) machine: Machine,
    pub(crate) boot: Boot,
    pub(crate) handlers: Handlers,
}

impl Model for Board {
    ghost use Rattle.hp_platform.specs.Board as seen;
    ghost use Rattle.hp_platform.specs.Board.{IsOf};

    ghost Value = { seen.Board };

    ghost view = { λ b. record { platform = b.platform; machine = b.machine; boot = b.boot; handlers = b.handlers } };

    ghost invariant = { λ b. IsOf b.platform b.machine.apic b.handlers.layout };
}

/// Whether a present processor is in SMM.
pub(crate) fn is_in_smm(cpu: &Cpu) -> bool
    ensures { result ≡ stands_in_smm cpu.now }
{
    cpu.present && matches!(cpu.mode, Mode::Smm(_))
}

/// Whether a processor is absent, waits for SIPI, or is halted with nothing latched.
pub(crate) fn is_asleep(cpu: &Cpu) -> bool
    ensures { result ≡ asleep cpu.now }
{
    !cpu.present
        || match cpu.mode {
            Mode::Wait => true,
            Mode::Halted(_) => !(cpu.smi || cpu.init),
            Mode::Running(_) | Mode::Smm(_) => false,
        }
}

/// The APIC ID of a possible processor.
#[tactic(auto, using(crate::proofs::Ids::low))]
fn apic_at(p: &Platform, cpu: u32) -> u32
    requires fit { IsFit p.now }
    requires place { cpu < length p.now.apic }
    ensures value { result ≡ apic_of p.now cpu }
    ensures low { result ≤ greatest_id p.now.x2apic }
{
    p.apic.0[cpu as usize]
}

/// What the handlers are told of a processor of this machine; None where it isn't in SMM.
fn smm_cpu_of(machine: &Machine, p: &Platform, cpu: u32) -> Option<SmmCpu>
    requires fit { IsFit p.now }
    requires apic { machine.now.apic ≡ p.now.apic }
    ensures some { (s : State) → MachineStandsFor p.now machine.now s → IfSome result (IsSmmCpu p.now s cpu) }
    ensures none { (s : State) → MachineStandsFor p.now machine.now s → result ≡ None → mark_at s cpu ≡ None }
    ensures cpu { IfSome result (λ x. x.cpu ≡ cpu) }
    ensures apic { IfSome result (λ x. x.apic ≤ greatest_id p.now.x2apic) }
{
    let Some(mark) = machine.mark_at(cpu) else {
        return None;
    };
    let processor = machine.cpu(cpu);
    let apic = apic_at(p, cpu);
    Some(SmmCpu {
        cpu,
        apic,
        smbase: processor.smbase,
        base: processor.base,
        mark,
    })
}

impl Board {
    /// The machine before its first step, with the handlers' marks in memory.
    pub(crate) fn new(alloc: Global, p: &Platform) -> Result<Board, NoMemory>
        requires { IsFit p.now }
        ensures platform { IfOk result (λ b. b.platform ≡ p.now) }
        ensures start { IfOk result (λ b. StandsFor b (start p.now)) }
    {
        let platform = p.copy(alloc)?;
        let cells = image(alloc, p)?;
        let machine = Machine::new(alloc, p, &cells)?;
        let handlers = Handlers::new(alloc, p)?;
        Ok(Board {
            platform,
            machine,
            boot: Boot::new(p),
            handlers,
        })
    }

    pub(crate) fn platform(&self) -> &Platform
        ensures { result.now ≡ self.now.platform }
    {
        &self.platform
    }

    /// The value that refused the boot, if one did.
    pub(crate) fn boot_fact(&self) -> Option<BootFact>
        ensures { result ≡ fact_of self.now.boot.stage }
    {
        match self.boot.stage() {
            BootStage::Refused(fact) => Some(fact),
            BootStage::More | BootStage::Handed(_) => None,
        }
    }

    /// Whether the machine is handed over.
    pub(crate) fn handed(&self) -> bool
        ensures { result ≡ is_handed self.now.boot.stage }
    {
        matches!(self.boot.stage(), BootStage::Handed(_))
    }

    /// The page where a processor runs outside SMM, 0 elsewhere.
    pub(crate) fn page(&self, cpu: u32) -> u32
        ensures { (s : State) → StandsFor self.now s → result ≡ page_of (at s cpu).mode }
    {
        match self.machine.cpu(cpu).mode {
            Mode::Running(page) | Mode::Halted(page) => page,
            Mode::Wait | Mode::Smm(_) => 0,
        }
    }

    /// What the handlers are told of a processor; None where it isn't in SMM.
    fn smm_cpu(&self, cpu: u32) -> Option<SmmCpu>
        ensures some { (s : State) → StandsFor self.now s → IfSome result (IsSmmCpu self.now.platform s cpu) }
        ensures none { (s : State) → StandsFor self.now s → result ≡ None → mark_at s cpu ≡ None }
        ensures cpu { IfSome result (λ x. x.cpu ≡ cpu) }
        ensures apic { IfSome result (λ x. x.apic ≤ greatest_id self.now.platform.x2apic) }
    {
        smm_cpu_of(&self.machine, &self.platform, cpu)
    }

    /// The row of a processor in SMM: where it stands, its label, and what it wants. None where it isn't in SMM, or no handler's
    /// row is due.
    #[tactic(auto, using(crate::proofs::Standing::standing))]
    pub(crate) fn row(&self, cpu: u32) -> Option<(SmmCpu, Label, Want)>
        ensures wanted { (s : State) → StandsFor self.now s → option_map (λ row. row.2) result ≡ wanted self.now.platform s cpu }
        ensures stands { (s : State) → StandsFor self.now s → IfSome result (λ row. IsSmmCpu self.now.platform s cpu row.0) }
        ensures cpu { IfSome result (λ row. row.0.cpu ≡ cpu) }
        ensures label { IfSome result (λ row. row_for self.now.handlers row.0 ≡ Some row.1) }
    {
        let Some(smm_cpu) = self.smm_cpu(cpu) else {
            return None;
        };
        match self.handlers.row(&smm_cpu) {
            Some((label, want)) => Some((smm_cpu, label, want)),
            None => None,
        }
    }

    /// The instruction address of a processor, where it is in SMM.
    pub(crate) fn address(&self, cpu: u32) -> Option<u32>
        ensures { (s : State) → StandsFor self.now s → result ≡ smm_address (at s cpu) }
    {
        self.machine.address(cpu)
    }

    /// The instruction address of the event's actor, where it is in SMM.
    pub(crate) fn address_of(&self, e: &Event) -> Option<u32>
        ensures { (s : State) → StandsFor self.now s → result ≡ address_in s e.now }
    {
        match *e {
            Event::Insert(_) | Event::Remove(_) => None,
            Event::Do(cpu, _) | Event::TakeSmi(cpu) | Event::TakeInit(cpu) | Event::Resume(cpu) => {
                self.machine.address(cpu)
            }
            Event::Tell(_) => self.machine.address(0),
        }
    }

    /// The processor that the last step ejected; None where it ejected none.
    pub(crate) fn ejected(&self) -> Option<u32>
        ensures { result ≡ self.now.machine.ejected }
    {
        self.machine.ejected()
    }

    /// Takes room for what any one step writes. Changes nothing else.
    pub(crate) fn reserve(&mut self) -> Result<(), NoMemory>
        ensures room { OnOk result (272 ≤ self.new.machine.memory.spare) }
        ensures platform { self.new.platform ≡ self.old.platform }
        ensures unchanged { (s : State) → StandsFor self.old s → StandsFor self.new s }
    {
        match self.machine.reserve() {
            Ok(()) => Ok(()),
            Err(NoMemory) => Err(NoMemory),
        }
    }
}
