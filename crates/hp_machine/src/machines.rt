//! The machine, one step an event.

ghost use Rattle.std.specs.Prelude.{◌≡◌, ◌≤◌, ◌<◌, ◌-◌, ◌^◌, true, List, IfOk, IfSome, OnErr, OnOk, IsOk, length, slice_set};
ghost use Rattle.hp_model.specs.declared.platforms.Platform.{Platform};
ghost use Rattle.hp_model.specs.declared.entries.Event.TheVariants.{Do, Insert, Remove, TakeSmi, TakeInit, Resume};
ghost use Rattle.hp_model.specs.Platform.{IsFit};
ghost use Rattle.hp_model.specs.Cpu.{cpu_at, is_in_smm, smm_address, moved};
ghost use Rattle.hp_model.specs.State.{State};
ghost use Rattle.hp_model.specs.Access.{IsPortWidth, stands_in_smm};
ghost use Rattle.hp_model.specs.Firmware.{mark_at};
ghost use Rattle.hp_model.specs.Step.{can_do};
ghost use Rattle.hp_model.specs.Memory.{Write};
ghost use Rattle.hp_mem.specs.Kept.{StandsFor as MemoryStandsFor};
ghost use Rattle.hp_model.specs.Block.{ejected_by};
ghost use Rattle.hp_image.specs.Cells.{AreCells, cells_fit, stored_cells};
ghost use Rattle.hp_model.specs.Ports.{start_transfer as with_transfer, write_block as on_block, write_ich9 as with_ich9, write_port as with_port};
ghost use Rattle.hp_machine.specs.Machine.{StandsFor, IsStep, FitsEvent, started};

use crate::enabling::{can_access, is_in_smm_now, is_normal, is_smm_mode};
use crate::interrupts::send;
use crate::ports::{
    is_broadcast, is_dma_high, is_dma_low, is_on_block, is_selector, read_port, write_block,
    write_ich9,
};
use crate::reach::{load, save, saved, store, swap, take_room};
use crate::transfers::transfer;
use hp_cpu::Cpus;
use hp_fwcfg::FwCfg;
use hp_ich9::Ich9;
use hp_image::{Cell, Cells};
use hp_mem::Mem;
use hp_model::{Access, Answer, Cpu, Event, Mode, NoMemory, Platform};
use hp_regs::Block;
use hp_smram::{Locks, locks_start_as_the_machine};
use std::alloc::Global;
use std::marker::Model;

/// The bit of the GPE status that announces processor events (QEMU docs/specs/acpi_cpu_hotplug).
const PROCESSOR_EVENT: u8 = 2;

/// Memory behind its locks, processors, the register block, ICH9 and fw_cfg.
#[derive(Drop)]
pub struct Machine {
    apic: Vec<u32>,
    memory: Mem,
    locks: Locks,
    cpus: Cpus,
    block: Block,
    ich9: Ich9,
    fw_cfg: FwCfg,
    ejected: Option<u32>,
    /// Whether a latched SMI may be taken later than at once.
    late: bool,
    x2apic: bool,
}

impl Model for Machine {
    ghost use Rattle.hp_machine.specs.Machine as seen;
    ghost use Rattle.hp_machine.specs.Machine.{IsSized};

    ghost Value = { seen.Machine };

    ghost view = { λ m. record { apic = m.apic.items; memory = m.memory; locks = m.locks; cpus = m.cpus; block = m.block; ich9 = m.ich9; fw_cfg = m.fw_cfg; ejected = m.ejected; late = m.late; x2apic = m.x2apic } };

    ghost invariant = { λ m. IsSized m.apic.items m.cpus m.block };
}

/// The initial stores, in their order.
#[tactic(auto, using(hp_mem::proofs::Standing::standing), unfolding(hp_image::specs::Cells::stored_cells))]
fn store_cells(memory: &mut Mem, cells: &[Cell], low: u32) -> Result<(), NoMemory>
    requires { cells_fit low cells.now ≡ true }
    ensures { (ws : List Write) → MemoryStandsFor memory.old ws → OnOk result (MemoryStandsFor memory.new (stored_cells cells.now ws)) }
{
    match cells {
        [] => Ok(()),
        [first, rest @ ..] => {
            memory.store(first.addr, first.width, first.value)?;
            store_cells(memory, rest, low)
        }
    }
}

impl Machine {
    /// A write of a port of the register block.
    fn write_block(&mut self, port: u16, width: u8, value: u32)
        requires width { IsPortWidth width }
        requires from { 0xcd8 ≤ port }
        requires to { port < 0xce4 }
        ensures state { (p : Platform) (s : State) → StandsFor p self.old s → StandsFor p self.new (on_block (port - 0xcd8) width value s) }
        ensures ejected { self.new.ejected ≡ ejected_by self.old.block self.new.block }
    {
        let ejected = write_block(&mut self.block, &mut self.cpus, port, width, value);
        self.ejected = ejected;
    }

    /// A write of the low half of fw_cfg's DMA address: the whole transfer. Room for what it stores is taken first.
    fn start_transfer(&mut self, value: u32) -> Result<(), NoMemory>
        ensures state { (p : Platform) (s : State) → StandsFor p self.old s → OnOk result (StandsFor p self.new (with_transfer value s)) }
        ensures no_memory { (p : Platform) (s : State) → StandsFor p self.old s → OnErr result (StandsFor p self.new s) }
        ensures succeeds { 272 ≤ self.old.memory.spare → IsOk result }
        ensures block { self.new.block ≡ self.old.block }
        ensures ejected { self.new.ejected ≡ self.old.ejected }
    {
        let memory = &mut self.memory;
        take_room(memory)?;
        if let Some(at) = self.fw_cfg.address(false, value) {
            transfer(memory, &self.locks, &mut self.fw_cfg, at);
        }
        Ok(())
    }

    /// A write of a port of ICH9, or of one that no rule names.
    fn write_ich9(&mut self, cpu: u32, port: u16, width: u8, value: u32)
        requires { cpu < length self.old.apic }
        ensures state { (p : Platform) (s : State) → StandsFor p self.old s → StandsFor p self.new (with_ich9 p cpu port width value s) }
        ensures block { self.new.block ≡ self.old.block }
        ensures ejected { self.new.ejected ≡ self.old.ejected }
    {
        let broadcast = is_broadcast(self.fw_cfg.negotiated());
        write_ich9(
            &mut self.ich9,
            &mut self.cpus,
            self.apic.as_slice(),
            cpu,
            broadcast,
            port,
            width,
            value,
        );
    }

    /// A write of processor `cpu` to a port.
    #[tactic(auto, using(crate::proofs::Ejects::ejects))]
    fn write_port(&mut self, cpu: u32, port: u16, width: u8, value: u32) -> Result<(), NoMemory>
        requires width { IsPortWidth width }
        requires place { cpu < length self.old.apic }
        requires value { value < 256 ^ width }
        ensures state { (p : Platform) (s : State) → StandsFor p self.old s → OnOk result (StandsFor p self.new (with_port p cpu port width value s)) }
        ensures no_memory { (p : Platform) (s : State) → StandsFor p self.old s → OnErr result (StandsFor p self.new s) }
        ensures succeeds { 272 ≤ self.old.memory.spare → IsOk result }
        ensures ejected { self.new.ejected ≡ ejected_by self.old.block self.new.block }
    {
        self.ejected = None;
        if is_on_block(port) {
            self.write_block(port, width, value);
        } else if is_selector(port, width) {
            self.fw_cfg.select(value as u16);
        } else if is_dma_high(port, width) {
            self.fw_cfg.address(true, value);
        } else if is_dma_low(port, width) {
            return self.start_transfer(value);
        } else {
            self.write_ich9(cpu, port, width, value);
        }
        Ok(())
    }

    #[tactic(auto, using(crate::proofs::Ejects::ejects))]
    fn access(&mut self, cpu: u32, access: Access) -> Result<Answer, NoMemory>
        requires { can_do self.old.late (length self.old.apic) self.old.cpus (Do cpu access) ≡ true }
        ensures step { (p : Platform) (s : State) → StandsFor p self.old s → IfOk result (λ answer. IsStep p self.new s (Do cpu access) answer) }
        ensures no_memory { (p : Platform) (s : State) → StandsFor p self.old s → OnErr result (StandsFor p self.new s) }
        ensures fits { IfOk result (λ answer. FitsEvent (Do cpu access) answer) }
        ensures succeeds { 272 ≤ self.old.memory.spare → IsOk result }
        ensures ejected { self.new.ejected ≡ ejected_by self.old.block self.new.block }
    {
        self.ejected = None;
        let in_smm = is_smm_mode(self.cpus.get(cpu).mode);
        match access {
            Access::Load { addr, width } => {
                let value = load(&self.memory, &self.locks, in_smm, addr, width);
                Ok(Answer::Value(value))
            }
            Access::Store { addr, width, value } => {
                store(&mut self.memory, &self.locks, in_smm, addr, width, value)?;
                Ok(Answer::Quiet)
            }
            Access::Swap {
                addr,
                expected,
                desired,
            } => {
                let seen = swap(
                    &mut self.memory,
                    &self.locks,
                    in_smm,
                    addr,
                    expected,
                    desired,
                )?;
                Ok(Answer::Value(seen))
            }
            Access::In { port, width } => {
                let value = read_port(&self.block, &self.ich9, &mut self.fw_cfg, port, width);
                Ok(Answer::Value(u64::from(value)))
            }
            Access::Out { port, width, value } => {
                self.write_port(cpu, port, width, value)?;
                Ok(Answer::Quiet)
            }
            Access::CfgRead { reg } => Ok(Answer::Value(u64::from(self.locks.read(reg)))),
            Access::CfgWrite { reg, value } => {
                self.locks.write(reg, value);
                Ok(Answer::Quiet)
            }
            Access::Icr { high, low } => {
                let sender = self.apic[cpu as usize];
                send(
                    &mut self.cpus,
                    self.apic.as_slice(),
                    sender,
                    self.x2apic,
                    high,
                    low,
                );
                Ok(Answer::Quiet)
            }
            Access::Halt => {
                self.cpus.halt(cpu);
                Ok(Answer::Quiet)
            }
            Access::Nop => Ok(Answer::Quiet),
        }
    }

    /// The machine before its first step: memory holds the cells, all else is at its start.
    pub fn new(alloc: Global, p: &Platform, cells: &Cells) -> Result<Machine, NoMemory>
        requires fit { IsFit p.now }
        requires cells { AreCells p.now.low_memory cells.now.list }
        ensures { IfOk result (λ m. StandsFor p.now m (started p.now cells.now.list)) }
    {
        let apic = Vec::from_slice(alloc, p.apic.0.as_slice())?;
        let cpus = Cpus::new(alloc, p)?;
        let block = Block::new(alloc, p)?;
        let locks = Locks::new(p.low_memory, p.default_smram, p.ext_tseg);
        let ich9 = Ich9::new();
        let fw_cfg = FwCfg::new(p.features);
        locks_start_as_the_machine();
        let mut memory = Mem::new(alloc);
        store_cells(&mut memory, cells.list.0.as_slice(), p.low_memory)?;
        Ok(Machine {
            apic,
            memory,
            locks,
            cpus,
            block,
            ich9,
            fw_cfg,
            ejected: None,
            late: p.delivery.is_late(),
            x2apic: p.x2apic,
        })
    }

    /// The processor in a place; in a place that isn't possible there is none.
    #[tactic(auto, using(crate::proofs::Sizes::past_cpus))]
    fn cpu_or_absent(&self, cpu: u32) -> Cpu
        ensures { result ≡ cpu_at self.now.cpus cpu }
    {
        if (cpu as usize) < self.apic.len() {
            return self.cpus.get(cpu);
        }
        Cpu {
            present: false,
            mode: Mode::Wait,
            smbase: 0x30000,
            smi: false,
            init: false,
            base: 0,
        }
    }

    /// Whether the machine has the event as a step, by presence, modes and latches alone: for an access also that it is
    /// normal, and for a halt that the processor is running.
    pub fn enabled(&self, e: &Event) -> bool
        ensures { result ≡ can_do self.now.late (length self.now.apic) self.now.cpus e.now }
    {
        match *e {
            Event::Insert(cpu) => (cpu as usize) < self.apic.len()
                && !self.cpu_or_absent(cpu).present,
            Event::Remove(cpu) => cpu != 0 && self.cpu_or_absent(cpu).present,
            Event::Do(cpu, access) => {
                is_normal(access) && can_access(self.late, &self.cpu_or_absent(cpu), access)
            }
            Event::TakeSmi(cpu) => self.cpu_or_absent(cpu).can_take_smi(),
            Event::TakeInit(cpu) => self.cpu_or_absent(cpu).can_take_init(),
            Event::Resume(cpu) => is_in_smm_now(&self.cpu_or_absent(cpu)),
            Event::Tell(_) => is_in_smm_now(&self.cpu_or_absent(0)),
        }
    }

    /// A processor comes: the block notes it, and it is announced in the GPE status.
    #[tactic(auto, using(crate::proofs::Ejects::ejects))]
    fn insert(&mut self, cpu: u32)
        requires { can_do self.old.late (length self.old.apic) self.old.cpus (Insert cpu) ≡ true }
        ensures step { (p : Platform) (s : State) → StandsFor p self.old s → IsStep p self.new s (Insert cpu) Answer.Quiet }
        ensures ejected { self.new.ejected ≡ ejected_by self.old.block self.new.block }
    {
        self.ejected = None;
        self.cpus.insert(cpu);
        self.block.insert_event(cpu);
        self.ich9.gpe(PROCESSOR_EVENT);
    }

    #[tactic(auto, using(crate::proofs::Ejects::ejects))]
    fn request_removal(&mut self, cpu: u32)
        requires { can_do self.old.late (length self.old.apic) self.old.cpus (Remove cpu) ≡ true }
        ensures step { (p : Platform) (s : State) → StandsFor p self.old s → IsStep p self.new s (Remove cpu) Answer.Quiet }
        ensures ejected { self.new.ejected ≡ ejected_by self.old.block self.new.block }
    {
        self.ejected = None;
        self.block.remove_event(cpu);
        self.ich9.gpe(PROCESSOR_EVENT);
    }

    /// SMI entry. Room for what it saves is taken before the processor changes.
    #[tactic(auto, using(crate::proofs::Ejects::ejects))]
    fn enter(&mut self, cpu: u32) -> Result<Answer, NoMemory>
        requires { can_do self.old.late (length self.old.apic) self.old.cpus (TakeSmi cpu) ≡ true }
        ensures step { (p : Platform) (s : State) → StandsFor p self.old s → IfOk result (λ answer. IsStep p self.new s (TakeSmi cpu) answer) }
        ensures fits { IfOk result (λ answer. FitsEvent (TakeSmi cpu) answer) }
        ensures no_memory { (p : Platform) (s : State) → StandsFor p self.old s → OnErr result (StandsFor p self.new s) }
        ensures succeeds { 272 ≤ self.old.memory.spare → IsOk result }
        ensures ejected { self.new.ejected ≡ ejected_by self.old.block self.new.block }
    {
        self.ejected = None;
        take_room(&mut self.memory)?;
        let plan = self.cpus.enter(cpu);
        save(&mut self.memory, &self.locks, &plan).unwrap();
        Ok(Answer::Quiet)
    }

    #[tactic(auto, using(crate::proofs::Ejects::ejects))]
    fn take_init(&mut self, cpu: u32)
        requires { can_do self.old.late (length self.old.apic) self.old.cpus (TakeInit cpu) ≡ true }
        ensures step { (p : Platform) (s : State) → StandsFor p self.old s → IsStep p self.new s (TakeInit cpu) Answer.Quiet }
        ensures ejected { self.new.ejected ≡ ejected_by self.old.block self.new.block }
    {
        self.ejected = None;
        self.cpus.take_init(cpu);
    }

    /// RSM.
    #[tactic(auto, using(crate::proofs::Ejects::ejects))]
    fn resume(&mut self, cpu: u32)
        requires { can_do self.old.late (length self.old.apic) self.old.cpus (Resume cpu) ≡ true }
        ensures step { (p : Platform) (s : State) → StandsFor p self.old s → IsStep p self.new s (Resume cpu) Answer.Quiet }
        ensures ejected { self.new.ejected ≡ ejected_by self.old.block self.new.block }
    {
        self.ejected = None;
        let smbase = self.cpus.get(cpu).smbase;
        let fields = saved(&self.memory, &self.locks, smbase);
        self.cpus.leave(cpu, fields);
    }

    /// Makes the event's step. After `NoMemory` the machine stands for the state that it stood for; with room for 272
    /// bytes that doesn't come.
    ///
    /// Where a processor in SMM goes on to is said by `go`.
    #[tactic(auto, using(crate::proofs::Ejects::ejects))]
    pub fn step(&mut self, e: &Event) -> Result<Answer, NoMemory>
        requires { can_do self.old.late (length self.old.apic) self.old.cpus e.now ≡ true }
        ensures step { (p : Platform) (s : State) → StandsFor p self.old s → IfOk result (λ answer. IsStep p self.new s e.now answer) }
        ensures fits { IfOk result (λ answer. FitsEvent e.now answer) }
        ensures no_memory { (p : Platform) (s : State) → StandsFor p self.old s → OnErr result (StandsFor p self.new s) }
        ensures succeeds { 272 ≤ self.old.memory.spare → IsOk result }
        ensures ejected { self.new.ejected ≡ ejected_by self.old.block self.new.block }
    {
        match *e {
            Event::Insert(cpu) => self.insert(cpu),
            Event::Remove(cpu) => self.request_removal(cpu),
            Event::Do(cpu, access) => return self.access(cpu, access),
            Event::TakeSmi(cpu) => return self.enter(cpu),
            Event::TakeInit(cpu) => self.take_init(cpu),
            Event::Resume(cpu) => self.resume(cpu),
            Event::Tell(_) => self.ejected = None,
        }
        Ok(Answer::Quiet)
    }

    /// The processor that the last step ejected; None where it ejected none.
    pub fn ejected(&self) -> Option<u32>
        ensures { result ≡ self.now.ejected }
    {
        self.ejected
    }

    /// Takes room for what any one step writes, so that the next one can't want for memory. Changes nothing else.
    pub fn reserve(&mut self) -> Result<(), NoMemory>
        ensures room { OnOk result (272 ≤ self.new.memory.spare) }
        ensures succeeds { 272 ≤ self.old.memory.spare → IsOk result }
        ensures unchanged { (p : Platform) (s : State) → StandsFor p self.old s → StandsFor p self.new s }
        ensures rest { self.new ≡ record self.old { memory = self.new.memory } }
    {
        take_room(&mut self.memory)
    }

    /// Where a processor in SMM goes on: its next instruction address, and the base that the first handler has loaded.
    #[tactic(auto, using(crate::proofs::Sizes::standing))]
    pub fn go(&mut self, cpu: u32, address: u32, base: u32)
        requires in_smm { stands_in_smm (cpu_at self.old.cpus cpu) ≡ true }
        ensures { self.new ≡ record self.old { cpus = slice_set self.old.cpus cpu (moved address base (cpu_at self.old.cpus cpu)) } }
    {
        self.cpus.go(cpu, address, base);
    }

    /// The SMI features that were negotiated over fw_cfg: bit 0 broadcast, bit 1 hot-plug, bit 2 hot-unplug. None while
    /// `etc/smi/features-ok` is 0.
    pub fn negotiated(&self) -> Option<u64>
        ensures { result ≡ self.now.fw_cfg.negotiated }
    {
        self.fw_cfg.negotiated()
    }

    /// The processor in a place; an absent one in a place that isn't possible.
    pub fn cpu(&self, cpu: u32) -> Cpu
        ensures { result ≡ cpu_at self.now.cpus cpu }
    {
        self.cpu_or_absent(cpu)
    }

    /// The instruction address of a processor in SMM; None outside SMM, and in a place that isn't possible.
    pub fn address(&self, cpu: u32) -> Option<u32>
        ensures { result ≡ smm_address (cpu_at self.now.cpus cpu) }
    {
        let processor = self.cpu_or_absent(cpu);
        match processor.mode {
            Mode::Smm(address) if processor.present => Some(address),
            _ => None,
        }
    }

    /// The mark where a processor in SMM stands: the 4 bytes at its instruction address, as it loads them. None outside SMM,
    /// and in a place that isn't possible.
    #[tactic(auto, unfolding(hp_model::specs::Firmware::mark_at))]
    pub fn mark_at(&self, cpu: u32) -> Option<u32>
        ensures mark { (p : Platform) (state : State) → StandsFor p self.now state → result ≡ mark_at state cpu }
        ensures within { IfSome result (λ m. stands_in_smm (cpu_at self.now.cpus cpu) ≡ true) }
        ensures place { IfSome result (λ mark. cpu < length self.now.apic) }
    {
        self.address(cpu).map(|address| load(&self.memory, &self.locks, true, address, 4) as u32)
    }
}
