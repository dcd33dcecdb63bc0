//! All possible processors, by place.

ghost use Rattle.std.specs.Prelude.{◌≡◌, ◌<◌, length, true, not, IsTrue, IsFalse, IfOk, slice_set};
ghost use Rattle.hp_model.specs.Cpu.{absent, cpus_start, inserted, cpu_at, is_running, is_in_smm, hit as hit_cpu, may_take_smi, take_smi, may_take_init, take_init as take_init_cpu, resumed, moved, halt as halt_cpu};
ghost use Rattle.hp_model.specs.Platform.{IsFit};
ghost use Rattle.hp_cpu.specs.Saving.{plan_of};
ghost use Rattle.hp_cpu.specs.Smbase.{IsSmbase};

use crate::processors::Processor;
use crate::save_area::{SavePlan, Saved};
use hp_model::{Cpu, Kind, NoMemory, Platform, tile};
use std::alloc::Global;
use std::marker::Model;

/// All possible processors of a platform. A processor is named by its place, which is its selector.
#[derive(Drop)]
pub struct Cpus {
    cpus: Vec<Processor>,
}

impl Model for Cpus {
    ghost use Rattle.std.specs.Prelude.{List};
    ghost use Rattle.hp_model.specs.declared.processors.Cpu.{Cpu};

    ghost Value = { List Cpu };

    ghost view = { λ c. c.cpus.items };
}

impl Cpus {
    /// The processors at the start: the boot processors run at page 0, each with the tile of its slot as SMBASE; the
    /// others are absent.
    #[tactic(auto, using(crate::proofs::Start::start_facts))]
    pub fn new(alloc: Global, p: &Platform) -> Result<Cpus, NoMemory>
        requires { IsFit p.now }
        ensures value { IfOk result (λ c. c ≡ cpus_start p.now) }
        ensures count { IfOk result (λ c. length c ≡ length p.now.apic) }
    {
        let mut cpus = vec![in alloc; Processor::absent(); p.apic.0.len()]?;
        for (slot, place) in p.boot.0.iter().enumerate() {
            cpus[*place as usize] = Processor::booted(tile(p, slot as u32));
        }
        Ok(Cpus { cpus })
    }

    /// The processor in a place, present or not.
    pub fn get(&self, cpu: u32) -> Cpu
        requires { cpu < length self.now }
        ensures value { result ≡ cpu_at self.now cpu }
        ensures smbase { IsSmbase result.smbase }
    {
        let processor = &self.cpus[cpu as usize];
        processor.cpu()
    }

    /// A host insert: an absent processor becomes present and waits for SIPI. Answers whether it was absent.
    pub fn insert(&mut self, cpu: u32) -> bool
        requires { cpu < length self.old }
        ensures value { result ≡ not (cpu_at self.old cpu).present }
        ensures inserted { IsTrue result → self.new ≡ slice_set self.old cpu inserted }
        ensures unchanged { IsFalse result → self.new ≡ self.old }
    {
        let processor = &mut self.cpus[cpu as usize];
        processor.insert()
    }

    /// An ejected processor is absent: its modes, latches and SMBASE are gone. Answers whether it was present.
    pub fn remove(&mut self, cpu: u32) -> bool
        requires { cpu < length self.old }
        ensures value { result ≡ (cpu_at self.old cpu).present }
        ensures removed { self.new ≡ slice_set self.old cpu absent }
    {
        let processor = &mut self.cpus[cpu as usize];
        processor.remove()
    }

    /// What an SMI, INIT or SIPI does to the processor that it hits: nothing where it is absent.
    pub fn hit(&mut self, cpu: u32, kind: Kind)
        requires { cpu < length self.old }
        ensures step { self.new ≡ slice_set self.old cpu (hit_cpu kind (cpu_at self.old cpu)) }
    {
        let processor = &mut self.cpus[cpu as usize];
        processor.hit(kind);
    }

    /// SMI entry. Answers what is to be stored in the state save area, at the SMBASE that it names.
    pub fn enter(&mut self, cpu: u32) -> SavePlan
        requires place { cpu < length self.old }
        requires enabled { may_take_smi (cpu_at self.old cpu) ≡ true }
        ensures step { self.new ≡ slice_set self.old cpu (take_smi (cpu_at self.old cpu)) }
        ensures plan { result ≡ plan_of (cpu_at self.old cpu) }
        ensures smbase { IsSmbase result.smbase }
    {
        let processor = &mut self.cpus[cpu as usize];
        processor.enter()
    }

    /// RSM of a processor in SMM, with what it has loaded from its state save area.
    pub fn leave(&mut self, cpu: u32, saved: Saved)
        requires place { cpu < length self.old }
        requires present { (cpu_at self.old cpu).present ≡ true }
        requires in_smm { is_in_smm (cpu_at self.old cpu).mode ≡ true }
        ensures step { self.new ≡ slice_set self.old cpu (resumed saved.smbase saved.rip (cpu_at self.old cpu)) }
    {
        let processor = &mut self.cpus[cpu as usize];
        processor.leave(saved);
    }

    /// The latched INIT is taken: the processor waits for SIPI.
    pub fn take_init(&mut self, cpu: u32)
        requires place { cpu < length self.old }
        requires enabled { may_take_init (cpu_at self.old cpu) ≡ true }
        ensures step { self.new ≡ slice_set self.old cpu (take_init_cpu (cpu_at self.old cpu)) }
    {
        let processor = &mut self.cpus[cpu as usize];
        processor.take_init();
    }

    /// HLT of a processor that runs outside SMM.
    pub fn halt(&mut self, cpu: u32)
        requires place { cpu < length self.old }
        requires present { (cpu_at self.old cpu).present ≡ true }
        requires running { is_running (cpu_at self.old cpu).mode ≡ true }
        ensures step { self.new ≡ slice_set self.old cpu (halt_cpu (cpu_at self.old cpu)) }
    {
        let processor = &mut self.cpus[cpu as usize];
        processor.halt();
    }

    /// An instruction in SMM: the next one is at `address`, and `base` is what the first handler has loaded so far.
    pub fn go(&mut self, cpu: u32, address: u32, base: u32)
        requires place { cpu < length self.old }
        requires present { (cpu_at self.old cpu).present ≡ true }
        requires in_smm { is_in_smm (cpu_at self.old cpu).mode ≡ true }
        ensures step { self.new ≡ slice_set self.old cpu (moved address base (cpu_at self.old cpu)) }
    {
        let processor = &mut self.cpus[cpu as usize];
        processor.go(address, base);
    }
}
