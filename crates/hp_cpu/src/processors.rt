//! One processor, and what happens to it.

ghost use Rattle.std.specs.Prelude.{◌≡◌, true, not, IsTrue, IsFalse};
ghost use Rattle.hp_model.specs.Cpu.{absent as absent_cpu, booted as booted_cpu, inserted, page_of, hit as hit_cpu, may_take_smi, take_smi, may_take_init, take_init as take_init_cpu, resumed, moved, halt as halt_cpu};
ghost use Rattle.hp_cpu.specs.Saving.{plan_of};
ghost use Rattle.hp_cpu.specs.Smbase.{IsSmbase};

use crate::save_area::{SavePlan, Saved};
use hp_model::{Cpu, Kind, Mode};
use std::marker::Model;

/// The revision of the state save area (own layout).
const REVISION: u32 = 0x20064;

/// SMBASE of a processor that no firmware has relocated (Intel SDM vol. 3, System Management Mode).
const DEFAULT_SMBASE: u32 = 0x30000;

/// A possible processor. Its SMBASE is one that RSM can make, so the entry point and the state save area have addresses.
#[derive(Clone, Copy)]
pub struct Processor {
    cpu: Cpu,
}

impl Model for Processor {
    ghost use Rattle.hp_model.specs.declared.processors.Cpu.{Cpu};

    ghost Value = { Cpu };

    ghost use Rattle.hp_cpu.specs.Smbase.{IsSmbase};

    ghost view = { λ p. p.cpu };

    ghost inverse = { λ c. record { cpu = c } };

    ghost invariant = { λ p. IsSmbase p.cpu.smbase };
}

/// The page outside SMM, 0 elsewhere.
fn page_outside(mode: Mode) -> u32
    ensures { result ≡ page_of mode }
{
    match mode {
        Mode::Running(page) | Mode::Halted(page) => page,
        Mode::Wait | Mode::Smm(_) => 0,
    }
}

impl Processor {
    pub fn absent() -> Processor
        ensures { result ≡ absent_cpu }
    {
        let cpu = Cpu {
            present: false,
            mode: Mode::Wait,
            smbase: DEFAULT_SMBASE,
            smi: false,
            init: false,
            base: 0,
        };
        Processor { cpu }
    }

    /// A boot processor at the start.
    pub fn booted(smbase: u32) -> Processor
        requires { IsSmbase smbase }
        ensures { result ≡ booted_cpu smbase }
    {
        let cpu = Cpu {
            present: true,
            mode: Mode::Running(0),
            smbase,
            smi: false,
            init: false,
            base: 0,
        };
        Processor { cpu }
    }

    pub fn cpu(&self) -> Cpu
        ensures value { result ≡ self.now }
        ensures smbase { IsSmbase result.smbase }
    {
        self.cpu
    }

    pub fn insert(&mut self) -> bool
        ensures value { result ≡ not self.old.present }
        ensures inserted { IsTrue result → self.new ≡ inserted }
        ensures unchanged { IsFalse result → self.new ≡ self.old }
    {
        if self.cpu.present {
            return false;
        }
        *self = Processor::absent();
        self.cpu.present = true;
        true
    }

    pub fn remove(&mut self) -> bool
        ensures value { result ≡ self.old.present }
        ensures removed { self.new ≡ absent_cpu }
    {
        let was_present = self.cpu.present;
        *self = Processor::absent();
        was_present
    }

    /// What an SMI, INIT or SIPI does to a processor that it hits: nothing where it is absent.
    pub fn hit(&mut self, kind: Kind)
        ensures { self.new ≡ hit_cpu kind self.old }
    {
        if !self.cpu.present {
            return;
        }
        match (kind, self.cpu.mode) {
            (Kind::Smi, _) => self.cpu.smi = true,
            (Kind::Init, Mode::Wait) => {}
            (Kind::Init, _) => self.cpu.init = true,
            (Kind::Start(vector), Mode::Wait) => self.cpu.mode = Mode::Running(u32::from(vector)),
            (Kind::Start(_), _) => {}
        }
    }

    /// SMI entry, outside SMM. Answers what is to be saved.
    pub fn enter(&mut self) -> SavePlan
        requires { may_take_smi self.old ≡ true }
        ensures processor { self.new ≡ take_smi self.old }
        ensures plan { result ≡ plan_of self.old }
        ensures smbase { IsSmbase result.smbase }
    {
        let plan = SavePlan {
            smbase: self.cpu.smbase,
            revision: REVISION,
            rip: u64::from(page_outside(self.cpu.mode)) * 0x1000,
        };
        self.cpu.smi = false;
        self.cpu.mode = Mode::Smm(self.cpu.smbase + 0x8000);
        plan
    }

    /// RSM, in SMM.
    pub fn leave(&mut self, saved: Saved)
        ensures { self.new ≡ resumed saved.smbase saved.rip self.old }
    {
        self.cpu.smbase = saved.smbase & 0xffff0000;
        self.cpu.mode = Mode::Running(((saved.rip >> 12) & 0xfffff) as u32);
    }

    /// INIT is taken: the processor waits for SIPI.
    pub fn take_init(&mut self)
        ensures { self.new ≡ take_init_cpu self.old }
    {
        self.cpu.init = false;
        self.cpu.mode = Mode::Wait;
    }

    /// HLT.
    pub fn halt(&mut self)
        ensures { self.new ≡ halt_cpu self.old }
    {
        if let Mode::Running(page) = self.cpu.mode {
            self.cpu.mode = Mode::Halted(page);
        }
    }

    /// An instruction in SMM: the next one is at `address`, and `base` is what the first handler has loaded.
    pub fn go(&mut self, address: u32, base: u32)
        ensures { self.new ≡ moved address base self.old }
    {
        self.cpu.mode = Mode::Smm(address);
        self.cpu.base = base;
    }
}
