//! Where a processor stands in SMM: what the handlers know of it, and its instruction address.

ghost use Rattle.hp_model.specs.Platform.{IsFit};

use hp_image::{label_of, mark, position_of};
use hp_model::{Label, Platform, tseg};
use hp_smm::SmmCpu;

/// SMBASE after a reset.
pub const DEFAULT_SMBASE: u32 = 0x30000;

/// What the handlers know of a processor, and where it goes on.
#[derive(Clone, Copy)]
pub struct Seat {
    pub smm_cpu: SmmCpu,
    /// Its instruction address.
    pub at: u32,
}

/// The mark in the cell at this address (own rule): a handler's cells lie side by side from SMBASE + 0x8000 on, and their marks follow one another.
fn mark_at(cpu: u32, smbase: u32, at: u32) -> u32 {
    let first = if cpu == 0 {
        Label::S0
    } else if smbase == DEFAULT_SMBASE {
        Label::F1
    } else {
        Label::R1
    };
    mark(first).wrapping_add(at.wrapping_sub(smbase).wrapping_sub(0x8000) / 4)
}

/// How many bytes a mark's cell lies behind the first one of its handler; 0 where it is no label's.
fn offset_of(mark: u32) -> u32 {
    match label_of(mark) {
        Some(label) => 4 * position_of(label).index,
        None => 0,
    }
}

/// The SMBASE of a processor before its first SMI: boot processors start relocated, in the tiles of their slots (own rule).
fn first_smbase(p: &Platform, cpu: u32) -> u32
    requires { IsFit p.now }
{
    let mut tile = tseg(p).wrapping_add(0x20000);
    for boot in p.boot.0.iter() {
        if *boot == cpu {
            return tile;
        }
        tile = tile.wrapping_add(0x10000);
    }
    DEFAULT_SMBASE
}

impl Seat {
    /// A processor that takes its first SMI next.
    pub fn new(p: &Platform, cpu: u32, apic: u32) -> Seat
        requires { IsFit p.now }
    {
        let smbase = first_smbase(p, cpu);
        let smm_cpu = SmmCpu {
            cpu,
            apic,
            smbase,
            base: 0,
            mark: 0,
        };
        Seat { smm_cpu, at: 0 }
    }

    /// On at this address.
    pub fn go_to(&mut self, at: u32) {
        self.at = at;
        self.smm_cpu.mark = mark_at(self.smm_cpu.cpu, self.smm_cpu.smbase, at);
    }

    /// SMI entry.
    pub fn enter(&mut self) {
        self.go_to(self.smm_cpu.smbase.wrapping_add(0x8000));
    }

    /// At this SMBASE, where this mark stands at its instruction address, with this base.
    pub fn put(&mut self, smbase: u32, mark: u32, base: u32) {
        self.smm_cpu.smbase = smbase;
        self.smm_cpu.mark = mark;
        self.smm_cpu.base = base;
        self.at = smbase.wrapping_add(0x8000).wrapping_add(offset_of(mark));
    }

    /// RSM. What the first handler stored becomes SMBASE, and outside SMM no handler's mark counts.
    pub fn leave(&mut self) {
        self.smm_cpu.mark = 0;
        if self.smm_cpu.smbase == DEFAULT_SMBASE {
            self.smm_cpu.smbase = self.smm_cpu.base;
        }
    }
}
