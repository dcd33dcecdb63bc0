//! The registers that lock memory, and the ranges that they lock.

ghost use Rattle.std.specs.Prelude.{◌≡◌, ◌↔◌, ℕ, IsTrue, ◌<◌, ◌+◌, true, false, nat_le, bit_and, ◌≤◌, ◌^◌};
ghost use Rattle.hp_model.specs.View.{f_smbase_written, ext_tseg_written, is_fixed as has_lock, lock_write, lock_read, is_hole, is_in_default as default_byte, is_in_tseg as tseg_byte, is_locked};
ghost use Rattle.hp_model.specs.Spans.{in_some_span};
ghost use Rattle.hp_smram.specs.Memory.{IsMemorySize, locks_of};
ghost use Rattle.hp_smram.specs.Spans.{default_span, tseg_span, locked_spans, spans_in};

use crate::flags::{Esmramc, FSmbase, Smram, tseg_mib};
use bitflags::Flags;
use hp_model::Span;
use std::marker::Model;

/// The largest TSEG, which register 50 asks for (own rule), and the RAM that it needs.
const EXT_TSEG_MIB: u8 = 0x30;

const LEAST_MEMORY_FOR_EXT_TSEG: u32 = 0x4000000;

/// The ranges that are locked, ascending. What isn't in one is open, up to the end of RAM.
#[derive(Clone, Copy, Drop)]
pub(crate) struct Table {
    /// 30000 to 4ffff.
    pub(crate) default_area: Option<Span>,
    /// The last MiB of RAM.
    pub(crate) tseg: Option<Span>,
}

/// The registers that lock memory, of a machine with so much RAM.
#[derive(Drop)]
pub(crate) struct Registers {
    low_memory: u32,
    has_default: bool,
    f_smbase: FSmbase,
    smram: Smram,
    esmramc: Esmramc,
    has_ext: bool,
    /// Register 50: the size in MiB that size 11 of register 9e names.
    ext_tseg: u8,
}

impl Model for Registers {
    ghost use Rattle.std.specs.Prelude.{◌≡◌, ◌≤◌, ◌<◌, ◌*◌, bit_and};
    ghost use Rattle.hp_model.specs.View as model;

    ghost Value = { model.Locks };

    ghost use Rattle.hp_smram.specs.Memory.{IsMemorySize};

    ghost view = { λ l. record { low_memory = l.low_memory; has_default = l.has_default; f_smbase = l.f_smbase.0; smram = l.smram.0; esmramc = l.esmramc.0; has_ext = l.has_ext; ext_tseg = l.ext_tseg } };

    ghost invariant = { λ l. IsMemorySize l.low_memory × (l.f_smbase.0 ≤ 2) × (bit_and l.smram.0 0x18 ≡ l.smram.0) × (l.esmramc.0 < 8) × (l.ext_tseg * 0x100000 ≤ l.low_memory) };
}

impl Registers {
    /// All registers 0. RAM is the addresses below `low_memory`; `default_smram` says whether the default area can be
    /// locked, and `ext_tseg` whether TSEG can have 48 MiB.
    pub(crate) fn new(low_memory: u32, default_smram: bool, ext_tseg: bool) -> Registers
        requires { IsMemorySize low_memory }
        ensures { result ≡ locks_of low_memory default_smram ext_tseg }
    {
        Registers {
            low_memory,
            has_default: default_smram,
            f_smbase: FSmbase(0),
            smram: Smram(0),
            esmramc: Esmramc(0),
            has_ext: ext_tseg,
            ext_tseg: 0,
        }
    }

    fn is_fixed(&self) -> bool
        ensures { result ≡ has_lock self.now }
    {
        self.smram.contains(Smram::D_LCK)
    }

    fn write_f_smbase(&mut self, value: u8)
        ensures { self.new ≡ record self.old { f_smbase = f_smbase_written self.old.has_default self.old.f_smbase value } }
    {
        match self.f_smbase.bits() {
            0 if value == 0xff && self.has_default => self.f_smbase = FSmbase::IN_RAM,
            1 if value != 0xff && FSmbase(value).contains(FSmbase::LCK) => {
                self.f_smbase = FSmbase::LCK
            }
            _ => {}
        }
    }

    #[tactic(auto, using(crate::proofs::Bits::kept_twice), unfolding(bitflags::proofs::OnLiterals::bitflags_on_literals))]
    fn write_smram(&mut self, value: u8)
        ensures { self.new ≡ record self.old { smram = bit_and value 0x18 } }
    {
        self.smram = Smram::from_bits_truncate(value);
    }

    #[tactic(auto, using(crate::proofs::Bits::kept_low), unfolding(bitflags::proofs::OnLiterals::bitflags_on_literals))]
    fn write_esmramc(&mut self, value: u8)
        ensures { self.new ≡ record self.old { esmramc = bit_and value 7 } }
    {
        self.esmramc = Esmramc::from_bits_truncate(value);
    }

    fn write_ext_tseg(&mut self, value: u8)
        ensures { self.new ≡ record self.old { ext_tseg = ext_tseg_written self.old value } }
    {
        if value == 0xff && self.has_ext && LEAST_MEMORY_FOR_EXT_TSEG <= self.low_memory {
            self.ext_tseg = EXT_TSEG_MIB;
        }
    }

    /// Writes a byte of the controller's configuration space.
    pub(crate) fn write(&mut self, reg: u8, value: u8)
        ensures { self.new ≡ lock_write self.old reg value }
    {
        match reg {
            0x9c => self.write_f_smbase(value),
            0x9d if !self.is_fixed() => self.write_smram(value),
            0x9e if !self.is_fixed() => self.write_esmramc(value),
            0x50 if !self.is_fixed() => self.write_ext_tseg(value),
            _ => {}
        }
    }

    /// Whether the two are the same, register for register.
    pub(crate) fn same(&self, other: &Registers) -> bool
        ensures { IsTrue result ↔ (self.now ≡ other.now) }
    {
        self.low_memory == other.low_memory
            && self.has_default == other.has_default
            && self.f_smbase.bits() == other.f_smbase.bits()
            && self.smram.bits() == other.smram.bits()
            && self.esmramc.bits() == other.esmramc.bits()
            && self.has_ext == other.has_ext
            && self.ext_tseg == other.ext_tseg
    }

    #[tactic(auto, using(crate::proofs::Spans::span_facts))]
    fn locked_default(&self) -> Option<Span>
        ensures { result ≡ default_span self.now }
    {
        if self.f_smbase.contains(FSmbase::LCK) {
            Some(Span {
                from: 0x30000,
                to: 0x4ffff,
            })
        } else {
            None
        }
    }

    #[tactic(auto, using(crate::proofs::Spans::span_facts))]
    fn locked_tseg(&self) -> Option<Span>
        ensures { result ≡ tseg_span self.now }
    {
        let mib = tseg_mib(self.ext_tseg, self.esmramc);
        if mib > 0 && self.smram.bits() == Smram::LOCKED.bits() {
            Some(Span {
                from: self.low_memory - mib * 0x100000,
                to: self.low_memory - 1,
            })
        } else {
            None
        }
    }

    /// The ranges that they lock, each where it is locked.
    pub(crate) fn table(&self) -> Table
        ensures default_area { result.default_area ≡ default_span self.now }
        ensures tseg { result.tseg ≡ tseg_span self.now }
    {
        Table {
            default_area: self.locked_default(),
            tseg: self.locked_tseg(),
        }
    }

    /// The RAM of a machine.
    pub(crate) fn sizes(&self)
        ensures { IsMemorySize self.now.low_memory }
    {
        // brings in what is known of the registers
        let _ = &self.low_memory;
    }

    /// The first address past RAM.
    pub(crate) fn low_memory(&self) -> u32
        ensures { result ≡ self.now.low_memory }
    {
        self.low_memory
    }

    /// Reads a byte of the controller's configuration space.
    pub(crate) fn read(&self, reg: u8) -> u8
        ensures { result ≡ lock_read self.now reg }
    {
        match reg {
            0x9c => self.f_smbase.bits(),
            0x9d => self.smram.bits(),
            0x9e => self.esmramc.bits(),
            0x50 => self.ext_tseg,
            _ => 0,
        }
    }
}
