//! What an access finds: the table of ranges that the registers lock.

ghost use Rattle.std.specs.Prelude.{◌≡◌, ◌↔◌, ℕ, IsTrue, ◌<◌, ◌+◌, true, false, nat_le, ◌||◌, ◌≤◌, ◌^◌};
ghost use Rattle.hp_model.specs.View.{lock_write, lock_read, is_hole, is_locked};
ghost use Rattle.hp_model.specs.Spans.{in_some_span};
ghost use Rattle.hp_smram.specs.Memory.{IsMemorySize, locks_of};
ghost use Rattle.hp_smram.specs.Spans.{locked_spans, spans_in, is_in_some};
ghost use Rattle.hp_model.specs.Access.{IsMemoryWidth};
ghost use Rattle.hp_smram.specs.Reach.{HidesSome, has_byte};

use crate::registers::{Registers, Table};
use hp_model::Span;
use std::marker::Model;

/// What an access finds.
#[derive(Clone, Copy, Debug, PartialEq)]
pub enum Touch {
    /// Each of its bytes is memory that the actor reaches.
    Ram,
    /// Some byte is out of reach: the whole access reads as ones, and writes nothing.
    Hole,
}

/// The registers that lock memory, of a machine with so much RAM.
#[derive(Drop)]
pub struct Locks {
    registers: Registers,
    /// What they lock. It is made anew whenever one is written, so that an access looks at no register.
    table: Table,
}

impl Model for Locks {
    ghost use Rattle.std.specs.Prelude.{◌≡◌};
    ghost use Rattle.hp_model.specs.View as model;
    ghost use Rattle.hp_smram.specs.Spans.{default_span, tseg_span};

    ghost Value = { model.Locks };

    ghost view = { λ l. l.registers };

    ghost invariant = { λ l. (l.table.default_area ≡ default_span l.registers) × (l.table.tseg ≡ tseg_span l.registers) };
}

/// The address past an access: more than 2^32 where it runs over the end of the addresses.
fn end_of(addr: u32, width: u8) -> u64
    ensures { result ≡ addr + width }
{
    u64::from(addr) + u64::from(width)
}

/// Whether a byte of the access lies in the range.
#[tactic(auto, using(crate::proofs::Reach::within_span))]
fn meets(span: Option<Span>, addr: u32, width: u8) -> bool
    requires { 0 < width }
    ensures { result ≡ has_byte (is_in_some span) addr width }
{
    match span {
        Some(Span { from, to }) => {
            from <= to && addr <= to && u64::from(from) < end_of(addr, width)
        }
        None => false,
    }
}

/// Whether a byte of the access lies in one of the ranges.
fn is_in_table(table: Table, addr: u32, width: u8) -> bool
    requires { 0 < width }
    ensures { result ≡ (has_byte (is_in_some table.default_area) addr width || has_byte (is_in_some table.tseg) addr width) }
{
    meets(table.default_area, addr, width) || meets(table.tseg, addr, width)
}

impl Locks {
    /// All registers 0. RAM is the addresses below `low_memory`; `default_smram` says whether the default area can be
    /// locked, and `ext_tseg` whether TSEG can have 48 MiB.
    pub fn new(low_memory: u32, default_smram: bool, ext_tseg: bool) -> Locks
        requires { IsMemorySize low_memory }
        ensures { result ≡ locks_of low_memory default_smram ext_tseg }
    {
        let registers = Registers::new(low_memory, default_smram, ext_tseg);
        let table = registers.table();
        Locks { registers, table }
    }

    /// Writes a byte of the controller's configuration space.
    pub fn write(&mut self, reg: u8, value: u8)
        ensures { self.new ≡ lock_write self.old reg value }
    {
        self.registers.write(reg, value);
        self.table = self.registers.table();
    }

    /// Reads a byte of the controller's configuration space.
    pub fn read(&self, reg: u8) -> u8
        ensures { result ≡ lock_read self.now reg }
    {
        self.registers.read(reg)
    }

    /// Whether the two are the same, register for register.
    pub fn same(&self, other: &Locks) -> bool
        ensures { IsTrue result ↔ (self.now ≡ other.now) }
    {
        self.registers.same(&other.registers)
    }

    /// The default area and TSEG, each where it is locked.
    pub fn locked(&self) -> [Option<Span>; 2]
        ensures spans { result ≡ locked_spans self.now }
        ensures bytes { (x : ℕ) → in_some_span (spans_in result) x ≡ is_locked self.now x }
    {
        self.registers.sizes();
        [self.table.default_area, self.table.tseg]
    }

    /// The first address past RAM.
    pub fn low_memory(&self) -> u32
        ensures { result ≡ self.now.low_memory }
    {
        self.registers.low_memory()
    }

    /// Whether a byte of the access lies past RAM.
    #[tactic(auto, using(crate::proofs::Reach::past))]
    fn is_past_memory(&self, addr: u32, width: u8) -> bool
        requires { 0 < width }
        ensures value { result ≡ has_byte (nat_le self.now.low_memory) addr width }
        ensures within { result ≡ false → addr + width ≤ 2 ^ 31 }
    {
        self.registers.sizes();
        u64::from(self.registers.low_memory()) < end_of(addr, width)
    }

    /// Whether a byte of the access lies in a locked range.
    fn is_locked(&self, addr: u32, width: u8) -> bool
        requires { 0 < width }
        ensures { result ≡ has_byte (is_locked self.now) addr width }
    {
        self.registers.sizes();
        is_in_table(self.table, addr, width)
    }

    #[tactic(auto, using(crate::proofs::Reach::hole_parts))]
    fn has_hidden_byte(&self, in_smm: bool, addr: u32, width: u8) -> bool
        requires { 0 < width }
        ensures value { result ≡ is_hole self.now in_smm addr width }
        ensures within { result ≡ false → addr + width ≤ 2 ^ 31 }
    {
        self.is_past_memory(addr, width) || !in_smm && self.is_locked(addr, width)
    }

    /// What an access finds that is made at `addr`, in SMM or outside. `width` is in bytes.
    #[tactic(auto, using(crate::proofs::Reach::hole_bytes))]
    pub fn open_to(&self, in_smm: bool, addr: u32, width: u8) -> Touch
        requires { IsMemoryWidth width }
        ensures hole { (result ≡ Touch.Hole) ↔ (is_hole self.now in_smm addr width ≡ true) }
        ensures ram { (result ≡ Touch.Ram) ↔ (is_hole self.now in_smm addr width ≡ false) }
        ensures byte { (result ≡ Touch.Hole) ↔ HidesSome self.now in_smm addr width }
        ensures within { result ≡ Touch.Ram → addr + width ≤ 2 ^ 31 }
    {
        if self.has_hidden_byte(in_smm, addr, width) {
            Touch::Hole
        } else {
            Touch::Ram
        }
    }
}
