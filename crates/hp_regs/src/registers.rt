//! The register block, with reads and writes by offset.

ghost use Rattle.std.specs.Prelude.{◌≡◌, ◌↔◌, ◌<◌, IfOk, IsTrue, length};
ghost use Rattle.hp_model.specs.Platform.{IsFit};
ghost use Rattle.hp_model.specs.Block.{is_selected as names_processor, cut as cut_to, read_data, modern_read, block_read, write_control, write_command, write_data, modern_write, block_write, ejected_by, block_start, with_insert, with_removal};
ghost use Rattle.hp_model.specs.Access.{IsPortWidth};

use crate::flags::Control;
use crate::slots::{
    Slot, are_same, control_at, insert_at, keep_data_at, legacy_bitmap, request_removal_at, search,
    slots_at_boot, status_at,
};
use hp_model::{NoMemory, Platform};
use std::alloc::Global;
use std::marker::Model;

/// The processor hot-plug register block: 12 bytes of I/O ports, of which the offset counts
/// (QEMU docs/specs/acpi_cpu_hotplug, with own rules; docs/MACHINE.md has each).
///
/// | Offset | Write | Read |
/// |---|---|---|
/// | 0 | selector | command data 2, which is 0: it is the high half of an APIC ID of 64 bits |
/// | 4 | control, one byte | status, one byte |
/// | 5 | command, one byte | 0 |
/// | 8 | command data | command data |
///
/// This is the modern form. A block starts in its legacy form, where offset 0 reads a bit for each enabled processor
/// below 32, and a write of 0 there switches to the modern form for good, if the platform has it.
#[derive(Drop)]
pub struct Block {
    can_switch: bool,
    modern: bool,
    selector: u32,
    command: u8,
    apic: Vec<u32>,
    slots: Vec<Slot>,
}

impl Model for Block {
    ghost use Rattle.std.specs.Prelude.{◌≡◌, ◌≤◌, length};
    ghost use Rattle.hp_model.specs.Block as model;

    ghost Value = { model.Block };

    ghost view = { λ b. record { can_switch = b.can_switch; modern = b.modern; selector = b.selector; command = b.command; apic = b.apic.items; slots = b.slots.items } };

    ghost invariant = { λ b. (length b.apic.items ≡ length b.slots.items) × (length b.slots.items ≤ 512) };
}

/// The low `width` bytes of a value.
fn cut(width: u8, value: u32) -> u32
    requires { IsPortWidth width }
    ensures { result ≡ cut_to width value }
{
    match width {
        1 => value & 0xff,
        2 => value & 0xffff,
        _ => value,
    }
}

impl Block {
    /// The block at the start: the legacy form, with selector and command 0 and the boot processors enabled.
    #[tactic(auto, using(crate::proofs::AtBoot::new_facts))]
    pub fn new(alloc: Global, p: &Platform) -> Result<Block, NoMemory>
        requires { IsFit p.now }
        ensures { IfOk result (λ b. b ≡ block_start p.now) }
    {
        let apic = Vec::from_slice(alloc, p.apic.0.as_slice())?;
        let slots = slots_at_boot(alloc, p.apic.0.as_slice(), p.boot.0.as_slice())?;
        Ok(Block {
            can_switch: p.modern,
            modern: false,
            selector: 0,
            command: 0,
            apic,
            slots,
        })
    }

    /// Reads `width` bytes, 1, 2 or 4, at an offset below 12. Bits above the width are 0.
    ///
    /// A register answers at its first offset alone; any other reads 0, and so does each while the selector names no
    /// possible processor (own rules). Reading changes nothing.
    pub fn read(&self, offset: u8, width: u8) -> u32
        requires offset { offset < 12 }
        requires width { IsPortWidth width }
        ensures value { result ≡ block_read self.now offset width }
    {
        if self.modern {
            cut(width, self.read_modern(offset))
        } else if offset == 0 {
            cut(width, legacy_bitmap(self.slots.as_slice()))
        } else {
            0
        }
    }

    /// Writes the low `width` bytes of `value`, 1, 2 or 4, at an offset below 12. The other bits of a register of 32 bits
    /// become 0, so a narrow write replaces the whole selector (own rule).
    ///
    /// Answers `Some(s)` exactly where this write ejected processor `s`: its enabled bit is now clear, and the caller
    /// is to make the processor absent.
    pub fn write(&mut self, offset: u8, width: u8, value: u32) -> Option<u32>
        requires offset { offset < 12 }
        requires width { IsPortWidth width }
        ensures block { self.new ≡ block_write self.old offset width value }
        ensures ejected { result ≡ ejected_by self.old self.new }
    {
        let value = cut(width, value);
        if self.modern {
            return self.write_modern(offset, value);
        }
        if self.can_switch && offset == 0 && value == 0 {
            self.modern = true;
        }
        None
    }

    /// The host inserted processor `cpu`: it is enabled and has an insert event. `cpu` is a possible processor.
    pub fn insert_event(&mut self, cpu: u32)
        requires { cpu < length self.old.slots }
        ensures { self.new ≡ with_insert self.old cpu }
    {
        insert_at(self.slots.as_mut_slice(), cpu as usize);
    }

    /// The host requests the removal of processor `cpu`: it has a remove event, and stays enabled until it is ejected.
    /// `cpu` is a possible processor.
    pub fn remove_event(&mut self, cpu: u32)
        requires { cpu < length self.old.slots }
        ensures { self.new ≡ with_removal self.old cpu }
    {
        request_removal_at(self.slots.as_mut_slice(), cpu as usize);
    }

    /// Whether the two blocks are the same, register for register.
    pub fn same(&self, other: &Block) -> bool
        ensures { IsTrue result ↔ (self.now ≡ other.now) }
    {
        self.can_switch == other.can_switch
            && self.modern == other.modern
            && self.selector == other.selector
            && self.command == other.command
            && self.apic.as_slice() == other.apic.as_slice()
            && are_same(self.slots.as_slice(), other.slots.as_slice())
    }

    /// Whether the selector names a possible processor.
    fn is_selected(&self) -> bool
        ensures { result ≡ names_processor self.now }
    {
        (self.selector as usize) < self.slots.len()
    }

    fn read_modern(&self, offset: u8) -> u32
        ensures { result ≡ modern_read self.now offset }
    {
        match offset {
            _ if !self.is_selected() => 0,
            4 => u32::from(status_at(self.slots.as_slice(), self.selector as usize)),
            8 => self.read_data(),
            _ => 0,
        }
    }

    fn read_data(&self) -> u32
        requires { self.now.selector < length self.now.slots }
        ensures { result ≡ read_data self.now }
    {
        match self.command {
            0 => self.selector,
            3 => self.apic[self.selector as usize],
            _ => 0,
        }
    }

    fn write_modern(&mut self, offset: u8, value: u32) -> Option<u32>
        ensures block { self.new ≡ modern_write self.old offset value }
        ensures ejected { result ≡ ejected_by self.old self.new }
    {
        match offset {
            0 => {
                self.selector = value;
                None
            }
            _ if !self.is_selected() => None,
            4 => self.control((value & 0xff) as u8),
            5 => {
                self.obey((value & 0xff) as u8);
                None
            }
            8 => {
                self.write_data(value);
                None
            }
            _ => None,
        }
    }

    fn control(&mut self, asked: u8) -> Option<u32>
        requires { self.old.selector < length self.old.slots }
        ensures block { self.new ≡ write_control self.old asked }
        ensures ejected { result ≡ ejected_by self.old self.new }
    {
        if control_at(
            self.slots.as_mut_slice(),
            self.selector as usize,
            Control(asked),
        ) {
            Some(self.selector)
        } else {
            None
        }
    }

    fn obey(&mut self, command: u8)
        requires { self.old.selector < length self.old.slots }
        ensures { self.new ≡ write_command self.old command }
    {
        self.command = command;
        if command == 0 {
            self.selector = search(self.slots.as_slice(), self.selector as usize) as u32;
        }
    }

    fn write_data(&mut self, value: u32)
        requires { self.old.selector < length self.old.slots }
        ensures { self.new ≡ write_data self.old value }
    {
        keep_data_at(
            self.slots.as_mut_slice(),
            self.selector as usize,
            self.command,
            value,
        );
    }
}
