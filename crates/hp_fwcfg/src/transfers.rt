//! Transfers: what a descriptor moves between an item and memory (QEMU docs/specs/fw_cfg, DMA interface).

ghost use Rattle.std.specs.Prelude.{◌≡◌, if◌then◌else◌};
ghost use Rattle.hp_model.specs.FwCfg.{selected};
ghost use Rattle.hp_model.specs.Transfers.{descriptor_of, ask, ask_read, ask_write, ask_skip, ask_move, selects, key_of};
ghost use Rattle.hp_fwcfg.specs.Moves.{move_of, IsShort, IsWritable};

use crate::descriptors::Descriptor;
use crate::device::FwCfg;

/// What a transfer moves, or that it failed. The bytes themselves are moved by who asked.
#[derive(Clone, Copy, Drop)]
pub enum Transfer {
    /// No bytes: it selected an item, moved its offset, or did neither.
    Nothing,
    /// The first `len` of `bytes`, to memory from `addr` on.
    ToMemory {
        addr: u32,
        len: u16,
        bytes: [u8; 256],
    },
    /// `len` bytes of memory from `addr` on, which `finish` then takes.
    FromMemory {
        addr: u32,
        len: u16,
    },
    /// An error: no offset and no item changed (own rule), except by the selection that came first.
    Failed,
}

impl FwCfg {
    /// The selection, which comes before all else.
    fn select_first(&mut self, descriptor: &Descriptor)
        ensures { self.new ≡ (if selects descriptor.now then selected (key_of descriptor.now) self.old else self.old) }
    {
        if let Some(key) = descriptor.key() {
            self.select(key);
        }
    }

    /// A read: the next bytes of the item go to memory, and its offset moves on by as many.
    fn start_read(&mut self, descriptor: &Descriptor) -> Transfer
        ensures moves { move_of result ≡ (ask_read descriptor.now self.old).move }
        ensures step { self.new ≡ (ask_read descriptor.now self.old).fw_cfg }
        ensures short { IsShort result }
        ensures writable { IsWritable result self.new }
    {
        let Some(area) = descriptor.area() else {
            return Transfer::Failed;
        };
        let bytes = self.next_bytes(usize::from(area.len));
        self.advance(usize::from(area.len));
        Transfer::ToMemory {
            addr: area.addr,
            len: area.len,
            bytes,
        }
    }

    /// A write: bytes come from memory, if they fit the item. Its offset moves on only as `finish` takes them.
    fn start_write(&self, descriptor: &Descriptor) -> Transfer
        ensures moves { move_of result ≡ (ask_write descriptor.now self.now).move }
        ensures step { self.now ≡ (ask_write descriptor.now self.now).fw_cfg }
        ensures short { IsShort result }
        ensures writable { IsWritable result self.now }
    {
        match descriptor.area() {
            Some(area) if self.has_room(usize::from(area.len)) => Transfer::FromMemory {
                addr: area.addr,
                len: area.len,
            },
            _ => Transfer::Failed,
        }
    }

    /// A skip: the offset moves on.
    fn skip(&mut self, descriptor: &Descriptor) -> Transfer
        ensures moves { move_of result ≡ (ask_skip descriptor.now self.old).move }
        ensures step { self.new ≡ (ask_skip descriptor.now self.old).fw_cfg }
        ensures short { IsShort result }
        ensures writable { IsWritable result self.new }
    {
        let Some(len) = descriptor.length() else {
            return Transfer::Failed;
        };
        self.advance(usize::from(len));
        Transfer::Nothing
    }

    /// The first of read, write and skip whose bit is set acts alone.
    fn start(&mut self, descriptor: &Descriptor) -> Transfer
        ensures moves { move_of result ≡ (ask_move descriptor.now self.old).move }
        ensures step { self.new ≡ (ask_move descriptor.now self.old).fw_cfg }
        ensures short { IsShort result }
        ensures writable { IsWritable result self.new }
    {
        if descriptor.reads() {
            self.start_read(descriptor)
        } else if descriptor.writes() {
            self.start_write(descriptor)
        } else if descriptor.skips() {
            self.skip(descriptor)
        } else {
            Transfer::Nothing
        }
    }

    /// Does what a descriptor asks for, as far as the device goes. `fields` are its 16 bytes as they stand in memory:
    /// control (4), length (4), address (8), each with its highest byte first.
    pub fn dma(&mut self, fields: &[u8; 16]) -> Transfer
        ensures moves { move_of result ≡ (ask (descriptor_of fields.now) self.old).move }
        ensures step { self.new ≡ (ask (descriptor_of fields.now) self.old).fw_cfg }
        ensures short { IsShort result }
        ensures writable { IsWritable result self.new }
    {
        let descriptor = Descriptor::new(fields);
        self.select_first(&descriptor);
        self.start(&descriptor)
    }
}
