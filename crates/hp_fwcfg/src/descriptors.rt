//! What a transfer's descriptor asks for.

ghost use Rattle.std.specs.Prelude.{⊤, [], ◌∷◌, ◌≡◌, Some, None, codes, if◌then◌else◌};
ghost use Rattle.hp_model.specs.Transfers.{descriptor_of, key_of, is_short, is_near, reads, writes, skips, selects};
ghost use Rattle.hp_fwcfg.specs.Moves.{length_of, area_of};

use bitflags::{Flag, Flags, bitflag_items};
use byteorder::{BigEndian, ByteOrder};
use std::marker::Model;

/// The control field: bits 0 to 4, and in bits 31:16 the key to select (QEMU docs/specs/fw_cfg).
#[derive(Clone, Copy, Drop)]
pub struct Control(pub u32);

bitflag_items! {
    impl Control: u32 {
        const ERROR = 1;
        const READ = 2;
        const SKIP = 4;
        const SELECT = 8;
        const WRITE = 16;
    }
}

impl Flags for Control {
    type Bits = u32;

    ghost exact = { ⊤ };

    ghost table = { (codes "ERROR", 1) ∷ (codes "READ", 2) ∷ (codes "SKIP", 4) ∷ (codes "SELECT", 8) ∷ (codes "WRITE", 16) ∷ [] };

    ghost set_of = { λ c. c.0 };

    fn flags<'a>() -> &'a [Flag<Control>] {
        Control::FLAGS
    }

    fn bits(&self) -> u32 {
        self.0
    }

    fn from_bits_retain(bits: u32) -> Control {
        Control(bits)
    }
}

/// A descriptor: 16 bytes in memory.
#[derive(Drop)]
pub struct Descriptor {
    control: Control,
    size: u32,
    address: u64,
}

impl Model for Descriptor {
    ghost use Rattle.hp_model.specs.Transfers as model;

    ghost Value = { model.Descriptor };

    ghost view = { λ d. record { control = d.control.0; size = d.size; address = d.address } };
}

/// The area of memory of a transfer: `len` bytes from `addr` on.
#[derive(Clone, Copy, Drop)]
pub struct Area {
    pub addr: u32,
    pub len: u16,
}

impl Descriptor {
    /// The descriptor in these bytes.
    #[tactic(auto, using(crate::proofs::Bytes::big_value_from))]
    pub fn new(fields: &[u8; 16]) -> Descriptor
        ensures { result ≡ descriptor_of fields.now }
    {
        Descriptor {
            control: Control(BigEndian::read_u32(&fields[..4])),
            size: BigEndian::read_u32(&fields[4..8]),
            address: BigEndian::read_u64(&fields[8..]),
        }
    }

    /// The key of the item to select, if one is to be selected.
    pub fn key(&self) -> Option<u16>
        ensures { result ≡ (if selects self.now then Some (key_of self.now) else None) }
    {
        if self.control.contains(Control::SELECT) {
            Some((self.control.bits() >> 16) as u16)
        } else {
            None
        }
    }

    /// Whether bytes are to be read from the item.
    pub fn reads(&self) -> bool
        ensures { result ≡ reads self.now }
    {
        self.control.contains(Control::READ)
    }

    /// Whether bytes are to be written to the item.
    pub fn writes(&self) -> bool
        ensures { result ≡ writes self.now }
    {
        self.control.contains(Control::WRITE)
    }

    /// Whether the offset is to move on.
    pub fn skips(&self) -> bool
        ensures { result ≡ skips self.now }
    {
        self.control.contains(Control::SKIP)
    }

    /// The length in bytes, where it is at most 256 (own rule).
    pub fn length(&self) -> Option<u16>
        ensures { result ≡ length_of self.now }
    {
        u16::try_from(self.size).ok().filter(|len| *len <= 256)
    }

    /// The area of memory, where the length is at most 256 and the address has 32 bits (own rule).
    pub fn area(&self) -> Option<Area>
        ensures { result ≡ area_of self.now }
    {
        let addr = u32::try_from(self.address).ok()?;
        let len = self.length()?;
        Some(Area { addr, len })
    }
}
