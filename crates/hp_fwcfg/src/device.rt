//! The device: the selected item and the place in it, the features, and the high half of an address.

ghost use Rattle.std.specs.Prelude.{◌≡◌, ◌↔◌, IsTrue, ◌≤◌, ◌+◌, ◌++◌, true, false, Some, None, ◌&&◌, ◌==◌, nat_le, length, take, replicate};
ghost use Rattle.hp_model.specs.FwCfg.{fw_cfg_start, selected, advanced, next_byte, next_bytes as bytes_ahead, little_value, with_high, without_high, dma_address, item_of};
ghost use Rattle.hp_model.specs.Transfers.{finished};
ghost use Rattle.hp_fwcfg.specs.Items.{bytes_in};

use crate::features::Features;
use crate::items::{
    DIRECTORY, FEATURES_OK, Item, REQUESTED_FEATURES, SUPPORTED_FEATURES, directory,
};
use bitflags::Flags;
use byteorder::{ByteOrder, LittleEndian};
use std::marker::Model;

/// The device fw_cfg, with the four items that the firmware asks for (QEMU docs/specs/fw_cfg).
#[derive(Drop)]
pub struct FwCfg {
    supported: Features,
    /// The key of the selected item.
    key: u16,
    /// The next byte in the selected item, at most its length.
    offset: usize,
    /// The bytes of etc/smi/requested-features.
    requested: [u8; 8],
    /// The features that were agreed on. Then etc/smi/features-ok is 1, else 0.
    negotiated: Option<u64>,
    /// The high half of the DMA address.
    high: u32,
}

impl Model for FwCfg {
    ghost use Rattle.std.specs.Prelude.{◌≤◌, length};
    ghost use Rattle.hp_model.specs.FwCfg as model;

    ghost Value = { model.FwCfg };

    ghost view = { λ f. record { supported = f.supported.0; key = f.key; offset = f.offset; requested = f.requested; negotiated = f.negotiated; high = f.high } };

    ghost invariant = { λ f. f.offset ≤ length (model.item_of (record { supported = f.supported.0; key = f.key; offset = f.offset; requested = f.requested; negotiated = f.negotiated; high = f.high })) };
}

/// The features that the guest asks for: 8 bytes, the lowest first.
#[tactic(auto, using(crate::proofs::Bytes::little_value_8))]
fn request_in(requested: &[u8; 8]) -> Features
    ensures { result.0 ≡ little_value requested.now }
{
    Features(LittleEndian::read_u64(requested))
}

/// The first `len` of these bytes, with zeros past their end.
#[tactic(auto, using(crate::proofs::Copies::front_bytes))]
fn front(bytes: &[u8], len: usize) -> [u8; 256]
    requires { len ≤ 256 }
    ensures { take len result ≡ take len (bytes.now ++ replicate len 0) }
{
    let mut out = [0; 256];
    let count = len.min(bytes.len());
    let (copy, _) = out.split_at_mut(count);
    copy.copy_from_slice(&bytes[..count]);
    out
}

impl FwCfg {
    /// A device with these features: bit 0 broadcast, bit 1 hot-plug, bit 2 hot-unplug. Key 0 is selected, and
    /// nothing was requested.
    pub fn new(features: u64) -> FwCfg
        ensures { result ≡ fw_cfg_start features }
    {
        FwCfg {
            supported: Features(features),
            key: 0,
            offset: 0,
            requested: [0; 8],
            negotiated: None,
            high: 0,
        }
    }

    /// Whether the two are the same: features, selection and its offset, request, and high half.
    pub fn same(&self, other: &FwCfg) -> bool
        ensures { IsTrue result ↔ (self.now ≡ other.now) }
    {
        self.supported.bits() == other.supported.bits()
            && self.key == other.key
            && self.offset == other.offset
            && self.requested == other.requested
            && self.negotiated == other.negotiated
            && self.high == other.high
    }

    /// The selected item. A key that no file has names an empty one (own rule).
    #[tactic(auto, using(crate::proofs::Bytes::little_bytes_are))]
    fn item(&self) -> Item
        ensures { bytes_in result ≡ item_of self.now }
    {
        match self.key {
            DIRECTORY => Item::Directory(directory()),
            FEATURES_OK => Item::Flag([u8::from(self.negotiated.is_some())]),
            REQUESTED_FEATURES => Item::Features(self.requested),
            SUPPORTED_FEATURES => Item::Features(self.supported.bits().to_le_bytes()),
            _ => Item::Empty,
        }
    }

    /// Selects the item with this key, from its first byte. A selection of etc/smi/features-ok tries to settle the
    /// negotiation.
    pub fn select(&mut self, key: u16)
        ensures { self.new ≡ selected key self.old }
    {
        self.key = key;
        self.offset = 0;
        if key == FEATURES_OK {
            self.negotiated = self
                .supported
                .settle(request_in(&self.requested), self.negotiated);
        }
    }

    /// Moves the offset on by `len` bytes, but not past the item's end (own rule).
    pub(crate) fn advance(&mut self, len: usize)
        ensures { self.new ≡ advanced len self.old }
    {
        let left = self.item().bytes().len() - self.offset;
        self.offset += len.min(left);
    }

    /// Reads the next byte of the selected item; 0 past its end.
    pub fn read_byte(&mut self) -> u8
        ensures value { result ≡ next_byte self.old }
        ensures step { self.new ≡ advanced 1 self.old }
    {
        let value = self.item().bytes().get(self.offset).copied().unwrap_or(0);
        self.advance(1);
        value
    }

    /// The next `len` bytes of the selected item, with zeros past its end.
    pub(crate) fn next_bytes(&self, len: usize) -> [u8; 256]
        requires { len ≤ 256 }
        ensures { take len result ≡ bytes_ahead len self.now }
    {
        front(&self.item().bytes()[self.offset..], len)
    }

    /// Whether `len` bytes may be written from the offset on: only in etc/smi/requested-features, and not past its end.
    pub(crate) fn has_room(&self, len: usize) -> bool
        requires { len ≤ 256 }
        ensures { result ≡ ((self.now.key == 0x21) && nat_le (self.now.offset + len) 8) }
    {
        self.key == REQUESTED_FEATURES && self.offset + len <= self.requested.len()
    }

    /// Ends a transfer from memory: its bytes are written to etc/smi/requested-features, whose offset moves on by as many.
    pub fn finish(&mut self, bytes: &[u8])
        requires key { self.old.key ≡ 0x21 }
        requires within { self.old.offset + length bytes.now ≤ 8 }
        ensures { self.new ≡ finished bytes.now self.old }
    {
        let end = self.offset + bytes.len();
        self.requested[self.offset..end].copy_from_slice(bytes);
        self.offset = end;
    }

    /// Takes a half of the DMA address, high or low, as the port has it. The device has the highest byte first, so that
    /// the port's lowest byte is its highest. The low half starts a transfer, whose descriptor lies at the address that
    /// is returned; both halves are 0 after it.
    #[tactic(auto, using(crate::proofs::Bytes::swapped, std::proofs::lemmas::Grind::or_after_shift))]
    pub fn address(&mut self, high: bool, value: u32) -> Option<u64>
        ensures high { high ≡ true → result ≡ None }
        ensures kept { high ≡ true → self.new ≡ with_high value self.old }
        ensures low { high ≡ false → result ≡ Some (dma_address value self.old) }
        ensures cleared { high ≡ false → self.new ≡ without_high self.old }
    {
        let value = value.swap_bytes();
        if high {
            self.high = value;
            return None;
        }
        let address = (u64::from(self.high) << 32) | u64::from(value);
        self.high = 0;
        Some(address)
    }

    /// The features that were agreed on; `None` while etc/smi/features-ok is 0.
    pub fn negotiated(&self) -> Option<u64>
        ensures { result ≡ self.now.negotiated }
    {
        self.negotiated
    }
}
