//! The bytes of items, and the file directory (QEMU docs/specs/fw_cfg).

ghost use Rattle.std.specs.Prelude.{◌≡◌, ◌≤◌, ◌++◌, length, drop};
ghost use Rattle.hp_model.specs.FwCfg.{listed, directory as listing};
ghost use Rattle.hp_fwcfg.specs.Items.{bytes_in};

use byteorder::{BigEndian, ByteOrder};

/// The key of the file directory.
pub const DIRECTORY: u16 = 0x19;

/// The key of etc/smi/features-ok.
pub const FEATURES_OK: u16 = 0x20;

/// The key of etc/smi/requested-features.
pub const REQUESTED_FEATURES: u16 = 0x21;

/// The key of etc/smi/supported-features.
pub const SUPPORTED_FEATURES: u16 = 0x22;

/// An item, by its form.
#[derive(Drop)]
pub enum Item {
    Directory([u8; 196]),
    Flag([u8; 1]),
    Features([u8; 8]),
    Empty,
}

impl Item {
    /// All bytes of the item.
    pub fn bytes(&self) -> &[u8]
        ensures { result.now ≡ bytes_in self.now }
    {
        match self {
            Item::Directory(bytes) => bytes,
            Item::Flag(bytes) => bytes,
            Item::Features(bytes) => bytes,
            Item::Empty => &[],
        }
    }
}

/// Writes a file's entry in the directory: size (4 bytes), key (2), zero (2), name (56, with zeros at its end).
#[tactic(auto, using(crate::proofs::Bytes::big_bytes_are), unfolding(hp_model::specs::FwCfg::listed))]
fn put_file(out: &mut [u8], size: u32, key: u16, name: &[u8])
    requires room { length out.old ≡ 64 }
    requires name { length name.now ≤ 56 }
    ensures { out.new ≡ listed size key name.now }
{
    let (size_field, rest) = out.split_at_mut(4);
    let (key_field, rest) = rest.split_at_mut(2);
    let (zero_field, rest) = rest.split_at_mut(2);
    let (name_field, padding) = rest.split_at_mut(name.len());
    BigEndian::write_u32(size_field, size);
    BigEndian::write_u16(key_field, key);
    zero_field.fill(0);
    name_field.copy_from_slice(name);
    padding.fill(0);
}

/// The file directory: the count of files (4 bytes), and the files in the order of their keys.
pub fn directory() -> [u8; 196]
    ensures { result ≡ listing }
{
    let mut bytes = [0; 196];
    let (count, files) = bytes.split_at_mut(4);
    let (first, files) = files.split_at_mut(64);
    let (second, third) = files.split_at_mut(64);
    BigEndian::write_u32(count, 3);
    put_file(first, 1, FEATURES_OK, b"etc/smi/features-ok");
    put_file(second, 8, REQUESTED_FEATURES, b"etc/smi/requested-features");
    put_file(third, 8, SUPPORTED_FEATURES, b"etc/smi/supported-features");
    bytes
}
