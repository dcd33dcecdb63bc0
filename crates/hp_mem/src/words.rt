//! Values of 1, 2, 4 or 8 bytes in a slice, the lowest byte first.

ghost use Rattle.std.specs.Prelude.{◌≡◌, ◌+◌, ◌^◌, ◌<◌, ◌≤◌, ℕ, length, slice_index};
ghost use Rattle.hp_model.specs.Memory.{byte_over, value_from, write_of};
ghost use Rattle.hp_model.specs.Access.{IsMemoryWidth};

use byteorder::{ByteOrder, LittleEndian};

/// The value of the `width` bytes from `at` on.
#[tactic(auto, using(crate::proofs::Slices::word_facts))]
pub fn word_at(bytes: &[u8], at: usize, width: u8) -> u64
    requires width { IsMemoryWidth width }
    requires end { at + width ≤ length bytes.now }
    ensures value { result ≡ value_from (slice_index bytes.now) at width }
    ensures below { result < 256 ^ width }
{
    match width {
        1 => u64::from(bytes[at]),
        2 => u64::from(LittleEndian::read_u16(&bytes[at..])),
        4 => u64::from(LittleEndian::read_u32(&bytes[at..])),
        _ => LittleEndian::read_u64(&bytes[at..]),
    }
}

/// Writes the lowest `width` bytes of a value from `at` on.
pub fn put_word(bytes: &mut [u8], at: usize, width: u8, value: u64)
    requires width { IsMemoryWidth width }
    requires end { at + width ≤ length bytes.old }
    ensures len { length bytes.new ≡ length bytes.old }
    ensures written { (k : ℕ) → slice_index bytes.new k ≡ byte_over (write_of at width value) (slice_index bytes.old) k }
{
    match width {
        1 => bytes[at] = (value % 256) as u8,
        2 => LittleEndian::write_u16(&mut bytes[at..], (value % 0x1_0000) as u16),
        4 => LittleEndian::write_u32(&mut bytes[at..], (value % 0x1_0000_0000) as u32),
        _ => LittleEndian::write_u64(&mut bytes[at..], value),
    }
}
