//! Pages of 4 KiB: finding one, room for one more, and values over the end of a page.

ghost use Rattle.std.specs.Prelude.{◌≡◌, ◌+◌, ◌-◌, ◌*◌, ◌/◌, ◌%◌, ◌^◌, ◌<◌, ◌≤◌, ℕ, length, slice_index, vec_len, vec_capacity, IsOk, OnOk, OnErr};
ghost use Rattle.hp_model.specs.Memory.{byte_over, value_from, write_of};
ghost use Rattle.hp_mem.specs.Pages.{ArePages, Covers, entry, place, byte_in};

use crate::words::put_word;
use hp_model::NoMemory;

/// The bytes of a page.
pub const PAGE: usize = 4096;

/// The pages that 32-bit addresses have.
pub const PAGES: usize = 0x10_0000;

/// The entry of a page: 0 where nothing was stored in it.
pub fn entry_of(directory: &[usize], page: usize) -> usize
    ensures { result ≡ entry directory.now page }
{
    if page < directory.len() {
        directory[page]
    } else {
        0
    }
}

/// What stands at an address.
#[tactic(auto, using(crate::proofs::Finding::find_facts))]
fn byte_of(directory: &[usize], bytes: &[u8], addr: u32) -> u8
    requires pages { ArePages directory.now bytes.now }
    ensures { result ≡ byte_in directory.now bytes.now addr }
{
    let entry = entry_of(directory, addr as usize / PAGE);
    if entry == 0 {
        return 0;
    }
    bytes[(entry - 1) * PAGE + addr as usize % PAGE]
}

/// The value of `width` bytes, the lowest first, one byte at a time.
// 64 bits, so that the address past the last byte can be named too.
#[tactic(auto, using(crate::proofs::Values::value_facts))]
pub fn value_at(directory: &[usize], bytes: &[u8], addr: u64, width: u8) -> u64
    requires pages { ArePages directory.now bytes.now }
    requires width { width ≤ 8 }
    requires end { addr + width ≤ 2 ^ 32 }
    ensures value { result ≡ value_from (byte_in directory.now bytes.now) addr width }
    ensures below { result < 256 ^ width }
{
    if width == 0 {
        return 0;
    }
    u64::from(byte_of(directory, bytes, addr as u32))
        + 256 * value_at(directory, bytes, addr + 1, width - 1)
}

/// Writes the lowest `width` bytes of a value, the lowest first, one byte at a time.
#[tactic(auto, using(crate::proofs::Storing::pages_facts))]
pub fn put_value(directory: &[usize], bytes: &mut [u8], addr: u64, width: u8, value: u64)
    requires pages { ArePages directory.now bytes.old }
    requires covers { Covers directory.now addr width }
    requires width { width ≤ 8 }
    requires end { addr + width ≤ 2 ^ 32 }
    ensures len { length bytes.new ≡ length bytes.old }
    ensures written { (x : ℕ) → byte_in directory.now bytes.new x ≡ byte_over (write_of addr width value) (byte_in directory.now bytes.old) x }
{
    if width > 0 {
        let entry = entry_of(directory, addr as usize / PAGE);
        let at = (entry - 1) * PAGE + addr as usize % PAGE;
        put_word(bytes, at, 1, value);
        put_value(directory, bytes, addr + 1, width - 1, value / 256);
    }
}

/// Makes the directory reach to a page. No entry changes, whatever the answer.
pub fn reach_page(directory: &mut Vec<usize>, page: usize) -> Result<(), NoMemory>
    requires few { vec_len directory.old ≤ 2 ^ 20 }
    requires page { page < 2 ^ 20 }
    ensures entries { (q : ℕ) → entry directory.new.items q ≡ entry directory.old.items q }
    ensures reached { OnOk result (page < vec_len directory.new) }
    ensures few { vec_len directory.new ≤ 2 ^ 20 }
    ensures capacity { vec_capacity directory.old ≤ vec_capacity directory.new }
    ensures succeeds { 2 ^ 20 ≤ vec_capacity directory.old → IsOk result }
{
    if directory.len() <= page {
        directory.resize(page + 1, 0)?;
    }
    Ok(())
}

/// Adds a page of zeros at the end.
pub fn add_zeros(bytes: &mut Vec<u8>) -> Result<(), NoMemory>
    ensures bytes { (k : ℕ) → slice_index bytes.new.items k ≡ slice_index bytes.old.items k }
    ensures added { OnOk result (vec_len bytes.new ≡ vec_len bytes.old + 4096) }
    ensures no_memory { OnErr result (vec_len bytes.new ≡ vec_len bytes.old) }
    ensures capacity { vec_capacity bytes.old ≤ vec_capacity bytes.new }
    ensures succeeds { vec_len bytes.old + 4096 ≤ vec_capacity bytes.old → IsOk result }
{
    bytes.resize(bytes.len() + PAGE, 0)?;
    Ok(())
}
