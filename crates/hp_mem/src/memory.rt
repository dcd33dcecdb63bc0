//! Memory: its loads and stores, and the room that it takes.

ghost use Rattle.std.specs.Prelude.{◌≡◌, ◌≢◌, ◌↔◌, ◌+◌, ◌^◌, ◌<◌, ◌≤◌, ℕ, IfOk, IsOk, IsTrue, OnErr, OnOk};
ghost use Rattle.hp_model.specs.Memory.{byte_over, value_from, write_of};
ghost use Rattle.hp_model.specs.Access.{IsMemoryWidth};
ghost use Rattle.hp_mem.specs.Kept.{kept_at};
ghost use Rattle.hp_mem.specs.Pages.{entry};
ghost use Rattle.hp_mem.specs.Same.{SameOutside};

use crate::pages::{PAGE, PAGES, add_zeros, entry_of, put_value, reach_page, value_at};
use crate::same::are_same_pages;
use crate::words::{put_word, word_at};
use hp_model::{NoMemory, Span};
use std::alloc::Global;
use std::marker::Model;

/// The room that `Mem::reserve` makes, in pages.
const RESERVED: usize = 272;

/// The bytes at all 32-bit addresses. A byte that was never written is 0.
///
/// An access has 1, 2, 4 or 8 bytes, at any alignment, the lowest byte of its value first.
#[derive(Drop)]
pub struct Mem {
    /// The entry of each page, by its number, as far as the highest page that was stored in.
    directory: Vec<usize>,
    /// The pages that were stored in, one after the other.
    bytes: Vec<u8>,
}

impl Model for Mem {
    ghost use Rattle.std.specs.Prelude.{vec_len, vec_capacity};
    ghost use Rattle.hp_mem.specs.Kept as kept;
    ghost use Rattle.hp_mem.specs.Pages.{ArePages, room};

    ghost Value = { kept.Kept };

    ghost view = { λ m. record { directory = m.directory.items; bytes = m.bytes.items; spare = room (vec_capacity m.directory) (vec_capacity m.bytes) (vec_len m.bytes) } };

    ghost invariant = { λ m. ArePages m.directory.items m.bytes.items };
}

impl Mem {
    /// A memory of zeros. It keeps the allocator, and takes no memory yet.
    pub fn new(alloc: Global) -> Mem
        ensures zeros { (x : ℕ) → kept_at result x ≡ 0 }
        ensures spare { result.spare ≡ 0 }
    {
        Mem {
            directory: Vec::new(alloc),
            bytes: Vec::new(alloc),
        }
    }

    /// The value of the `width` bytes at `addr`, the lowest byte first.
    #[tactic(auto, using(crate::proofs::Finding::load_facts))]
    pub fn load(&self, addr: u32, width: u8) -> u64
        requires width { IsMemoryWidth width }
        requires end { addr + width ≤ 2 ^ 32 }
        ensures value { result ≡ value_from (kept_at self.now) addr width }
        ensures below { result < 256 ^ width }
    {
        let page = addr as usize / PAGE;
        let offset = addr as usize % PAGE;
        if offset + usize::from(width) > PAGE {
            return value_at(
                self.directory.as_slice(),
                self.bytes.as_slice(),
                u64::from(addr),
                width,
            );
        }
        let entry = entry_of(self.directory.as_slice(), page);
        if entry == 0 {
            return 0;
        }
        word_at(self.bytes.as_slice(), (entry - 1) * PAGE + offset, width)
    }

    /// Adds a page of zeros, where there is none yet, and answers its entry. No byte changes, whatever the answer.
    #[cold]
    #[inline(never)]
    fn add_page(&mut self, page: usize) -> Result<usize, NoMemory>
        requires page { page < 2 ^ 20 }
        requires missing { entry self.old.directory page ≡ 0 }
        ensures added { IfOk result (λ e. (0 < e) × (entry self.new.directory page ≡ e)) }
        ensures kept { (q : ℕ) → 0 < entry self.old.directory q → entry self.new.directory q ≡ entry self.old.directory q }
        ensures unchanged { (x : ℕ) → kept_at self.new x ≡ kept_at self.old x }
        ensures succeeds { 1 ≤ self.old.spare → IsOk result }
        ensures spare { self.old.spare ≤ self.new.spare + 1 }
    {
        reach_page(&mut self.directory, page)?;
        let entry = self.bytes.len() / PAGE + 1;
        add_zeros(&mut self.bytes)?;
        self.directory[page] = entry;
        Ok(entry)
    }

    /// The entry of a page, which is added if it isn't there. No byte changes, whatever the answer.
    fn take_page(&mut self, page: usize) -> Result<usize, NoMemory>
        requires page { page < 2 ^ 20 }
        ensures taken { IfOk result (λ e. (0 < e) × (entry self.new.directory page ≡ e)) }
        ensures kept { (q : ℕ) → 0 < entry self.old.directory q → entry self.new.directory q ≡ entry self.old.directory q }
        ensures unchanged { (x : ℕ) → kept_at self.new x ≡ kept_at self.old x }
        ensures succeeds { 1 ≤ self.old.spare → IsOk result }
        ensures spare { self.old.spare ≤ self.new.spare + 1 }
    {
        let entry = entry_of(self.directory.as_slice(), page);
        if entry == 0 {
            return self.add_page(page);
        }
        Ok(entry)
    }

    /// Stores the lowest `width` bytes of `value` at `addr`, the lowest byte first. After `NoMemory` each byte is as it
    /// was: the pages of the whole store are taken before its first byte.
    #[tactic(auto, using(crate::proofs::Storing::pages_facts))]
    pub fn store(&mut self, addr: u32, width: u8, value: u64) -> Result<(), NoMemory>
        requires width { IsMemoryWidth width }
        requires end { addr + width ≤ 2 ^ 32 }
        ensures written { OnOk result ((x : ℕ) → kept_at self.new x ≡ byte_over (write_of addr width value) (kept_at self.old) x) }
        ensures no_memory { OnErr result ((x : ℕ) → kept_at self.new x ≡ kept_at self.old x) }
        ensures succeeds { width ≤ self.old.spare → IsOk result }
        ensures spare { self.old.spare ≤ self.new.spare + width }
    {
        let page = addr as usize / PAGE;
        let offset = addr as usize % PAGE;
        let entry = self.take_page(page)?;
        if offset + usize::from(width) <= PAGE {
            let at = (entry - 1) * PAGE + offset;
            put_word(self.bytes.as_mut_slice(), at, width, value);
            return Ok(());
        }
        self.take_page(page + 1)?;
        put_value(
            self.directory.as_slice(),
            self.bytes.as_mut_slice(),
            u64::from(addr),
            width,
            value,
        );
        Ok(())
    }

    /// Compare and exchange of 8 bytes: answers what stood at `addr`, and stores `desired` there exactly where that is
    /// `expected`. After `NoMemory` each byte is as it was.
    pub fn swap_if(&mut self, addr: u32, expected: u64, desired: u64) -> Result<u64, NoMemory>
        requires end { addr + 8 ≤ 2 ^ 32 }
        ensures value { IfOk result (λ v. v ≡ value_from (kept_at self.old) addr 8) }
        ensures swapped { OnOk result (value_from (kept_at self.old) addr 8 ≡ expected → (x : ℕ) → kept_at self.new x ≡ byte_over (write_of addr 8 desired) (kept_at self.old) x) }
        ensures unchanged { OnOk result (value_from (kept_at self.old) addr 8 ≢ expected → (x : ℕ) → kept_at self.new x ≡ kept_at self.old x) }
        ensures no_memory { OnErr result ((x : ℕ) → kept_at self.new x ≡ kept_at self.old x) }
        ensures succeeds { 8 ≤ self.old.spare → IsOk result }
        ensures spare { self.old.spare ≤ self.new.spare + 8 }
    {
        let old = self.load(addr, 8);
        if old == expected {
            self.store(addr, 8, desired)?;
        }
        Ok(old)
    }

    /// Makes room for 272 bytes, enough for the 256 of the largest transfer and for the 16 of its control block: stores of
    /// so many bytes in all are then not answered `NoMemory`. No byte changes, whatever the answer.
    pub fn reserve(&mut self) -> Result<(), NoMemory>
        ensures reserved { OnOk result (272 ≤ self.new.spare) }
        ensures unchanged { (x : ℕ) → kept_at self.new x ≡ kept_at self.old x }
        ensures succeeds { 272 ≤ self.old.spare → IsOk result }
        ensures spare { self.old.spare ≤ self.new.spare }
    {
        self.directory.reserve(PAGES - self.directory.len())?;
        self.bytes.reserve(RESERVED * PAGE)?;
        Ok(())
    }

    /// Whether both memories have the same byte at each address outside the spans. It takes no memory.
    pub fn same_outside(&self, other: &Mem, hidden: &[Span]) -> bool
        ensures same { IsTrue result ↔ SameOutside (kept_at self.now) (kept_at other.now) hidden.now }
    {
        are_same_pages(
            self.directory.as_slice(),
            self.bytes.as_slice(),
            other.directory.as_slice(),
            other.bytes.as_slice(),
            hidden,
        )
    }
}
