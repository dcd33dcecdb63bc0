//! Laws over definitions: public functions with empty bodies, whose clauses are what is proved.

ghost use Rattle.std.specs.Prelude.{◌≡◌, ◌⊎◌, ◌+◌, ◌^◌, ◌<◌, ◌≤◌, ℕ};
ghost use Rattle.hp_model.specs.Memory.{byte_over, value_from, write_of};

/// A value that fits its width is what a load answers right after it was stored, whatever the memory held.
#[tactic(auto, using(crate::proofs::Values::reads_back))]
pub fn a_store_reads_back()
    ensures { (under : ℕ → ℕ) (addr width value : ℕ) → value < 256 ^ width → value_from (byte_over (write_of addr width value) under) addr width ≡ value }
{}

/// A load of bytes that a store doesn't touch answers what it answered before.
#[tactic(auto, using(crate::proofs::Values::stays_beside))]
pub fn a_store_leaves_what_lies_beside_it()
    ensures { (under : ℕ → ℕ) (addr width value at size : ℕ) → (at + size ≤ addr) ⊎ (addr + width ≤ at) → value_from (byte_over (write_of addr width value) under) at size ≡ value_from under at size }
{}
