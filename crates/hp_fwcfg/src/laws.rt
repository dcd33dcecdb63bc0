//! Laws of the device: public functions with empty bodies, whose clauses are what is proved.

ghost use Rattle.std.specs.Prelude.{◌≡◌, ℕ, true, ◌&&◌, ◌+◌, ◌^◌, ◌<◌, ◌≤◌, Some, List, ◌∷◌, length, if◌then◌else◌};
ghost use Rattle.hp_model.specs.FwCfg.{FwCfg as Device, fw_cfg_start, agrees, item_of, selected, advanced, next_byte, next_bytes, swapped_bytes};
ghost use Rattle.hp_model.specs.Transfers.{Descriptor, selects, key_of, ask, finished, failed};
ghost use Rattle.hp_fwcfg.specs.Moves.{is_moving, IsWithin};
ghost use Rattle.hp_fwcfg.specs.Requests.{is_chain, is_subset};
ghost use Rattle.hp_fwcfg.specs.Uses.{Use, used_all, IsSound};

/// Features that were negotiated stay, whatever is selected, read or transferred after.
#[tactic(auto, using(crate::proofs::Uses::stays))]
pub fn what_is_negotiated_stays()
    ensures { (f : Device) (us : List Use) (n : ℕ) → f.negotiated ≡ Some n → (used_all f us).negotiated ≡ Some n }
{}

/// From the start on, whatever is done with the device: its features stay, the requested features have 8 bytes, the
/// offset is never past the selected item's end, and what was negotiated agrees with the features.
#[tactic(auto, using(crate::proofs::Uses::sound))]
pub fn a_device_stays_sound()
    ensures { (features : ℕ) (us : List Use) → IsSound features (used_all (fw_cfg_start features) us) }
{}

/// Of the features broadcast, hot-plug and hot-unplug a device grants 0, 1, 3 and 7, as far as it has them.
#[tactic(auto, using(crate::proofs::Requests::requests))]
pub fn requests_are_a_chain()
    ensures { (features request : ℕ) → features < 8 → agrees features request ≡ (is_chain request && is_subset request features) }
{}

/// A transfer that fails changes nothing but what its own selection did.
#[tactic(auto, using(crate::proofs::Asking::kept_by_failure))]
pub fn a_failed_transfer_only_selects()
    ensures { (d : Descriptor) (f : Device) → (ask d f).move ≡ failed
        → (ask d f).fw_cfg ≡ (if selects d then selected (key_of d) f else f) }
{}

/// What moves is within the limits. A length above 256 fails, whether bytes are to be read, written or skipped.
#[tactic(auto, using(crate::proofs::Asking::limits))]
pub fn transfers_are_short()
    ensures within { (d : Descriptor) (f : Device) → IsWithin (ask d f).move }
    ensures fails { (d : Descriptor) (f : Device) → 256 < d.size → is_moving d ≡ true → (ask d f).move ≡ failed }
{}

/// Many bytes are read at once as they are one by one, also over the item's end.
#[tactic(auto, using(crate::proofs::Reading::one_by_one))]
pub fn bytes_are_read_one_by_one()
    ensures bytes { (n : ℕ) (f : Device) → f.offset ≤ length (item_of f)
        → next_bytes (n + 1) f ≡ next_byte f ∷ next_bytes n (advanced 1 f) }
    ensures step { (n : ℕ) (f : Device) → advanced (n + 1) f ≡ advanced n (advanced 1 f) }
{}

/// What was written to the requested features is read back from where it was written.
#[tactic(auto, using(crate::proofs::Reading::read_back))]
pub fn what_is_written_is_read_back()
    ensures { (bytes : List ℕ) (f : Device) → f.key ≡ 0x21 → length f.requested ≡ 8 → f.offset ≤ 8
        → next_bytes (length bytes) (record (finished bytes f) { offset = f.offset }) ≡ bytes }
{}

/// The guest can put any half of an address: a value whose bytes are turned round twice is the value.
#[tactic(auto, using(crate::proofs::Bytes::swapped_twice))]
pub fn bytes_turned_twice_are_as_before()
    ensures { (value : ℕ) → value < 2 ^ 32 → swapped_bytes (swapped_bytes value) ≡ value }
{}
