//! Laws over definitions: public functions with empty bodies, whose clauses are what is proved.

ghost use Rattle.std.specs.Prelude.{◌≡◌, ◌≢◌, ℕ, ◌<◌, true, false, Some, length};
ghost use Rattle.hp_model.specs.Slots.{Slots, bind, completed, forgotten, is_known, slot_in};

/// A slot stays with its APIC ID for good: no bind, completion or eject, of whichever APIC ID, gives it another.
#[tactic(auto, using(crate::proofs::Staying::stays))]
pub fn a_slot_stays_with_its_apic_id()
    ensures bind { (s : Slots) (a b k : ℕ) → slot_in s a ≡ Some k → slot_in (bind b s) a ≡ Some k }
    ensures completed { (s : Slots) (a b k : ℕ) → slot_in s a ≡ Some k → slot_in (completed b s) a ≡ Some k }
    ensures forgotten { (s : Slots) (a b k : ℕ) → slot_in s a ≡ Some k → slot_in (forgotten b s) a ≡ Some k }
{}

/// No two APIC IDs have one slot, and slots are counted from 0 without gaps.
#[tactic(auto, using(crate::proofs::Staying::own))]
pub fn an_apic_id_has_a_slot_of_its_own()
    ensures distinct { (s : Slots) (a b k : ℕ) → slot_in s a ≡ Some k → slot_in s b ≡ Some k → a ≡ b }
    ensures below { (s : Slots) (a k : ℕ) → slot_in s a ≡ Some k → k < length s.bound }
{}

/// Binding makes no APIC ID known. That of an add is known once it is complete, and no longer once it was ejected. A completion and an
/// eject leave every other APIC ID as known as it was.
#[tactic(auto, using(crate::proofs::Staying::knows))]
pub fn an_apic_id_is_known_from_its_add_to_its_eject()
    ensures bound { (s : Slots) (a b : ℕ) → length s.known ≡ length s.bound → is_known (bind b s) a ≡ is_known s a }
    ensures completed { (s : Slots) (a k : ℕ) → length s.known ≡ length s.bound → slot_in s a ≡ Some k → is_known (completed a s) a ≡ true }
    ensures completed_others { (s : Slots) (a b : ℕ) → length s.known ≡ length s.bound → a ≢ b → is_known (completed b s) a ≡ is_known s a }
    ensures forgotten { (s : Slots) (a k : ℕ) → length s.known ≡ length s.bound → slot_in s a ≡ Some k → is_known (forgotten a s) a ≡ false }
    ensures forgotten_others { (s : Slots) (a b : ℕ) → length s.known ≡ length s.bound → a ≢ b → is_known (forgotten b s) a ≡ is_known s a }
{}
