//! Laws over definitions: public functions with empty bodies, whose clauses are what is proved.

ghost use Rattle.std.specs.Prelude.{◌≡◌, ℕ, Bool, true, false, ◌+◌, ◌<◌, ◌≤◌, List};
ghost use Rattle.hp_model.specs.declared.platforms.Platform.{Platform};
ghost use Rattle.hp_model.specs.Platform.{memory_fits};
ghost use Rattle.hp_model.specs.View.{Locks as State, locks_start, is_fixed, is_in_tseg, is_locked, is_hidden, is_hole};
ghost use Rattle.hp_smram.specs.Memory.{is_memory_size, locks_of};
ghost use Rattle.hp_smram.specs.Writes.{written_all};

/// `Locks::new` takes the RAM of each platform that fits, and starts as its machine does.
#[tactic(auto, using(crate::proofs::Writes::starts))]
pub fn locks_start_as_the_machine()
    ensures sizes { (p : Platform) → is_memory_size p.low_memory ≡ memory_fits p }
    ensures start { (p : Platform) → locks_start p ≡ locks_of p.low_memory p.default_smram p.ext_tseg }
{}

/// Once the default area is locked, no list of register writes unlocks it.
#[tactic(auto, using(crate::proofs::Writes::written_default))]
pub fn default_area_stays_locked()
    ensures { (l : State) (ws : List (ℕ × ℕ)) → l.f_smbase ≡ 2 → (written_all l ws).f_smbase ≡ 2 }
{}

/// Once D_LCK is set, no list of register writes changes registers 9d, 9e and 50, nor which bytes are locked as TSEG.
#[tactic(auto, using(crate::proofs::Writes::tseg_stays))]
pub fn tseg_stays_once_fixed()
    ensures bytes { (l : State) (ws : List (ℕ × ℕ)) (x : ℕ) → is_fixed l ≡ true → is_in_tseg (written_all l ws) x ≡ is_in_tseg l x }
    ensures smram { (l : State) (ws : List (ℕ × ℕ)) → is_fixed l ≡ true → (written_all l ws).smram ≡ l.smram }
    ensures esmramc { (l : State) (ws : List (ℕ × ℕ)) → is_fixed l ≡ true → (written_all l ws).esmramc ≡ l.esmramc }
    ensures ext_tseg { (l : State) (ws : List (ℕ × ℕ)) → is_fixed l ≡ true → (written_all l ws).ext_tseg ≡ l.ext_tseg }
{}

/// A byte that is locked stays locked, whatever registers are written; and an access that is a hole stays one.
#[tactic(auto, using(crate::proofs::Writes::stays_locked))]
pub fn what_is_locked_stays_locked()
    ensures byte { (l : State) (ws : List (ℕ × ℕ)) (x : ℕ) → is_locked l x ≡ true → is_locked (written_all l ws) x ≡ true }
    ensures hole { (l : State) (ws : List (ℕ × ℕ)) (in_smm : Bool) (addr width : ℕ) →
        is_hole l in_smm addr width ≡ true → is_hole (written_all l ws) in_smm addr width ≡ true }
{}

/// Once D_LCK is set and the default area is locked, no list of register writes changes anything.
#[tactic(auto, using(crate::proofs::Writes::written_nothing))]
pub fn nothing_changes_once_all_is_locked()
    ensures { (l : State) (ws : List (ℕ × ℕ)) → is_fixed l ≡ true → l.f_smbase ≡ 2 → written_all l ws ≡ l }
{}

/// In SMM all RAM is open: no byte of it is out of reach, and no access within it is a hole.
#[tactic(auto, using(crate::proofs::Writes::open_in_smm))]
pub fn memory_is_open_in_smm()
    ensures byte { (l : State) (x : ℕ) → x < l.low_memory → is_hidden l true x ≡ false }
    ensures hole { (l : State) (addr width : ℕ) → addr + width ≤ l.low_memory → is_hole l true addr width ≡ false }
{}
