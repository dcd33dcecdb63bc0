//! Laws over definitions: public functions with empty bodies, whose clauses are what is proved.

ghost use Rattle.std.specs.Prelude.{◌≡◌, ℕ, true, false, List, Some};
ghost use Rattle.hp_model.specs.declared.platforms.Platform.{Platform};
ghost use Rattle.hp_model.specs.declared.entries.Event.{Event};
ghost use Rattle.hp_model.specs.declared.entries.Entry.{Entry};
ghost use Rattle.hp_model.specs.Platform.{IsFit};
ghost use Rattle.hp_model.specs.Boot.{is_handed};
ghost use Rattle.hp_model.specs.State.{State};
ghost use Rattle.hp_model.specs.Step.{After, step};
ghost use Rattle.hp_model.specs.Runs.{run};
ghost use Rattle.hp_model.specs.Safety.{IsUntouched};
ghost use Rattle.hp_sealed.specs.Left.{LeavesLocked};
ghost use Rattle.hp_sealed.specs.Sealed.{IsOutside};
ghost use Rattle.hp_sealed.specs.HandOver.{WasSealed};

/// On each platform that fits, in each run: until the hand-over no processor is in SMM; and a run that is handed over was
/// sealed by the entry that handed it over. In the state after that entry the default area and the platform's TSEG are locked,
/// each cell of a handler that may run holds its mark, the gate is closed, each processor is outside SMM with an SMBASE where
/// a handler is, the slots in the monarch's record are those of distinct possible APIC IDs, processor 0's first, its features are all that the
/// platform supports, and no write
/// has covered a byte since it was locked.
#[tactic(auto, using(crate::proofs::HandOver::was_sealed))]
pub fn boot_seals_smram()
    ensures outside { (p : Platform) (es : List Entry) (s : State) → IsFit p → run p es ≡ Some s → is_handed s.stage ≡ false → IsOutside p s }
    ensures sealed { (p : Platform) (es : List Entry) (s : State) → IsFit p → run p es ≡ Some s → is_handed s.stage ≡ true → WasSealed p es }
{}

/// On each platform that fits, in each run that isn't handed over yet: no write has covered a byte since it was locked, and
/// the next step, whatever it is, covers no byte that is locked and unlocks none. The step that hands over is such a step.
#[tactic(auto, using(crate::proofs::HandOver::untouched, crate::proofs::HandOver::step_leaves))]
pub fn boot_leaves_locked_smram()
    ensures untouched { (p : Platform) (es : List Entry) (s : State) (x : ℕ) → IsFit p → run p es ≡ Some s → is_handed s.stage ≡ false → IsUntouched p es s x }
    ensures step { (p : Platform) (es : List Entry) (s : State) (e : Event) (t : After) → IsFit p → run p es ≡ Some s → is_handed s.stage ≡ false → step p s e ≡ Some t → LeavesLocked s t.state }
{}
