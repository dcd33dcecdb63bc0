//! Laws over definitions: public functions with empty bodies, whose clauses are what is proved.

ghost use Rattle.std.specs.Prelude.{◌≡◌, ℕ, true, false, List, Some, None, is_some};
ghost use Rattle.hp_model.specs.declared.platforms.Platform.{Platform};
ghost use Rattle.hp_model.specs.declared.accesses.Access.{Access};
ghost use Rattle.hp_model.specs.declared.accesses.Access.TheVariants.{Load};
ghost use Rattle.hp_model.specs.declared.accesses.Answer.TheVariants.{Value};
ghost use Rattle.hp_model.specs.declared.entries.Event.{Event};
ghost use Rattle.hp_model.specs.declared.entries.Event.TheVariants.{Do};
ghost use Rattle.hp_model.specs.declared.entries.Entry.{Entry};
ghost use Rattle.hp_model.specs.Platform.{IsFit};
ghost use Rattle.hp_model.specs.Boot.{is_handed};
ghost use Rattle.hp_model.specs.State.{State};
ghost use Rattle.hp_model.specs.Step.{After, step};
ghost use Rattle.hp_model.specs.Runs.{run_from};
ghost use Rattle.hp_model.specs.Visible.{IsAlike, is_made_in_smm};
ghost use Rattle.hp_secrecy.specs.Worked.{two, arrived, entered, handed_over, stored_outside, state_in, answer_in};
ghost use Rattle.hp_secrecy.specs.Shielded.{AreTwins, StaysInside, StaysShielded, IsAlwaysShielded, events_of, GoAlike, GoOnAlike};

/// Two states that agree in all that is visible, each of them shielded, make the same event: they agree again in all that is visible, and answer an access
/// made outside SMM alike. An event outside SMM is a step of both or of neither.
pub fn a_step_keeps_secrets()
    ensures state { (p : Platform) (s t : State) (e : Event) (a b : After) → IsFit p → AreTwins p s t → step p s e ≡ Some a → step p t e ≡ Some b → IsAlike a.state b.state }
    ensures answer { (p : Platform) (s t : State) (e : Event) (a b : After) → IsAlike s t → step p s e ≡ Some a → step p t e ≡ Some b → is_made_in_smm s e ≡ false → a.answer ≡ b.answer }
    ensures possible { (p : Platform) (s t : State) (e : Event) → IsAlike s t → is_handed s.stage ≡ true → is_made_in_smm s e ≡ false → is_some (step p s e) ≡ is_some (step p t e) }
{}

/// A step that reaches locked memory alone is not seen at all: the state after it agrees with the one before it in all that is visible.
pub fn what_is_done_inside_is_not_seen()
    ensures { (p : Platform) (s : State) (k : ℕ) (a : Access) (b : After) → is_handed s.stage ≡ true → StaysInside s.locks a → step p s (Do k a) ≡ Some b → IsAlike b.state s }
{}

/// Two such states that go on by the same events, each through shielded states, agree in the end in all that is visible, and so do their entries: outside
/// SMM in the answers too. So do two runs of a platform, from any states of theirs after the hand-over: each such state is shielded.
pub fn runs_keep_secrets()
    ensures states { (p : Platform) (es fs : List Entry) (s t u v : State) → IsFit p → StaysShielded p s es → StaysShielded p t fs → IsAlike s t → run_from p s es ≡ Some u → run_from p t fs ≡ Some v → events_of es ≡ events_of fs → GoAlike u v es fs }
    ensures shielded { (p : Platform) → IsFit p → IsAlwaysShielded p }
    ensures runs { (p : Platform) (xs ys es fs : List Entry) (s t u v : State) → IsFit p → GoOnAlike p xs ys es fs s t u v → GoAlike u v es fs }
{}

/// Two processors after the boot, the second in SMM: in the first run it has told so in its byte of locked memory, in the second it is about to. The two states
/// are twins, processor 0 reads all ones at that byte in both, and what the second processor does next is a step in the first alone. But
/// a store outside locked memory is seen.
pub fn worked_twins()
    ensures goes { (is_some arrived ≡ true) × (is_some entered ≡ true) }
    ensures twins { AreTwins two (state_in arrived) (state_in entered) }
    ensures reads { (answer_in arrived (Do 0 (Load 0x7f00000 4)) ≡ Some (Value 0xffffffff)) × (answer_in entered (Do 0 (Load 0x7f00000 4)) ≡ Some (Value 0xffffffff)) }
    ensures differ { (answer_in arrived (Do 1 (Load 0x7f02001 1)) ≡ Some (Value 0)) × (answer_in entered (Do 1 (Load 0x7f02001 1)) ≡ None) }
    ensures shown { (is_some stored_outside ≡ true) × (IsAlike (state_in stored_outside) (state_in handed_over) → ⊥) }
{}
