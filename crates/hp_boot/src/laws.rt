//! Laws over definitions: public functions with empty bodies, whose clauses are what is proved.

ghost use Rattle.std.specs.Prelude.{◌≡◌, true, false, List, Some, None};
ghost use Rattle.hp_model.specs.declared.platforms.Platform.{Platform};
ghost use Rattle.hp_model.specs.declared.entries.Event.{Event};
ghost use Rattle.hp_model.specs.declared.outcomes.BootFact.{BootFact};
ghost use Rattle.hp_model.specs.Platform.{IsFit};
ghost use Rattle.hp_model.specs.Boot.{Refused, is_booting};
ghost use Rattle.hp_model.specs.State.{State};
ghost use Rattle.hp_model.specs.Step.{step};
ghost use Rattle.hp_model.specs.Schedule.{booted, boot_fact};
ghost use Rattle.hp_model.specs.Voices.{Voice};
ghost use Rattle.hp_boot.specs.Ending.{hands_over, refusal_of, end_of, StopsAt};

/// On each platform that fits, whatever voices its processors have, the boot is over after its 27 turns, 29 with a TSEG of 48 MiB, with
/// the fact that the platform says, or handed over with all supported features requested. So a platform is handed over that is modern,
/// whose default area can be locked, whose TSEG can have its size and whose features negotiate.
#[tactic(auto, using(crate::proofs::Ends::ends))]
pub fn boot_ends()
    ensures stage { (p : Platform) (vs : List Voice) → IsFit p → (booted p vs).scene.state.stage ≡ end_of p }
    ensures fact { (p : Platform) (vs : List Voice) → IsFit p → boot_fact p vs ≡ refusal_of p }
    ensures over { (p : Platform) (vs : List Voice) → IsFit p → is_booting (booted p vs).scene.state.stage ≡ false }
    ensures hands_over { (p : Platform) (vs : List Voice) → IsFit p → hands_over p ≡ true → boot_fact p vs ≡ None }
{}

/// No other platform is handed over.
#[tactic(auto, using(crate::proofs::Ends::handed_over_alone))]
pub fn no_other_boot_is_handed_over()
    ensures { (p : Platform) (vs : List Voice) → IsFit p → boot_fact p vs ≡ None → hands_over p ≡ true }
{}

/// Once the boot is refused the machine has no step at all, for no processor and no host event.
#[tactic(auto, using(crate::proofs::Turns::refused_stays))]
pub fn nothing_steps_after_a_refusal()
    ensures { (p : Platform) (s : State) (fact : BootFact) (e : Event) → s.stage ≡ Refused fact → step p s e ≡ None }
{}

/// A boot that is refused ends with the access that read the fact's value, on processor 0 outside SMM, and the value isn't
/// the one that the boot goes on with: 0 of command data 2, 1 of register 9c and of features-ok, 30 of register 50.
#[tactic(auto, using(crate::proofs::Stops::boot_stops))]
pub fn boot_stops_at_its_fact()
    ensures { (p : Platform) (vs : List Voice) (fact : BootFact) → boot_fact p vs ≡ Some fact → StopsAt fact (booted p vs).entries }
{}
