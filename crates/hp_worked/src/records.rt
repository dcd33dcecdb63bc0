//! Laws over definitions, computed on the monarch's record alone: public functions with empty bodies.

ghost use Rattle.std.specs.Prelude.{◌≡◌, [], ◌∷◌, ◌++◌};
ghost use Rattle.hp_model.specs.declared.accesses.Answer.TheVariants.{Quiet};
ghost use Rattle.hp_model.specs.declared.labels.Label.TheVariants.{T, E0, E1, E2, E4a, E4b, E4c, E4d, E4e, E4f, E4g, E4h, E5};
ghost use Rattle.hp_model.specs.declared.outcomes.Outcome.TheVariants.{Ejected, Refused};
ghost use Rattle.hp_model.specs.declared.outcomes.Refusal.TheVariants.{Foreign, StillPending};
ghost use Rattle.hp_worked.specs.Fed.{fed, labels_fed, answered_for_another, answered_past_the_last, late_platform, ejecting, ejecting_with};

/// An answer that names another processor's APIC ID is told as foreign, and one that names no processor ends the collection; an eject under late delivery
/// is told as still pending where the status says so, and else goes on to its end.
#[tactic(auto, using(crate::proofs::FedRecords::records))]
pub fn monarch_believes_no_answer()
    ensures answered_for_another_label { answered_for_another.label ≡ T }
    ensures answered_for_another_outcome { answered_for_another.outcome ≡ Refused (Foreign 1 0) }
    ensures answered_for_another_cpu { answered_for_another.collection.cpu ≡ 2 }
    ensures answered_past_the_last_label { answered_past_the_last.label ≡ E5 }
    ensures pending_outcome { (fed late_platform (ejecting_with 0x11) ejecting).outcome ≡ Refused (StillPending 1 0x11) }
    ensures pending_labels { labels_fed late_platform (ejecting_with 0x11) ejecting ≡ E0 ∷ E1 ∷ E2 ∷ E4a ∷ E4b ∷ E4f ∷ E4g ∷ E4h ∷ T ∷ [] }
    ensures gone_outcome { (fed late_platform (ejecting_with 0 ++ Quiet ∷ Quiet ∷ []) ejecting).outcome ≡ Ejected 1 1 1 }
    ensures gone_labels { labels_fed late_platform (ejecting_with 0 ++ Quiet ∷ Quiet ∷ []) ejecting ≡ E0 ∷ E1 ∷ E2 ∷ E4a ∷ E4b ∷ E4f ∷ E4g ∷ E4c ∷ E4d ∷ E4e ∷ T ∷ [] }
{}
