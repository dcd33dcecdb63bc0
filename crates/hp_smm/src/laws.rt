//! Laws over definitions: public functions with empty bodies, whose clauses are what is proved.

ghost use Rattle.std.specs.Prelude.{◌≡◌, ◌⊎◌, ℕ};
ghost use Rattle.hp_model.specs.declared.labels.Label.{Label};
ghost use Rattle.hp_model.specs.declared.labels.Label.TheVariants.{R3, R4, R5};
ghost use Rattle.hp_model.specs.Handlers.{Seat, next_at};
ghost use Rattle.hp_model.specs.declared.labels.Handler.TheVariants.{Relocated};
ghost use Rattle.hp_model.specs.Labels.{handler_of};
ghost use Rattle.hp_model.specs.Monarch.{Monarch};
ghost use Rattle.hp_model.specs.SharedBytes.{Layout};

/// A processor in the relocated handler clears its arrived byte (R4) only once it has read 1 in its release byte, and leaves (R5)
/// only after that.
#[tactic(auto, using(crate::proofs::Leaving::leaves))]
pub fn a_processor_leaves_once_it_is_released()
    ensures released { (y : Layout) (x : Seat) (r : Monarch) (l : Label) (v : ℕ) → handler_of l ≡ Relocated →
        (next_at y x r l v).label ≡ R4 → (l ≡ R3) × (v ≡ 1) }
    ensures gone { (y : Layout) (x : Seat) (r : Monarch) (l : Label) (v : ℕ) → handler_of l ≡ Relocated →
        (next_at y x r l v).label ≡ R5 → (l ≡ R4) ⊎ (l ≡ R5) }
{}
