//! Laws over definitions: public functions with empty bodies, whose clauses are what is proved.

ghost use Rattle.std.specs.Prelude.{◌≡◌, ◌⊎◌, ◌≤◌, ◌+◌, ℕ, [], length, true, false};
ghost use Rattle.hp_model.specs.declared.labels.Label.{Label};
ghost use Rattle.hp_model.specs.declared.labels.Label.TheVariants.{S0, S1, S2, S4, NB, E0, E2, E4a, E4b, E4c, E4g, E5, E6};
ghost use Rattle.hp_model.specs.Handlers.{Seat, next_at};
ghost use Rattle.hp_model.specs.declared.labels.Handler.TheVariants.{Monarch as Monarchs};
ghost use Rattle.hp_model.specs.Labels.{handler_of};
ghost use Rattle.hp_model.specs.Monarch.{Monarch};
ghost use Rattle.hp_model.specs.SharedBytes.{Layout};
ghost use Rattle.hp_monarch.specs.Order.{may_follow};
ghost use Rattle.hp_monarch.specs.Session.{TakesReports, reports_left};

/// Whatever was answered: release bytes become 1 (E6) only once the session byte was cleared (E5), which comes only once the SMI
/// command was read (S4), or where no report is left. The SMI to all others (S2) goes out only once the release byte of the last bound
/// slot is 0 (S1), or where no other slot is bound (S0). An add (NB) and an eject (E0) begin only where the collection has ended or an
/// outcome was told.
#[tactic(auto, using(crate::proofs::Order::order))]
pub fn a_session_keeps_its_order()
    ensures release { (y : Layout) (x : Seat) (r : Monarch) (l : Label) (v : ℕ) → handler_of l ≡ Monarchs → r.label ≡ l →
        (next_at y x r l v).label ≡ E6 → (l ≡ E5) ⊎ (l ≡ E6) }
    ensures session { (y : Layout) (x : Seat) (r : Monarch) (l : Label) (v : ℕ) → handler_of l ≡ Monarchs → r.label ≡ l →
        (next_at y x r l v).label ≡ E5 → (l ≡ S4) ⊎ (TakesReports l × (reports_left (next_at y x r l v).monarch ≡ [])) }
    ensures broadcast { (y : Layout) (x : Seat) (r : Monarch) (l : Label) (v : ℕ) → handler_of l ≡ Monarchs → r.label ≡ l →
        (next_at y x r l v).label ≡ S2 → ((l ≡ S0) × (length r.slots.bound ≤ 1)) ⊎ ((l ≡ S1) × (length r.slots.bound ≤ r.slot + 1)) }
    ensures add { (y : Layout) (x : Seat) (r : Monarch) (l : Label) (v : ℕ) → handler_of l ≡ Monarchs → r.label ≡ l →
        (next_at y x r l v).label ≡ NB → TakesReports l }
    ensures eject { (y : Layout) (x : Seat) (r : Monarch) (l : Label) (v : ℕ) → handler_of l ≡ Monarchs → r.label ≡ l →
        (next_at y x r l v).label ≡ E0 → TakesReports l }
{}

/// Whatever was answered: a processor is selected (E4a) and ejected (E4b) only once its parked byte was read as 1 (E2). Its bytes are
/// cleared (E4c) only once control was written, and under late delivery only once its status was read after that (E4g).
#[tactic(auto, using(crate::proofs::Order::order))]
pub fn an_eject_keeps_its_order()
    ensures selector { (y : Layout) (x : Seat) (r : Monarch) (l : Label) (v : ℕ) → handler_of l ≡ Monarchs → r.label ≡ l →
        (next_at y x r l v).label ≡ E4a → (l ≡ E2) × (v ≡ 1) }
    ensures control { (y : Layout) (x : Seat) (r : Monarch) (l : Label) (v : ℕ) → handler_of l ≡ Monarchs → r.label ≡ l →
        (next_at y x r l v).label ≡ E4b → l ≡ E4a }
    ensures clearing { (y : Layout) (x : Seat) (r : Monarch) (l : Label) (v : ℕ) → handler_of l ≡ Monarchs → r.label ≡ l →
        (next_at y x r l v).label ≡ E4c → ((l ≡ E4b) × (y.late ≡ false)) ⊎ (l ≡ E4g) }
{}

/// Whatever was answered, each row of the handlers leads to one of the labels that are written down for it.
#[tactic(auto, using(crate::proofs::Order::follows))]
pub fn each_row_leads_to_a_successor()
    ensures { (y : Layout) (x : Seat) (r : Monarch) (l : Label) (v : ℕ) → (handler_of l ≡ Monarchs → r.label ≡ l) →
        may_follow l (next_at y x r l v).label ≡ true }
{}
