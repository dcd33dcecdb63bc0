//! Laws of a gate: public functions with empty bodies, whose clauses are what is proved.

ghost use Rattle.std.specs.Prelude.{◌≡◌};
ghost use Rattle.atomic_table.specs.Table.{State};
ghost use Rattle.hp_gate.specs.Rule.{Kept};
ghost use Rattle.hp_gate.specs.Sound.{IsSound, SameWords};
ghost use Rattle.hp_gate.specs.declared.views.View.{View};

/// Between any two steps each opening of the gate was passed at most once, only by the seat of the APIC ID that it names; and what that
/// seat loads as its base between its pass and its arrival is that opening's. What else words and views say of one another is in `IsSound`.
#[tactic(auto, using(crate::proofs::Soundness::sound))]
pub fn each_opening_is_passed_once()
    ensures { (s : State (Unit {0}) View) → Kept s → IsSound s }
{}

/// What the seats know tells the words: two tables that keep the rule, in which all seats have the same views, have the same gate, flag and
/// arrived, and the same base while the monarch isn't idle. So no step changes a word but by what it notes.
pub fn views_tell_the_words()
    ensures { (s t : State (Unit {0}) View) → Kept s → Kept t → s.views ≡ t.views → SameWords s t }
{}
