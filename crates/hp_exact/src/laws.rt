//! Laws over definitions: public functions with empty bodies, whose clauses are what is proved.

ghost use Rattle.std.specs.Prelude.{◌≡◌, true, false, not, List, Some};
ghost use Rattle.hp_model.specs.declared.platforms.Platform.{Platform};
ghost use Rattle.hp_model.specs.declared.entries.Entry.{Entry};
ghost use Rattle.hp_model.specs.Platform.{IsFit, is_late};
ghost use Rattle.hp_model.specs.State.{State};
ghost use Rattle.hp_model.specs.Runs.{run};
ghost use Rattle.hp_model.specs.Transitions.{transitions, at_each, at_each_state};
ghost use Rattle.hp_model.specs.Sessions.{is_disturbed};
ghost use Rattle.hp_model.specs.Outcomes.{each_told, loses_none, shows};
ghost use Rattle.hp_model.specs.Exact.{is_quiet, reports_truly, IsExact};
ghost use Rattle.hp_model.specs.Safety.{IsSafe};
ghost use Rattle.hp_exact.specs.Refusals.{is_blaming};

/// Under prompt delivery no processor outside SMM makes an access or takes INIT while a session has all others called in, which is
/// from its entry at S2 to its entry at E5, or to its end. So no session is disturbed: `prompt_sessions_are_undisturbed`.
pub fn sessions_are_quiet()
    ensures { (p : Platform) (es : List Entry) → IsFit p → at_each (is_quiet p) (transitions p es) ≡ true }
{}

/// Under prompt delivery no session is disturbed: up to each state of a run nobody outside SMM has written to the register block while
/// the session had all others called in. So what is said of undisturbed sessions holds of each, and none tells `Foreign` or
/// `StillPending`, the two refusals that blame others.
pub fn prompt_sessions_are_undisturbed()
    ensures undisturbed { (p : Platform) (es : List Entry) → IsFit p → is_late p.delivery ≡ false → at_each_state p (λ older s. not (is_disturbed p older)) (transitions p es) ≡ true }
    ensures blames_nobody { (p : Platform) (es : List Entry) → IsFit p → is_late p.delivery ≡ false → each_told p (λ t. not (is_blaming t.outcome)) (transitions p es) ≡ true }
{}

/// The processors of a session's reports rise strictly. While the session is undisturbed each report is true: its status byte was its
/// processor's before the entry at C4, its APIC ID is its processor's, and that isn't processor 0. So under both deliveries.
pub fn reports_are_true()
    ensures { (p : Platform) (es : List Entry) → IsFit p → at_each (reports_truly p) (transitions p es) ≡ true }
{}

/// While the session is undisturbed nobody becomes absent in the entries of an outcome, unless it tells an eject.
pub fn outcomes_lose_none()
    ensures { (p : Platform) (es : List Entry) → IsFit p → each_told p (loses_none p) (transitions p es) ≡ true }
{}

/// Each outcome of an add or an eject shows in its entries: in what they read and stored, and while the session is undisturbed in who has
/// its slot's tile or is absent. Of what is refused at once `Foreign` comes in disturbed sessions alone; of the others, which are what
/// the report's decision says, nothing is asked here.
pub fn outcomes_show()
    ensures { (p : Platform) (es : List Entry) → IsFit p → each_told p (shows p) (transitions p es) ≡ true }
{}

/// Sessions do what they tell, and nothing else.
pub fn sessions_are_exact()
    ensures { (p : Platform) (es : List Entry) → IsFit p → IsExact p es }
{}

/// Every run is safe: every instruction executed in SMM lies in SMRAM locked before it, no two processors hold one relocated SMBASE, a processor's
/// SMBASE changes only after passing the gate while the monarch had named its APIC ID, and in each undisturbed session completed adds and ejects
/// change exactly the processors reported, each refusal naming its fact.
pub fn runs_are_safe()
    ensures { (p : Platform) (es : List Entry) (s : State) → IsFit p → run p es ≡ Some s → IsSafe p es }
{}
