//! Laws over definitions: public functions with empty bodies, whose clauses are what is proved.

ghost use Rattle.std.specs.Prelude.{◌≡◌, true, List, Some};
ghost use Rattle.hp_model.specs.declared.platforms.Platform.{Platform};
ghost use Rattle.hp_model.specs.declared.entries.Entry.{Entry};
ghost use Rattle.hp_model.specs.Platform.{IsFit};
ghost use Rattle.hp_model.specs.State.{State};
ghost use Rattle.hp_model.specs.Runs.{run};
ghost use Rattle.hp_model.specs.Transitions.{transitions, at_each, at_each_state};
ghost use Rattle.hp_model.specs.Smbases.{IsDistinct, IsNamed};
ghost use Rattle.hp_model.specs.Outcomes.{answers, each_told};
ghost use Rattle.hp_model.specs.Exact.{moves_held, answers_all};
ghost use Rattle.hp_model.specs.Sessions.{flag_agrees};
ghost use Rattle.hp_safety.specs.Departures.{leaves_by_block};
ghost use Rattle.hp_model.specs.Safety.{IsGuarded, IsLockedBefore};

/// Every instruction executed in SMM lies in four bytes of SMRAM that were locked before it, and no write has covered them since; and
/// nobody in SMM is without a row of its handler. So in each run of each platform that fits, whatever the agents and the host do.
pub fn locked_before()
    ensures { (p : Platform) (es : List Entry) (s : State) → IsFit p → run p es ≡ Some s → IsLockedBefore p es }
{}

/// In each state each present processor has the default SMBASE, or that of its own slot: the tile at the place of its APIC ID among
/// those that the run has given a slot, the boot processors' first and then each that an entry at N7 has stored. No two present
/// processors have the same one, but for the default.
pub fn no_two_smbases()
    ensures { (p : Platform) (es : List Entry) (s : State) → IsFit p → run p es ≡ Some s → IsDistinct p es }
{}

/// Each entry that changes the SMBASE of a processor that is present before and after it is that processor's RSM at F6. Since its
/// last SMI entry the processor found its own APIC ID in the gate, at F1; the last entry before that which wrote the gate stored this
/// APIC ID there, at N7; and by then the monarch's session had a report of this APIC ID, enabled, with an insert event and no eject
/// handed to the firmware.
pub fn smbase_changes_past_the_gate()
    ensures { (p : Platform) (es : List Entry) (s : State) → IsFit p → run p es ≡ Some s → IsNamed p es }
{}

/// Each run is guarded: the three laws above, together.
pub fn runs_are_guarded()
    ensures { (p : Platform) (es : List Entry) (s : State) → IsFit p → run p es ≡ Some s → IsGuarded p es }
{}

/// Each SMBASE that changes does so by its processor's own RSM, and the APIC ID of that processor is held just before, as the entries
/// say: that of the running add, or else the one that the last add to fail has left.
pub fn smbase_changes_while_held()
    ensures { (p : Platform) (es : List Entry) (s : State) → IsFit p → run p es ≡ Some s → at_each (moves_held p) (transitions p es) ≡ true }
{}

/// A session that comes to E5, where the monarch lets everybody go, has told as many outcomes as it has made reports.
pub fn sessions_answer_all()
    ensures { (p : Platform) (es : List Entry) (s : State) → IsFit p → run p es ≡ Some s → at_each (answers_all p) (transitions p es) ≡ true }
{}

/// Each outcome answers the session's first report that has none yet, by the decision that the platform and the entries give this report
/// when it is taken up: it is the outcome that the decision tells, or one in which an add or an eject of that report may end.
pub fn outcomes_answer_reports()
    ensures { (p : Platform) (es : List Entry) (s : State) → IsFit p → run p es ≡ Some s → each_told p answers (transitions p es) ≡ true }
{}

/// In each state of a session that has all other processors called in, from its entry at S2 to that at E5, the state's flag is set
/// exactly where the entries show that a processor outside SMM has written to the register block meanwhile.
pub fn disturbed_sessions_are_flagged()
    ensures { (p : Platform) (es : List Entry) (s : State) → IsFit p → run p es ≡ Some s → at_each_state p (flag_agrees p) (transitions p es) ≡ true }
{}

/// Whoever becomes absent does so by a write of the register block: the monarch's at E4b, or one from outside SMM.
pub fn processors_leave_by_the_register_block()
    ensures { (p : Platform) (es : List Entry) (s : State) → IsFit p → run p es ≡ Some s → at_each (leaves_by_block p) (transitions p es) ≡ true }
{}
