//! Laws over definitions, computed on worked traces of adds: public functions with empty bodies.

ghost use Rattle.std.specs.Prelude.{◌≡◌, true, false, [], ◌∷◌, Some, length};
ghost use Rattle.hp_worked.specs.Asked.{own_run, is_run, stops_at, is_nobody_astray, is_locked_at_each, is_untouched_at_each};
ghost use Rattle.hp_worked.specs.Files.{an_add_file, add_with_a_stored_pen_byte_file, two_adds_file, two_new_processors_file, gate_held_file, insert_and_eject_file, disabled_processor_file, cleared_event_file, already_known_file, not_at_gate_file};
ghost use Rattle.hp_worked.specs.Adds.{an_add, add_with_a_stored_pen_byte, told_without_arrival, opened_too_early, with_another_tile, without_its_own_smi, with_the_gate_left_open};
ghost use Rattle.hp_worked.specs.TwoAdds.{two_adds};
ghost use Rattle.hp_worked.specs.TwoNewProcessors.{two_new_processors, reported_twice};
ghost use Rattle.hp_worked.specs.GateHeld.{gate_held, added_while_held};
ghost use Rattle.hp_worked.specs.RefusedAdds.{insert_and_eject, disabled_processor, cleared_event, already_known, not_at_gate, added_again, tried_a_fourth_time};

/// Each of these traces of collection and adds, written down by hand, is a run of its platform: two adds that go through,
/// one that a second new processor spoils once, one that fails and holds the gate, and reports that are refused.
#[tactic(auto, using(crate::proofs::AddsRun::runs_of_adds))]
pub fn worked_adds_are_runs()
    ensures an_add { is_run an_add_file an_add ≡ true }
    ensures add_with_a_stored_pen_byte { is_run add_with_a_stored_pen_byte_file add_with_a_stored_pen_byte ≡ true }
    ensures two_adds { is_run two_adds_file two_adds ≡ true }
    ensures two_new_processors { is_run two_new_processors_file two_new_processors ≡ true }
    ensures gate_held { is_run gate_held_file gate_held ≡ true }
    ensures insert_and_eject { is_run insert_and_eject_file insert_and_eject ≡ true }
    ensures disabled_processor { is_run disabled_processor_file disabled_processor ≡ true }
    ensures cleared_event { is_run cleared_event_file cleared_event ≡ true }
    ensures already_known { is_run already_known_file already_known ≡ true }
    ensures not_at_gate { is_run not_at_gate_file not_at_gate ≡ true }
{}

/// And each is what the schedule makes of its file, entry for entry, to the end.
#[tactic(auto, using(crate::proofs::AddsScheduled::scheduled_adds))]
pub fn files_make_worked_adds()
    ensures an_add { own_run an_add_file ≡ an_add }
    ensures add_with_a_stored_pen_byte { own_run add_with_a_stored_pen_byte_file ≡ add_with_a_stored_pen_byte }
    ensures two_adds { own_run two_adds_file ≡ two_adds }
    ensures two_new_processors { own_run two_new_processors_file ≡ two_new_processors }
    ensures gate_held { own_run gate_held_file ≡ gate_held }
    ensures insert_and_eject { own_run insert_and_eject_file ≡ insert_and_eject }
    ensures disabled_processor { own_run disabled_processor_file ≡ disabled_processor }
    ensures cleared_event { own_run cleared_event_file ≡ cleared_event }
    ensures already_known { own_run already_known_file ≡ already_known }
    ensures not_at_gate { own_run not_at_gate_file ≡ not_at_gate }
{}

/// These are no runs, each with one thing changed.
#[tactic(auto, using(crate::proofs::AddsChanged::no_runs_of_adds))]
pub fn changed_adds_are_none()
    ensures told_without_arrival { is_run an_add_file told_without_arrival ≡ false }
    ensures opened_too_early { is_run an_add_file opened_too_early ≡ false }
    ensures with_another_tile { is_run an_add_file with_another_tile ≡ false }
    ensures without_its_own_smi { is_run an_add_file without_its_own_smi ≡ false }
    ensures with_the_gate_left_open { is_run an_add_file with_the_gate_left_open ≡ false }
    ensures reported_twice { is_run two_new_processors_file reported_twice ≡ false }
    ensures added_while_held { is_run gate_held_file added_while_held ≡ false }
    ensures added_again { is_run already_known_file added_again ≡ false }
    ensures tried_a_fourth_time { is_run not_at_gate_file tried_a_fourth_time ≡ false }
{}

/// They stop at the change: so many entries, counted from 0, are steps, and the next is none. Where one is left out,
/// the other processor goes on by one before.
#[tactic(auto, using(crate::proofs::AddsChanged::adds_stop))]
pub fn changed_adds_stop_at_the_change()
    ensures told_without_arrival { stops_at an_add_file told_without_arrival ≡ Some 63 }
    ensures opened_too_early { stops_at an_add_file opened_too_early ≡ Some 42 }
    ensures with_another_tile { stops_at an_add_file with_another_tile ≡ Some 42 }
    ensures without_its_own_smi { stops_at an_add_file without_its_own_smi ≡ Some 59 }
    ensures with_the_gate_left_open { stops_at an_add_file with_the_gate_left_open ≡ Some 62 }
    ensures reported_twice { stops_at two_new_processors_file reported_twice ≡ Some 47 }
    ensures added_while_held { stops_at gate_held_file added_while_held ≡ Some 308 }
    ensures added_again { stops_at already_known_file added_again ≡ Some 101 }
    ensures tried_a_fourth_time { stops_at not_at_gate_file tried_a_fourth_time ≡ Some 79 }
{}

/// In no state of these traces is one of their processors astray, not one at the default SMBASE either.
#[tactic(auto, using(crate::proofs::AddWays::not_astray_in_adds))]
pub fn nobody_is_astray_in_worked_adds()
    ensures entries_of_an_add { length an_add ≡ 82 }
    ensures entries_of_two_new_processors { length two_new_processors ≡ 175 }
    ensures entries_of_gate_held { length gate_held ≡ 652 }
    ensures an_add { is_nobody_astray an_add_file (0 ∷ 1 ∷ []) an_add ≡ true }
    ensures two_new_processors { is_nobody_astray two_new_processors_file (0 ∷ 1 ∷ 2 ∷ []) two_new_processors ≡ true }
    ensures gate_held { is_nobody_astray gate_held_file (0 ∷ 1 ∷ 2 ∷ 3 ∷ 4 ∷ []) gate_held ≡ true }
{}

/// Each entry made in SMM in these traces finds the four bytes at its instruction address locked, and no write has
/// covered one of them since the boot.
#[tactic(auto, using(crate::proofs::AddWays::locked_in_adds))]
pub fn instructions_of_worked_adds_are_locked()
    ensures an_add { is_locked_at_each an_add_file an_add ≡ true }
    ensures an_add_untouched { is_untouched_at_each an_add_file an_add ≡ true }
    ensures two_new_processors { is_locked_at_each two_new_processors_file two_new_processors ≡ true }
    ensures two_new_processors_untouched { is_untouched_at_each two_new_processors_file two_new_processors ≡ true }
    ensures gate_held { is_locked_at_each gate_held_file gate_held ≡ true }
    ensures gate_held_untouched { is_untouched_at_each gate_held_file gate_held ≡ true }
{}
