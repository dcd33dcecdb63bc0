//! The laws of safety, computed on traces of firmware that goes wrong at one step: public functions with empty bodies.

ghost use Rattle.std.specs.Prelude.{◌≡◌, true, false};
ghost use Rattle.hp_worked.specs.Judged.{verdicts_of_record, is_record, all_well};
ghost use Rattle.hp_worked.specs.Asked.{is_run};
ghost use Rattle.hp_worked.specs.Files.{an_add_file, two_adds_file, two_new_processors_file, insert_and_eject_file, not_at_gate_file, not_parked_file, wide_add_file};
ghost use Rattle.hp_worked.specs.WrongSteps.{passed_the_closed_gate, passed_once_it_was_shut, left_a_cell_early, passed_for_another, added_before_its_rsm, report_left_unanswered, ejected_and_told_as_not_parked, foreign_though_its_own, apic_id_not_asked_for, given_up_after_two_attempts, added_with_an_eject, not_parked_though_it_is};

/// The machine alone can make each entry of these traces, with its answer.
#[tactic(auto, using(crate::proofs::WrongStepsRefused::steps_recorded))]
pub fn wrong_steps_are_recorded()
    ensures passed_the_closed_gate { is_record an_add_file passed_the_closed_gate ≡ true }
    ensures passed_once_it_was_shut { is_record not_at_gate_file passed_once_it_was_shut ≡ true }
    ensures left_a_cell_early { is_record an_add_file left_a_cell_early ≡ true }
    ensures passed_for_another { is_record two_new_processors_file passed_for_another ≡ true }
    ensures added_before_its_rsm { is_record an_add_file added_before_its_rsm ≡ true }
    ensures report_left_unanswered { is_record two_adds_file report_left_unanswered ≡ true }
    ensures ejected_and_told_as_not_parked { is_record not_parked_file ejected_and_told_as_not_parked ≡ true }
    ensures foreign_though_its_own { is_record an_add_file foreign_though_its_own ≡ true }
    ensures apic_id_not_asked_for { is_record wide_add_file apic_id_not_asked_for ≡ true }
    ensures given_up_after_two_attempts { is_record not_at_gate_file given_up_after_two_attempts ≡ true }
    ensures added_with_an_eject { is_record insert_and_eject_file added_with_an_eject ≡ true }
    ensures not_parked_though_it_is { is_record not_parked_file not_parked_though_it_is ≡ true }
{}

/// None of them is a run: a handler wants something else.
#[tactic(auto, using(crate::proofs::WrongStepsRefused::steps_no_runs))]
pub fn wrong_steps_are_no_runs()
    ensures passed_the_closed_gate { is_run an_add_file passed_the_closed_gate ≡ false }
    ensures passed_once_it_was_shut { is_run not_at_gate_file passed_once_it_was_shut ≡ false }
    ensures left_a_cell_early { is_run an_add_file left_a_cell_early ≡ false }
    ensures passed_for_another { is_run two_new_processors_file passed_for_another ≡ false }
    ensures added_before_its_rsm { is_run an_add_file added_before_its_rsm ≡ false }
    ensures report_left_unanswered { is_run two_adds_file report_left_unanswered ≡ false }
    ensures ejected_and_told_as_not_parked { is_run not_parked_file ejected_and_told_as_not_parked ≡ false }
    ensures foreign_though_its_own { is_run an_add_file foreign_though_its_own ≡ false }
    ensures apic_id_not_asked_for { is_run wide_add_file apic_id_not_asked_for ≡ false }
    ensures given_up_after_two_attempts { is_run not_at_gate_file given_up_after_two_attempts ≡ false }
    ensures added_with_an_eject { is_run insert_and_eject_file added_with_an_eject ≡ false }
    ensures not_parked_though_it_is { is_run not_parked_file not_parked_though_it_is ≡ false }
{}

/// And the laws refuse each of them. With the other traces of wrong firmware each of the eleven tests is false of one at least.
#[tactic(auto, using(crate::proofs::WrongStepsRefused::steps_refused))]
pub fn wrong_steps_are_refused()
    ensures passed_the_closed_gate { verdicts_of_record an_add_file passed_the_closed_gate ≡ record all_well { named = false } }
    ensures passed_once_it_was_shut { verdicts_of_record not_at_gate_file passed_once_it_was_shut ≡ record all_well { named = false } }
    ensures left_a_cell_early { verdicts_of_record an_add_file left_a_cell_early ≡ record all_well { named = false } }
    ensures passed_for_another { verdicts_of_record two_new_processors_file passed_for_another ≡ record all_well { own = false; apart = false; named = false; held_alone = false } }
    ensures added_before_its_rsm { verdicts_of_record an_add_file added_before_its_rsm ≡ record all_well { outcomes_show = false; held_alone = false } }
    ensures report_left_unanswered { verdicts_of_record two_adds_file report_left_unanswered ≡ record all_well { all_answered = false } }
    ensures ejected_and_told_as_not_parked { verdicts_of_record not_parked_file ejected_and_told_as_not_parked ≡ record all_well { none_lost = false } }
    ensures foreign_though_its_own { verdicts_of_record an_add_file foreign_though_its_own ≡ record all_well { outcomes_answer = false; outcomes_show = false } }
    ensures apic_id_not_asked_for { verdicts_of_record wide_add_file apic_id_not_asked_for ≡ record all_well { reports = false; outcomes_show = false } }
    ensures given_up_after_two_attempts { verdicts_of_record not_at_gate_file given_up_after_two_attempts ≡ record all_well { outcomes_show = false } }
    ensures added_with_an_eject { verdicts_of_record insert_and_eject_file added_with_an_eject ≡ record all_well { named = false; outcomes_answer = false } }
    ensures not_parked_though_it_is { verdicts_of_record not_parked_file not_parked_though_it_is ≡ record all_well { outcomes_show = false } }
{}
