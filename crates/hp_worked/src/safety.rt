//! The laws of safety, computed on worked traces and on traces of wrong firmware: public functions with empty bodies.

ghost use Rattle.std.specs.Prelude.{◌≡◌, true, false};
ghost use Rattle.hp_worked.specs.Judged.{verdicts_of_run, verdicts_of_record, is_record, all_well};
ghost use Rattle.hp_worked.specs.Asked.{is_run, is_none_astray, is_untouched_at_each};
ghost use Rattle.hp_worked.specs.Files.{already_known_file, an_add_file, disabled_processor_file, eject_led_astray_file, ejected_and_added_again_file, few_looks_file, gate_held_file, insert_and_eject_file, late_alone_file, no_unplug_file, not_arrived_file, not_at_gate_file, not_known_file, not_parked_file, rendezvous_file, selector_taken_away_file, two_adds_file, two_new_processors_file, wide_add_file};
ghost use Rattle.hp_worked.specs.Adds.{an_add};
ghost use Rattle.hp_worked.specs.Ejects.{ejected_and_added_again};
ghost use Rattle.hp_worked.specs.GateHeld.{gate_held};
ghost use Rattle.hp_worked.specs.Late.{eject_led_astray, late_alone, selector_taken_away};
ghost use Rattle.hp_worked.specs.RefusedAdds.{already_known, disabled_processor, insert_and_eject, not_at_gate};
ghost use Rattle.hp_worked.specs.RefusedEjects.{no_unplug, not_arrived, not_known, not_parked};
ghost use Rattle.hp_worked.specs.Rendezvous.{rendezvous};
ghost use Rattle.hp_worked.specs.TwoAdds.{two_adds};
ghost use Rattle.hp_worked.specs.TwoNewProcessors.{two_new_processors};
ghost use Rattle.hp_worked.specs.Wide.{wide_add};
ghost use Rattle.hp_worked.specs.WrongBodies.{default_area_left_open, added_at_the_flag, no_smi_to_itself, added_beside_a_held_one, slot_given_away, ejected_outside, called_in_before_release, collected_past_the_end};

/// Eleven tests are true of these runs: locked instructions, SMBASEs of one's own, apart and named, and of sessions quiet, true reports, an outcome
/// for each, outcomes that show in their entries, nobody lost, and no SMBASE changed but the held one. They are all of the laws of safety, but for what the
/// law of locked instructions says of writes and of who is astray.
#[tactic(auto, using(crate::proofs::SafeTraces::safe_traces))]
pub fn worked_traces_are_safe()
    ensures an_add { verdicts_of_run an_add_file an_add ≡ all_well }
    ensures two_adds { verdicts_of_run two_adds_file two_adds ≡ all_well }
    ensures two_new_processors { verdicts_of_run two_new_processors_file two_new_processors ≡ all_well }
    ensures gate_held { verdicts_of_run gate_held_file gate_held ≡ all_well }
    ensures insert_and_eject { verdicts_of_run insert_and_eject_file insert_and_eject ≡ all_well }
    ensures disabled_processor { verdicts_of_run disabled_processor_file disabled_processor ≡ all_well }
    ensures already_known { verdicts_of_run already_known_file already_known ≡ all_well }
    ensures not_at_gate { verdicts_of_run not_at_gate_file not_at_gate ≡ all_well }
    ensures ejected_and_added_again { verdicts_of_run ejected_and_added_again_file ejected_and_added_again ≡ all_well }
    ensures no_unplug { verdicts_of_run no_unplug_file no_unplug ≡ all_well }
    ensures not_known { verdicts_of_run not_known_file not_known ≡ all_well }
    ensures not_arrived { verdicts_of_run not_arrived_file not_arrived ≡ all_well }
    ensures not_parked { verdicts_of_run not_parked_file not_parked ≡ all_well }
    ensures late_alone { verdicts_of_run late_alone_file late_alone ≡ all_well }
    ensures selector_taken_away { verdicts_of_run selector_taken_away_file selector_taken_away ≡ all_well }
    ensures eject_led_astray { verdicts_of_run eject_led_astray_file eject_led_astray ≡ all_well }
    ensures wide_add { verdicts_of_run wide_add_file wide_add ≡ all_well }
{}

/// In these fourteen of them no write has covered one of the four bytes at the instruction address of an entry made in SMM since the boot. The other three
/// are in `instructions_of_worked_adds_are_locked`.
#[tactic(auto, using(crate::proofs::Untouched::untouched))]
pub fn worked_traces_are_untouched()
    ensures two_adds { is_untouched_at_each two_adds_file two_adds ≡ true }
    ensures insert_and_eject { is_untouched_at_each insert_and_eject_file insert_and_eject ≡ true }
    ensures disabled_processor { is_untouched_at_each disabled_processor_file disabled_processor ≡ true }
    ensures already_known { is_untouched_at_each already_known_file already_known ≡ true }
    ensures not_at_gate { is_untouched_at_each not_at_gate_file not_at_gate ≡ true }
    ensures ejected_and_added_again { is_untouched_at_each ejected_and_added_again_file ejected_and_added_again ≡ true }
    ensures no_unplug { is_untouched_at_each no_unplug_file no_unplug ≡ true }
    ensures not_known { is_untouched_at_each not_known_file not_known ≡ true }
    ensures not_arrived { is_untouched_at_each not_arrived_file not_arrived ≡ true }
    ensures not_parked { is_untouched_at_each not_parked_file not_parked ≡ true }
    ensures late_alone { is_untouched_at_each late_alone_file late_alone ≡ true }
    ensures selector_taken_away { is_untouched_at_each selector_taken_away_file selector_taken_away ≡ true }
    ensures eject_led_astray { is_untouched_at_each eject_led_astray_file eject_led_astray ≡ true }
    ensures wide_add { is_untouched_at_each wide_add_file wide_add ≡ true }
{}

/// And in no state of them is one of their processors astray. The other three are in `nobody_is_astray_in_worked_adds`.
#[tactic(auto, using(crate::proofs::Untouched::none_astray))]
pub fn nobody_is_astray_in_safe_traces()
    ensures two_adds { is_none_astray two_adds_file two_adds ≡ true }
    ensures insert_and_eject { is_none_astray insert_and_eject_file insert_and_eject ≡ true }
    ensures disabled_processor { is_none_astray disabled_processor_file disabled_processor ≡ true }
    ensures already_known { is_none_astray already_known_file already_known ≡ true }
    ensures not_at_gate { is_none_astray not_at_gate_file not_at_gate ≡ true }
    ensures ejected_and_added_again { is_none_astray ejected_and_added_again_file ejected_and_added_again ≡ true }
    ensures no_unplug { is_none_astray no_unplug_file no_unplug ≡ true }
    ensures not_known { is_none_astray not_known_file not_known ≡ true }
    ensures not_arrived { is_none_astray not_arrived_file not_arrived ≡ true }
    ensures not_parked { is_none_astray not_parked_file not_parked ≡ true }
    ensures late_alone { is_none_astray late_alone_file late_alone ≡ true }
    ensures selector_taken_away { is_none_astray selector_taken_away_file selector_taken_away ≡ true }
    ensures eject_led_astray { is_none_astray eject_led_astray_file eject_led_astray ≡ true }
    ensures wide_add { is_none_astray wide_add_file wide_add ≡ true }
{}

/// The machine alone can make each entry of these traces of wrong firmware, with its answer.
#[tactic(auto, using(crate::proofs::WrongTraces::recorded))]
pub fn wrong_traces_are_recorded()
    ensures default_area_left_open { is_record an_add_file default_area_left_open ≡ true }
    ensures added_at_the_flag { is_record an_add_file added_at_the_flag ≡ true }
    ensures no_smi_to_itself { is_record an_add_file no_smi_to_itself ≡ true }
    ensures added_beside_a_held_one { is_record few_looks_file added_beside_a_held_one ≡ true }
    ensures slot_given_away { is_record two_adds_file slot_given_away ≡ true }
    ensures ejected_outside { is_record not_arrived_file ejected_outside ≡ true }
    ensures called_in_before_release { is_record rendezvous_file called_in_before_release ≡ true }
    ensures collected_past_the_end { is_record two_adds_file collected_past_the_end ≡ true }
{}

/// None of them is a run: a handler or the boot wants something else.
#[tactic(auto, using(crate::proofs::WrongTraces::no_runs))]
pub fn wrong_traces_are_no_runs()
    ensures default_area_left_open { is_run an_add_file default_area_left_open ≡ false }
    ensures added_at_the_flag { is_run an_add_file added_at_the_flag ≡ false }
    ensures no_smi_to_itself { is_run an_add_file no_smi_to_itself ≡ false }
    ensures added_beside_a_held_one { is_run few_looks_file added_beside_a_held_one ≡ false }
    ensures slot_given_away { is_run two_adds_file slot_given_away ≡ false }
    ensures ejected_outside { is_run not_arrived_file ejected_outside ≡ false }
    ensures called_in_before_release { is_run rendezvous_file called_in_before_release ≡ false }
    ensures collected_past_the_end { is_run two_adds_file collected_past_the_end ≡ false }
{}

/// And the laws refuse each of them, by the part that speaks of it.
#[tactic(auto, using(crate::proofs::WrongTraces::refused))]
pub fn wrong_traces_are_refused()
    ensures default_area_left_open { verdicts_of_record an_add_file default_area_left_open ≡ record all_well { locked = false } }
    ensures added_at_the_flag { verdicts_of_record an_add_file added_at_the_flag ≡ record all_well { outcomes_show = false } }
    ensures no_smi_to_itself { verdicts_of_record an_add_file no_smi_to_itself ≡ record all_well { quiet = false } }
    ensures added_beside_a_held_one { verdicts_of_record few_looks_file added_beside_a_held_one ≡ record all_well { outcomes_answer = false } }
    ensures slot_given_away { verdicts_of_record two_adds_file slot_given_away ≡ record all_well { own = false; outcomes_show = false } }
    ensures ejected_outside { verdicts_of_record not_arrived_file ejected_outside ≡ record all_well { outcomes_show = false } }
    ensures called_in_before_release { verdicts_of_record rendezvous_file called_in_before_release ≡ record all_well { quiet = false } }
    ensures collected_past_the_end { verdicts_of_record two_adds_file collected_past_the_end ≡ record all_well { reports = false } }
{}

/// Of what the machine alone records of runs they hold as they hold of the runs.
#[tactic(auto, using(crate::proofs::WrongTraces::recorded_well))]
pub fn runs_are_recorded_well()
    ensures an_add { verdicts_of_record an_add_file an_add ≡ all_well }
    ensures ejected_and_added_again { verdicts_of_record ejected_and_added_again_file ejected_and_added_again ≡ all_well }
    ensures rendezvous { verdicts_of_record rendezvous_file rendezvous ≡ all_well }
{}
