//! Laws over definitions: what is read from the entries of worked traces. Public functions with empty bodies.

ghost use Rattle.std.specs.Prelude.{◌≡◌, true, false, [], ◌∷◌, Some, None};
ghost use Rattle.hp_model.specs.declared.outcomes.Refusal.TheVariants.{Disabled, Both, AlreadyKnown, GateHeld, NoUnplug, NotKnown, NotArrived, Foreign};
ghost use Rattle.hp_model.specs.declared.reports.Decision.TheVariants.{Add as ToAdd, Eject as ToEject};
ghost use Rattle.hp_model.specs.Monarch.{refuses};
ghost use Rattle.hp_worked.specs.Looked.{reported, whole, session_triples, session_lengths, decisions, bound_after, known_after, held_after, disturbed_after};
ghost use Rattle.hp_worked.specs.Judged.{flag_is_right};
ghost use Rattle.hp_worked.specs.Files.{an_add_file, two_adds_file, two_new_processors_file, gate_held_file, insert_and_eject_file, disabled_processor_file, already_known_file, not_at_gate_file, ejected_and_added_again_file, no_unplug_file, not_known_file, not_arrived_file, not_parked_file, late_alone_file, selector_taken_away_file, eject_led_astray_file, wide_add_file};
ghost use Rattle.hp_worked.specs.Adds.{an_add};
ghost use Rattle.hp_worked.specs.TwoAdds.{two_adds};
ghost use Rattle.hp_worked.specs.TwoNewProcessors.{two_new_processors};
ghost use Rattle.hp_worked.specs.GateHeld.{gate_held};
ghost use Rattle.hp_worked.specs.RefusedAdds.{insert_and_eject, disabled_processor, already_known, not_at_gate};
ghost use Rattle.hp_worked.specs.Ejects.{ejected_and_added_again};
ghost use Rattle.hp_worked.specs.RefusedEjects.{no_unplug, not_known, not_arrived, not_parked};
ghost use Rattle.hp_worked.specs.Late.{late_alone, selector_taken_away, eject_led_astray};
ghost use Rattle.hp_worked.specs.Wide.{wide_add};

/// The triples of each session that has ended: place, status and APIC ID of each processor that was reported.
#[tactic(auto, using(crate::proofs::AccountsRead::triples_read))]
pub fn sessions_report()
    ensures an_add { session_triples an_add_file.platform (whole an_add) ≡ ((reported 1 0x3 1) ∷ []) ∷ [] }
    ensures two_adds { session_triples two_adds_file.platform (whole two_adds) ≡ ((reported 1 0x3 1) ∷ (reported 2 0x3 2) ∷ []) ∷ [] }
    ensures two_new_processors { session_triples two_new_processors_file.platform (whole two_new_processors) ≡ ((reported 1 0x3 1) ∷ []) ∷ [] }
    ensures gate_held { session_triples gate_held_file.platform (whole gate_held) ≡ ((reported 1 0x3 1) ∷ (reported 2 0x3 2) ∷ []) ∷ ((reported 1 0x3 1) ∷ (reported 2 0x3 2) ∷ []) ∷ [] }
    ensures insert_and_eject { session_triples insert_and_eject_file.platform (whole insert_and_eject) ≡ ((reported 1 0x13 1) ∷ []) ∷ [] }
    ensures disabled_processor { session_triples disabled_processor_file.platform (whole disabled_processor) ≡ ((reported 1 0x2 1) ∷ []) ∷ [] }
    ensures already_known { session_triples already_known_file.platform (whole already_known) ≡ ((reported 1 0x3 1) ∷ []) ∷ ((reported 1 0x3 1) ∷ []) ∷ [] }
    ensures not_at_gate { session_triples not_at_gate_file.platform (whole not_at_gate) ≡ ((reported 1 0x3 1) ∷ []) ∷ [] }
    ensures ejected_and_added_again { session_triples ejected_and_added_again_file.platform (whole ejected_and_added_again) ≡ ((reported 1 0x3 1) ∷ []) ∷ ((reported 1 0x11 1) ∷ []) ∷ ((reported 1 0x3 1) ∷ []) ∷ [] }
    ensures no_unplug { session_triples no_unplug_file.platform (whole no_unplug) ≡ ((reported 1 0x3 1) ∷ []) ∷ ((reported 1 0x11 1) ∷ []) ∷ [] }
    ensures not_known { session_triples not_known_file.platform (whole not_known) ≡ ((reported 1 0x11 1) ∷ []) ∷ [] }
    ensures not_arrived { session_triples not_arrived_file.platform (whole not_arrived) ≡ ((reported 1 0x11 1) ∷ []) ∷ [] }
    ensures not_parked { session_triples not_parked_file.platform (whole not_parked) ≡ ((reported 1 0x11 1) ∷ []) ∷ [] }
    ensures late_alone { session_triples late_alone_file.platform (whole late_alone) ≡ ([]) ∷ [] }
    ensures selector_taken_away { session_triples selector_taken_away_file.platform (whole selector_taken_away) ≡ ((reported 1 0x11 0) ∷ []) ∷ [] }
    ensures eject_led_astray { session_triples eject_led_astray_file.platform (whole eject_led_astray) ≡ ((reported 1 0x11 1) ∷ []) ∷ [] }
    ensures wide_add { session_triples wide_add_file.platform (whole wide_add) ≡ ((reported 1 0x3 70000) ∷ []) ∷ [] }
{}

/// The decision on each report that was answered, read from the platform and the entries alone.
#[tactic(auto, using(crate::proofs::AccountsRead::decisions_read))]
pub fn reports_have_their_decision()
    ensures an_add { decisions an_add_file.platform (whole an_add) ≡ ToAdd ∷ [] }
    ensures two_adds { decisions two_adds_file.platform (whole two_adds) ≡ ToAdd ∷ ToAdd ∷ [] }
    ensures two_new_processors { decisions two_new_processors_file.platform (whole two_new_processors) ≡ ToAdd ∷ [] }
    ensures gate_held { decisions gate_held_file.platform (whole gate_held) ≡ ToAdd ∷ refuses (GateHeld 2 2 1) ∷ ToAdd ∷ ToAdd ∷ [] }
    ensures insert_and_eject { decisions insert_and_eject_file.platform (whole insert_and_eject) ≡ refuses (Both 1 0x13) ∷ [] }
    ensures disabled_processor { decisions disabled_processor_file.platform (whole disabled_processor) ≡ refuses (Disabled 1 0x2) ∷ [] }
    ensures already_known { decisions already_known_file.platform (whole already_known) ≡ ToAdd ∷ refuses (AlreadyKnown 1 1 1) ∷ [] }
    ensures not_at_gate { decisions not_at_gate_file.platform (whole not_at_gate) ≡ ToAdd ∷ [] }
    ensures ejected_and_added_again { decisions ejected_and_added_again_file.platform (whole ejected_and_added_again) ≡ ToAdd ∷ ToEject ∷ ToAdd ∷ [] }
    ensures no_unplug { decisions no_unplug_file.platform (whole no_unplug) ≡ ToAdd ∷ refuses (NoUnplug 1 3) ∷ [] }
    ensures not_known { decisions not_known_file.platform (whole not_known) ≡ refuses (NotKnown 1 1) ∷ [] }
    ensures not_arrived { decisions not_arrived_file.platform (whole not_arrived) ≡ refuses (NotArrived 1 1) ∷ [] }
    ensures not_parked { decisions not_parked_file.platform (whole not_parked) ≡ ToEject ∷ [] }
    ensures late_alone { decisions late_alone_file.platform (whole late_alone) ≡ [] }
    ensures selector_taken_away { decisions selector_taken_away_file.platform (whole selector_taken_away) ≡ refuses (Foreign 1 0) ∷ [] }
    ensures eject_led_astray { decisions eject_led_astray_file.platform (whole eject_led_astray) ≡ ToEject ∷ [] }
    ensures wide_add { decisions wide_add_file.platform (whole wide_add) ≡ ToAdd ∷ [] }
{}

/// The APIC IDs that are bound in the end, each at its slot's place.
#[tactic(auto, using(crate::proofs::AccountsRead::bound_read))]
pub fn apic_ids_are_bound()
    ensures an_add { bound_after an_add_file an_add ≡ 0 ∷ 1 ∷ [] }
    ensures two_adds { bound_after two_adds_file two_adds ≡ 0 ∷ 1 ∷ 2 ∷ [] }
    ensures two_new_processors { bound_after two_new_processors_file two_new_processors ≡ 0 ∷ 1 ∷ [] }
    ensures gate_held { bound_after gate_held_file gate_held ≡ 0 ∷ 1 ∷ 2 ∷ [] }
    ensures insert_and_eject { bound_after insert_and_eject_file insert_and_eject ≡ 0 ∷ [] }
    ensures disabled_processor { bound_after disabled_processor_file disabled_processor ≡ 0 ∷ [] }
    ensures already_known { bound_after already_known_file already_known ≡ 0 ∷ 1 ∷ [] }
    ensures not_at_gate { bound_after not_at_gate_file not_at_gate ≡ 0 ∷ 1 ∷ [] }
    ensures ejected_and_added_again { bound_after ejected_and_added_again_file ejected_and_added_again ≡ 0 ∷ 1 ∷ [] }
    ensures no_unplug { bound_after no_unplug_file no_unplug ≡ 0 ∷ 1 ∷ [] }
    ensures not_known { bound_after not_known_file not_known ≡ 0 ∷ [] }
    ensures not_arrived { bound_after not_arrived_file not_arrived ≡ 0 ∷ 1 ∷ [] }
    ensures not_parked { bound_after not_parked_file not_parked ≡ 0 ∷ 1 ∷ [] }
    ensures late_alone { bound_after late_alone_file late_alone ≡ 0 ∷ [] }
    ensures selector_taken_away { bound_after selector_taken_away_file selector_taken_away ≡ 0 ∷ 1 ∷ [] }
    ensures eject_led_astray { bound_after eject_led_astray_file eject_led_astray ≡ 0 ∷ 1 ∷ 2 ∷ [] }
    ensures wide_add { bound_after wide_add_file wide_add ≡ 0 ∷ 70000 ∷ [] }
{}

/// Whether an APIC ID is known after so many entries.
#[tactic(auto, using(crate::proofs::AccountsRead::known_read))]
pub fn apic_ids_are_known()
    ensures an_add_known_1_after_67 { known_after an_add_file 67 an_add 1 ≡ false }
    ensures an_add_known_1_after_68 { known_after an_add_file 68 an_add 1 ≡ true }
    ensures ejected_and_added_again_known_1_after_121 { known_after ejected_and_added_again_file 121 ejected_and_added_again 1 ≡ true }
    ensures ejected_and_added_again_known_1_after_122 { known_after ejected_and_added_again_file 122 ejected_and_added_again 1 ≡ false }
    ensures ejected_and_added_again_known_1_after_167 { known_after ejected_and_added_again_file 167 ejected_and_added_again 1 ≡ true }
    ensures not_arrived_known_1_after_0 { known_after not_arrived_file 0 not_arrived 1 ≡ true }
    ensures not_at_gate_known_1_after_9999 { known_after not_at_gate_file 9999 not_at_gate 1 ≡ false }
    ensures eject_led_astray_known_2_after_9999 { known_after eject_led_astray_file 9999 eject_led_astray 2 ≡ true }
{}

/// The APIC ID that is held after so many entries: from the first entry of its add on, and after a refusal until it is told as added.
#[tactic(auto, using(crate::proofs::AccountsRead::held_read))]
pub fn an_apic_id_is_held()
    ensures an_add_held_after_39 { held_after an_add_file 39 an_add ≡ None }
    ensures an_add_held_after_40 { held_after an_add_file 40 an_add ≡ Some 1 }
    ensures an_add_held_after_67 { held_after an_add_file 67 an_add ≡ Some 1 }
    ensures an_add_held_after_68 { held_after an_add_file 68 an_add ≡ None }
    ensures gate_held_held_after_303 { held_after gate_held_file 303 gate_held ≡ Some 1 }
    ensures gate_held_held_after_304 { held_after gate_held_file 304 gate_held ≡ Some 1 }
    ensures gate_held_held_after_518 { held_after gate_held_file 518 gate_held ≡ Some 1 }
    ensures gate_held_held_after_519 { held_after gate_held_file 519 gate_held ≡ None }
    ensures not_at_gate_held_after_9999 { held_after not_at_gate_file 9999 not_at_gate ≡ Some 1 }
{}

/// How many entries each session has, and from which entry on one is disturbed; the state's flag says the same while all others are called in.
#[tactic(auto, using(crate::proofs::AccountsRead::sessions_read))]
pub fn sessions_are_disturbed()
    ensures an_add_sessions { session_lengths (whole an_add) ≡ 43 ∷ [] }
    ensures gate_held_sessions { session_lengths (whole gate_held) ≡ 280 ∷ 294 ∷ [] }
    ensures ejected_and_added_again_sessions { session_lengths (whole ejected_and_added_again) ≡ 43 ∷ 40 ∷ 44 ∷ [] }
    ensures selector_taken_away_disturbed_after_65 { disturbed_after selector_taken_away_file 65 selector_taken_away ≡ false }
    ensures selector_taken_away_disturbed_after_66 { disturbed_after selector_taken_away_file 66 selector_taken_away ≡ true }
    ensures eject_led_astray_disturbed_after_122 { disturbed_after eject_led_astray_file 122 eject_led_astray ≡ false }
    ensures eject_led_astray_disturbed_after_123 { disturbed_after eject_led_astray_file 123 eject_led_astray ≡ true }
    ensures an_add_disturbed_after_67 { disturbed_after an_add_file 67 an_add ≡ false }
    ensures an_add_flag { flag_is_right an_add_file an_add ≡ true }
    ensures selector_taken_away_flag { flag_is_right selector_taken_away_file selector_taken_away ≡ true }
    ensures eject_led_astray_flag { flag_is_right eject_led_astray_file eject_led_astray ≡ true }
{}
