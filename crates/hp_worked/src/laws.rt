//! Laws over definitions: public functions with empty bodies, whose clauses are what is proved.

ghost use Rattle.std.specs.Prelude.{◌≡◌, true, false, Some, take, length};
ghost use Rattle.hp_model.specs.declared.outcomes.BootFact.TheVariants.{NotModern, NoDefaultSmram, NotNegotiated};
ghost use Rattle.hp_worked.specs.Asked.{own_run, own_fact, is_run, stops_at, is_run_alone, scheduled_alone, is_never_astray, in_smm_after, astray_after, astray_alone_after, is_locked_at_each, is_untouched_at_each};
ghost use Rattle.hp_worked.specs.Files.{smallest_file, selector_past_the_end_file, several_control_bits_file, transfer_into_locked_memory_file, store_across_64_kib_file, host_events_file, rendezvous_file, late_processor_file, closed_gate_file, refused_for_the_legacy_form_file, refused_for_an_open_default_area_file, refused_for_its_features_file, modern_form_file, default_area_file, interrupts_file, smi_before_init_file};
ghost use Rattle.hp_worked.specs.Traces.{smallest, selector_past_the_end, several_control_bits, transfer_into_locked_memory, store_across_64_kib, host_events, refused_for_the_legacy_form, refused_for_an_open_default_area, refused_for_its_features, unlocked_boot, boot_out_of_order, boot_after_a_refusal};
ghost use Rattle.hp_worked.specs.Rendezvous.{rendezvous, with_another_byte, from_another_cell, with_another_answer, without_a_session, released_too_early, left_unreleased};
ghost use Rattle.hp_worked.specs.LateProcessor.{late_processor, with_a_look_less, with_a_second_smi};
ghost use Rattle.hp_worked.specs.ClosedGate.{closed_gate, with_an_open_gate, past_the_closed_gate, halted_in_smm};
ghost use Rattle.hp_worked.specs.Alone.{modern_form, default_area, interrupts, smi_before_init, init_before_smi};

/// Each of these traces, written down by hand, is a run of its platform: every entry is a step with its answer and its
/// instruction address.
#[tactic(auto, using(crate::proofs::Runs::worked_runs))]
pub fn worked_traces_are_runs()
    ensures smallest { is_run smallest_file smallest ≡ true }
    ensures selector_past_the_end { is_run selector_past_the_end_file selector_past_the_end ≡ true }
    ensures several_control_bits { is_run several_control_bits_file several_control_bits ≡ true }
    ensures transfer_into_locked_memory { is_run transfer_into_locked_memory_file transfer_into_locked_memory ≡ true }
    ensures store_across_64_kib { is_run store_across_64_kib_file store_across_64_kib ≡ true }
    ensures host_events { is_run host_events_file host_events ≡ true }
    ensures rendezvous { is_run rendezvous_file rendezvous ≡ true }
    ensures late_processor { is_run late_processor_file late_processor ≡ true }
    ensures closed_gate { is_run closed_gate_file closed_gate ≡ true }
    ensures refused_for_the_legacy_form { is_run refused_for_the_legacy_form_file refused_for_the_legacy_form ≡ true }
    ensures refused_for_an_open_default_area { is_run refused_for_an_open_default_area_file refused_for_an_open_default_area ≡ true }
    ensures refused_for_its_features { is_run refused_for_its_features_file refused_for_its_features ≡ true }
{}

/// And each is what the schedule makes of its file, entry for entry, to the end.
#[tactic(auto, using(crate::proofs::Scheduled::scheduled_traces))]
pub fn files_make_worked_traces()
    ensures smallest { own_run smallest_file ≡ smallest }
    ensures selector_past_the_end { own_run selector_past_the_end_file ≡ selector_past_the_end }
    ensures several_control_bits { own_run several_control_bits_file ≡ several_control_bits }
    ensures transfer_into_locked_memory { own_run transfer_into_locked_memory_file ≡ transfer_into_locked_memory }
    ensures store_across_64_kib { own_run store_across_64_kib_file ≡ store_across_64_kib }
    ensures host_events { own_run host_events_file ≡ host_events }
    ensures rendezvous { own_run rendezvous_file ≡ rendezvous }
    ensures late_processor { own_run late_processor_file ≡ late_processor }
    ensures closed_gate { own_run closed_gate_file ≡ closed_gate }
    ensures refused_for_the_legacy_form { own_run refused_for_the_legacy_form_file ≡ refused_for_the_legacy_form }
    ensures refused_for_an_open_default_area { own_run refused_for_an_open_default_area_file ≡ refused_for_an_open_default_area }
    ensures refused_for_its_features { own_run refused_for_its_features_file ≡ refused_for_its_features }
{}

/// Three of them are boots that are refused, for the value that their last entry reads.
#[tactic(auto, using(crate::proofs::Scheduled::boot_facts))]
pub fn worked_boots_are_refused()
    ensures the_legacy_form { own_fact refused_for_the_legacy_form_file ≡ Some (NotModern 1) }
    ensures an_open_default_area { own_fact refused_for_an_open_default_area_file ≡ Some (NoDefaultSmram 0) }
    ensures its_features { own_fact refused_for_its_features_file ≡ Some (NotNegotiated 0) }
{}

/// Traces of the machine alone, without the boot, as if its firmware had handed over at once: they are steps of it.
#[tactic(auto, using(crate::proofs::Runs::runs_alone))]
pub fn worked_traces_run_alone()
    ensures modern_form { is_run_alone modern_form_file modern_form ≡ true }
    ensures default_area { is_run_alone default_area_file default_area ≡ true }
    ensures interrupts { is_run_alone interrupts_file interrupts ≡ true }
    ensures smi_before_init { is_run_alone smi_before_init_file smi_before_init ≡ true }
{}

/// And they are what the schedule makes of it.
#[tactic(auto, using(crate::proofs::Scheduled::scheduled_without_boot))]
pub fn files_make_traces_alone()
    ensures modern_form { scheduled_alone modern_form_file ≡ modern_form }
    ensures default_area { scheduled_alone default_area_file ≡ default_area }
    ensures interrupts { scheduled_alone interrupts_file ≡ interrupts }
    ensures smi_before_init { scheduled_alone smi_before_init_file ≡ smi_before_init }
{}

/// These are no runs: boots, two rendezvous, the wait at the closed gate, and the order of latches, each
/// with one thing changed.
#[tactic(auto, using(crate::proofs::Changed::no_runs))]
pub fn changed_traces_are_none()
    ensures unlocked_boot { is_run smallest_file unlocked_boot ≡ false }
    ensures boot_out_of_order { is_run smallest_file boot_out_of_order ≡ false }
    ensures boot_after_a_refusal { is_run refused_for_its_features_file boot_after_a_refusal ≡ false }
    ensures with_another_byte { is_run rendezvous_file with_another_byte ≡ false }
    ensures from_another_cell { is_run rendezvous_file from_another_cell ≡ false }
    ensures with_another_answer { is_run rendezvous_file with_another_answer ≡ false }
    ensures without_a_session { is_run rendezvous_file without_a_session ≡ false }
    ensures released_too_early { is_run rendezvous_file released_too_early ≡ false }
    ensures left_unreleased { is_run rendezvous_file left_unreleased ≡ false }
    ensures with_a_look_less { is_run late_processor_file with_a_look_less ≡ false }
    ensures with_a_second_smi { is_run late_processor_file with_a_second_smi ≡ false }
    ensures with_an_open_gate { is_run closed_gate_file with_an_open_gate ≡ false }
    ensures past_the_closed_gate { is_run closed_gate_file past_the_closed_gate ≡ false }
    ensures halted_in_smm { is_run closed_gate_file halted_in_smm ≡ false }
    ensures init_before_smi { is_run_alone smi_before_init_file init_before_smi ≡ false }
{}

/// Those with a boot stop at the change: so many entries, counted from 0, are steps, and the next is none. Where the
/// store of the session byte is left out, processor 1 goes on by one before processor 0 is refused.
#[tactic(auto, using(crate::proofs::Changed::stops))]
pub fn changed_traces_stop_at_the_change()
    ensures unlocked_boot { stops_at smallest_file unlocked_boot ≡ Some 14 }
    ensures boot_out_of_order { stops_at smallest_file boot_out_of_order ≡ Some 15 }
    ensures boot_after_a_refusal { stops_at refused_for_its_features_file boot_after_a_refusal ≡ Some 26 }
    ensures with_another_byte { stops_at rendezvous_file with_another_byte ≡ Some 33 }
    ensures from_another_cell { stops_at rendezvous_file from_another_cell ≡ Some 31 }
    ensures with_another_answer { stops_at rendezvous_file with_another_answer ≡ Some 37 }
    ensures without_a_session { stops_at rendezvous_file without_a_session ≡ Some 32 }
    ensures released_too_early { stops_at rendezvous_file released_too_early ≡ Some 41 }
    ensures left_unreleased { stops_at rendezvous_file left_unreleased ≡ Some 42 }
    ensures with_a_look_less { stops_at late_processor_file with_a_look_less ≡ Some 33 }
    ensures with_a_second_smi { stops_at late_processor_file with_a_second_smi ≡ Some 45 }
    ensures with_an_open_gate { stops_at closed_gate_file with_an_open_gate ≡ Some 33 }
    ensures past_the_closed_gate { stops_at closed_gate_file past_the_closed_gate ≡ Some 35 }
    ensures halted_in_smm { stops_at closed_gate_file halted_in_smm ≡ Some 35 }
{}

/// In no state of these three traces is either processor astray; so neither is after 41 entries of the rendezvous, where
/// both are in SMM, nor after all its 57.
#[tactic(auto, using(crate::proofs::Ways::not_astray))]
pub fn nobody_is_astray_in_worked_traces()
    ensures entries { length rendezvous ≡ 57 }
    ensures rendezvous_0 { is_never_astray rendezvous_file 0 rendezvous ≡ true }
    ensures rendezvous_1 { is_never_astray rendezvous_file 1 rendezvous ≡ true }
    ensures late_processor_0 { is_never_astray late_processor_file 0 late_processor ≡ true }
    ensures late_processor_1 { is_never_astray late_processor_file 1 late_processor ≡ true }
    ensures closed_gate_0 { is_never_astray closed_gate_file 0 closed_gate ≡ true }
    ensures closed_gate_1 { is_never_astray closed_gate_file 1 closed_gate ≡ true }
    ensures in_smm_midway_0 { in_smm_after rendezvous_file 0 (take 41 rendezvous) ≡ Some true }
    ensures in_smm_midway_1 { in_smm_after rendezvous_file 1 (take 41 rendezvous) ≡ Some true }
    ensures midway_0 { astray_after rendezvous_file 0 (take 41 rendezvous) ≡ Some false }
    ensures midway_1 { astray_after rendezvous_file 1 (take 41 rendezvous) ≡ Some false }
    ensures end_0 { astray_after rendezvous_file 0 rendezvous ≡ Some false }
    ensures end_1 { astray_after rendezvous_file 1 rendezvous ≡ Some false }
{}

/// Without the boot, which stores the marks of the first handler, a processor that takes an SMI there is astray.
#[tactic(auto, using(crate::proofs::Ways::astray))]
pub fn without_boot_one_is_astray()
    ensures astray { astray_alone_after interrupts_file 1 interrupts ≡ Some true }
{}

/// Each entry made in SMM in these three traces finds the four bytes at its instruction address locked, and no write has
/// covered one of them since the boot.
#[tactic(auto, using(crate::proofs::Ways::locked_instructions))]
pub fn worked_instructions_are_locked()
    ensures rendezvous { is_locked_at_each rendezvous_file rendezvous ≡ true }
    ensures rendezvous_untouched { is_untouched_at_each rendezvous_file rendezvous ≡ true }
    ensures late_processor { is_locked_at_each late_processor_file late_processor ≡ true }
    ensures late_processor_untouched { is_untouched_at_each late_processor_file late_processor ≡ true }
    ensures closed_gate { is_locked_at_each closed_gate_file closed_gate ≡ true }
    ensures closed_gate_untouched { is_untouched_at_each closed_gate_file closed_gate ≡ true }
{}
