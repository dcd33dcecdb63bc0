//! Laws over definitions, computed on worked traces of ejects, of late delivery and of wide platforms: public functions with empty bodies.

ghost use Rattle.std.specs.Prelude.{◌≡◌, true, false, Some};
ghost use Rattle.hp_model.specs.declared.outcomes.BootFact.TheVariants.{NoExtTseg};
ghost use Rattle.hp_worked.specs.Asked.{own_run, own_fact, is_run, stops_at};
ghost use Rattle.hp_worked.specs.Files.{ejected_and_added_again_file, no_unplug_file, not_known_file, not_arrived_file, not_parked_file, late_alone_file, selector_taken_away_file, eject_led_astray_file, wide_add_file, largest_file, refused_for_its_tseg_file, prompt_file};
ghost use Rattle.hp_worked.specs.Ejects.{ejected_and_added_again, told_too_early, ejected_unparked};
ghost use Rattle.hp_worked.specs.RefusedEjects.{no_unplug, not_known, not_arrived, not_parked};
ghost use Rattle.hp_worked.specs.Late.{late_alone, selector_taken_away, eject_led_astray, told_as_ejected};
ghost use Rattle.hp_worked.specs.Wide.{wide_add, with_a_narrow_destination, largest_boot, refused_for_its_tseg};

/// Each of these traces is a run of its platform: an eject between two adds, ejects that are refused, SMIs that come late, two of them in sessions
/// that another processor disturbs, an APIC ID past 8 bits, and boots with a TSEG of 48 MiB.
#[tactic(auto, using(crate::proofs::EjectsRun::runs_of_ejects))]
pub fn worked_ejects_are_runs()
    ensures ejected_and_added_again { is_run ejected_and_added_again_file ejected_and_added_again ≡ true }
    ensures no_unplug { is_run no_unplug_file no_unplug ≡ true }
    ensures not_known { is_run not_known_file not_known ≡ true }
    ensures not_arrived { is_run not_arrived_file not_arrived ≡ true }
    ensures not_parked { is_run not_parked_file not_parked ≡ true }
    ensures late_alone { is_run late_alone_file late_alone ≡ true }
    ensures selector_taken_away { is_run selector_taken_away_file selector_taken_away ≡ true }
    ensures eject_led_astray { is_run eject_led_astray_file eject_led_astray ≡ true }
    ensures wide_add { is_run wide_add_file wide_add ≡ true }
    ensures largest_boot { is_run largest_file largest_boot ≡ true }
    ensures refused_for_its_tseg { is_run refused_for_its_tseg_file refused_for_its_tseg ≡ true }
{}

/// And each is what the schedule makes of its file, entry for entry, to the end.
#[tactic(auto, using(crate::proofs::EjectsScheduled::scheduled_ejects))]
pub fn files_make_worked_ejects()
    ensures ejected_and_added_again { own_run ejected_and_added_again_file ≡ ejected_and_added_again }
    ensures no_unplug { own_run no_unplug_file ≡ no_unplug }
    ensures not_known { own_run not_known_file ≡ not_known }
    ensures not_arrived { own_run not_arrived_file ≡ not_arrived }
    ensures not_parked { own_run not_parked_file ≡ not_parked }
    ensures late_alone { own_run late_alone_file ≡ late_alone }
    ensures selector_taken_away { own_run selector_taken_away_file ≡ selector_taken_away }
    ensures eject_led_astray { own_run eject_led_astray_file ≡ eject_led_astray }
    ensures wide_add { own_run wide_add_file ≡ wide_add }
    ensures largest_boot { own_run largest_file ≡ largest_boot }
    ensures refused_for_its_tseg { own_run refused_for_its_tseg_file ≡ refused_for_its_tseg }
{}

/// A boot is refused where register 50 stays 0.
#[tactic(auto, using(crate::proofs::EjectsScheduled::tseg_fact))]
pub fn worked_tseg_is_refused()
    ensures refused_for_its_tseg { own_fact refused_for_its_tseg_file ≡ Some (NoExtTseg 0) }
{}

/// These are no runs: four have one thing changed, and one comes late where SMIs are prompt.
#[tactic(auto, using(crate::proofs::EjectsChanged::no_runs_of_ejects))]
pub fn changed_ejects_are_none()
    ensures told_too_early { is_run ejected_and_added_again_file told_too_early ≡ false }
    ensures ejected_unparked { is_run ejected_and_added_again_file ejected_unparked ≡ false }
    ensures told_as_ejected { is_run eject_led_astray_file told_as_ejected ≡ false }
    ensures with_a_narrow_destination { is_run wide_add_file with_a_narrow_destination ≡ false }
    ensures late_alone { is_run (prompt_file late_alone_file) late_alone ≡ false }
{}

/// They stop at the change: so many entries, counted from 0, are steps, and the next is none.
#[tactic(auto, using(crate::proofs::EjectsChanged::ejects_stop))]
pub fn changed_ejects_stop_at_the_change()
    ensures told_too_early { stops_at ejected_and_added_again_file told_too_early ≡ Some 120 }
    ensures ejected_unparked { stops_at ejected_and_added_again_file ejected_unparked ≡ Some 114 }
    ensures told_as_ejected { stops_at eject_led_astray_file told_as_ejected ≡ Some 131 }
    ensures with_a_narrow_destination { stops_at wide_add_file with_a_narrow_destination ≡ Some 44 }
    ensures late_alone { stops_at (prompt_file late_alone_file) late_alone ≡ Some 28 }
{}
