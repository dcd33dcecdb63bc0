//! Laws over definitions: what voices say to questions that were worked out by hand. Public functions with empty bodies.

ghost use Rattle.std.specs.Prelude.{◌≡◌, true, false};
ghost use Rattle.hp_model.specs.Seeded.{generator_of};
ghost use Rattle.hp_model.specs.Voices.{seeded, storm, flood, digger, churn};
ghost use Rattle.hp_worked.specs.Dialogues.{says_all, os_of_two, os_of_three, os_of_wide, looks_until_an_event, starts_one, starts_and_ejects, passes_over, ends_below, ends_past_the_last, counts_32_bits, looks_again, clears_after_the_scan, scans_without_a_command, starts_before_the_call, keeps_the_insert_event, waits_no_time, sends_one_sipi, ejects_first, hands_over_first, calls_once, starts_a_disabled_one, goes_round, asks_past_the_last, drawn_of_seed_2, drawn_of_seed_0, storm_of_two, flood_of_one, digger_lines, churn_of_one, storm_past_the_last};

/// The operating system looks until an event is told, clears it and scans; it calls the firmware, starts those that came and ejects those that are to go, in
/// this order, and looks again.
#[tactic(auto, using(crate::proofs::Dialogues::os_facts))]
pub fn the_operating_system_says_its_program()
    ensures looks_until_an_event { says_all os_of_two looks_until_an_event ≡ true }
    ensures starts_one { says_all os_of_two (starts_one 0x1000000) ≡ true }
    ensures starts_a_wide_one { says_all os_of_wide (starts_one 70000) ≡ true }
    ensures starts_and_ejects { says_all os_of_three starts_and_ejects ≡ true }
    ensures passes_over { says_all os_of_three passes_over ≡ true }
    ensures ends_below { says_all os_of_three ends_below ≡ true }
    ensures ends_past_the_last { says_all os_of_two ends_past_the_last ≡ true }
    ensures counts_32_bits { says_all os_of_two counts_32_bits ≡ true }
    ensures looks_again { says_all os_of_two looks_again ≡ true }
{}

/// With one thing changed it doesn't say them.
#[tactic(auto, using(crate::proofs::Dialogues::os_mistakes))]
pub fn the_operating_system_says_nothing_else()
    ensures clears_after_the_scan { says_all os_of_two clears_after_the_scan ≡ false }
    ensures scans_without_a_command { says_all os_of_two scans_without_a_command ≡ false }
    ensures starts_before_the_call { says_all os_of_two starts_before_the_call ≡ false }
    ensures keeps_the_insert_event { says_all os_of_two keeps_the_insert_event ≡ false }
    ensures waits_no_time { says_all os_of_two waits_no_time ≡ false }
    ensures sends_one_sipi { says_all os_of_two sends_one_sipi ≡ false }
    ensures starts_by_the_place { says_all os_of_two (starts_one 1) ≡ false }
    ensures starts_a_wide_one_by_its_low_bits { says_all os_of_wide (starts_one 0x70000000) ≡ false }
    ensures ejects_first { says_all os_of_three ejects_first ≡ false }
    ensures hands_over_first { says_all os_of_three hands_over_first ≡ false }
    ensures calls_once { says_all os_of_three calls_once ≡ false }
    ensures starts_a_disabled_one { says_all os_of_three starts_a_disabled_one ≡ false }
    ensures goes_round { says_all os_of_three goes_round ≡ false }
    ensures asks_past_the_last { says_all os_of_two asks_past_the_last ≡ false }
{}

/// A seeded voice says the accesses of its generator's words, and those of no other seed.
#[tactic(auto, using(crate::proofs::Dialogues::seeded_facts))]
pub fn seeded_voices_say_their_words()
    ensures seed_0 { says_all (seeded (generator_of 0)) drawn_of_seed_0 ≡ true }
    ensures seed_2 { says_all (seeded (generator_of 2)) drawn_of_seed_2 ≡ true }
    ensures seed_1 { says_all (seeded (generator_of 1)) drawn_of_seed_2 ≡ false }
{}

/// Attackers say their accesses by how often they were asked: past 2^32 questions they begin anew.
#[tactic(auto, using(crate::proofs::Dialogues::attack_facts))]
pub fn attackers_say_their_accesses()
    ensures storm { says_all (storm 2 0) storm_of_two ≡ true }
    ensures storm_past_the_last { says_all (storm 2 0xffffffff) storm_past_the_last ≡ true }
    ensures flood { says_all (flood 1 0) flood_of_one ≡ true }
    ensures digger { says_all (digger 0) digger_lines ≡ true }
    ensures churn { says_all (churn 1 0) churn_of_one ≡ true }
{}

/// They go by their numbers, and by no others.
#[tactic(auto, using(crate::proofs::Dialogues::attack_mistakes))]
pub fn attackers_say_nothing_else()
    ensures storm_of_three { says_all (storm 3 0) storm_of_two ≡ false }
    ensures storm_of_none { says_all (storm 0 0) storm_of_two ≡ false }
    ensures storm_one_on { says_all (storm 2 1) storm_of_two ≡ false }
    ensures flood_of_another { says_all (flood 2 0) flood_of_one ≡ false }
    ensures digger_one_on { says_all (digger 1) digger_lines ≡ false }
    ensures churn_of_another { says_all (churn 2 0) churn_of_one ≡ false }
{}
