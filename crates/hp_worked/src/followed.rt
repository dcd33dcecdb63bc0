//! Laws over definitions, computed on worked runs: which of them follow the voices of their files, and which are hosted. Public functions with empty bodies.

ghost use Rattle.std.specs.Prelude.{◌≡◌, ℕ, List, true, false, [], ◌∷◌, take};
ghost use Rattle.hp_model.specs.declared.accesses.Access.TheVariants.{Out};
ghost use Rattle.hp_model.specs.declared.accesses.Answer.TheVariants.{Quiet, Value};
ghost use Rattle.hp_model.specs.declared.entries.Actor.TheVariants.{Insert};
ghost use Rattle.hp_model.specs.Hosting.{IsHosted};
ghost use Rattle.hp_model.specs.Schedule.{boot_turns};
ghost use Rattle.hp_model.specs.Voices.{script, pen, silent};
ghost use Rattle.hp_worked.specs.Asked.{is_run};
ghost use Rattle.hp_worked.specs.Followed.{all_told, carried_by, follows_voices, follows_the_first, scene_left, hosts_of_file, pen_stores_another, pen_after_its_eject, script_says_another, insert_left_out};
ghost use Rattle.hp_worked.specs.Files.{an_add_file, add_with_a_stored_pen_byte_file, rendezvous_file, host_events_file, ejected_and_added_again_file, selector_taken_away_file};
ghost use Rattle.hp_worked.specs.Adds.{an_add, add_with_a_stored_pen_byte};
ghost use Rattle.hp_worked.specs.Rendezvous.{rendezvous};
ghost use Rattle.hp_worked.specs.Traces.{host_events};
ghost use Rattle.hp_worked.specs.Ejects.{ejected_and_added_again};
ghost use Rattle.hp_worked.specs.Late.{selector_taken_away};

/// Each of these runs follows the voices of its file, from the scene at the start.
#[tactic(auto, using(crate::proofs::Follows::all_follow))]
pub fn worked_runs_follow_their_voices()
    ensures an_add { follows_voices an_add_file an_add ≡ true }
    ensures add_with_a_stored_pen_byte { follows_voices add_with_a_stored_pen_byte_file add_with_a_stored_pen_byte ≡ true }
    ensures rendezvous { follows_voices rendezvous_file rendezvous ≡ true }
    ensures ejected_and_added_again { follows_voices ejected_and_added_again_file ejected_and_added_again ≡ true }
    ensures selector_taken_away { follows_voices selector_taken_away_file selector_taken_away ≡ true }
{}

/// What is left of the voices after their entries is what the schedule leaves of them.
#[tactic(auto, using(crate::proofs::Follows::all_left))]
pub fn worked_runs_leave_what_the_schedule_leaves()
    ensures an_add { (carried_by an_add_file an_add).voices ≡ all_told (scene_left an_add_file).voices }
    ensures add_with_a_stored_pen_byte { (carried_by add_with_a_stored_pen_byte_file add_with_a_stored_pen_byte).voices ≡ all_told (scene_left add_with_a_stored_pen_byte_file).voices }
    ensures rendezvous { (carried_by rendezvous_file rendezvous).voices ≡ all_told (scene_left rendezvous_file).voices }
    ensures ejected_and_added_again { (carried_by ejected_and_added_again_file ejected_and_added_again).voices ≡ all_told (scene_left ejected_and_added_again_file).voices }
    ensures selector_taken_away { (carried_by selector_taken_away_file selector_taken_away).voices ≡ all_told (scene_left selector_taken_away_file).voices }
{}

/// A script has lost the steps that it has said, a pen has stored its byte, a processor that was ejected has lost its pen, and what an access was answered
/// is its processor's last answer.
#[tactic(auto, using(crate::proofs::Follows::carried))]
pub fn voices_are_carried_on()
    ensures an_add_midway { (carried_by an_add_file (take 29 an_add)).voices ≡ all_told (script (Out 0xcd8 4 0x1 ∷ Out 0xcdc 1 0x2 ∷ []) ∷ pen false ∷ []) }
    ensures an_add_at_the_end { (carried_by an_add_file an_add).voices ≡ all_told (silent ∷ pen true ∷ []) }
    ensures added_again_at_the_end { (carried_by ejected_and_added_again_file ejected_and_added_again).voices ≡ all_told (silent ∷ silent ∷ []) }
    ensures host_events_midway { (carried_by host_events_file (take 30 host_events)).last ≡ Value 0x4 ∷ Quiet ∷ Quiet ∷ [] }
{}

/// These are runs of their platforms too, each with one access that its processor's voice doesn't say.
#[tactic(auto, using(crate::proofs::Follows::run_unsaid))]
pub fn unsaid_accesses_are_steps()
    ensures pen_stores_another { is_run an_add_file pen_stores_another ≡ true }
    ensures pen_after_its_eject { is_run ejected_and_added_again_file pen_after_its_eject ≡ true }
    ensures script_says_another { is_run selector_taken_away_file script_says_another ≡ true }
{}

/// And they don't follow the voices, nor does an add that begins with a store follow those of the add without it. Of a processor that doesn't tell its voice
/// nothing is asked.
#[tactic(auto, using(crate::proofs::Follows::unsaid))]
pub fn unsaid_accesses_follow_no_voice()
    ensures add_with_a_stored_pen_byte { follows_voices an_add_file add_with_a_stored_pen_byte ≡ false }
    ensures pen_stores_another { follows_voices an_add_file pen_stores_another ≡ false }
    ensures pen_after_its_eject { follows_voices ejected_and_added_again_file pen_after_its_eject ≡ false }
    ensures script_says_another { follows_voices selector_taken_away_file script_says_another ≡ false }
    ensures pen_untold { follows_the_first an_add_file (script (Out 0xb2 1 0x4 ∷ Out 0xcd8 4 0x1 ∷ Out 0xcdc 1 0x2 ∷ [])) pen_stores_another ≡ true }
{}

/// Host events host the entries of their run from the boot's on, each with its mark, the number of entries at its turn: the one insert of the plainest add; an
/// insert and a removal of one turn; two inserts of one processor, which was ejected in between; and one that comes when its processor is there already, and
/// makes no entry.
#[tactic(auto, using(crate::proofs::Hosted::hosted))]
pub fn worked_runs_are_hosted()
    ensures an_add { IsHosted an_add_file.platform an_add (boot_turns an_add_file.platform) (hosts_of_file an_add_file) (27 ∷ []) }
    ensures host_events { IsHosted host_events_file.platform host_events (boot_turns host_events_file.platform) (hosts_of_file host_events_file) (27 ∷ 28 ∷ []) }
    ensures ejected_and_added_again { IsHosted ejected_and_added_again_file.platform ejected_and_added_again (boot_turns ejected_and_added_again_file.platform) (hosts_of_file ejected_and_added_again_file) (27 ∷ 125 ∷ []) }
    ensures inserted_twice { IsHosted an_add_file.platform an_add (boot_turns an_add_file.platform) (Insert 1 ∷ Insert 1 ∷ []) (27 ∷ 28 ∷ []) }
{}

/// Marks come in the order of the host events, and two equal inserts don't share one entry. Whatever the marks, the plainest add isn't hosted where there is no
/// host event, and a run without the insert isn't hosted by the insert.
#[tactic(auto, using(crate::proofs::Hosted::not_hosted))]
pub fn hosts_and_entries_go_together()
    ensures host_events_swapped { IsHosted host_events_file.platform host_events (boot_turns host_events_file.platform) (hosts_of_file host_events_file) (28 ∷ 27 ∷ []) → ⊥ }
    ensures ejected_and_added_again_swapped { IsHosted ejected_and_added_again_file.platform ejected_and_added_again (boot_turns ejected_and_added_again_file.platform) (hosts_of_file ejected_and_added_again_file) (125 ∷ 27 ∷ []) → ⊥ }
    ensures inserted_twice_at_once { IsHosted an_add_file.platform an_add (boot_turns an_add_file.platform) (Insert 1 ∷ Insert 1 ∷ []) (27 ∷ 27 ∷ []) → ⊥ }
    ensures without_a_host { (marks : List ℕ) → IsHosted an_add_file.platform an_add (boot_turns an_add_file.platform) [] marks → ⊥ }
    ensures is_run { is_run an_add_file insert_left_out ≡ true }
    ensures without_its_entry { (marks : List ℕ) → IsHosted an_add_file.platform insert_left_out (boot_turns an_add_file.platform) (hosts_of_file an_add_file) marks → ⊥ }
{}
