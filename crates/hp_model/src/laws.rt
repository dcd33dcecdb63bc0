//! Laws over definitions: public functions with empty bodies, whose clauses are what is proved.

ghost use Rattle.std.specs.Prelude.{◌≡◌, List, map, Some, IsSome};
ghost use Rattle.hp_model.specs.declared.platforms.Platform.{Platform as APlatform};
ghost use Rattle.hp_model.specs.declared.files.File.{File};
ghost use Rattle.hp_model.specs.Runs.{run};
ghost use Rattle.hp_model.specs.Schedule.{booted, scheduled};
ghost use Rattle.hp_model.specs.Voices.{Agree, Voice, told_of, voices_of};

/// Whatever voices the processors have, the entries that the schedule of a file makes, and those of a boot alone, are a run of the machine: each is a step
/// of it, in the state that the entries before it lead to, with that step's answer and address.
#[tactic(auto, using(crate::proofs::Scheduled::runs))]
pub fn schedule_is_a_run()
    ensures whole { (f : File) (vs : List Voice) → IsSome (run f.platform (scheduled f vs)) }
    ensures boot { (p : APlatform) (vs : List Voice) → IsSome (run p (booted p vs).entries) }
{}

/// Where all that is handed in tells its voice, the voices of the file with these handed in agree with what the file's places tell, and no others do.
#[tactic(auto, using(crate::proofs::Agreeing::told_voices, crate::proofs::Agreeing::told_agree))]
pub fn told_voices_alone_agree()
    ensures agree { (f : File) (handed : List Voice) → Agree (told_of f (map (λ v. Some v) handed)) (voices_of f handed) }
    ensures alone { (f : File) (handed vs : List Voice) → Agree (told_of f (map (λ v. Some v) handed)) vs → vs ≡ voices_of f handed }
{}
