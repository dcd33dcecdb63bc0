//! Laws over definitions: public functions with empty bodies, whose clauses are what is proved.

ghost use Rattle.hp_model.specs.declared.entries.Actor.{Actor};
ghost use Rattle.hp_model.specs.Following.{Carried};
ghost use Rattle.hp_model.specs.Schedule.{act};
ghost use Rattle.hp_platform.specs.declared.worlds.Turn.{Turn};
ghost use Rattle.hp_platform.specs.Carrying.{ActsAs, Carries};
ghost use Rattle.hp_platform.specs.Live.{IsTurned, Live};

/// A turn makes what the schedule makes of its actor, and what it leaves of voices and of answers is the schedule's: where agents tell
/// their voices, by these; where others tell none, by scripts in their places. A script can say whatever such an agent said.
pub fn a_turn_is_the_schedules()
    ensures { (old new : Live) (a : Actor) (turn : Turn) (c : Carried) → Carries old c
        → IsTurned old new a turn → ActsAs new c (λ w. act old.platform w a) turn }
{}
