//! Laws of voices: public functions with empty bodies, whose clauses are what is proved.

ghost use Rattle.std.specs.Prelude.{◌≡◌, ◌-◌, true, false, List, ◌∷◌, ◌++◌, length, take, replicate};
ghost use Rattle.std.specs.List.{list_all};
ghost use Rattle.hp_model.specs.declared.accesses.Access.{Access};
ghost use Rattle.hp_model.specs.declared.accesses.Access.TheVariants.{Halt};
ghost use Rattle.hp_model.specs.Voices.{Question, script, pen, pen_page, pen_store};
ghost use Rattle.hp_agent.specs.Questions.{said_all, is_elsewhere};

/// A script says its steps in order and then halts, whatever it is asked.
#[tactic(auto, using(crate::proofs::Said::script_says))]
pub fn a_script_says_its_steps_and_then_halts()
    ensures { (steps : List Access) (qs : List Question)
        → said_all (script steps) qs ≡ take (length qs) steps ++ replicate (length qs - length steps) Halt }
{}

/// A pen stores its byte the first time that it is asked at its page. Before that and from then on it halts, whatever
/// it is asked.
#[tactic(auto, using(crate::proofs::Said::pen_facts))]
pub fn a_pen_stores_its_byte_once()
    ensures elsewhere { (qs : List Question) → list_all is_elsewhere qs ≡ true
        → said_all (pen false) qs ≡ replicate (length qs) Halt }
    ensures first { (before after : List Question) (q : Question) → list_all is_elsewhere before ≡ true → q.page ≡ pen_page
        → said_all (pen false) (before ++ q ∷ after) ≡ replicate (length before) Halt ++ pen_store ∷ replicate (length after) Halt }
    ensures stored { (qs : List Question) → said_all (pen true) qs ≡ replicate (length qs) Halt }
{}
