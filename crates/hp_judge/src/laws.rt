//! A law over definitions: a public function with an empty body, whose clauses are what is proved.

ghost use Rattle.std.specs.Prelude.{◌≡◌, ℕ, List, Ok};
ghost use Rattle.hp_judge.specs.Standing.{fault_by, verdict_of, HasEntries};
ghost use Rattle.hp_reading.specs.Fault.{fault_of};

/// A text can be judged line by line, in the state that its entries have led to: what is found so is the first fault of the whole text, and
/// none exactly where that has none. Where there is none, the number that is found is that of its entries.
pub fn judged_line_by_line()
    ensures fault { (text : List ℕ) → fault_of text ≡ fault_by (verdict_of text) }
    ensures entries { (text : List ℕ) (n : ℕ) → verdict_of text ≡ Ok n → HasEntries text n }
{}
