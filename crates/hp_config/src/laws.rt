//! Laws over definitions: public functions with empty bodies, whose clauses are what is proved.

ghost use Rattle.std.specs.Prelude.{◌≡◌, ◌↔◌, ℕ, List, Some, Ok};
ghost use Rattle.hp_model.specs.declared.accesses.Access.{Access};
ghost use Rattle.hp_model.specs.declared.files.File.{File};
ghost use Rattle.toml.specs.Data.{Members};
ghost use Rattle.hp_config.specs.Generated.{generated_file};
ghost use Rattle.hp_config.specs.Reading.{file_of, good, IsReadAs};
ghost use Rattle.hp_config.specs.Script.{script_step};
ghost use Rattle.hp_config.specs.Sound.{IsSound};
ghost use Rattle.hp_config.specs.Spelling.{IsSpelled};

/// The script steps that are read as an access are exactly the texts that spell it, and these are of normal accesses
/// whose fields fit their digits. So each such access has one text, and a text one access.
pub fn steps_are_read_as_spelled()
    ensures { (text : List ℕ) (a : Access) → (script_step text ≡ Some a) ↔ IsSpelled text a }
{}

/// In each file that is read the platform fits, each possible processor has one voice, host events and stalls name possible
/// processors, and each host event is an insert or a remove.
pub fn good_files_are_sound()
    ensures { (ms : Members) (f : File) → file_of ms ≡ good f → IsSound f }
{}

/// The same of each text that `read` reads as a file.
pub fn read_files_are_sound()
    ensures { (text : List ℕ) (f : File) → IsReadAs text (Ok f) → IsSound f }
{}

/// The same of the file that a number makes.
pub fn generated_files_are_sound()
    ensures { (n : ℕ) → IsSound (generated_file n) }
{}
