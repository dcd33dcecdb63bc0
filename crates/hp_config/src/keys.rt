//! Which keys the tables of a platform file may have.

ghost use Rattle.std.specs.Prelude.{◌≡◌, string_bytes};
ghost use Rattle.std.specs.BTreeMap.{keys};
ghost use Rattle.std.specs.List.{list_all};
ghost use Rattle.std.specs.Str.{bytes_eq};
ghost use Rattle.toml.specs.View.{table_view};
ghost use Rattle.hp_config.specs.Keys.{knows, has_only};

use toml::Table;

/// The tables of a platform file.
#[derive(Clone, Copy)]
pub enum Form {
    /// The file itself.
    Whole,
    Platform,
    Host,
    Stall,
    Agent,
}

/// Whether two texts are the same.
pub fn is_word(text: &str, word: &str) -> bool
    ensures { result ≡ bytes_eq text.now word.now }
{
    text == word
}

#[tactic(auto, unfolding(crate::specs::Keys::knows))]
fn is_known(form: Form, key: &str) -> bool
    ensures { result ≡ knows form key.now }
{
    match form {
        Form::Whole => {
            is_word(key, "platform")
                || is_word(key, "host")
                || is_word(key, "stall")
                || is_word(key, "agent")
        }
        Form::Platform => {
            is_word(key, "apic")
                || is_word(key, "boot")
                || is_word(key, "low_memory")
                || is_word(key, "tseg_mib")
                || is_word(key, "features")
                || is_word(key, "polls")
                || is_word(key, "turns")
                || is_word(key, "modern")
                || is_word(key, "default_smram")
                || is_word(key, "delivery")
                || is_word(key, "lag")
                || is_word(key, "x2apic")
                || is_word(key, "ext_tseg")
        }
        Form::Host => is_word(key, "turn") || is_word(key, "insert") || is_word(key, "remove"),
        Form::Stall => is_word(key, "cpu") || is_word(key, "from") || is_word(key, "to"),
        Form::Agent => {
            is_word(key, "cpu")
                || is_word(key, "kind")
                || is_word(key, "steps")
                || is_word(key, "seed")
        }
    }
}

fn keys_are_known(form: Form, table: &Table) -> bool
    ensures { result ≡ list_all (λ key. knows form (string_bytes key)) (keys table.now) }
{
    table.keys().all(|key| is_known(form, key.as_str()))
}

/// Whether each key of the table is one that this form knows.
pub fn has_only_known(form: Form, table: &Table) -> bool
    ensures { result ≡ has_only (knows form) (table_view table.now) }
{
    keys_are_known(form, table)
}
