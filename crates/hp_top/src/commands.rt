//! What the words of a call ask for.

ghost use Rattle.std.specs.Prelude.{◌≡◌, ℕ, None, IfSome, codes, map, string_bytes};
ghost use Rattle.std.specs.Str.{bytes_eq};
ghost use Rattle.hp_top.specs.Commands.{AreGen, AreWords, Asks, are_check as are_the_check, are_run as are_the_run, are_threads as are_the_threads};

use crate::numbers::number_of;

/// A command of the program.
#[derive(Clone, Copy)]
pub(crate) enum Command {
    /// `run`.
    Run,
    /// `check`.
    Check,
    /// `gen` and this number, from 1 to 1000.
    Gen(u32),
}

fn is_run(word: &str) -> bool
    ensures { result ≡ bytes_eq word.now (codes "run") }
{
    word == "run"
}

fn is_check(word: &str) -> bool
    ensures { result ≡ bytes_eq word.now (codes "check") }
{
    word == "check"
}

fn is_gen(word: &str) -> bool
    ensures { result ≡ bytes_eq word.now (codes "gen") }
{
    word == "gen"
}

/// Whether the words are `run` alone.
fn are_run(words: &[String]) -> bool
    ensures { result ≡ are_the_run (map string_bytes words.now) }
{
    match words {
        [word] => is_run(word.as_str()),
        _ => false,
    }
}

/// Whether they are `check` alone.
fn are_check(words: &[String]) -> bool
    ensures { result ≡ are_the_check (map string_bytes words.now) }
{
    match words {
        [word] => is_check(word.as_str()),
        _ => false,
    }
}

fn is_threads(word: &str) -> bool
    ensures { result ≡ bytes_eq word.now (codes "threads") }
{
    word == "threads"
}

/// Or `threads` alone.
pub(crate) fn are_threads(words: &[String]) -> bool
    ensures { result ≡ are_the_threads (map string_bytes words.now) }
{
    match words {
        [word] => is_threads(word.as_str()),
        _ => false,
    }
}

/// The number of these two words, where the first is `gen`.
fn number_after(word: &str, number: &str) -> Option<u32>
    ensures some { IfSome result (AreWords word.now number.now) }
    ensures none { result ≡ None → (n : ℕ) → ¬ AreWords word.now number.now n }
{
    if is_gen(word) {
        number_of(number.as_bytes())
    } else {
        None
    }
}

/// The number of the words, where they are `gen` and one.
fn gen_number(words: &[String]) -> Option<u32>
    ensures some { IfSome result (AreGen (map string_bytes words.now)) }
    ensures none { result ≡ None → (n : ℕ) → ¬ AreGen (map string_bytes words.now) n }
{
    match words {
        [word, number] => number_after(word.as_str(), number.as_str()),
        _ => None,
    }
}

/// What the words ask for, where they are a command.
pub(crate) fn command_of(words: &[String]) -> Option<Command>
    ensures { Asks (map string_bytes words.now) result }
{
    if are_run(words) {
        return Some(Command::Run);
    }
    if are_check(words) {
        return Some(Command::Check);
    }
    gen_number(words).map(Command::Gen)
}
