//! The number that a word is.

ghost use Rattle.std.specs.Prelude.{◌≡◌, ◌≤◌, ◌+◌, ◌-◌, ◌*◌, ℕ, None, IfSome};
ghost use Rattle.hp_top.specs.Commands.{IsNumber, number_onto as reads_onto, with_digit};

/// A digit more behind this value: from 1 to 1000, so the first is no zero.
fn and_digit(value: u32, byte: u8) -> Option<u32>
    requires { value ≤ 1000 }
    ensures value { result ≡ with_digit value byte }
    ensures most { IfSome result (λ n. n ≤ 1000) }
{
    match byte {
        b'0'..=b'9' => {
            let more = value * 10 + u32::from(byte - b'0');
            if 1 <= more && more <= 1000 {
                Some(more)
            } else {
                None
            }
        }
        _ => None,
    }
}

/// The number of these digits behind this value.
fn number_onto(value: u32, word: &[u8]) -> Option<u32>
    requires { value ≤ 1000 }
    ensures { result ≡ reads_onto value word.now }
{
    match word {
        [byte, rest @ ..] => match and_digit(value, *byte) {
            Some(more) => number_onto(more, rest),
            None => None,
        },
        [] => if value == 0 { None } else { Some(value) },
    }
}

/// The number from 1 to 1000 that the word is in decimal, without a sign or a leading zero.
pub(crate) fn number_of(word: &[u8]) -> Option<u32>
    ensures some { IfSome result (λ n. IsNumber word.now n) }
    ensures none { result ≡ None → (n : ℕ) → ¬ IsNumber word.now n }
{
    number_onto(0, word)
}
