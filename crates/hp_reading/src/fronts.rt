//! Words and numbers at the front of a text.

ghost use Rattle.std.specs.Prelude.{◌≡◌, ◌≤◌, ◌<◌, ◌^◌, length, IfSome, option_map};
ghost use Rattle.hp_reading.specs.Forms.{past as text_past, hex_digit, hex_onto, hex_front, is_decimal as decimal_digit, decimal_onto, decimal_front};

/// What follows a word at the front of the text. It is inlined where the word is written, so that its bytes are compared one after the
/// other with no loop: most words that a line is tried against differ in their first byte.
#[inline(always)]
#[tactic(auto, using(crate::proofs::Words::word_steps))]
pub fn past<'a>(text: &'a [u8], word: &[u8]) -> Option<&'a [u8]>
    ensures { option_map (λ rest. rest.now) result ≡ text_past word.now text.now }
{
    if text.len() < word.len() {
        return None;
    }
    for at in 0..word.len() {
        if text[at] != word[at] {
            return None;
        }
    }
    let (_, rest) = text.split_at(word.len());
    Some(rest)
}

fn digit_of(byte: u8) -> Option<u8>
    ensures value { result ≡ hex_digit byte }
    ensures small { IfSome result (λ digit. digit < 16) }
{
    match byte {
        b'0'..=b'9' => Some(byte - b'0'),
        b'a'..=b'f' => Some(byte - 87),
        _ => None,
    }
}

/// The number whose hexadecimal digits the whole text is.
#[tactic(auto, using(crate::proofs::Digits::hex_steps))]
fn value_of(text: &[u8]) -> Option<u64>
    requires { length text.now ≤ 16 }
    ensures value { result ≡ hex_onto 0 text.now }
    ensures small { IfSome result (λ value. value < 16 ^ length text.now) }
{
    let mut value: u64 = 0;
    for byte in text {
        match digit_of(*byte) {
            Some(digit) => value = value * 16 + digit as u64,
            None => return None,
        }
    }
    Some(value)
}

/// The number of so many hexadecimal digits at the front, and what follows it.
#[tactic(auto, unfolding(crate::specs::Forms::hex_front))]
pub fn hex(text: &[u8], digits: usize) -> Option<(u64, &[u8])>
    requires { digits ≤ 16 }
    ensures value { option_map (λ p. (p.0, p.1.now)) result ≡ hex_front digits text.now }
    ensures small { IfSome result (λ p. p.0 < 16 ^ digits) }
{
    if text.len() < digits {
        return None;
    }
    let (front, rest) = text.split_at(digits);
    let value = value_of(front)?;
    Some((value, rest))
}

fn is_decimal(byte: u8) -> bool
    ensures { result ≡ decimal_digit byte }
{
    b'0' <= byte && byte <= b'9'
}

/// Further digits, read onto the value of those before them.
#[tactic(auto, using(crate::proofs::Digits::decimal_steps))]
fn onto(text: &[u8], most: u64, value: u64) -> Option<(u64, &[u8])>
    requires { value ≤ most }
    ensures value { option_map (λ p. (p.0, p.1.now)) result ≡ decimal_onto most value text.now }
    ensures small { IfSome result (λ p. p.0 ≤ most) }
{
    let mut made = value;
    for at in 0..text.len() {
        if !is_decimal(text[at]) {
            let (_, rest) = text.split_at(at);
            return Some((made, rest));
        }
        let more = made as u128 * 10 + (text[at] - b'0') as u128;
        if more > most as u128 {
            return None;
        }
        made = more as u64;
    }
    let (_, rest) = text.split_at(text.len());
    Some((made, rest))
}

/// The decimal number without leading zeros at the front, which is at most `most`, and what follows it.
#[tactic(auto, unfolding(crate::specs::Forms::decimal_front))]
pub fn decimal(text: &[u8], most: u64) -> Option<(u64, &[u8])>
    ensures value { option_map (λ p. (p.0, p.1.now)) result ≡ decimal_front most text.now }
    ensures small { IfSome result (λ p. p.0 ≤ most) }
{
    let [first, rest @ ..] = text else {
        return None;
    };
    if *first == b'0' {
        return Some((0, rest));
    }
    if is_decimal(*first) {
        onto(text, most, 0)
    } else {
        None
    }
}
