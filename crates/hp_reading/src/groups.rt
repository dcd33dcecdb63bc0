//! Groups of numbers, to the end of a text.

ghost use Rattle.std.specs.Prelude.{◌≡◌, ◌≤◌, ◌<◌, ◌^◌, ◌∷◌, [], IfSome, option_map};
ghost use Rattle.hp_reading.specs.Forms.{read, digits};
ghost use Rattle.hp_reading.specs.Lines.{digits_and, one_decimal, two_form, three_form, status_form, swap_form};

use crate::fronts::{decimal, hex, past};

/// One hexadecimal number.
fn last_hex(text: &[u8], n: usize) -> Option<u64>
    requires { n ≤ 16 }
    ensures value { option_map (λ v. v ∷ []) result ≡ read (digits n ∷ []) text.now }
    ensures small { IfSome result (λ v. v < 16 ^ n) }
{
    let (value, rest) = hex(text, n)?;
    if rest.is_empty() { Some(value) } else { None }
}

/// Two hexadecimal numbers of `m` and of `n` digits.
pub fn two_hex(text: &[u8], m: usize, between: &[u8], n: usize) -> Option<(u64, u64)>
    requires m { m ≤ 16 }
    requires n { n ≤ 16 }
    ensures value { option_map (λ p. p.0 ∷ p.1 ∷ []) result ≡ read (digits_and m between.now n) text.now }
    ensures small { IfSome result (λ p. (p.0 < 16 ^ m) × (p.1 < 16 ^ n)) }
{
    let (first, rest) = hex(text, m)?;
    let second = last_hex(past(rest, between)?, n)?;
    Some((first, second))
}

/// One decimal number.
pub fn last_decimal(text: &[u8], most: u64) -> Option<u64>
    ensures value { option_map (λ v. v ∷ []) result ≡ read (one_decimal most) text.now }
    ensures small { IfSome result (λ v. v ≤ most) }
{
    let (value, rest) = decimal(text, most)?;
    if rest.is_empty() { Some(value) } else { None }
}

/// Two decimal numbers, the first of 32 bits.
pub fn two_decimals(text: &[u8], most: u64) -> Option<(u32, u64)>
    ensures value { option_map (λ p. p.0 ∷ p.1 ∷ []) result ≡ read (two_form most) text.now }
    ensures small { IfSome result (λ p. p.1 ≤ most) }
{
    let (first, rest) = decimal(text, 0xffffffff)?;
    let second = last_decimal(past(rest, b" ")?, most)?;
    Some((first as u32, second))
}

/// Three decimal numbers of 32 bits.
pub fn three_decimals(text: &[u8]) -> Option<(u32, u32, u32)>
    ensures { option_map (λ p. p.0 ∷ p.1 ∷ p.2 ∷ []) result ≡ read three_form text.now }
{
    let (first, rest) = decimal(text, 0xffffffff)?;
    let (second, third) = two_decimals(past(rest, b" ")?, 0xffffffff)?;
    Some((first as u32, second, third as u32))
}

/// A decimal number of 32 bits, and a byte in hexadecimal.
pub fn with_status(text: &[u8]) -> Option<(u32, u8)>
    ensures { option_map (λ p. p.0 ∷ p.1 ∷ []) result ≡ read status_form text.now }
{
    let (cpu, rest) = decimal(text, 0xffffffff)?;
    let status = last_hex(past(rest, b" ")?, 2)?;
    Some((cpu as u32, status as u8))
}

/// Four hexadecimal numbers, of 8, 16, 16 and 16 digits.
pub fn swap_numbers(text: &[u8]) -> Option<(u32, u64, u64, u64)>
    ensures { option_map (λ p. p.0 ∷ p.1 ∷ p.2 ∷ p.3 ∷ []) result ≡ read swap_form text.now }
{
    let (addr, rest) = hex(text, 8)?;
    let (expected, rest) = hex(past(rest, b" ")?, 16)?;
    let (desired, seen) = two_hex(past(rest, b" ")?, 16, b" = ", 16)?;
    Some((addr as u32, expected, desired, seen))
}
