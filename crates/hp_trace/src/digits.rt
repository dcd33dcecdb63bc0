//! Numbers as text, appended to a vector of bytes.

ghost use Rattle.std.specs.Prelude.{◌≡◌, ◌<◌, ◌/◌, ◌++◌, OnErr, OnOk, decimal, false, codes};
ghost use Rattle.std.specs.Fmt.{digit_glyph};
ghost use Rattle.hp_model.specs.Text.{hex, numbers_text};
ghost use Rattle.hp_trace.specs.Pieces.{Begins, eight_of, four_of, two_of};

use hp_model::NoMemory;
use itoa::Buffer;

/// The lower-case hexadecimal digit of a value below 16.
fn digit_of(value: u8) -> u8
    requires { value < 16 }
    ensures { result ≡ digit_glyph false value }
{
    if value < 10 {
        b'0' + value
    } else {
        b'a' + (value - 10)
    }
}

/// Appends the lowest two digits of a value in hexadecimal.
#[tactic(auto, using(crate::proofs::Texts::front_facts))]
pub fn put_two(value: u64, out: &mut Vec<u8>) -> Result<(), NoMemory>
    ensures text { OnOk result (out.new.items ≡ out.old.items ++ two_of value) }
    ensures front { OnErr result (Begins out.old.items out.new.items) }
{
    let two = [
        digit_of((value / 16 % 16) as u8),
        digit_of((value % 16) as u8),
    ];
    Ok(out.extend_from_slice(&two)?)
}

/// Appends the lowest four digits of a value in hexadecimal.
#[tactic(auto, using(crate::proofs::Texts::front_facts))]
pub fn put_four(value: u64, out: &mut Vec<u8>) -> Result<(), NoMemory>
    ensures text { OnOk result (out.new.items ≡ out.old.items ++ four_of value) }
    ensures front { OnErr result (Begins out.old.items out.new.items) }
{
    let four = [
        digit_of((value / 0x1000 % 16) as u8),
        digit_of((value / 0x100 % 16) as u8),
        digit_of((value / 16 % 16) as u8),
        digit_of((value % 16) as u8),
    ];
    Ok(out.extend_from_slice(&four)?)
}

/// Appends the lowest eight digits of a value in hexadecimal.
#[tactic(auto, using(crate::proofs::Texts::front_facts))]
pub fn put_eight(value: u64, out: &mut Vec<u8>) -> Result<(), NoMemory>
    ensures text { OnOk result (out.new.items ≡ out.old.items ++ eight_of value) }
    ensures front { OnErr result (Begins out.old.items out.new.items) }
{
    let eight = [
        digit_of((value / 0x1000_0000 % 16) as u8),
        digit_of((value / 0x100_0000 % 16) as u8),
        digit_of((value / 0x10_0000 % 16) as u8),
        digit_of((value / 0x1_0000 % 16) as u8),
        digit_of((value / 0x1000 % 16) as u8),
        digit_of((value / 0x100 % 16) as u8),
        digit_of((value / 16 % 16) as u8),
        digit_of((value % 16) as u8),
    ];
    Ok(out.extend_from_slice(&eight)?)
}

/// Appends sixteen digits.
#[tactic(auto, using(crate::proofs::Texts::front_facts))]
pub fn put_sixteen(value: u64, out: &mut Vec<u8>) -> Result<(), NoMemory>
    ensures text { OnOk result (out.new.items ≡ (out.old.items ++ eight_of (value / 0x100000000)) ++ eight_of value) }
    ensures front { OnErr result (Begins out.old.items out.new.items) }
{
    put_eight(value / 0x1_0000_0000, out)?;
    put_eight(value, out)?;
    Ok(())
}

/// Appends the low digits of a value in hexadecimal, with zeros in front, one by one.
#[tactic(auto, using(crate::proofs::Texts::hex_facts))]
fn put_digits(digits: u32, value: u64, out: &mut Vec<u8>) -> Result<(), NoMemory>
    ensures text { OnOk result (out.new.items ≡ out.old.items ++ hex digits value) }
    ensures front { OnErr result (Begins out.old.items out.new.items) }
{
    if digits > 0 {
        put_digits(digits - 1, value / 16, out)?;
        out.push(digit_of((value % 16) as u8))?;
    }
    Ok(())
}

/// Appends the low digits of a value in hexadecimal, with zeros in front.
#[tactic(auto, using(crate::proofs::Texts::widths))]
pub fn put_hex(digits: u32, value: u64, out: &mut Vec<u8>) -> Result<(), NoMemory>
    ensures text { OnOk result (out.new.items ≡ out.old.items ++ hex digits value) }
    ensures front { OnErr result (Begins out.old.items out.new.items) }
{
    match digits {
        2 => put_two(value, out)?,
        4 => put_four(value, out)?,
        8 => put_eight(value, out)?,
        16 => put_sixteen(value, out)?,
        _ => put_digits(digits, value, out)?,
    }
    Ok(())
}

/// Appends a number in decimal, of any length.
fn put_long(value: u64, out: &mut Vec<u8>) -> Result<(), NoMemory>
    ensures text { OnOk result (out.new.items ≡ out.old.items ++ decimal value) }
    ensures front { OnErr result (Begins out.old.items out.new.items) }
{
    let mut buffer = Buffer::new();
    out.extend_from_slice(buffer.format(value).as_bytes())?;
    Ok(())
}

/// Appends a number in decimal.
#[inline(always)]
#[tactic(auto, using(crate::proofs::Texts::decimal_facts))]
pub fn put_decimal(value: u64, out: &mut Vec<u8>) -> Result<(), NoMemory>
    ensures text { OnOk result (out.new.items ≡ out.old.items ++ decimal value) }
    ensures front { OnErr result (Begins out.old.items out.new.items) }
{
    if value < 10 {
        out.push(b'0' + value as u8)?;
    } else if value < 100 {
        out.extend_from_slice(&[b'0' + (value / 10) as u8, b'0' + (value % 10) as u8])?;
    } else {
        put_long(value, out)?;
    }
    Ok(())
}

/// Appends a comma and a number.
#[tactic(auto, using(crate::proofs::Texts::number_facts))]
fn put_another(value: u64, out: &mut Vec<u8>) -> Result<(), NoMemory>
    ensures text { OnOk result (out.new.items ≡ out.old.items ++ (codes "," ++ decimal value)) }
    ensures front { OnErr result (Begins out.old.items out.new.items) }
{
    out.push(b',')?;
    put_decimal(value, out)
}

/// Appends numbers in decimal, with a comma between two.
#[tactic(auto, using(crate::proofs::Texts::number_facts))]
pub fn put_numbers(numbers: &[u32], out: &mut Vec<u8>) -> Result<(), NoMemory>
    ensures text { OnOk result (out.new.items ≡ out.old.items ++ numbers_text numbers.now) }
    ensures front { OnErr result (Begins out.old.items out.new.items) }
{
    if let [first, rest @ ..] = numbers {
        put_decimal(*first as u64, out)?;
        for number in rest {
            put_another(*number as u64, out)?;
        }
    }
    Ok(())
}
