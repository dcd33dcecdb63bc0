//! The grammar of script steps.

ghost use Rattle.std.specs.Prelude.{◌≡◌, ◌≤◌, ◌<◌, ◌*◌, ◌^◌, length, IfSome, option_map};
ghost use Rattle.hp_config.specs.Script.{past as text_past, digit_of as hex_digit, hex_onto, number as whole_number, one as one_group, front as front_group, two as two_groups, three as three_groups, memory_width, port_width, load_step, store_step, in_step, out_step, end_step, swap_step, read_step, write_step, icr_step, script_step};

use hp_model::Access;

/// What follows a word at the front of the text.
#[tactic(auto, unfolding(crate::specs::Script::past))]
fn past<'a>(text: &'a [u8], word: &[u8]) -> Option<&'a [u8]>
    ensures { option_map (λ rest. rest.now) result ≡ text_past word.now text.now }
{
    match word {
        [] => Some(text),
        [first, others @ ..] => match text {
            [byte, rest @ ..] => if *first == *byte {
                past(rest, others)
            } else {
                None
            },
            [] => None,
        },
    }
}

fn digit_of(byte: u8) -> Option<u8>
    ensures value { result ≡ hex_digit byte }
    ensures small { IfSome result (λ digit. digit < 16) }
{
    match byte {
        b'0'..=b'9' => Some(byte - b'0'),
        b'a'..=b'f' => Some(byte - 87),
        _ => None,
    }
}

/// The number whose digits the whole text is.
#[tactic(auto, using(crate::proofs::Digits::hex_steps))]
fn value_of(text: &[u8]) -> Option<u64>
    requires { length text.now ≤ 16 }
    ensures value { result ≡ hex_onto 0 text.now }
    ensures small { IfSome result (λ value. value < 16 ^ length text.now) }
{
    let mut value: u64 = 0;
    for byte in text {
        match digit_of(*byte) {
            Some(digit) => value = value * 16 + digit as u64,
            None => return None,
        }
    }
    Some(value)
}

/// The number that the whole text is, of so many digits.
#[tactic(auto, unfolding(crate::specs::Script::number))]
fn number(text: &[u8], digits: usize) -> Option<u64>
    requires { digits ≤ 16 }
    ensures value { result ≡ whole_number digits text.now }
    ensures small { IfSome result (λ value. value < 16 ^ digits) }
{
    if text.len() == digits {
        value_of(text)
    } else {
        None
    }
}

/// One group of digits, to the end of the text.
#[tactic(auto, unfolding(crate::specs::Script::one))]
fn one(text: &[u8], a: usize) -> Option<u64>
    requires { a ≤ 16 }
    ensures value { result ≡ one_group a text.now }
    ensures small { IfSome result (λ x. x < 16 ^ a) }
{
    number(past(text, b" ")?, a)
}

/// A group of digits, and what follows it.
#[tactic(auto, unfolding(crate::specs::Script::front))]
fn front(text: &[u8], a: usize) -> Option<(u64, &[u8])>
    requires { a ≤ 16 }
    ensures value { option_map (λ p. (p.0, p.1.now)) result ≡ front_group a text.now }
    ensures small { IfSome result (λ p. p.0 < 16 ^ a) }
{
    let rest = past(text, b" ")?;
    let (digits, others) = rest.split_at(a.min(rest.len()));
    let x = number(digits, a)?;
    Some((x, others))
}

/// Two groups, to the end of the text.
#[tactic(auto, unfolding(crate::specs::Script::two))]
fn two(text: &[u8], a: usize, b: usize) -> Option<(u64, u64)>
    requires a { a ≤ 16 }
    requires b { b ≤ 16 }
    ensures value { result ≡ two_groups a b text.now }
    ensures small { IfSome result (λ p. (p.0 < 16 ^ a) × (p.1 < 16 ^ b)) }
{
    let (x, rest) = front(text, a)?;
    let y = one(rest, b)?;
    Some((x, y))
}

/// Three groups, to the end of the text.
#[tactic(auto, unfolding(crate::specs::Script::three))]
fn three(text: &[u8], a: usize, b: usize, c: usize) -> Option<(u64, u64, u64)>
    requires a { a ≤ 16 }
    requires b { b ≤ 16 }
    requires c { c ≤ 16 }
    ensures value { result ≡ three_groups a b c text.now }
    ensures small { IfSome result (λ t. t.0 < 16 ^ a) }
{
    let (x, rest) = front(text, a)?;
    let (y, z) = two(rest, b, c)?;
    Some((x, y, z))
}

/// The width of an access to memory.
fn width_in_memory(byte: u8) -> Option<u8>
    ensures value { result ≡ memory_width byte }
    ensures small { IfSome result (λ width. width ≤ 8) }
{
    match byte {
        b'1' => Some(1),
        b'2' => Some(2),
        b'4' => Some(4),
        b'8' => Some(8),
        _ => None,
    }
}

/// The width of an access to a port.
fn width_at_port(byte: u8) -> Option<u8>
    ensures value { result ≡ port_width byte }
    ensures small { IfSome result (λ width. width ≤ 4) }
{
    match byte {
        b'1' => Some(1),
        b'2' => Some(2),
        b'4' => Some(4),
        _ => None,
    }
}

fn load(text: &[u8]) -> Option<Access>
    ensures { result ≡ load_step text.now }
{
    let [first, rest @ ..] = text else {
        return None
    };
    let width = width_in_memory(*first)?;
    let addr = one(rest, 8)? as u32;
    Some(Access::Load { addr, width })
}

fn store(text: &[u8]) -> Option<Access>
    ensures { result ≡ store_step text.now }
{
    let [first, rest @ ..] = text else {
        return None
    };
    let width = width_in_memory(*first)?;
    let (addr, value) = two(rest, 8, 2 * width as usize)?;
    Some(Access::Store {
        addr: addr as u32,
        width,
        value,
    })
}

fn swap(text: &[u8]) -> Option<Access>
    ensures { result ≡ swap_step text.now }
{
    let (addr, expected, desired) = three(text, 8, 16, 16)?;
    Some(Access::Swap {
        addr: addr as u32,
        expected,
        desired,
    })
}

fn input(text: &[u8]) -> Option<Access>
    ensures { result ≡ in_step text.now }
{
    let [first, rest @ ..] = text else {
        return None
    };
    let width = width_at_port(*first)?;
    let port = one(rest, 4)? as u16;
    Some(Access::In { port, width })
}

fn output(text: &[u8]) -> Option<Access>
    ensures { result ≡ out_step text.now }
{
    let [first, rest @ ..] = text else {
        return None
    };
    let width = width_at_port(*first)?;
    let (port, value) = two(rest, 4, 2 * width as usize)?;
    Some(Access::Out {
        port: port as u16,
        width,
        value: value as u32,
    })
}

fn read(text: &[u8]) -> Option<Access>
    ensures { result ≡ read_step text.now }
{
    let reg = one(text, 2)? as u8;
    Some(Access::CfgRead { reg })
}

fn write(text: &[u8]) -> Option<Access>
    ensures { result ≡ write_step text.now }
{
    let (reg, value) = two(text, 2, 2)?;
    Some(Access::CfgWrite {
        reg: reg as u8,
        value: value as u8,
    })
}

fn icr(text: &[u8]) -> Option<Access>
    ensures { result ≡ icr_step text.now }
{
    let (high, low) = two(text, 8, 8)?;
    Some(Access::Icr {
        high: high as u32,
        low: low as u32,
    })
}

fn end(access: Access, text: &[u8]) -> Option<Access>
    ensures { result ≡ end_step access text.now }
{
    if text.is_empty() { Some(access) } else { None }
}

/// The access that a script step asks for, None exactly where the text isn't in the grammar of docs/FORMATS.md.
#[tactic(auto, unfolding(crate::specs::Script::script_step))]
pub fn step_of(text: &[u8]) -> Option<Access>
    ensures { result ≡ script_step text.now }
{
    if let Some(rest) = past(text, b"load ") {
        return load(rest);
    }
    if let Some(rest) = past(text, b"store ") {
        return store(rest);
    }
    if let Some(rest) = past(text, b"cas") {
        return swap(rest);
    }
    if let Some(rest) = past(text, b"in ") {
        return input(rest);
    }
    if let Some(rest) = past(text, b"out ") {
        return output(rest);
    }
    if let Some(rest) = past(text, b"cfgr") {
        return read(rest);
    }
    if let Some(rest) = past(text, b"cfgw") {
        return write(rest);
    }
    if let Some(rest) = past(text, b"icr") {
        return icr(rest);
    }
    if let Some(rest) = past(text, b"halt") {
        return end(Access::Halt, rest);
    }
    if let Some(rest) = past(text, b"nop") {
        return end(Access::Nop, rest);
    }
    None
}
