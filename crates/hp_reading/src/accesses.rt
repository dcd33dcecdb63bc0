//! Accesses and what they were answered, read from their text.

ghost use Rattle.std.specs.Prelude.{◌≡◌, ◌≤◌, IfSome};
ghost use Rattle.hp_reading.specs.Lines.{memory_width, port_width, load_line, store_line, in_line, out_line, swap_line, read_line, write_line, icr_line, quiet as quiet_made, only, access_of as text_access};

use crate::fronts::past;
use crate::groups::{swap_numbers, two_hex};
use hp_model::{Access, Answer};

/// An access, and what it was answered.
#[derive(Clone, Copy)]
pub struct Made {
    pub access: Access,
    pub answer: Answer,
}

/// The width of an access to memory.
fn width_in_memory(byte: u8) -> Option<u8>
    ensures value { result ≡ memory_width byte }
    ensures small { IfSome result (λ width. width ≤ 8) }
{
    match byte {
        b'1' => Some(1),
        b'2' => Some(2),
        b'4' => Some(4),
        b'8' => Some(8),
        _ => None,
    }
}

/// The width of an access to a port.
fn width_at_port(byte: u8) -> Option<u8>
    ensures value { result ≡ port_width byte }
    ensures small { IfSome result (λ width. width ≤ 4) }
{
    match byte {
        b'1' => Some(1),
        b'2' => Some(2),
        b'4' => Some(4),
        _ => None,
    }
}

fn quiet(access: Access) -> Made
    ensures { result ≡ quiet_made access }
{
    Made {
        access,
        answer: Answer::Quiet,
    }
}

fn load(text: &[u8]) -> Option<Made>
    ensures { result ≡ load_line text.now }
{
    let [first, rest @ ..] = text else {
        return None;
    };
    let width = width_in_memory(*first)?;
    let (addr, seen) = two_hex(past(rest, b" ")?, 8, b" = ", 2 * width as usize)?;
    Some(Made {
        access: Access::Load {
            addr: addr as u32,
            width,
        },
        answer: Answer::Value(seen),
    })
}

fn store(text: &[u8]) -> Option<Made>
    ensures { result ≡ store_line text.now }
{
    let [first, rest @ ..] = text else {
        return None;
    };
    let width = width_in_memory(*first)?;
    let (addr, value) = two_hex(past(rest, b" ")?, 8, b" ", 2 * width as usize)?;
    Some(quiet(Access::Store {
        addr: addr as u32,
        width,
        value,
    }))
}

fn swap(text: &[u8]) -> Option<Made>
    ensures { result ≡ swap_line text.now }
{
    let (addr, expected, desired, seen) = swap_numbers(text)?;
    Some(Made {
        access: Access::Swap {
            addr,
            expected,
            desired,
        },
        answer: Answer::Value(seen),
    })
}

fn input(text: &[u8]) -> Option<Made>
    ensures { result ≡ in_line text.now }
{
    let [first, rest @ ..] = text else {
        return None;
    };
    let width = width_at_port(*first)?;
    let (port, seen) = two_hex(past(rest, b" ")?, 4, b" = ", 2 * width as usize)?;
    Some(Made {
        access: Access::In {
            port: port as u16,
            width,
        },
        answer: Answer::Value(seen),
    })
}

fn output(text: &[u8]) -> Option<Made>
    ensures { result ≡ out_line text.now }
{
    let [first, rest @ ..] = text else {
        return None;
    };
    let width = width_at_port(*first)?;
    let (port, value) = two_hex(past(rest, b" ")?, 4, b" ", 2 * width as usize)?;
    Some(quiet(Access::Out {
        port: port as u16,
        width,
        value: value as u32,
    }))
}

fn read(text: &[u8]) -> Option<Made>
    ensures { result ≡ read_line text.now }
{
    let (reg, seen) = two_hex(text, 2, b" = ", 2)?;
    Some(Made {
        access: Access::CfgRead { reg: reg as u8 },
        answer: Answer::Value(seen),
    })
}

fn write(text: &[u8]) -> Option<Made>
    ensures { result ≡ write_line text.now }
{
    let (reg, value) = two_hex(text, 2, b" ", 2)?;
    Some(quiet(Access::CfgWrite {
        reg: reg as u8,
        value: value as u8,
    }))
}

fn icr(text: &[u8]) -> Option<Made>
    ensures { result ≡ icr_line text.now }
{
    let (high, low) = two_hex(text, 8, b" ", 8)?;
    Some(quiet(Access::Icr {
        high: high as u32,
        low: low as u32,
    }))
}

fn end(access: Access, text: &[u8]) -> Option<Made>
    ensures { result ≡ only (quiet_made access) text.now }
{
    if text.is_empty() {
        Some(quiet(access))
    } else {
        None
    }
}

/// The access whose text, with its answer, this is.
#[tactic(auto, unfolding(crate::specs::Lines::access_of))]
pub fn access_of(text: &[u8]) -> Option<Made>
    ensures { result ≡ text_access text.now }
{
    if let Some(rest) = past(text, b"load ") {
        return load(rest);
    }
    if let Some(rest) = past(text, b"store ") {
        return store(rest);
    }
    if let Some(rest) = past(text, b"cas ") {
        return swap(rest);
    }
    if let Some(rest) = past(text, b"in ") {
        return input(rest);
    }
    if let Some(rest) = past(text, b"out ") {
        return output(rest);
    }
    if let Some(rest) = past(text, b"cfgr ") {
        return read(rest);
    }
    if let Some(rest) = past(text, b"cfgw ") {
        return write(rest);
    }
    if let Some(rest) = past(text, b"icr ") {
        return icr(rest);
    }
    if let Some(rest) = past(text, b"halt") {
        return end(Access::Halt, rest);
    }
    if let Some(rest) = past(text, b"nop") {
        return end(Access::Nop, rest);
    }
    None
}
