//! A row of loads in one line, each from one byte further on.

use crate::facts::three_numbers;
use hp_machine::Machine;
use hp_model::{Access, Answer, Event, NoMemory};
use std::alloc::Global;

/// Whether a value of so many bytes has no 0 among its bits.
fn is_all_ones(width: u8, value: u64) -> bool {
    match width {
        1 => value == 0xff,
        2 => value == 0xffff,
        4 => value == 0xffff_ffff,
        _ => value == u64::MAX,
    }
}

/// What processor `cpu` finds by a load: `-` is a value of ones alone, as a hole has, `+` another one, and `!` no step.
fn look(machine: &mut Machine, cpu: u32, width: u8, addr: u32) -> Result<char, NoMemory> {
    let event = Event::Do(cpu, Access::Load { addr, width });
    if !machine.enabled(&event) {
        return Ok('!');
    }
    match machine.step(&event)? {
        Answer::Value(value) if !is_all_ones(width, value) => Ok('+'),
        _ => Ok('-'),
    }
}

/// The line of processor, width, first address, and a letter for each load. There are as many loads as it has letters.
pub fn reach(alloc: Global, machine: &mut Machine, rest: &str) -> Result<Option<String>, NoMemory> {
    let Some((numbers, letters)) = rest.rsplit_once(' ') else {
        return Ok(None);
    };
    let Some((cpu, width, first)) = three_numbers(numbers) else {
        return Ok(None);
    };
    let Ok(width) = u8::try_from(width) else {
        return Ok(None);
    };
    let mut text = format!(in alloc; "reach {numbers} ")?;
    let mut addr = first;
    for _ in letters.chars() {
        text.push(look(machine, cpu, width, addr)?)?;
        addr = addr.wrapping_add(1);
    }
    Ok(Some(text))
}
