//! What no line of a trace says of a machine, as lines of our own.

use crate::looks::reach;
use hp_machine::Machine;
use hp_model::{Cpu, Event, Mode, NoMemory};
use std::alloc::Global;

/// Three numbers with one space between two: the first decimal, the others hexadecimal.
pub fn three_numbers(text: &str) -> Option<(u32, u32, u32)> {
    let (first, rest) = text.split_once(' ')?;
    let (second, third) = rest.split_once(' ')?;
    Some((
        first.parse::<u32>().ok()?,
        u32::from_str_radix(second, 16).ok()?,
        u32::from_str_radix(third, 16).ok()?,
    ))
}

/// A number in decimal, or `none`.
fn number_text(alloc: Global, number: Option<u64>) -> Result<String, NoMemory> {
    match number {
        Some(number) => Ok(format!(in alloc; "{number}")?),
        None => Ok(format!(in alloc; "none")?),
    }
}

/// A mode, with its page in at least two digits or its instruction address in eight.
fn mode_text(alloc: Global, mode: Mode) -> Result<String, NoMemory> {
    match mode {
        Mode::Wait => Ok(format!(in alloc; "waiting")?),
        Mode::Running(page) => Ok(format!(in alloc; "running {page:02x}")?),
        Mode::Halted(page) => Ok(format!(in alloc; "halted {page:02x}")?),
        Mode::Smm(address) => Ok(format!(in alloc; "smm {address:08x}")?),
    }
}

/// All that a machine keeps of a processor.
fn cpu_text(alloc: Global, k: u32, cpu: Cpu) -> Result<String, NoMemory> {
    let there = if cpu.present { "present" } else { "absent" };
    let mode = mode_text(alloc, cpu.mode)?;
    let smi = if cpu.smi { " smi" } else { "" };
    let init = if cpu.init { " init" } else { "" };
    Ok(format!(in alloc;
        "cpu {k} {there} {mode} smbase={:08x} base={:08x}{smi}{init}",
        cpu.smbase, cpu.base
    )?)
}

/// The mark where a processor stands, or `none`.
fn mark_text(alloc: Global, cpu: u32, mark: Option<u32>) -> Result<String, NoMemory> {
    match mark {
        Some(mark) => Ok(format!(in alloc; "mark {cpu} {mark:08x}")?),
        None => Ok(format!(in alloc; "mark {cpu} none")?),
    }
}

/// A line of a processor, whose place stands first in `rest`; None where that is no number.
fn of_a_cpu(
    alloc: Global,
    machine: &Machine,
    word: &str,
    rest: &str,
) -> Result<Option<String>, NoMemory> {
    let place = match rest.split_once(' ') {
        Some((place, _)) => place.parse::<u32>(),
        None => return Ok(None),
    };
    match place {
        Ok(k) if word == "cpu" => Ok(Some(cpu_text(alloc, k, machine.cpu(k))?)),
        Ok(k) => Ok(Some(mark_text(alloc, k, machine.mark_at(k))?)),
        Err(_) => Ok(None),
    }
}

/// A processor in SMM goes on at an address, with a base.
fn go(alloc: Global, machine: &mut Machine, rest: &str) -> Result<Option<String>, NoMemory> {
    match three_numbers(rest) {
        Some((cpu, address, base)) if machine.enabled(&Event::Resume(cpu)) => {
            machine.go(cpu, address, base);
            Ok(Some(format!(in alloc; "go {rest}")?))
        }
        _ => Ok(None),
    }
}

/// The line as the machine has it; None where it is no line of ours.
pub fn fact_of(
    alloc: Global,
    machine: &mut Machine,
    line: &str,
) -> Result<Option<String>, NoMemory> {
    let Some((word, rest)) = line.split_once(' ') else {
        return Ok(None);
    };
    match word {
        "negotiated" => {
            let features = number_text(alloc, machine.negotiated())?;
            Ok(Some(format!(in alloc; "negotiated {features}")?))
        }
        "ejected" => {
            let cpu = number_text(alloc, machine.ejected().map(|k| u64::from(k)))?;
            Ok(Some(format!(in alloc; "ejected {cpu}")?))
        }
        "cpu" | "mark" => of_a_cpu(alloc, machine, word, rest),
        "go" => go(alloc, machine, rest),
        "reach" => reach(alloc, machine, rest),
        _ => Ok(None),
    }
}
