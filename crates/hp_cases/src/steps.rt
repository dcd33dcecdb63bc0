//! The lines of a trace: the machine makes their steps, and its own lines are written.

use hp_machine::Machine;
use hp_model::{Entry, Event, NoMemory};
use hp_reading::read_entry;
use std::alloc::Global;

/// The instruction address of the processor that acts, where it is in SMM.
fn address_of(machine: &Machine, event: Event) -> Option<u32> {
    match event {
        Event::Do(cpu, _) | Event::TakeSmi(cpu) | Event::TakeInit(cpu) | Event::Resume(cpu) => {
            machine.address(cpu)
        }
        Event::Tell(_) => machine.address(0),
        Event::Insert(_) | Event::Remove(_) => None,
    }
}

/// Makes the step of a line, and answers the line that the machine has of it.
pub fn step(alloc: Global, machine: &mut Machine, line: &str) -> Result<Vec<u8>, NoMemory> {
    let Some(said) = read_entry(line.as_bytes()) else {
        return Ok(Vec::from_slice(alloc, b"no line of a case file")?);
    };
    if !machine.enabled(&said.event) {
        return Ok(Vec::from_slice(alloc, b"no such step")?);
    }
    let at = address_of(machine, said.event);
    let entry = Entry {
        event: said.event,
        at,
        answer: machine.step(&said.event)?,
    };
    let mut text = Vec::new(alloc);
    hp_trace::line(&entry, &mut text)?;
    // its line feed
    let _ = text.pop();
    Ok(text)
}

/// Answers the line again where the machine has no such step now.
pub fn never(alloc: Global, machine: &Machine, line: &str) -> Result<Vec<u8>, NoMemory> {
    match read_entry(line.as_bytes()) {
        Some(said) if !machine.enabled(&said.event) => {
            Ok(format!(in alloc; "never {line}")?.into_bytes())
        }
        Some(_) => Ok(Vec::from_slice(alloc, b"the machine has that step")?),
        None => Ok(Vec::from_slice(alloc, b"no line of a trace")?),
    }
}
