//! A machine that is played line by line.

use crate::facts::fact_of;
use crate::steps::{never, step};
use hp_image::image;
use hp_machine::Machine;
use hp_model::{NoMemory, fits};
use hp_reading::read_head;
use std::alloc::Global;

/// What a line was found to be.
#[derive(Drop)]
pub enum Found {
    /// A line that says nothing of a machine: a comment, an empty line, or the beginning of a machine.
    Nothing,
    /// The machine did as the line says.
    AsSaid,
    /// What the machine did in its stead.
    Other(Vec<u8>),
}

/// The machine of a case file, and how it began.
#[derive(Drop)]
pub struct Player<'a> {
    alloc: Global,
    machine: Option<Machine>,
    /// The header of its platform.
    head: &'a str,
    /// The lines between the header and the first `again`.
    beginning: Vec<&'a str>,
    is_begun: bool,
}

/// A new machine of a header's platform, with its image in memory; None where the line is no header.
fn machine_of(alloc: Global, head: &str) -> Result<Option<Machine>, NoMemory> {
    match read_head(alloc, head.as_bytes())? {
        Some(p) if fits(&p).is_ok() => Ok(Some(Machine::new(alloc, &p, &image(alloc, &p)?)?)),
        _ => Ok(None),
    }
}

/// What the line says, as the machine has it.
fn answer(alloc: Global, machine: &mut Machine, line: &str) -> Result<Vec<u8>, NoMemory> {
    if let Some(rest) = line.strip_prefix("never ") {
        return never(alloc, machine, rest);
    }
    match fact_of(alloc, machine, line)? {
        Some(fact) => Ok(fact.into_bytes()),
        None => step(alloc, machine, line),
    }
}

/// Plays one line that is neither a comment nor a beginning.
fn compare(alloc: Global, machine: &mut Option<Machine>, line: &str) -> Result<Found, NoMemory> {
    let Some(machine) = machine else {
        return Ok(Found::Other(Vec::from_slice(alloc, b"no machine")?));
    };
    let found = answer(alloc, machine, line)?;
    if found.as_slice() == line.as_bytes() {
        return Ok(Found::AsSaid);
    }
    Ok(Found::Other(found))
}

impl<'a> Player<'a> {
    /// A player that has no machine before the first header.
    pub fn new(alloc: Global) -> Player<'a> {
        Player {
            alloc,
            machine: None,
            head: "",
            beginning: Vec::new(alloc),
            is_begun: false,
        }
    }

    /// A new machine of the header's platform.
    fn start(&mut self) -> Result<Found, NoMemory> {
        self.machine = machine_of(self.alloc, self.head)?;
        if self.machine.is_none() {
            return Ok(Found::Other(Vec::from_slice(self.alloc, b"no such platform")?));
        }
        Ok(Found::Nothing)
    }

    /// A new machine of the same platform, which the lines of the beginning are played to.
    fn start_again(&mut self) -> Result<Found, NoMemory> {
        self.is_begun = true;
        let found = self.start()?;
        for line in self.beginning.as_slice() {
            let found = compare(self.alloc, &mut self.machine, line)?;
            if matches!(found, Found::Other(_)) {
                return Ok(found);
            }
        }
        Ok(found)
    }

    /// Plays a line: a header or `again` begins a machine, any other is compared with what the machine does.
    pub fn play(&mut self, line: &'a str) -> Result<Found, NoMemory> {
        if line.is_empty() || line.starts_with('#') {
            return Ok(Found::Nothing);
        }
        if line == "again" {
            return self.start_again();
        }
        if line.starts_with("platform ") {
            self.head = line;
            self.beginning.clear();
            self.is_begun = false;
            return self.start();
        }
        if !self.is_begun {
            self.beginning.push(line)?;
        }
        compare(self.alloc, &mut self.machine, line)
    }
}
