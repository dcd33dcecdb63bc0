//! The operating system's program: it looks for processor events, asks the register block whom they are of, and starts and ejects
//! these. It goes after the scan and eject methods that QEMU writes into ACPI tables; the program is our own.

ghost use Rattle.std.specs.Prelude.{◌≡◌, ◌+◌, ◌<◌, ◌≤◌, ◌==◌, ◌∷◌, ◌++◌, [], IfOk, bit_and, length, map, nat_lt, slice_index_or, vec_capacity, if◌then◌else◌};
ghost use Rattle.hp_model.specs.declared.accesses.Access.TheVariants.{In as in_of, Out as out_of, Icr as icr_of};
ghost use Rattle.hp_model.specs.Boot.{value_in};
ghost use Rattle.hp_model.specs.OsProgram.{polls, start_of, removal_of, with_insert_of, with_removal_of};
ghost use Rattle.hp_model.specs.Platform.{IsFit, high_half};
ghost use Rattle.hp_model.specs.Voices.{doing, finding, hearing, looking, os, os_says, scanning, selecting};
ghost use Rattle.hp_agent.specs.declared.programs.Acting.TheVariants as acting;
ghost use Rattle.hp_agent.specs.Programs.{IsSound, IsStep, left_in, point_in, said_by, voice_in};

use hp_model::{Access, Answer, NoMemory, Platform, icr_high};
use std::alloc::Global;

/// Selects the processor that status, control, command and command data speak of: 4 bytes, written.
const SELECTOR: u16 = 0xcd8;
/// 1 byte: the status where it is read, control where it is written.
const STATUS: u16 = 0xcdc;
/// 1 byte, written.
const COMMAND: u16 = 0xcdd;
/// 4 bytes, read: after command 0 the selector.
const COMMAND_DATA: u16 = 0xce0;
/// 1 byte, written: calls the firmware.
const SMI_COMMAND: u16 = 0xb2;
/// 1 byte. Bit 2 tells of processor events, and a 1 that is written clears it.
const GPE_STATUS: u16 = 0x620;

const PROCESSOR_EVENT: u8 = 4;
/// The SMI command that the firmware takes as a call for the processors with an event.
const HOT_PLUG: u32 = 4;
/// Status bits 0 and 1: enabled, with an insert event.
const INSERTED: u8 = 3;
/// Status bits 0 and 2: enabled, with a remove event.
const TO_REMOVE: u8 = 5;
/// Control bits: what is cleared, and the eject that is handed to the firmware.
const CLEAR_INSERT: u32 = 2;

const CLEAR_REMOVE: u32 = 4;

const HAND_EJECT: u32 = 0x10;
/// The low halves of interrupt commands.
const INIT: u32 = 0x500;

const SIPI: u32 = 0x610;

/// What it does after a scan. `item` counts the processors of a list that are done, and `done` the accesses of the next one.
#[derive(Clone, Copy)]
pub enum Acting {
    /// The firmware is called next, if any processor is to be started.
    Announces,
    Starts { item: usize, done: usize },
    Removes { item: usize, done: usize },
}

/// Where the program stands.
#[derive(Clone, Copy)]
pub enum Point {
    /// It reads the GPE status next.
    Polls,
    Polled,
    /// It selects the next processor.
    Scans,
    Selected,
    /// It has asked for the next one with an event.
    Commanded,
    /// It has read which one that is.
    Looked,
    /// It has read its status.
    Judged,
    Acts(Acting),
}

/// The program and where it stands.
#[derive(Drop)]
pub struct Program {
    /// The high half of an interrupt command to each possible processor, by place.
    pub halves: Vec<u32>,
    pub point: Point,
    /// The processor from which on the next event is looked for, and the one that was found.
    pub cpu: u32,
    /// Those found that are to be started. There is room for all possible processors, here and in the next.
    pub inserts: Vec<u32>,
    /// Those that are to be ejected.
    pub removals: Vec<u32>,
}

fn read(port: u16, width: u8) -> Access
    ensures { result ≡ in_of port width }
{
    Access::In { port, width }
}

fn write(port: u16, width: u8, value: u32) -> Access
    ensures { result ≡ out_of port width value }
{
    Access::Out { port, width, value }
}

fn send(high: u32, low: u32) -> Access
    ensures { result ≡ icr_of high low }
{
    Access::Icr { high, low }
}

/// All that starts a processor. The waits are our own.
fn start(cpu: u32, high: u32) -> [Access; 15]
    ensures { result ≡ start_of high cpu }
{
    [
        write(SELECTOR, 4, cpu),
        write(STATUS, 1, CLEAR_INSERT),
        Access::Nop,
        Access::Nop,
        Access::Nop,
        Access::Nop,
        Access::Nop,
        Access::Nop,
        Access::Nop,
        Access::Nop,
        send(high, INIT),
        Access::Nop,
        Access::Nop,
        send(high, SIPI),
        send(high, SIPI),
    ]
}

/// All that ejects a processor: the firmware does it, when it is called.
fn removal(cpu: u32) -> [Access; 4]
    ensures { result ≡ removal_of cpu }
{
    [
        write(SELECTOR, 4, cpu),
        write(STATUS, 1, CLEAR_REMOVE),
        write(STATUS, 1, HAND_EJECT),
        write(SMI_COMMAND, 1, HOT_PLUG),
    ]
}

/// Where the next access that starts a processor stands.
fn after_start(item: usize, done: usize) -> Acting
    requires item { item < 512 }
    requires done { done < 15 }
    ensures { result ≡ (if nat_lt done 14 then acting.Starts item (done + 1) else acting.Starts (item + 1) 0) }
{
    if done < 14 {
        Acting::Starts {
            item,
            done: done + 1,
        }
    } else {
        Acting::Starts {
            item: item + 1,
            done: 0,
        }
    }
}

/// Where the next access that ejects one stands.
fn after_removal(item: usize, done: usize) -> Acting
    requires item { item < 512 }
    requires done { done < 4 }
    ensures { result ≡ (if nat_lt done 3 then acting.Removes item (done + 1) else acting.Removes (item + 1) 0) }
{
    if done < 3 {
        Acting::Removes {
            item,
            done: done + 1,
        }
    } else {
        Acting::Removes {
            item: item + 1,
            done: 0,
        }
    }
}

/// The high half of an interrupt command to a processor.
fn high_to(halves: &[u32], cpu: u32) -> u32
    ensures { result ≡ slice_index_or halves.now cpu 0 }
{
    let place = cpu as usize;
    if place < halves.len() {
        halves[place]
    } else {
        0
    }
}

/// A processor joins a list where all of these bits are set in its status.
fn join(list: &mut Vec<u32>, cpu: u32, status: u8, bits: u8)
    requires { length list.old.items < vec_capacity list.old }
    ensures items { list.new.items ≡ (if bit_and status bits == bits then list.old.items ++ cpu ∷ [] else list.old.items) }
    ensures room { vec_capacity list.old ≤ vec_capacity list.new }
{
    if status & bits == bits {
        list.push(cpu).unwrap();
    }
}

fn ids_in(p: &Platform) -> &[u32]
    ensures { result.now ≡ p.now.apic }
{
    p.apic.0.as_slice()
}

/// The high half of an interrupt command to each possible processor.
fn halves_of(alloc: Global, p: &Platform) -> Result<Vec<u32>, NoMemory>
    requires { IsFit p.now }
    ensures { IfOk result (λ halves. halves.items ≡ map (high_half p.now.x2apic) p.now.apic) }
{
    let ids = ids_in(p);
    let mut halves = Vec::new(alloc);
    for place in 0..ids.len() {
        halves.push(icr_high(p, ids[place]))?;
    }
    Ok(halves)
}

impl Program {
    /// The program at its beginning. Later calls take no memory.
    pub fn new(alloc: Global, p: &Platform) -> Result<Program, NoMemory>
        requires { IsFit p.now }
        ensures voice { IfOk result (λ r. voice_in r ≡ os (map (high_half p.now.x2apic) p.now.apic) polls) }
        ensures sound { IfOk result IsSound }
    {
        let halves = halves_of(alloc, p)?;
        let mut inserts = Vec::new(alloc);
        inserts.reserve(halves.len())?;
        let mut removals = Vec::new(alloc);
        removals.reserve(halves.len())?;
        Ok(Program {
            halves,
            point: Point::Polls,
            cpu: 0,
            inserts,
            removals,
        })
    }

    /// It looks for events.
    fn look(&mut self) -> Access
        requires { IsSound self.old }
        ensures says { said_by result self.new ≡ looking self.old.halves.items }
        ensures sound { IsSound self.new }
    {
        self.point = Point::Polled;
        read(GPE_STATUS, 1)
    }

    /// The next access that starts a processor.
    fn start_next(&mut self, item: usize, done: usize) -> Access
        requires sound { IsSound self.old }
        requires item { item < length self.old.inserts.items }
        requires done { done < 15 }
        ensures says { said_by result self.new ≡ doing self.old.halves.items (left_in self.old (acting.Starts item done)) }
        ensures sound { IsSound self.new }
    {
        let cpu = self.inserts[item];
        let access = start(cpu, high_to(self.halves.as_slice(), cpu))[done];
        self.point = Point::Acts(after_start(item, done));
        access
    }

    /// The next access that ejects a processor.
    fn remove_next(&mut self, item: usize, done: usize) -> Access
        requires sound { IsSound self.old }
        requires item { item < length self.old.removals.items }
        requires done { done < 4 }
        ensures says { said_by result self.new ≡ doing self.old.halves.items (left_in self.old (acting.Removes item done)) }
        ensures sound { IsSound self.new }
    {
        let access = removal(self.removals[item])[done];
        self.point = Point::Acts(after_removal(item, done));
        access
    }

    /// The next access that ejects a processor, if one is left, else a look for events.
    fn remove_or_look(&mut self, item: usize, done: usize) -> Access
        requires sound { IsSound self.old }
        requires done { done < 4 }
        ensures says { said_by result self.new ≡ doing self.old.halves.items (left_in self.old (acting.Removes item done)) }
        ensures sound { IsSound self.new }
    {
        if item < self.removals.len() {
            self.remove_next(item, done)
        } else {
            self.look()
        }
    }

    /// The call of the firmware, before the first processor is started.
    fn announce(&mut self) -> Access
        requires sound { IsSound self.old }
        requires some { 0 < length self.old.inserts.items }
        ensures says { said_by result self.new ≡ doing self.old.halves.items (left_in self.old acting.Announces) }
        ensures sound { IsSound self.new }
    {
        self.point = Point::Acts(Acting::Starts { item: 0, done: 0 });
        write(SMI_COMMAND, 1, HOT_PLUG)
    }

    /// The next access of what is left to do, and after it a look for events.
    fn act(&mut self, at: Acting) -> Access
        requires sound { IsSound self.old }
        requires step { IsStep at }
        ensures says { said_by result self.new ≡ doing self.old.halves.items (left_in self.old at) }
        ensures sound { IsSound self.new }
    {
        match at {
            Acting::Announces if self.inserts.len() > 0 => self.announce(),
            Acting::Announces => self.remove_or_look(0, 0),
            Acting::Starts { item, done } if item < self.inserts.len() => {
                self.start_next(item, done)
            }
            Acting::Starts { .. } => self.remove_or_look(0, 0),
            Acting::Removes { item, done } => self.remove_or_look(item, done),
        }
    }

    /// The GPE status, and where it tells of an event the beginning of a scan.
    fn hear(&mut self, status: u8) -> Access
        requires { IsSound self.old }
        ensures says { said_by result self.new ≡ hearing self.old.halves.items status }
        ensures sound { IsSound self.new }
    {
        if status & PROCESSOR_EVENT == PROCESSOR_EVENT {
            self.point = Point::Scans;
            self.cpu = 0;
            self.inserts.clear();
            self.removals.clear();
            write(GPE_STATUS, 1, u32::from(PROCESSOR_EVENT))
        } else {
            self.look()
        }
    }

    /// The processor from which on the next event is looked for.
    fn select(&mut self) -> Access
        requires { IsSound self.old }
        ensures says { said_by result self.new
            ≡ selecting self.old.halves.items self.old.cpu self.old.inserts.items self.old.removals.items }
        ensures sound { IsSound self.new }
    {
        self.point = Point::Selected;
        write(SELECTOR, 4, self.cpu)
    }

    /// The selector went on to this processor.
    fn find(&mut self, cpu: u32) -> Access
        requires { IsSound self.old }
        ensures says { said_by result self.new
            ≡ finding self.old.halves.items self.old.cpu cpu self.old.inserts.items self.old.removals.items }
        ensures sound { IsSound self.new }
    {
        if cpu < self.cpu || cpu as usize >= self.halves.len() {
            return self.act(Acting::Announces);
        }
        self.cpu = cpu;
        self.point = Point::Judged;
        read(STATUS, 1)
    }

    /// The scan goes on at the next processor, and past the last it is over.
    fn scan(&mut self) -> Access
        requires { IsSound self.old }
        ensures says { said_by result self.new
            ≡ scanning self.old.halves.items self.old.cpu self.old.inserts.items self.old.removals.items }
        ensures sound { IsSound self.new }
    {
        if (self.cpu as usize) < self.halves.len() {
            self.select()
        } else {
            self.act(Acting::Announces)
        }
    }

    /// The processor that was found has this status.
    fn judge(&mut self, status: u8) -> Access
        requires sound { IsSound self.old }
        requires possible { self.old.cpu < length self.old.halves.items }
        ensures says { said_by result self.new
            ≡ scanning self.old.halves.items (self.old.cpu + 1) (with_insert_of self.old.cpu status self.old.inserts.items)
            (with_removal_of self.old.cpu status self.old.removals.items) }
        ensures sound { IsSound self.new }
    {
        join(&mut self.inserts, self.cpu, status, INSERTED);
        join(&mut self.removals, self.cpu, status, TO_REMOVE);
        self.point = Point::Scans;
        self.cpu += 1;
        self.scan()
    }

    /// Its next access, where its last one had this answer.
    pub fn go_on(&mut self, last: Answer) -> Access
        requires { IsSound self.old }
        ensures says { said_by result self.new ≡ os_says self.old.halves.items (point_in self.old) (value_in last) }
        ensures sound { IsSound self.new }
    {
        let value = last.value();
        match self.point {
            Point::Polls => self.look(),
            Point::Polled => self.hear((value & 0xff) as u8),
            Point::Scans => self.select(),
            Point::Selected => {
                self.point = Point::Commanded;
                write(COMMAND, 1, 0)
            }
            Point::Commanded => {
                self.point = Point::Looked;
                read(COMMAND_DATA, 4)
            }
            Point::Looked => self.find((value & 0xffff_ffff) as u32),
            Point::Judged => self.judge((value & 0xff) as u8),
            Point::Acts(at) => self.act(at),
        }
    }
}
