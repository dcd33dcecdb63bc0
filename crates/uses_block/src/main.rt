//! The register block alone, as the test of a driver would take it: no machine, no processors, no agents. README.md tells what happens.
#![tactic(auto)]

ghost use Rattle.std.specs.Prelude.{◌≡◌, ◌∷◌, [], IfOk};

use hp_model::{Delivery, Ids, NoMemory, Platform, fits};
use hp_regs::Block;
use std::alloc::Global;
use std::io;
use std::process::ExitCode;

/// Where the registers are, from the block's first port on.
const SELECTOR: u8 = 0;

const CONTROL: u8 = 4;

const COMMAND: u8 = 5;

const DATA: u8 = 8;

/// What is written to the control register: an event is cleared, a processor ejected.
const CLEAR_INSERT: u32 = 0x02;

const CLEAR_REMOVE: u32 = 0x04;

const EJECT: u32 = 0x08;

/// What the data register then has: the next processor with an event, or the APIC ID of the selected one.
const NEXT_EVENT: u32 = 0;

const APIC_ID: u32 = 3;

/// Three processors are possible, with APIC IDs 0, 2 and 4. The first two are there at boot.
fn platform(alloc: Global) -> Result<Platform, NoMemory>
    ensures { IfOk result (λ p. p.apic ≡ 0 ∷ 2 ∷ 4 ∷ []) }
{
    Ok(Platform {
        apic: Ids(Vec::from_array(alloc, [0, 2, 4])?),
        boot: Ids(Vec::from_array(alloc, [0, 1])?),
        low_memory: 0x400_0000,
        tseg_mib: 8,
        features: 7,
        polls: 2,
        turns: 0,
        modern: true,
        default_smram: true,
        delivery: Delivery::Prompt,
        x2apic: false,
        ext_tseg: false,
    })
}

/// The block once the host inserted processor 2 and asked for the removal of processor 1; `None` for a platform that doesn't fit.
fn block(alloc: Global) -> Result<Option<Block>, NoMemory> {
    let p = platform(alloc)?;
    if fits(&p).is_err() {
        return Ok(None);
    }
    let mut block = Block::new(alloc, &p)?;
    block.insert_event(2);
    block.remove_event(1);
    Ok(Some(block))
}

/// Selects the next processor with an event, and says what the registers have of it. Answers its status byte.
fn next_event(rt: &HostRuntime, block: &mut Block) -> io::Result<u32> {
    block.write(COMMAND, 1, NEXT_EVENT);
    let selected = block.read(DATA, 4);
    let status = block.read(CONTROL, 1);
    block.write(COMMAND, 1, APIC_ID);
    let apic = block.read(DATA, 4);
    println!(rt; "processor {selected}: status {status:02x}, APIC ID {apic}")?;
    Ok(status)
}

/// Answers the event that the status byte shows, as the firmware does: an insert is cleared, and the removal of a processor too, which
/// is then ejected.
fn answer(rt: &HostRuntime, block: &mut Block, status: u32) -> io::Result<()> {
    if status & CLEAR_INSERT != 0 {
        block.write(CONTROL, 1, CLEAR_INSERT);
    }
    if status & CLEAR_REMOVE != 0 {
        block.write(CONTROL, 1, CLEAR_REMOVE);
        match block.write(CONTROL, 1, EJECT) {
            Some(cpu) => println!(rt; "ejected processor {cpu}")?,
            None => println!(rt; "nothing ejected")?,
        }
    }
    println!(rt; "status {:02x}", block.read(CONTROL, 1))
}

fn play(rt: &HostRuntime, block: &mut Block) -> io::Result<()> {
    println!(rt; "legacy form: {:08x}", block.read(SELECTOR, 4))?;
    block.write(SELECTOR, 4, 0);
    println!(rt; "modern form: {:08x}", block.read(SELECTOR, 4))?;
    for _event in 0..2 {
        let status = next_event(rt, block)?;
        answer(rt, block, status)?;
    }
    let _status = next_event(rt, block)?;
    Ok(())
}

fn main(rt: HostRuntime) -> io::Result<ExitCode> {
    match block(rt.alloc()) {
        Ok(Some(mut block)) => {
            play(&rt, &mut block)?;
            Ok(ExitCode::SUCCESS)
        }
        Ok(None) | Err(NoMemory) => Ok(ExitCode::FAILURE),
    }
}
