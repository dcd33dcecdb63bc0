//! Accesses to memory, as far as the locks let them.

ghost use Rattle.std.specs.Prelude.{◌≡◌, ◌≤◌, ◌<◌, ◌+◌, ◌-◌, ◌^◌, List, IfOk, OnOk, OnErr, IsOk};
ghost use Rattle.hp_model.specs.Memory.{Write, byte_at};
ghost use Rattle.hp_model.specs.View.{loaded, stored, swapped, ones as all_ones};
ghost use Rattle.hp_model.specs.declared.processors.Cpu.{Cpu};
ghost use Rattle.hp_model.specs.SaveArea.{saved, saved_smbase, saved_rip};
ghost use Rattle.hp_model.specs.Access.{IsMemoryWidth};
ghost use Rattle.hp_mem.specs.Kept.{StandsFor};
ghost use Rattle.hp_cpu.specs.Saving.{plan_of};
ghost use Rattle.hp_cpu.specs.Smbase.{IsSmbase};

use hp_cpu::{SavePlan, Saved};
use hp_mem::Mem;
use hp_model::NoMemory;
use hp_smram::{Locks, Touch};

/// Where the fields of the state save area lie, from SMBASE (own layout).
const SMBASE_FIELD: u32 = 0xff00;

const REVISION_FIELD: u32 = 0xfefc;

const RIP_FIELD: u32 = 0xff78;

/// As many bytes of ff as the width.
fn ones(width: u8) -> u64
    requires { IsMemoryWidth width }
    ensures { result ≡ all_ones width }
{
    match width {
        1 => 0xff,
        2 => 0xffff,
        4 => 0xffff_ffff,
        _ => u64::MAX,
    }
}

/// What an access reads, made in SMM or outside.
#[tactic(auto, using(hp_mem::proofs::Standing::standing))]
pub fn load(memory: &Mem, locks: &Locks, in_smm: bool, addr: u32, width: u8) -> u64
    requires { IsMemoryWidth width }
    ensures value { (ws : List Write) → StandsFor memory.now ws → result ≡ loaded locks.now in_smm (byte_at ws) addr width }
    ensures below { result < 256 ^ width }
{
    match locks.open_to(in_smm, addr, width) {
        Touch::Ram => memory.load(addr, width),
        Touch::Hole => ones(width),
    }
}

/// A store, which a hole takes nothing of. After `NoMemory` the memory stands for what it stood for.
#[tactic(auto, using(hp_mem::proofs::Standing::standing))]
pub fn store(
    memory: &mut Mem,
    locks: &Locks,
    in_smm: bool,
    addr: u32,
    width: u8,
    value: u64,
) -> Result<(), NoMemory>
    requires { IsMemoryWidth width }
    ensures stored { (ws : List Write) → StandsFor memory.old ws → OnOk result (StandsFor memory.new (stored locks.now in_smm addr width value ws)) }
    ensures no_memory { (ws : List Write) → StandsFor memory.old ws → OnErr result (StandsFor memory.new ws) }
    ensures succeeds { width ≤ memory.old.spare → IsOk result }
    ensures spare { memory.old.spare ≤ memory.new.spare + width }
{
    match locks.open_to(in_smm, addr, width) {
        Touch::Ram => memory.store(addr, width, value),
        Touch::Hole => Ok(()),
    }
}

/// A compare and exchange of 8 bytes: answers what the access reads, and stores `desired` where that is `expected`.
#[tactic(auto, using(hp_mem::proofs::Standing::standing))]
pub fn swap(
    memory: &mut Mem,
    locks: &Locks,
    in_smm: bool,
    addr: u32,
    expected: u64,
    desired: u64,
) -> Result<u64, NoMemory>
    ensures value { (ws : List Write) → StandsFor memory.old ws → IfOk result (λ v. v ≡ loaded locks.now in_smm (byte_at ws) addr 8) }
    ensures stored { (ws : List Write) → StandsFor memory.old ws → OnOk result (StandsFor memory.new (swapped locks.now in_smm addr expected desired ws)) }
    ensures no_memory { (ws : List Write) → StandsFor memory.old ws → OnErr result (StandsFor memory.new ws) }
    ensures succeeds { 8 ≤ memory.old.spare → IsOk result }
{
    match locks.open_to(in_smm, addr, 8) {
        Touch::Ram => memory.swap_if(addr, expected, desired),
        Touch::Hole => Ok(u64::MAX),
    }
}

/// What SMI entry saves, at the processor's own SMBASE, as accesses made in SMM. Room for all of it is taken first.
#[tactic(auto, unfolding(hp_model::specs::SaveArea::saved))]
pub fn save(memory: &mut Mem, locks: &Locks, plan: &SavePlan) -> Result<(), NoMemory>
    requires { IsSmbase plan.now.smbase }
    ensures saved { (ws : List Write) (c : Cpu) → StandsFor memory.old ws → plan.now ≡ plan_of c → OnOk result (StandsFor memory.new (saved locks.now c ws)) }
    ensures no_memory { (ws : List Write) → StandsFor memory.old ws → OnErr result (StandsFor memory.new ws) }
    ensures succeeds { 272 ≤ memory.old.spare → IsOk result }
{
    take_room(memory)?;
    store(
        memory,
        locks,
        true,
        plan.smbase + SMBASE_FIELD,
        4,
        u64::from(plan.smbase),
    )
    .unwrap();
    store(
        memory,
        locks,
        true,
        plan.smbase + REVISION_FIELD,
        4,
        u64::from(plan.revision),
    )
    .unwrap();
    store(memory, locks, true, plan.smbase + RIP_FIELD, 8, plan.rip).unwrap();
    Ok(())
}

/// Room for what one step writes at the most: 256 bytes of a transfer, and its control field.
#[tactic(auto, using(hp_mem::proofs::Standing::standing))]
pub fn take_room(memory: &mut Mem) -> Result<(), NoMemory>
    ensures room { OnOk result (272 ≤ memory.new.spare) }
    ensures unchanged { (ws : List Write) → StandsFor memory.old ws → StandsFor memory.new ws }
    ensures succeeds { 272 ≤ memory.old.spare → IsOk result }
{
    memory.reserve()
}

/// What RSM reads, at the processor's own SMBASE.
#[tactic(auto, unfolding(hp_model::specs::SaveArea::saved_smbase, hp_model::specs::SaveArea::saved_rip))]
pub fn saved(memory: &Mem, locks: &Locks, smbase: u32) -> Saved
    requires { IsSmbase smbase }
    ensures { (ws : List Write) (c : Cpu) → StandsFor memory.now ws → c.smbase ≡ smbase
        → result ≡ record { smbase = saved_smbase locks.now ws c; rip = saved_rip locks.now ws c } }
{
    Saved {
        smbase: load(memory, locks, true, smbase + SMBASE_FIELD, 4) as u32,
        rip: load(memory, locks, true, smbase + RIP_FIELD, 8),
    }
}
