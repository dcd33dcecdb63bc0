//! fw_cfg's transfers: bytes between its items and memory, as a processor outside SMM reaches it.

ghost use Rattle.std.specs.Prelude.{◌≡◌, ◌≤◌, ◌<◌, ◌+◌, ◌^◌, List, IfSome, None, length, true, false};
ghost use Rattle.hp_model.specs.Memory.{Write, byte_at};
ghost use Rattle.hp_model.specs.View.{is_hole, loaded, stored};
ghost use Rattle.hp_model.specs.Transfers.{bytes_loaded, bytes_stored, moved, control_after, transfer as one_transfer};
ghost use Rattle.hp_fwcfg.specs.Moves.{move_of, IsShort, IsWritable};
ghost use Rattle.hp_mem.specs.Kept.{StandsFor};

use crate::reach::{load, store};
use hp_fwcfg::{FwCfg, Transfer};
use hp_mem::Mem;
use hp_smram::{Locks, Touch};

/// One byte; ff where it lies in a hole, as each byte past RAM does.
#[tactic(auto, using(crate::proofs::Bytes::past_memory))]
fn load_byte(memory: &Mem, locks: &Locks, addr: u64) -> u8
    ensures { (ws : List Write) → StandsFor memory.now ws → result ≡ loaded locks.now false (byte_at ws) addr 1 }
{
    if addr < u64::from(locks.low_memory()) {
        load(memory, locks, false, addr as u32, 1) as u8
    } else {
        0xff
    }
}

/// The bytes from an address on, each by itself.
fn load_bytes(memory: &Mem, locks: &Locks, addr: u64, into: &mut [u8])
    requires { addr + length into.old ≤ 2 ^ 63 }
    ensures bytes { (ws : List Write) → StandsFor memory.now ws → into.new ≡ bytes_loaded locks.now (byte_at ws) addr (length into.old) }
    ensures same { length into.new ≡ length into.old }
{
    'bytes: for place in 0..into.len() {
        into[place] = load_byte(memory, locks, addr + place as u64);
    }
}

/// Stores one byte; one that lies in a hole is dropped.
#[tactic(auto, using(crate::proofs::Bytes::past_memory))]
fn store_byte(memory: &mut Mem, locks: &Locks, addr: u64, byte: u8)
    requires room { 1 ≤ memory.old.spare }
    ensures stored { (ws : List Write) → StandsFor memory.old ws → StandsFor memory.new (stored locks.now false addr 1 byte ws) }
    ensures spare { memory.old.spare ≤ memory.new.spare + 1 }
{
    if addr < u64::from(locks.low_memory()) {
        store(memory, locks, false, addr as u32, 1, u64::from(byte)).unwrap();
    }
}

/// Stores bytes from an address on, each by itself.
#[tactic(auto, unfolding(hp_model::specs::Transfers::bytes_stored))]
fn store_bytes(memory: &mut Mem, locks: &Locks, addr: u64, bytes: &[u8])
    requires addr { addr + length bytes.now ≤ 2 ^ 63 }
    requires room { length bytes.now ≤ memory.old.spare }
    ensures stored { (ws : List Write) → StandsFor memory.old ws → StandsFor memory.new (bytes_stored locks.now addr bytes.now ws) }
    ensures spare { memory.old.spare ≤ memory.new.spare + length bytes.now }
{
    match bytes {
        [] => {}
        [first, rest @ ..] => {
            store_byte(memory, locks, addr, *first);
            store_bytes(memory, locks, addr + 1, rest);
        }
    }
}

/// Whether none of a descriptor's 16 bytes lies in a hole.
#[tactic(auto, using(crate::proofs::Bytes::descriptor_holes))]
fn is_open(locks: &Locks, at: u64) -> bool
    requires { at < 2 ^ 64 }
    ensures open { result ≡ true → is_hole locks.now false at 16 ≡ false }
    ensures hole { result ≡ false → is_hole locks.now false at 16 ≡ true }
    ensures near { result ≡ true → at + 16 ≤ 2 ^ 32 }
{
    if at >= u64::from(locks.low_memory()) {
        return false;
    }
    let addr = at as u32;
    locks.open_to(false, addr, 8) == Touch::Ram && locks.open_to(false, addr + 8, 8) == Touch::Ram
}

/// The 16 bytes of a descriptor; None where one of them lies in a hole.
fn descriptor(memory: &Mem, locks: &Locks, at: u64) -> Option<[u8; 16]>
    ensures hole { result ≡ None → is_hole locks.now false at 16 ≡ true }
    ensures open { IfSome result (λ fields. is_hole locks.now false at 16 ≡ false) }
    ensures near { IfSome result (λ fields. at + 16 ≤ 2 ^ 32) }
    ensures fields { (ws : List Write) → StandsFor memory.now ws → IfSome result (λ fields. fields ≡ bytes_loaded locks.now (byte_at ws) at 16) }
{
    if !is_open(locks, at) {
        return None;
    }
    let mut fields = [0; 16];
    load_bytes(memory, locks, at, &mut fields);
    Some(fields)
}

/// Moves what a transfer asks for.
fn carry(memory: &mut Mem, locks: &Locks, fw_cfg: &mut FwCfg, asked: &Transfer)
    requires short { IsShort asked.now }
    requires writable { IsWritable asked.now fw_cfg.old }
    requires room { 256 ≤ memory.old.spare }
    ensures fw_cfg { (ws : List Write) → StandsFor memory.old ws → fw_cfg.new ≡ (moved locks.now (move_of asked.now) fw_cfg.old ws).fw_cfg }
    ensures memory { (ws : List Write) → StandsFor memory.old ws → StandsFor memory.new (moved locks.now (move_of asked.now) fw_cfg.old ws).writes }
    ensures spare { memory.old.spare ≤ memory.new.spare + 256 }
{
    match asked {
        Transfer::ToMemory { addr, len, bytes } => {
            store_bytes(memory, locks, u64::from(*addr), &bytes[..usize::from(*len)]);
        }
        Transfer::FromMemory { addr, len } => {
            let mut bytes = [0; 8];
            let (given, _) = bytes.split_at_mut(usize::from(*len));
            load_bytes(memory, locks, u64::from(*addr), given);
            fw_cfg.finish(given);
        }
        Transfer::Nothing | Transfer::Failed => {}
    }
}

/// The control field after a transfer, as 4 bytes with the lowest first: the device has 0, or 1 after an error, with its
/// highest byte first.
fn control(asked: &Transfer) -> u64
    ensures { result ≡ control_after (move_of asked.now) }
{
    match asked {
        Transfer::Failed => 0x0100_0000,
        Transfer::Nothing | Transfer::ToMemory { .. } | Transfer::FromMemory { .. } => 0,
    }
}

/// One transfer, whose descriptor lies at `at`. Where a byte of that is a hole, nothing happens.
#[tactic(auto, unfolding(hp_model::specs::Transfers::transfer))]
pub fn transfer(memory: &mut Mem, locks: &Locks, fw_cfg: &mut FwCfg, at: u64)
    requires room { 272 ≤ memory.old.spare }
    ensures fw_cfg { (ws : List Write) → StandsFor memory.old ws → fw_cfg.new ≡ (one_transfer locks.now at fw_cfg.old ws).fw_cfg }
    ensures memory { (ws : List Write) → StandsFor memory.old ws → StandsFor memory.new (one_transfer locks.now at fw_cfg.old ws).writes }
{
    let Some(fields) = descriptor(memory, locks, at) else {
        return;
    };
    let asked = fw_cfg.dma(&fields);
    carry(memory, locks, fw_cfg, &asked);
    store(memory, locks, false, at as u32, 4, control(&asked)).unwrap();
}
