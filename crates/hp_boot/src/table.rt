//! The accesses of the boot sequence (own rule), by number: 27, and 29 with a TSEG of 48 MiB.

ghost use Rattle.std.specs.Prelude.{◌≡◌, ℕ, ◌<◌, ◌≤◌, slice_index_or};
ghost use Rattle.hp_model.specs.declared.accesses.Access.TheVariants as access;
ghost use Rattle.hp_model.specs.Labels.{mark_of};
ghost use Rattle.hp_model.specs.Boot.{tseg_enabled, block_accesses, area_accesses, mark_accesses, gate_accesses, ext_accesses, ext_count as count_of_ext, lock_accesses, feature_accesses, boot_access, boot_count};
ghost use Rattle.hp_boot.specs.Booting.{tail_accesses};

use hp_image::mark;
use hp_model::{Access, CLOSED, GATE, Label};

fn load(addr: u32, width: u8) -> Access
    ensures { result ≡ access.Load addr width }
{
    Access::Load { addr, width }
}

fn store(addr: u32, width: u8, value: u64) -> Access
    ensures { result ≡ access.Store addr width value }
{
    Access::Store { addr, width, value }
}

fn port_read(port: u16, width: u8) -> Access
    ensures { result ≡ access.In port width }
{
    Access::In { port, width }
}

fn port_write(port: u16, width: u8, value: u32) -> Access
    ensures { result ≡ access.Out port width value }
{
    Access::Out { port, width, value }
}

fn cfg_write(reg: u8, value: u8) -> Access
    ensures { result ≡ access.CfgWrite reg value }
{
    Access::CfgWrite { reg, value }
}

/// The register block becomes modern, and command data 2 tells whether it did.
fn block_access(index: u8) -> Access
    ensures { result ≡ slice_index_or block_accesses index access.Nop }
{
    match index {
        0 | 1 => port_write(0xcd8, 4, 0),
        2 => port_write(0xcdd, 1, 0),
        3 => port_read(0xcd8, 4),
        _ => Access::Nop,
    }
}

/// The default area is asked for, and register 9c tells whether it can be locked.
fn area_access(index: u8) -> Access
    ensures { result ≡ slice_index_or area_accesses index access.Nop }
{
    match index {
        0 => cfg_write(0x9c, 0xff),
        1 => Access::CfgRead { reg: 0x9c },
        _ => Access::Nop,
    }
}

fn mark_store(addr: u32, label: Label) -> Access
    ensures { result ≡ access.Store addr 4 (mark_of label) }
{
    store(addr, 4, u64::from(mark(label)))
}

/// The marks of the first handler, each in its cell, from 0x38000 on.
fn mark_access(index: u8) -> Access
    ensures { result ≡ slice_index_or mark_accesses index access.Nop }
{
    match index {
        0 => mark_store(0x38000, Label::F1),
        1 => mark_store(0x38004, Label::F2),
        2 => mark_store(0x38008, Label::F3),
        3 => mark_store(0x3800c, Label::F4),
        4 => mark_store(0x38010, Label::F5),
        5 => mark_store(0x38014, Label::F6),
        _ => Access::Nop,
    }
}

/// The gate is closed, and the default area is locked.
fn gate_access(index: u8) -> Access
    ensures { result ≡ slice_index_or gate_accesses index access.Nop }
{
    match index {
        0 => store(GATE, 8, CLOSED),
        1 => cfg_write(0x9c, 0x02),
        _ => Access::Nop,
    }
}

/// A TSEG of 48 MiB is asked for, and register 50 tells whether there can be one.
fn ext_access(index: u8) -> Access
    ensures { result ≡ slice_index_or (ext_accesses 48) index access.Nop }
{
    match index {
        0 => cfg_write(0x50, 0xff),
        1 => Access::CfgRead { reg: 0x50 },
        _ => Access::Nop,
    }
}

/// How many accesses a TSEG of so many MiB makes more.
pub fn ext_count(mib: u32) -> u8
    ensures value { result ≡ count_of_ext mib }
    ensures few { result ≤ 2 }
{
    if mib == 48 { 2 } else { 0 }
}

/// Register 9e for a TSEG of 1, 2, 8 or 48 MiB: T_EN and the size.
fn esmramc(mib: u32) -> u8
    ensures { result ≡ tseg_enabled mib }
{
    match mib {
        1 => 1,
        2 => 3,
        8 => 5,
        _ => 7,
    }
}

/// TSEG is locked.
fn lock_access(mib: u32, index: u8) -> Access
    ensures { result ≡ slice_index_or (lock_accesses mib) index access.Nop }
{
    match index {
        0 => cfg_write(0x9e, esmramc(mib)),
        1 => cfg_write(0x9d, 0x18),
        _ => Access::Nop,
    }
}

/// The supported features are read, bits 0 to 2 of them are requested, and features-ok tells whether they were agreed on.
///
/// Both transfers have their descriptor at 0x1000 and their 8 bytes at 0x1010.
fn feature_access(supported: u64, index: u8) -> Access
    ensures { result ≡ slice_index_or (feature_accesses supported) index access.Nop }
{
    match index {
        0 => store(0x1000, 8, 0x080000000a002200),
        1 => store(0x1008, 8, 0x1010000000000000),
        2 | 6 => port_write(0x518, 4, 0x00100000),
        3 => load(0x1010, 8),
        4 => store(0x1000, 8, 0x0800000018002100),
        5 => store(0x1010, 8, supported % 8),
        7 => port_write(0x510, 2, 0x20),
        8 => port_read(0x511, 1),
        _ => Access::Nop,
    }
}

/// The first 15 accesses.
#[tactic(auto, using(crate::proofs::Parts::heads))]
fn head_access(done: u8) -> Access
    requires { done < 15 }
    ensures { (mib supported : ℕ) → result ≡ boot_access mib supported done }
{
    match done {
        0..=3 => block_access(done),
        4..=5 => area_access(done - 4),
        // the pen's mark
        6 => store(0x9f000, 4, 0x4e4550),
        7..=12 => mark_access(done - 7),
        _ => gate_access(done - 13),
    }
}

/// The last 12 accesses.
#[tactic(auto, using(crate::proofs::Parts::tails))]
fn tail_access(mib: u32, supported: u64, index: u8) -> Access
    requires { index < 12 }
    ensures { result ≡ slice_index_or (tail_accesses mib supported) index access.Nop }
{
    match index {
        0..=1 => lock_access(mib, index),
        2..=10 => feature_access(supported, index - 2),
        // SMIs are enabled: GBL_SMI_EN and APMC_EN
        _ => port_write(0x630, 4, 0x21),
    }
}

/// The access after `done` accesses, with a TSEG of `mib` MiB, where access 21 answered `supported`.
#[tactic(auto, using(crate::proofs::Parts::parts))]
pub fn access(mib: u32, supported: u64, done: u8) -> Access
    requires { done < boot_count mib }
    ensures { result ≡ boot_access mib supported done }
{
    let tail = 15 + ext_count(mib);
    if done < 15 {
        head_access(done)
    } else if done < tail {
        ext_access(done - 15)
    } else {
        tail_access(mib, supported, done - tail)
    }
}
