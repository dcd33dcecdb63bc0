//! Where the bytes lie that the SMI handlers share (own rule): those of the default area, and in TSEG one of each array a slot.
//!
//! `tseg` is the first address of TSEG. Slots are below 512; the bytes of a slot are named for any number of 16 bits.

ghost use Rattle.std.specs.Prelude.{◌≡◌, ◌<◌, ◌≤◌};
ghost use Rattle.hp_model.specs.Bare.{layout_at};
ghost use Rattle.hp_model.specs.SharedBytes.{arrived_byte as arrived_byte_of, map_byte as map_byte_of, parked_byte as parked_byte_of, release_byte as release_byte_of, session_byte as session_byte_of, tile_in};

/// The gate of the first handler, 8 bytes: the APIC ID that may pass, or `CLOSED`.
pub const GATE: u32 = 0x30000;

pub const CLOSED: u64 = 0xffffffffffffffff;

/// The SMBASE for whoever passes the gate: 4 bytes.
pub const NEW_SMBASE: u32 = 0x30008;

/// 1 once whoever passed has stored its new SMBASE: 1 byte.
pub const FLAG: u32 = 0x3000c;

/// Where SMI entry at the default SMBASE saves SMBASE: 4 bytes.
pub const DEFAULT_SMBASE_FIELD: u32 = 0x3ff00;

/// The release bytes from the first address of TSEG, where the arrived bytes are.
const RELEASE: u32 = 0x1000;

const MAP: u32 = 0x2000;

const PARKED: u32 = 0x3000;

const SESSION: u32 = 0x4000;

const TILES: u32 = 0x20000;

/// The size of a tile.
const TILE: u32 = 0x10000;

/// 1 while the processor of the slot is in its handler, as far as it has told.
pub fn arrived_byte(tseg: u32, slot: u32) -> u32
    requires tseg { tseg ≤ 0x80000000 }
    requires slot { slot ≤ 0xffff }
    ensures { result ≡ arrived_byte_of (layout_at tseg) slot }
{
    tseg + slot
}

/// 1 where the processor of the slot may leave SMM.
pub fn release_byte(tseg: u32, slot: u32) -> u32
    requires tseg { tseg ≤ 0x80000000 }
    requires slot { slot ≤ 0xffff }
    ensures { result ≡ release_byte_of (layout_at tseg) slot }
{
    tseg + RELEASE + slot
}

/// 1 where the processor of the slot is to park, since it will be ejected.
pub fn map_byte(tseg: u32, slot: u32) -> u32
    requires tseg { tseg ≤ 0x80000000 }
    requires slot { slot ≤ 0xffff }
    ensures { result ≡ map_byte_of (layout_at tseg) slot }
{
    tseg + MAP + slot
}

/// 1 once it has parked.
pub fn parked_byte(tseg: u32, slot: u32) -> u32
    requires tseg { tseg ≤ 0x80000000 }
    requires slot { slot ≤ 0xffff }
    ensures { result ≡ parked_byte_of (layout_at tseg) slot }
{
    tseg + PARKED + slot
}

/// 1 during a session of the monarch.
pub fn session_byte(tseg: u32) -> u32
    requires { tseg ≤ 0x80000000 }
    ensures { result ≡ session_byte_of (layout_at tseg) }
{
    tseg + SESSION
}

/// The first address of a slot's tile, which is the SMBASE of the slot's processor.
pub fn tile_at(tseg: u32, slot: u32) -> u32
    requires tseg { tseg ≤ 0x80000000 }
    requires slot { slot < 512 }
    ensures { result ≡ tile_in (layout_at tseg) slot }
{
    tseg + TILES + slot * TILE
}
