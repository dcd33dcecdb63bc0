//! Where TSEG and its tiles lie, and how an interrupt command names its destination.

ghost use Rattle.std.specs.Prelude.{◌≡◌, ◌<◌, true, length};
ghost use Rattle.hp_model.specs.Platform.{IsFit, tseg as first_of_tseg, tile as first_of_tile, high_half};
ghost use Rattle.hp_model.specs.Block.{is_in};

use crate::platforms::Platform;
use crate::shared_bytes::tile_at;

/// The first address of TSEG: the last 1, 2, 8 or 48 MiB below `low_memory`.
pub fn tseg(p: &Platform) -> u32
    requires { IsFit p.now }
    ensures { result ≡ first_of_tseg p.now }
{
    p.low_memory - p.tseg_mib * 0x100000
}

/// The first address of a slot's tile of 64 KiB in TSEG, which is the SMBASE of the slot's processor (own rule).
/// `slot` is below the number of possible processors.
pub fn tile(p: &Platform, slot: u32) -> u32
    requires fit { IsFit p.now }
    requires slot { slot < length p.now.apic }
    ensures { result ≡ first_of_tile p.now slot }
{
    tile_at(tseg(p), slot)
}

/// The high half of an interrupt command to this APIC ID, which is a possible one.
#[tactic(auto, using(crate::proofs::FitPlatforms::fits_a_byte))]
pub fn icr_high(p: &Platform, apic: u32) -> u32
    requires fit { IsFit p.now }
    requires possible { is_in apic p.now.apic ≡ true }
    ensures { result ≡ high_half p.now.x2apic apic }
{
    if p.x2apic { apic } else { apic * 0x1000000 }
}
