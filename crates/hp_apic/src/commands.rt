//! The interrupt command register of a local APIC in xAPIC mode and in x2APIC mode (Intel SDM vol. 3, local APIC).

ghost use Rattle.std.specs.Prelude.{◌≡◌, true, false};
ghost use Rattle.hp_model.specs.Interrupts.{kind_of as kind_in, target_of as target_in, decoded, is_target};

use hp_model::{Ipi, Kind, Target};

/// What the low half delivers: the delivery mode is in bits 10:8, the vector of a SIPI in bits 7:0.
fn kind_of(low: u32) -> Option<Kind>
    ensures { result ≡ kind_in low }
{
    match (low >> 8) & 7 {
        2 => Some(Kind::Smi),
        5 => Some(Kind::Init),
        6 => Some(Kind::Start((low & 0xff) as u8)),
        _ => None,
    }
}

/// Whom the low half's shorthand, bits 19:18, names beside this destination.
fn target_of(destination: u32, low: u32) -> Option<Target>
    ensures { result ≡ target_in true destination low }
{
    match (low >> 18) & 3 {
        0 => Some(Target::Id(destination)),
        3 => Some(Target::Others),
        _ => None,
    }
}

/// The interrupt command in the two halves of the register in xAPIC mode, with the destination in bits 31:24 of the high
/// half; `None` exactly where its delivery mode or its destination shorthand does nothing. The destination mode, level
/// and trigger bits are ignored (own rule).
pub fn decode(high: u32, low: u32) -> Option<Ipi>
    ensures { result ≡ decoded false high low }
{
    decode_wide(high >> 24, low)
}

/// The interrupt command in x2APIC mode, where the high half is the destination: an APIC ID of 32 bits, of which
/// ffffffff is no broadcast (own rule). `None` comes as with `decode`.
pub fn decode_wide(high: u32, low: u32) -> Option<Ipi>
    ensures { result ≡ decoded true high low }
{
    let kind = kind_of(low)?;
    let to = target_of(high, low)?;
    Some(Ipi { kind, to })
}

/// Whether a command is sent to the processor with APIC ID `id`. `sender` is the APIC ID of the processor that made it.
pub fn hits(ipi: &Ipi, sender: u32, id: u32) -> bool
    ensures { result ≡ is_target ipi.now.to sender id }
{
    match ipi.to {
        Target::Id(to) => id == to,
        Target::Others => id != sender,
    }
}
