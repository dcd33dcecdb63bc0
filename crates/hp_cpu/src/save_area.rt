//! The fields of the SMM state save area, and their bytes.

ghost use Rattle.std.specs.Prelude.{◌≡◌};
ghost use Rattle.hp_cpu.specs.Saving.{packed, unpacked};

use byteorder::{ByteOrder, LittleEndian};

/// What SMI entry saves: three fields of the state save area (own layout).
#[derive(Clone, Copy)]
pub struct SavePlan {
    pub smbase: u32,
    /// The revision of the save area's layout.
    pub revision: u32,
    /// The address outside SMM at which the processor goes on.
    pub rip: u64,
}

/// What RSM reads back from the state save area.
#[derive(Clone, Copy)]
pub struct Saved {
    pub smbase: u32,
    pub rip: u64,
}

/// The fields in their order, packed: SMBASE (4 bytes), revision (4), RIP (8), each with its lowest byte first.
#[tactic(auto, using(crate::proofs::Bytes::packed_bytes))]
pub fn put(plan: &SavePlan) -> [u8; 16]
    ensures value { result ≡ packed plan.now }
{
    let mut bytes = [0; 16];
    LittleEndian::write_u32(&mut bytes, plan.smbase);
    LittleEndian::write_u32(&mut bytes[4..], plan.revision);
    LittleEndian::write_u64(&mut bytes[8..], plan.rip);
    bytes
}

/// The fields that RSM takes from the bytes that `put` packs. The revision is skipped.
#[tactic(auto, using(crate::proofs::Bytes::fields_read))]
pub fn get(bytes: &[u8; 16]) -> Saved
    ensures value { result ≡ unpacked bytes.now }
{
    Saved {
        smbase: LittleEndian::read_u32(bytes),
        rip: LittleEndian::read_u64(&bytes[8..]),
    }
}
