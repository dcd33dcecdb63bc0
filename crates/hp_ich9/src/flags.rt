//! The bits of SMI_EN (names as in QEMU's ICH9 LPC).

ghost use Rattle.std.specs.Prelude.{⊤, [], ◌∷◌, codes};

use bitflags::{Flag, Flags, bitflag_items};

/// SMI_EN: which events raise an SMI. Bits that no flag names are kept as written.
#[derive(Clone, Copy, Drop)]
pub struct SmiEn(pub u32);

bitflag_items! {
    impl SmiEn: u32 {
        const GBL_SMI_EN = 1;
        const APMC_EN = 0x20;
    }
}

impl Flags for SmiEn {
    type Bits = u32;

    ghost exact = { ⊤ };

    ghost table = { (codes "GBL_SMI_EN", 1) ∷ (codes "APMC_EN", 32) ∷ [] };

    ghost set_of = { λ r. r.0 };

    fn flags<'a>() -> &'a [Flag<SmiEn>] {
        SmiEn::FLAGS
    }

    fn bits(&self) -> u32 {
        self.0
    }

    fn from_bits_retain(bits: u32) -> SmiEn {
        SmiEn(bits)
    }
}
