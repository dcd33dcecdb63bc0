//! The bits of registers 9c, 9d and 9e, and the size of TSEG that they enable (names as in QEMU's hw/pci-host/q35).

ghost use Rattle.std.specs.Prelude.{⊤, [], ◌∷◌, ◌≡◌, ◌<◌, codes};
ghost use Rattle.hp_model.specs.View.{tseg_size};

use bitflags::{Flag, Flags, bitflag_items};

/// Register 9c, F_SMBASE: how far the default area's handshake has come.
#[derive(Clone, Copy, Drop)]
pub struct FSmbase(pub u8);

bitflag_items! {
    impl FSmbase: u8 {
        const IN_RAM = 1;
        const LCK = 2;
    }
}

impl Flags for FSmbase {
    type Bits = u8;

    ghost exact = { ⊤ };

    ghost table = { (codes "IN_RAM", 1) ∷ (codes "LCK", 2) ∷ [] };

    ghost set_of = { λ r. r.0 };

    fn flags<'a>() -> &'a [Flag<FSmbase>] {
        FSmbase::FLAGS
    }

    fn bits(&self) -> u8 {
        self.0
    }

    fn from_bits_retain(bits: u8) -> FSmbase {
        FSmbase(bits)
    }
}

/// Register 9d, SMRAM.
#[derive(Clone, Copy, Drop)]
pub struct Smram(pub u8);

bitflag_items! {
    impl Smram: u8 {
        const G_SMRAME = 0x8;
        const D_LCK = 0x10;
        const LOCKED = 0x18;
    }
}

impl Flags for Smram {
    type Bits = u8;

    ghost exact = { ⊤ };

    ghost table = { (codes "G_SMRAME", 8) ∷ (codes "D_LCK", 16) ∷ (codes "LOCKED", 24) ∷ [] };

    ghost set_of = { λ r. r.0 };

    fn flags<'a>() -> &'a [Flag<Smram>] {
        Smram::FLAGS
    }

    fn bits(&self) -> u8 {
        self.0
    }

    fn from_bits_retain(bits: u8) -> Smram {
        Smram(bits)
    }
}

/// Register 9e, ESMRAMC. Bits 2:1 are the size of TSEG.
#[derive(Clone, Copy, Drop)]
pub struct Esmramc(pub u8);

bitflag_items! {
    impl Esmramc: u8 {
        const T_EN = 1;
        const TSEG_SZ_LOW = 2;
        const TSEG_SZ_HIGH = 4;
    }
}

impl Flags for Esmramc {
    type Bits = u8;

    ghost exact = { ⊤ };

    ghost table = { (codes "T_EN", 1) ∷ (codes "TSEG_SZ_LOW", 2) ∷ (codes "TSEG_SZ_HIGH", 4) ∷ [] };

    ghost set_of = { λ r. r.0 };

    fn flags<'a>() -> &'a [Flag<Esmramc>] {
        Esmramc::FLAGS
    }

    fn bits(&self) -> u8 {
        self.0
    }

    fn from_bits_retain(bits: u8) -> Esmramc {
        Esmramc(bits)
    }
}

/// The size of TSEG in MiB that register 9e enables, where register 50 holds `ext_tseg`; 0 where it enables none.
#[tactic(auto, using(crate::proofs::Bits::tseg_bits))]
pub fn tseg_mib(ext_tseg: u8, register: Esmramc) -> u32
    requires { register.0 < 8 }
    ensures { result ≡ tseg_size ext_tseg register.0 }
{
    if !register.contains(Esmramc::T_EN) {
        return 0;
    }
    let low = register.contains(Esmramc::TSEG_SZ_LOW);
    let high = register.contains(Esmramc::TSEG_SZ_HIGH);
    match (high, low) {
        (false, false) => 1,
        (false, true) => 2,
        (true, false) => 8,
        (true, true) => u32::from(ext_tseg),
    }
}
