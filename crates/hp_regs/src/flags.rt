//! The bits of the control and status registers, both at offset 4 (QEMU docs/specs/acpi_cpu_hotplug).

ghost use Rattle.std.specs.Prelude.{⊤, [], ◌∷◌, codes};

use bitflags::{Flag, Flags, bitflag_items};

/// What a control byte asks for. Bits that no flag names are ignored.
#[derive(Clone, Copy, Drop)]
pub struct Control(pub u8);

bitflag_items! {
    impl Control: u8 {
        const CLEAR_INSERT = 2;
        const CLEAR_REMOVE = 4;
        const EJECT = 8;
        const HAND_TO_FIRMWARE = 16;
    }
}

impl Flags for Control {
    type Bits = u8;

    ghost exact = { ⊤ };

    ghost table = { (codes "CLEAR_INSERT", 2) ∷ (codes "CLEAR_REMOVE", 4) ∷ (codes "EJECT", 8) ∷ (codes "HAND_TO_FIRMWARE", 16) ∷ [] };

    ghost set_of = { λ c. c.0 };

    fn flags<'a>() -> &'a [Flag<Control>] {
        Control::FLAGS
    }

    fn bits(&self) -> u8 {
        self.0
    }

    fn from_bits_retain(bits: u8) -> Control {
        Control(bits)
    }
}

/// What a status byte shows.
#[derive(Clone, Copy, Drop)]
pub struct Status(pub u8);

bitflag_items! {
    impl Status: u8 {
        const ENABLED = 1;
        const INSERTING = 2;
        const REMOVING = 4;
        const EJECTING = 16;
    }
}

impl Flags for Status {
    type Bits = u8;

    ghost exact = { ⊤ };

    ghost table = { (codes "ENABLED", 1) ∷ (codes "INSERTING", 2) ∷ (codes "REMOVING", 4) ∷ (codes "EJECTING", 16) ∷ [] };

    ghost set_of = { λ s. s.0 };

    fn flags<'a>() -> &'a [Flag<Status>] {
        Status::FLAGS
    }

    fn bits(&self) -> u8 {
        self.0
    }

    fn from_bits_retain(bits: u8) -> Status {
        Status(bits)
    }
}
