//! What a machine is built from.

ghost use Rattle.std.specs.Prelude.{◌≡◌, IfOk};
ghost use Rattle.hp_model.specs.Platform.{is_late as comes_late};

use crate::errors::NoMemory;
use std::alloc::Global;
use std::marker::Model;

/// Numbers of processors, such as APIC IDs by place.
#[derive(Debug, Drop)]
pub struct Ids(pub Vec<u32>);

impl Model for Ids {
    ghost use Rattle.std.specs.Prelude.{List, ℕ};

    ghost Value = { List ℕ };

    ghost view = { λ s. s.0.items };
}

/// When a latched SMI is taken (own rules).
#[derive(Clone, Copy, Debug, PartialEq)]
pub enum Delivery {
    /// In place of the processor's next access outside SMM.
    Prompt,
    /// At any later step. A schedule gives one turn in `lag` + 1 of a processor to its latched SMI.
    Late { lag: u32 },
}

impl Delivery {
    /// Whether a latched SMI may be taken later than at once.
    pub fn is_late(&self) -> bool
        ensures { result ≡ comes_late self.now }
    {
        match *self {
            Delivery::Prompt => false,
            Delivery::Late { lag: _ } => true,
        }
    }
}

/// A machine before it starts. `fits` says which values can be built.
#[derive(Debug, Drop)]
pub struct Platform {
    /// The APIC ID of each possible processor, by place. The place of a processor is its selector.
    pub apic: Ids,
    /// The places of the processors that are there at boot.
    pub boot: Ids,
    /// RAM is the addresses below this one.
    pub low_memory: u32,
    /// The size of TSEG in MiB: 1, 2, 8 or 48.
    pub tseg_mib: u32,
    /// The supported SMI features: bit 0 broadcast, bit 1 hot-plug, bit 2 hot-unplug.
    pub features: u64,
    /// How often the firmware looks at a byte that another processor is to set.
    pub polls: u32,
    /// How many turns a run makes.
    pub turns: u32,
    /// Whether the register block can be switched to its modern form.
    pub modern: bool,
    /// Whether the default SMRAM area can be locked.
    pub default_smram: bool,
    pub delivery: Delivery,
    /// Whether APIC IDs have 32 bits, and the high half of an interrupt command is one.
    pub x2apic: bool,
    /// Whether TSEG can have 48 MiB.
    pub ext_tseg: bool,
}

impl Platform {
    /// A copy, with lists of its own. Takes any platform, one that doesn't fit too.
    pub fn copy(&self, alloc: Global) -> Result<Platform, NoMemory>
        ensures { IfOk result (λ copy. copy ≡ self.now) }
    {
        let apic = Ids(Vec::from_slice(alloc, self.apic.0.as_slice())?);
        let boot = Ids(Vec::from_slice(alloc, self.boot.0.as_slice())?);
        Ok(Platform {
            apic,
            boot,
            low_memory: self.low_memory,
            tseg_mib: self.tseg_mib,
            features: self.features,
            polls: self.polls,
            turns: self.turns,
            modern: self.modern,
            default_smram: self.default_smram,
            delivery: self.delivery,
            x2apic: self.x2apic,
            ext_tseg: self.ext_tseg,
        })
    }
}
