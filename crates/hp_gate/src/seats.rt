//! The seats at a gate: with one its owner makes steps, and nobody else makes them for it.

ghost use Rattle.std.specs.Prelude.{◌≡◌};
ghost use Rattle.hp_gate.specs.Openings.{opened, first_of};
ghost use Rattle.hp_gate.specs.Seats.{is_idle};

use crate::rule::Place;
use crate::views::{Named, Stage};
use std::marker::Model;

/// The monarch's seat, which there is one of. Contracts see the gate that it belongs to, and the monarch's view.
#[derive(Drop)]
pub struct MonarchSeat {
    pub(crate) place: Place,
    pub(crate) list: Vec<Named>,
    pub(crate) seats: u64,
    pub(crate) number: u32,
    pub(crate) stage: Stage,
}

impl Model for MonarchSeat {
    ghost use Rattle.hp_gate.specs.Steps.{monarch_of};
    ghost use Rattle.hp_gate.specs.Seats.{MonarchKnows, MonarchSeen, monarch_at};

    ghost Value = { MonarchSeen };

    ghost view = { λ m. monarch_at m.place.table_id (monarch_of m.place.me.0) };

    ghost invariant = { λ m. MonarchKnows m.place.me.0 m.list.items m.seats m.number m.stage };
}

impl MonarchSeat {
    /// How many openings were made: the number of the last one, 0 where there is none.
    pub fn opened(&self) -> u32
        ensures { result ≡ opened self.now.view }
    {
        self.number
    }

    /// Whether the last opening is finished, or there is none.
    pub fn idle(&self) -> bool
        ensures { result ≡ is_idle self.now.view.stage }
    {
        match self.stage {
            Stage::Idle => true,
            Stage::Stored(_) | Stage::Open(_) | Stage::Shut(_) => false,
        }
    }
}

/// A processor's seat. Contracts see the gate that it belongs to, and the processor's view.
#[derive(Drop)]
pub struct CpuSeat {
    pub(crate) place: Place,
    pub(crate) apic: u32,
    pub(crate) passed: u32,
}

impl Model for CpuSeat {
    ghost use Rattle.hp_gate.specs.Steps.{cpu_of};
    ghost use Rattle.hp_gate.specs.Seats.{CpuKnows, CpuSeen, cpu_at};

    ghost Value = { CpuSeen };

    ghost view = { λ c. cpu_at c.place.table_id (cpu_of c.place.me.0) };

    ghost invariant = { λ c. CpuKnows c.place.me.0 c.apic c.passed };
}

impl CpuSeat {
    /// Its APIC ID.
    pub fn apic(&self) -> u32
        ensures { result ≡ self.now.view.own.apic }
    {
        self.apic
    }

    /// The number of the last opening that it has passed, 0 where there is none.
    pub fn passed(&self) -> u32
        ensures { result ≡ first_of self.now.view.passes }
    {
        self.passed
    }
}
