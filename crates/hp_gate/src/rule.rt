//! The rule of the words and views as the table takes it, and the kinds of step.

use crate::views::{Named, View};
use atomic_table::{Play, Seat, Split, Table, TableRule};
use std::alloc::Global;
use std::snapshot::Snapshot;

/// The four words and the views of all seats, over the list that the table is told when it is made.
pub struct GateRule;

impl TableRule<(), View, Snapshot<Vec<Named>>> for GateRule {
    ghost use Rattle.hp_gate.specs.Rule.{Kept};
    ghost use Rattle.hp_gate.specs.Steps.{view_start};

    ghost holds = { λ _. Kept };

    ghost first = { λ about. view_start about.value.items };
}

pub type Words = Table<(), View, Snapshot<Vec<Named>>, GateRule, Global>;

pub type Place = Seat<(), View>;

pub struct StoresBase;

impl Play<(), View> for StoresBase {
    ghost use Rattle.hp_gate.specs.Steps.{stores_base};

    ghost then = { stores_base };
}

pub struct Opens;

impl Play<(), View> for Opens {
    ghost use Rattle.hp_gate.specs.Steps.{opens};

    ghost then = { opens };
}

pub struct Closes;

impl Play<(), View> for Closes {
    ghost use Rattle.hp_gate.specs.Steps.{closes};

    ghost then = { closes };
}

pub struct Looks;

impl Play<(), View> for Looks {
    ghost use Rattle.hp_gate.specs.Steps.{looks};

    ghost then = { looks };
}

pub struct LoadsGate;

impl Play<(), View> for LoadsGate {
    ghost use Rattle.hp_gate.specs.Steps.{loads_gate};

    ghost then = { loads_gate };
}

pub struct Exchanges;

impl Play<(), View> for Exchanges {
    ghost use Rattle.hp_gate.specs.Steps.{exchanges};

    ghost then = { exchanges };
}

pub struct LoadsBase;

impl Play<(), View> for LoadsBase {
    ghost use Rattle.hp_gate.specs.Steps.{loads_base};

    ghost then = { loads_base };
}

pub struct Flags;

impl Play<(), View> for Flags {
    ghost use Rattle.hp_gate.specs.Steps.{flags};

    ghost then = { flags };
}

pub struct Arrives;

impl Play<(), View> for Arrives {
    ghost use Rattle.hp_gate.specs.Steps.{arrives};

    ghost then = { arrives };
}

pub struct Seats;

impl Split<View> for Seats {
    ghost use Rattle.hp_gate.specs.Steps.{seats_cpu, seats_monarch};

    ghost left = { seats_monarch };

    ghost right = { seats_cpu };
}
