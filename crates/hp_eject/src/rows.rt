//! The labels of an eject.

ghost use Rattle.std.specs.Prelude.{◌≡◌};
ghost use Rattle.hp_eject.specs.Ejecting.{label_of};

use hp_model::Label;

/// Where an eject stands.
#[derive(Clone, Copy)]
pub enum Row {
    /// The slot's parked byte becomes 0.
    E0,
    /// Its map byte becomes 1: its processor is to park.
    E1,
    /// The parked byte is looked at.
    E2,
    /// It didn't park: the map byte becomes 0 again.
    E3,
    /// The selector becomes the processor.
    E4a,
    /// Control 8: the register block ejects it.
    E4b,
    /// The arrived byte becomes 0.
    E4c,
    /// The map byte becomes 0.
    E4d,
    /// The parked byte becomes 0.
    E4e,
    /// Others may have moved the selector: it becomes the processor once more.
    E4f,
    /// The status is read.
    E4g,
    /// It wasn't ejected: the map byte becomes 0 again.
    E4h,
}

impl Row {
    pub fn label(self) -> Label
        ensures { result ≡ label_of self }
    {
        match self {
            Row::E0 => Label::E0,
            Row::E1 => Label::E1,
            Row::E2 => Label::E2,
            Row::E3 => Label::E3,
            Row::E4a => Label::E4a,
            Row::E4b => Label::E4b,
            Row::E4c => Label::E4c,
            Row::E4d => Label::E4d,
            Row::E4e => Label::E4e,
            Row::E4f => Label::E4f,
            Row::E4g => Label::E4g,
            Row::E4h => Label::E4h,
        }
    }
}
