//! The labels of a collection.

ghost use Rattle.std.specs.Prelude.{◌≡◌};
ghost use Rattle.hp_collect.specs.Standing.{label_of};

use hp_model::Label;

/// Where a collection stands.
#[derive(Clone, Copy)]
pub enum Row {
    /// The selector becomes the processor from which on the next event is looked for.
    C1,
    /// Command 0: the selector goes on to the next processor with an event.
    C2,
    /// Command data is read: the selector.
    C3,
    /// The status is read.
    C4,
    /// Command 3: command data is the APIC ID from here on.
    C5,
    /// Command data is read: the APIC ID.
    C6,
}

impl Row {
    pub fn label(self) -> Label
        ensures { result ≡ label_of self }
    {
        match self {
            Row::C1 => Label::C1,
            Row::C2 => Label::C2,
            Row::C3 => Label::C3,
            Row::C4 => Label::C4,
            Row::C5 => Label::C5,
            Row::C6 => Label::C6,
        }
    }
}
