//! The labels of an add.

ghost use Rattle.std.specs.Prelude.{◌≡◌};
ghost use Rattle.hp_reloc.specs.Relocating.{label_of};

use hp_model::Label;

/// Where an add stands.
#[derive(Clone, Copy)]
pub enum Row {
    /// The slot's release byte becomes 0.
    NB,
    /// An attempt begins: the arrived byte becomes 0.
    N0,
    /// The flag becomes 0.
    N1,
    /// The new SMBASE becomes the slot's tile.
    N2,
    /// An SMI goes to the processor.
    N3,
    /// INIT goes to the processor.
    N4,
    /// SIPI goes to the processor.
    N5,
    /// SIPI goes to it once more.
    N6,
    /// The gate opens.
    N7,
    /// The flag is looked at, first of a pair.
    N8a,
    /// The arrived byte is looked at, second of a pair.
    N8b,
    /// The gate closes.
    N9,
    /// The arrived byte becomes 0 once more.
    N10,
    /// The arrived byte is looked at.
    N11,
}

impl Row {
    pub fn label(self) -> Label
        ensures { result ≡ label_of self }
    {
        match self {
            Row::NB => Label::NB,
            Row::N0 => Label::N0,
            Row::N1 => Label::N1,
            Row::N2 => Label::N2,
            Row::N3 => Label::N3,
            Row::N4 => Label::N4,
            Row::N5 => Label::N5,
            Row::N6 => Label::N6,
            Row::N7 => Label::N7,
            Row::N8a => Label::N8a,
            Row::N8b => Label::N8b,
            Row::N9 => Label::N9,
            Row::N10 => Label::N10,
            Row::N11 => Label::N11,
        }
    }
}
