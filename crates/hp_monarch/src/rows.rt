//! Where the monarch stands.

ghost use Rattle.std.specs.Prelude.{◌≡◌};
ghost use Rattle.hp_monarch.specs.Session.{label_of};

use hp_model::Label;

/// The rows that are the monarch's own.
#[derive(Clone, Copy)]
pub enum Row {
    /// The session byte becomes 1.
    S0,
    /// The release byte of each bound slot from slot 1 on becomes 0.
    S1,
    /// An SMI goes to all others.
    S2,
    /// The arrived byte of each known slot from slot 1 on is looked at.
    S3,
    /// The SMI command is read.
    S4,
    /// An outcome is told.
    T,
    /// The session byte becomes 0.
    E5,
    /// The release byte of each bound slot from slot 1 on becomes 1.
    E6,
    /// RSM.
    E7,
}

impl Row {
    pub fn label(self) -> Label
        ensures { result ≡ label_of self }
    {
        match self {
            Row::S0 => Label::S0,
            Row::S1 => Label::S1,
            Row::S2 => Label::S2,
            Row::S3 => Label::S3,
            Row::S4 => Label::S4,
            Row::T => Label::T,
            Row::E5 => Label::E5,
            Row::E6 => Label::E6,
            Row::E7 => Label::E7,
        }
    }
}

/// Where the monarch stands: at a row of its own, in the collection, in an add, or in an eject.
#[derive(Clone, Copy)]
pub enum Standing {
    At(Row),
    Collects,
    Adds,
    Ejects,
}
