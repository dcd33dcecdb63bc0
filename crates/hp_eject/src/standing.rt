//! Where an eject is.

use crate::rows::Row;
use hp_model::Outcome;

/// At a label, or at its end.
#[derive(Clone, Copy)]
pub enum Standing {
    At(Row),
    Ended(Outcome),
}
