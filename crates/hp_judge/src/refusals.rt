//! Why a text is refused.

use thiserror::Error;

/// Why a line is at fault.
#[derive(Clone, Copy, Debug, PartialEq, Eq, Drop)]
pub enum Why {
    /// It isn't in the grammar where it stands, or has no line feed.
    Line,
    /// Its entry is no step of the machine after those before it, or has another answer or instruction address than that step.
    Step,
    /// The end line is missing there, has another number than there are entries, or has text after it.
    End,
}

/// The first line at fault, from 1, and why.
#[derive(Clone, Copy, Debug, PartialEq, Eq, Drop)]
pub struct Refusal {
    pub line: u64,
    pub why: Why,
}

/// Why no further text is wanted.
#[derive(Debug, Drop, Error)]
pub enum Stop {
    /// Whatever follows, this line is the first at fault.
    #[error("line {} is refused", .0.line)]
    Refused(Refusal),
    /// There is no memory, or lines are more than 64 bits count.
    #[error("no memory")]
    NoMemory,
}
