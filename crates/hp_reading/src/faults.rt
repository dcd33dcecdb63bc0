//! Why a line isn't read.

use thiserror::Error;

/// Why a line of a trace isn't read.
#[derive(Debug, Drop, Error)]
pub enum LineFault {
    /// The line of this number, from 1, isn't in the grammar where it stands, or was refused before.
    #[error("line {} is not in the grammar", .0)]
    BadLine(u64),
    #[error("no memory")]
    NoMemory,
}
