//! Want of memory, where it is the whole error.

use std::alloc::{AllocError, AllocFailed};

/// An allocation was refused. What the call would have changed is as it was, but for room that was taken.
#[derive(Clone, Copy, Debug, PartialEq)]
pub struct NoMemory;

impl From<AllocError> for NoMemory {
    fn from(_refused: AllocError) -> NoMemory {
        NoMemory
    }
}

impl<T: Drop> From<AllocFailed<T>> for NoMemory {
    fn from(_refused: AllocFailed<T>) -> NoMemory {
        NoMemory
    }
}
