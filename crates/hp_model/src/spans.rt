//! Ranges of addresses.

/// The addresses from `from` to `to`, both included.
#[derive(Clone, Copy)]
pub struct Span {
    pub from: u32,
    pub to: u32,
}
