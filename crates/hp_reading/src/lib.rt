//! Reading traces: the grammar of the lines of a trace, and a reader that is given line by line.
#![tactic(auto)]

mod accesses;
mod entries;
mod faults;
mod fronts;
mod groups;
mod headers;
mod laws;
mod outcomes;
mod readers;

pub use entries::{end_number, read_entry};
pub use faults::LineFault;
pub use headers::read_head;
pub use laws::{
    ends_are_read_as_spelled, entries_are_read_as_spelled, entry_lines_are_short,
    headers_are_read_as_spelled, headers_are_short, texts_without_fault_are_runs,
    traces_are_read_as_spelled,
};
pub use readers::{Piece, Reader};
