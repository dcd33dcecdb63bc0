//! The firmware's image: the marks of the handlers and the cells where they stand, and what memory holds before the start.
#![tactic(auto)]

mod initial;
mod laws;
mod marks;
mod stores;

pub use initial::image;
pub use laws::{
    cells_lie_between_entry_and_save_area, cells_of_a_handler_are_apart, cells_stay_below_memory,
    cells_store_in_order, each_mark_names_its_label, no_label_where_no_handler_is,
    tiles_lie_side_by_side_in_tseg,
};
pub use marks::{Position, cell, label_of, mark, pen_bytes, position_of};
pub use stores::{Cell, CellList, Cells};
