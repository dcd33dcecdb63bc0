//! The initial stores.

use std::marker::Model;

/// One initial store: the low `width` bytes of `value` at `addr`, the lowest first.
#[derive(Clone, Copy)]
pub struct Cell {
    pub addr: u32,
    /// In bytes: 1, 2, 4 or 8.
    pub width: u8,
    pub value: u64,
}

/// Initial stores, in the order in which they are made.
#[derive(Drop)]
pub struct CellList(pub Vec<Cell>);

impl Model for CellList {
    ghost use Rattle.std.specs.Prelude.{List};
    ghost use Rattle.hp_image.specs.declared.stores.Cell.{Cell};

    ghost Value = { List Cell };

    ghost view = { λ s. s.0.items };
}

/// What memory holds before the machine starts. Where two cells share a byte, the later one counts.
#[derive(Drop)]
pub struct Cells {
    pub list: CellList,
}
