//! What memory holds before the machine starts (own rule): the marks of the handlers that run in tiles, and the first release bytes.

ghost use Rattle.std.specs.Prelude.{◌≡◌, ◌<◌, ◌≤◌, ◌+◌, ◌-◌, ◌∷◌, [], length, IfOk, OnOk};
ghost use Rattle.hp_model.specs.Image.{image as image_of, monarch_labels, relocated_labels, with_cells, with_releases, with_tiles};
ghost use Rattle.hp_model.specs.Labels.{cell_of, mark_of};
ghost use Rattle.hp_model.specs.Memory.{write_of};
ghost use Rattle.hp_model.specs.Platform.{IsFit, count_of};
ghost use Rattle.hp_model.specs.SharedBytes.{layout_of, release_byte as release_byte_of};
ghost use Rattle.hp_image.specs.Cells.{AreCells, cells_fit, stored_cells};

use crate::marks::{cell, mark};
use crate::stores::{Cell, CellList, Cells};
use hp_model::{Label, NoMemory, Platform, release_byte, tseg};
use std::alloc::Global;

const RELOCATED: [Label; 6] = [
    Label::R1,
    Label::R2,
    Label::R3,
    Label::R4,
    Label::R5,
    Label::R6,
];

const MONARCH: [Label; 41] = [
    Label::S0,
    Label::S1,
    Label::S2,
    Label::S3,
    Label::S4,
    Label::C1,
    Label::C2,
    Label::C3,
    Label::C4,
    Label::C5,
    Label::C6,
    Label::NB,
    Label::N0,
    Label::N1,
    Label::N2,
    Label::N3,
    Label::N4,
    Label::N5,
    Label::N6,
    Label::N7,
    Label::N8a,
    Label::N8b,
    Label::N9,
    Label::N10,
    Label::N11,
    Label::E0,
    Label::E1,
    Label::E2,
    Label::E3,
    Label::E4a,
    Label::E4b,
    Label::E4c,
    Label::E4d,
    Label::E4e,
    Label::E4f,
    Label::E4g,
    Label::E4h,
    Label::T,
    Label::E5,
    Label::E6,
    Label::E7,
];

/// The label's mark in its cell of this slot.
#[tactic(auto, using(crate::proofs::Initials::push_stored))]
fn add_mark(cells: &mut Vec<Cell>, p: &Platform, slot: u32, label: Label) -> Result<(), NoMemory>
    requires fit { IsFit p.now }
    requires slot { slot < count_of p.now }
    ensures stored { OnOk result (stored_cells cells.new.items [] ≡ write_of (cell_of p.now label slot) 4 (mark_of label) ∷ stored_cells cells.old.items []) }
    ensures fits { OnOk result (cells_fit p.now.low_memory cells.new.items ≡ cells_fit p.now.low_memory cells.old.items) }
{
    let cell = Cell {
        addr: cell(p, label, slot),
        width: 4,
        value: u64::from(mark(label)),
    };
    Ok(cells.push(cell)?)
}

/// The marks of these labels, one after another.
#[tactic(auto, using(crate::proofs::Initials::marks_more))]
fn add_marks(
    cells: &mut Vec<Cell>,
    p: &Platform,
    slot: u32,
    labels: &[Label],
) -> Result<(), NoMemory>
    requires fit { IsFit p.now }
    requires slot { slot < count_of p.now }
    ensures stored { OnOk result (stored_cells cells.new.items [] ≡ with_cells p.now slot labels.now (stored_cells cells.old.items [])) }
    ensures fits { OnOk result (cells_fit p.now.low_memory cells.new.items ≡ cells_fit p.now.low_memory cells.old.items) }
{
    for label in labels {
        add_mark(cells, p, slot, *label)?;
    }
    Ok(())
}

/// The relocated handler in the tiles of the slots from 1 on.
#[tactic(auto, using(crate::proofs::Initials::tiles_facts))]
fn add_tiles(cells: &mut Vec<Cell>, p: &Platform) -> Result<(), NoMemory>
    requires { IsFit p.now }
    ensures stored { OnOk result (stored_cells cells.new.items [] ≡ with_tiles p.now (count_of p.now - 1) (stored_cells cells.old.items [])) }
    ensures fits { OnOk result (cells_fit p.now.low_memory cells.new.items ≡ cells_fit p.now.low_memory cells.old.items) }
{
    for slot in 1..p.apic.0.len() {
        add_marks(cells, p, slot as u32, &RELOCATED)?;
    }
    Ok(())
}

/// 1 in the release byte of this slot.
#[tactic(auto, using(crate::proofs::Initials::push_stored))]
fn add_release(cells: &mut Vec<Cell>, p: &Platform, slot: u32) -> Result<(), NoMemory>
    requires fit { IsFit p.now }
    requires slot { slot < count_of p.now }
    ensures stored { OnOk result (stored_cells cells.new.items [] ≡ write_of (release_byte_of (layout_of p.now) slot) 1 1 ∷ stored_cells cells.old.items []) }
    ensures fits { OnOk result (cells_fit p.now.low_memory cells.new.items ≡ cells_fit p.now.low_memory cells.old.items) }
{
    let cell = Cell {
        addr: release_byte(tseg(p), slot),
        width: 1,
        value: 1,
    };
    Ok(cells.push(cell)?)
}

/// 1 in the release bytes of the boot processors' slots from 1 on.
#[tactic(auto, using(crate::proofs::Initials::releases_facts))]
fn add_releases(cells: &mut Vec<Cell>, p: &Platform) -> Result<(), NoMemory>
    requires { IsFit p.now }
    ensures stored { OnOk result (stored_cells cells.new.items [] ≡ with_releases p.now (length p.now.boot - 1) (stored_cells cells.old.items [])) }
    ensures fits { OnOk result (cells_fit p.now.low_memory cells.new.items ≡ cells_fit p.now.low_memory cells.old.items) }
{
    for slot in 1..p.boot.0.len() {
        add_release(cells, p, slot as u32)?;
    }
    Ok(())
}

/// What memory holds before the machine starts: the relocated handler in each tile but that of slot 0, there the monarch, and 1 in
/// the release bytes of the boot processors from slot 1 on.
pub fn image(alloc: Global, p: &Platform) -> Result<Cells, NoMemory>
    requires { IsFit p.now }
    ensures stored { IfOk result (λ cells. stored_cells cells.list [] ≡ image_of p.now) }
    ensures fits { IfOk result (λ cells. AreCells p.now.low_memory cells.list) }
{
    let mut cells = Vec::new(alloc);
    add_tiles(&mut cells, p)?;
    add_marks(&mut cells, p, 0, &MONARCH)?;
    add_releases(&mut cells, p)?;
    Ok(Cells {
        list: CellList(cells),
    })
}
