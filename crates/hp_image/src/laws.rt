//! Laws over definitions: public functions with empty bodies, whose clauses are what is proved.

ghost use Rattle.std.specs.Prelude.{◌≡◌, ◌≢◌, ◌⊎◌, ℕ, ◌+◌, ◌*◌, ◌^◌, ◌<◌, ◌≤◌, ◌&&◌, List, ◌++◌, Some, None};
ghost use Rattle.hp_model.specs.declared.labels.Label.{Label};
ghost use Rattle.hp_model.specs.declared.platforms.Platform.{Platform};
ghost use Rattle.hp_model.specs.Boot.{pen_mark};
ghost use Rattle.hp_model.specs.declared.labels.Handler.{Handler};
ghost use Rattle.hp_model.specs.Labels.{cell_of, first_cell, label_with, mark_of, handler_of};
ghost use Rattle.hp_model.specs.Memory.{Write, byte_at};
ghost use Rattle.hp_model.specs.Platform.{IsFit, count_of, tile, tseg};
ghost use Rattle.hp_model.specs.SaveArea.{revision_field};
ghost use Rattle.hp_image.specs.declared.stores.Cell.{Cell as Store};
ghost use Rattle.hp_image.specs.Cells.{AreCells, cells_fit, stored_cells};
ghost use Rattle.hp_image.specs.Handlers.{smbase_in};

/// Cells that fit a memory leave each byte past it as it was.
#[tactic(auto, using(crate::proofs::Writes::stored_past))]
pub fn cells_stay_below_memory()
    ensures { (low : ℕ) (cs : List Store) (ws : List Write) (x : ℕ) → AreCells low cs → low ≤ x → byte_at (stored_cells cs ws) x ≡ byte_at ws x }
{}

/// The cells of two lists, one after the other, fit where both do, and are stored one after the other.
#[tactic(auto, using(crate::proofs::Writes::in_order))]
pub fn cells_store_in_order()
    ensures fit { (low : ℕ) (cs ds : List Store) → cells_fit low (cs ++ ds) ≡ (cells_fit low cs && cells_fit low ds) }
    ensures stored { (cs ds : List Store) (ws : List Write) → stored_cells (cs ++ ds) ws ≡ stored_cells ds (stored_cells cs ws) }
{}

/// A label is found by its mark and by no other, so different labels have different marks.
#[tactic(auto, using(hp_model::proofs::Marks::by_mark))]
pub fn each_mark_names_its_label()
    ensures found { (l : Label) → label_with (mark_of l) ≡ Some l }
    ensures alone { (n : ℕ) (l : Label) → label_with n ≡ Some l → mark_of l ≡ n }
    ensures distinct { (l m : Label) → mark_of l ≡ mark_of m → l ≡ m }
    ensures width { (l : Label) → mark_of l < 2 ^ 32 }
{}

/// Memory that was never written, a hole and the pen hold no label's mark.
#[tactic(auto, using(crate::proofs::Found::no_mark))]
pub fn no_label_where_no_handler_is()
    ensures unwritten { label_with 0 ≡ None }
    ensures hole { label_with 0xffffffff ≡ None }
    ensures pen { label_with pen_mark ≡ None }
{}

/// The cells of one handler's labels, for one slot, share no byte.
#[tactic(auto, using(crate::proofs::Tiles::handlers_apart))]
pub fn cells_of_a_handler_are_apart()
    ensures distinct { (p : Platform) (l m : Label) (slot : ℕ) →
        handler_of l ≡ handler_of m → cell_of p l slot ≡ cell_of p m slot → l ≡ m }
    ensures apart { (p : Platform) (l m : Label) (slot : ℕ) → handler_of l ≡ handler_of m → l ≢ m →
        (cell_of p l slot + 4 ≤ cell_of p m slot) ⊎ (cell_of p m slot + 4 ≤ cell_of p l slot) }
{}

/// A handler begins where SMI entry leads, 0x8000 past SMBASE, and its cells lie from there on, below what SMI entry saves:
/// so they lie within 64 KiB from SMBASE, which for the relocated handler and the monarch are a tile.
#[tactic(auto, using(crate::proofs::Tiles::cells_inside))]
pub fn cells_lie_between_entry_and_save_area()
    ensures entry { (p : Platform) (h : Handler) (slot : ℕ) → first_cell p h slot ≡ smbase_in p h slot + 0x8000 }
    ensures from { (p : Platform) (l : Label) (slot : ℕ) → smbase_in p (handler_of l) slot + 0x8000 ≤ cell_of p l slot }
    ensures to { (p : Platform) (l : Label) (slot : ℕ) →
        cell_of p l slot + 4 ≤ smbase_in p (handler_of l) slot + revision_field }
    ensures tile { (p : Platform) (l : Label) (slot : ℕ) → cell_of p l slot + 4 ≤ smbase_in p (handler_of l) slot + 0x10000 }
{}

/// The tiles of the possible processors lie side by side in TSEG, past its 128 KiB of shared bytes and below the end of RAM.
/// TSEG lies past the default area, where the first handler is.
#[tactic(auto, using(crate::proofs::Tiles::tiles_inside))]
pub fn tiles_lie_side_by_side_in_tseg()
    ensures from { (p : Platform) (slot : ℕ) → IsFit p → slot < count_of p → tseg p + 0x20000 ≤ tile p slot }
    ensures to { (p : Platform) (slot : ℕ) → IsFit p → slot < count_of p → tile p slot + 0x10000 ≤ p.low_memory }
    ensures apart { (p : Platform) (j k : ℕ) → j < k → tile p j + 0x10000 ≤ tile p k }
    ensures tseg { (p : Platform) → IsFit p → tseg p + p.tseg_mib * 0x100000 ≡ p.low_memory }
    ensures above { (p : Platform) → IsFit p → 0x50000 ≤ tseg p }
{}
