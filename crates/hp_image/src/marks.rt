//! The marks of the SMI handlers' labels, and the cells where these stand (own rule).

ghost use Rattle.std.specs.Prelude.{◌≡◌, ◌<◌};
ghost use Rattle.hp_model.specs.Boot.{pen_mark};
ghost use Rattle.hp_model.specs.Labels.{cell_of, first_cell as first_cell_of, first_mark as first_mark_of, index_of, label_with, mark_of, handler_of};
ghost use Rattle.hp_model.specs.Memory.{bytes_of};
ghost use Rattle.hp_model.specs.Platform.{IsFit, count_of};

use hp_model::{Handler, Label, Platform, tile};

/// A label's handler, and how many of that handler's labels come before it.
#[derive(Clone, Copy)]
pub struct Position {
    pub handler: Handler,
    pub index: u32,
}

const FIRST_RELOCATED: u32 = Label::R1 as u32;

const FIRST_MONARCH: u32 = Label::S0 as u32;

const FIRST_LOOK: u32 = Label::E4f as u32;

const FIRST_AFTER: u32 = Label::T as u32;

/// Where a label stands among the labels.
pub fn position_of(label: Label) -> Position
    ensures handler { result.handler ≡ handler_of label }
    ensures index { result.index ≡ index_of label }
    ensures below { result.index < 41 }
{
    let place = label as u32;
    if place < FIRST_RELOCATED {
        Position {
            handler: Handler::First,
            index: place,
        }
    } else if place < FIRST_MONARCH {
        Position {
            handler: Handler::Relocated,
            index: place - FIRST_RELOCATED,
        }
    } else if place < FIRST_LOOK {
        Position {
            handler: Handler::Monarch,
            index: place - FIRST_MONARCH,
        }
    } else if place < FIRST_AFTER {
        // those that look whether an eject went through came last (own rule)
        Position {
            handler: Handler::Monarch,
            index: 38 + place - FIRST_LOOK,
        }
    } else {
        Position {
            handler: Handler::Monarch,
            index: 34 + place - FIRST_AFTER,
        }
    }
}

/// The mark of a handler's first label.
fn first_mark(handler: Handler) -> u32
    ensures { result ≡ first_mark_of handler }
{
    match handler {
        Handler::First => 0x53000001,
        Handler::Relocated => 0x53000011,
        Handler::Monarch => 0x53000021,
    }
}

/// The 32 bits that stand for a label in memory. The marks of a handler follow one another.
pub fn mark(label: Label) -> u32
    ensures { result ≡ mark_of label }
{
    let place = position_of(label);
    first_mark(place.handler) + place.index
}

/// The label that has this mark; `None` where none has.
#[tactic(auto, unfolding(hp_model::specs::Labels::label_with))]
pub fn label_of(mark: u32) -> Option<Label>
    ensures { result ≡ label_with mark }
{
    let label = match mark {
        0x53000001 => Label::F1,
        0x53000002 => Label::F2,
        0x53000003 => Label::F3,
        0x53000004 => Label::F4,
        0x53000005 => Label::F5,
        0x53000006 => Label::F6,
        0x53000011 => Label::R1,
        0x53000012 => Label::R2,
        0x53000013 => Label::R3,
        0x53000014 => Label::R4,
        0x53000015 => Label::R5,
        0x53000016 => Label::R6,
        0x53000021 => Label::S0,
        0x53000022 => Label::S1,
        0x53000023 => Label::S2,
        0x53000024 => Label::S3,
        0x53000025 => Label::S4,
        0x53000026 => Label::C1,
        0x53000027 => Label::C2,
        0x53000028 => Label::C3,
        0x53000029 => Label::C4,
        0x5300002a => Label::C5,
        0x5300002b => Label::C6,
        0x5300002c => Label::NB,
        0x5300002d => Label::N0,
        0x5300002e => Label::N1,
        0x5300002f => Label::N2,
        0x53000030 => Label::N3,
        0x53000031 => Label::N4,
        0x53000032 => Label::N5,
        0x53000033 => Label::N6,
        0x53000034 => Label::N7,
        0x53000035 => Label::N8a,
        0x53000036 => Label::N8b,
        0x53000037 => Label::N9,
        0x53000038 => Label::N10,
        0x53000039 => Label::N11,
        0x5300003a => Label::E0,
        0x5300003b => Label::E1,
        0x5300003c => Label::E2,
        0x5300003d => Label::E3,
        0x5300003e => Label::E4a,
        0x5300003f => Label::E4b,
        0x53000040 => Label::E4c,
        0x53000041 => Label::E4d,
        0x53000042 => Label::E4e,
        0x53000043 => Label::T,
        0x53000044 => Label::E5,
        0x53000045 => Label::E6,
        0x53000046 => Label::E7,
        0x53000047 => Label::E4f,
        0x53000048 => Label::E4g,
        0x53000049 => Label::E4h,
        _ => return None,
    };
    Some(label)
}

/// The address of a handler's first cell.
fn first_cell(p: &Platform, handler: Handler, slot: u32) -> u32
    requires fit { IsFit p.now }
    requires slot { slot < count_of p.now }
    ensures { result ≡ first_cell_of p.now handler slot }
{
    match handler {
        Handler::First => 0x38000,
        Handler::Relocated => tile(p, slot) + 0x8000,
        Handler::Monarch => tile(p, 0) + 0x8000,
    }
}

/// The first address of the 4 bytes where the label's mark stands, for the processor of this slot: past the default SMBASE for
/// the first handler, in the slot's tile for the relocated handler, and in the tile of slot 0 for the monarch.
pub fn cell(p: &Platform, label: Label, slot: u32) -> u32
    requires fit { IsFit p.now }
    requires slot { slot < count_of p.now }
    ensures { result ≡ cell_of p.now label slot }
{
    let place = position_of(label);
    first_cell(p, place.handler, slot) + 4 * place.index
}

/// The pen's mark as it is stored, the lowest byte first.
#[tactic(auto, unfolding(hp_model::specs::Memory::bytes_of))]
pub fn pen_bytes() -> [u8; 4]
    ensures { result ≡ bytes_of 4 pen_mark }
{
    *b"PEN\0"
}
