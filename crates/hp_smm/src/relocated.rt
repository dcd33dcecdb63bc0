//! The relocated handler, in the tile of a slot from 1 on (own rule): a processor arrives, waits until it is released or is to park, and
//! leaves.

ghost use Rattle.std.specs.Prelude.{◌≡◌, ◌≤◌, Some};
ghost use Rattle.hp_model.specs.Boot.{value_in};
ghost use Rattle.hp_model.specs.Handlers.{Seat, next_at, stays, want_at};
ghost use Rattle.hp_model.specs.declared.labels.Handler.TheVariants.{Relocated};
ghost use Rattle.hp_model.specs.Labels.{handler_of};
ghost use Rattle.hp_model.specs.Monarch.{Monarch};
ghost use Rattle.hp_model.specs.SharedBytes.{Layout};

use hp_model::{Access, Answer, Label, Want, arrived_byte, map_byte, parked_byte, release_byte};

/// What the processor of this slot wants at a label of the relocated handler.
pub fn relocated_want(label: Label, tseg: u32, slot: u32) -> Want
    requires relocated { handler_of label ≡ Relocated }
    requires tseg { tseg ≤ 0x80000000 }
    requires slot { slot ≤ 0xffff }
    ensures { (y : Layout) (x : Seat) (r : Monarch) → y.tseg ≡ tseg → x.slot ≡ slot → want_at y x r label ≡ Some result }
{
    let access = match label {
        Label::R1 => Access::store_byte(arrived_byte(tseg, slot), 1),
        Label::R2 => Access::load_byte(map_byte(tseg, slot)),
        Label::R3 => Access::load_byte(release_byte(tseg, slot)),
        Label::R4 => Access::store_byte(arrived_byte(tseg, slot), 0),
        Label::R5 => return Want::Resume,
        Label::R6 => Access::store_byte(parked_byte(tseg, slot), 1),
        _ => unreachable!(),
    };
    Want::Do(access)
}

/// The label where the answer leads.
pub fn relocated_next(label: Label, answer: Answer) -> Label
    requires { handler_of label ≡ Relocated }
    ensures { (y : Layout) (x : Seat) (r : Monarch) → next_at y x r label (value_in answer) ≡ stays result x r }
{
    match label {
        Label::R1 | Label::R6 => Label::R2,
        Label::R2 if answer.value() == 1 => Label::R6,
        Label::R2 => Label::R3,
        Label::R3 if answer.value() == 1 => Label::R4,
        Label::R3 => Label::R1,
        Label::R4 | Label::R5 => Label::R5,
        _ => unreachable!(),
    }
}
