//! Which answers fit what the firmware wants.

ghost use Rattle.std.specs.Prelude.{◌<◌, ◌^◌, IsTrue, Some};
ghost use Rattle.hp_model.specs.Fitting.{FitsAccess, FitsWant};

use hp_model::{Access, Answer, Want, holds, is_memory_width};

/// Whether an access of this width is answered so.
fn fits(width: u8, value: u64) -> bool
    ensures { IsTrue result → value < 256 ^ width }
{
    is_memory_width(width) && holds(width, value)
}

/// Whether the access has such an answer.
pub fn answers(access: Access, answer: Answer) -> bool
    ensures { IsTrue result → FitsAccess access answer }
{
    match (access, answer) {
        (Access::Load { width, .. }, Answer::Value(value)) => fits(width, value),
        (Access::In { width, .. }, Answer::Value(value)) => fits(width, value),
        (Access::Swap { .. }, Answer::Value(_)) => true,
        (Access::CfgRead { .. }, Answer::Value(value)) => value < 0x100,
        (
            Access::Store { .. }
            | Access::Out { .. }
            | Access::CfgWrite { .. }
            | Access::Icr { .. }
            | Access::Halt
            | Access::Nop,
            Answer::Quiet,
        ) => true,
        _ => false,
    }
}

/// Whether an access or an outcome is wanted that has such an answer.
pub fn takes(want: Want, answer: Answer) -> bool
    ensures { IsTrue result → FitsWant (Some want) answer }
{
    match want {
        Want::Do(access) => answers(access, answer),
        Want::Tell(_) => matches!(answer, Answer::Quiet),
        Want::Resume => false,
    }
}
