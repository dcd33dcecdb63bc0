//! Accesses as the machine takes them.

ghost use Rattle.std.specs.Prelude.{◌≡◌, ◌%◌, ◌^◌, true};
ghost use Rattle.hp_model.specs.Access.{is_memory_width as is_memory, normal as normal_of};

use hp_model::{Access, is_memory_width, is_port_width};

/// The lowest bytes of a value, so many as the width is.
fn cut(value: u64, width: u8) -> u64
    ensures { is_memory width ≡ true → result ≡ value % 256 ^ width }
{
    match width {
        1 => value & 0xff,
        2 => value & 0xffff,
        4 => value & 0xffff_ffff,
        _ => value,
    }
}

/// What an agent's access is taken as (own rule): of a width that there is none it does nothing, and a value is cut to its
/// width.
pub(crate) fn normal(access: Access) -> Access
    ensures { result ≡ normal_of access }
{
    match access {
        Access::Load { width, .. } if !is_memory_width(width) => Access::Nop,
        Access::Store { width, .. } if !is_memory_width(width) => Access::Nop,
        Access::In { width, .. } if !is_port_width(width) => Access::Nop,
        Access::Out { width, .. } if !is_port_width(width) => Access::Nop,
        Access::Store { addr, width, value } => Access::Store {
            addr,
            width,
            value: cut(value, width),
        },
        Access::Out { port, width, value } => Access::Out {
            port,
            width,
            value: cut(u64::from(value), width) as u32,
        },
        _ => access,
    }
}
