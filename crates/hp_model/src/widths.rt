//! Widths of accesses, in bytes, and what they hold.

ghost use Rattle.std.specs.Prelude.{◌≡◌, ◌^◌, true, nat_lt};
ghost use Rattle.hp_model.specs.Access.{is_memory_width as memory_width, is_port_width as port_width};

/// Whether an access to memory can have this width.
pub fn is_memory_width(width: u8) -> bool
    ensures { result ≡ memory_width width }
{
    width == 1 || width == 2 || width == 4 || width == 8
}

/// Whether an access to a port can have this width.
pub fn is_port_width(width: u8) -> bool
    ensures { result ≡ port_width width }
{
    width == 1 || width == 2 || width == 4
}

/// Whether so many bytes hold the value.
pub fn holds(width: u8, value: u64) -> bool
    requires { memory_width width ≡ true }
    ensures { result ≡ nat_lt value (256 ^ width) }
{
    match width {
        1 => value < 0x100,
        2 => value < 0x1_0000,
        4 => value < 0x1_0000_0000,
        _ => true,
    }
}
