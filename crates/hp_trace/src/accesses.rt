//! An access of a processor and what it was answered, as text.

ghost use Rattle.std.specs.Prelude.{◌≡◌, ◌++◌, OnErr, OnOk};
ghost use Rattle.hp_model.specs.Text.{access_pieces, spell};
ghost use Rattle.hp_trace.specs.Pieces.{Begins};

use crate::pieces::{Hex, Hex2, Hex4, Hex8, Hex16, Number, Pieces, Word, pieces};
use hp_model::{Access, NoMemory};

/// Appends an access, and the value that it was answered where it asks for one.
pub fn put_access(access: Access, seen: u64, out: &mut Vec<u8>) -> Result<(), NoMemory>
    ensures text { OnOk result (out.new.items ≡ out.old.items ++ spell (access_pieces access seen)) }
    ensures front { OnErr result (Begins out.old.items out.new.items) }
{
    match access {
        Access::Load { addr, width } => pieces!(
            Word(b"load "),
            Number(width as u64),
            Word(b" "),
            Hex8(addr),
            Word(b" = "),
            Hex(2 * width as u32, seen)
        )
        .put_all(out),
        Access::Store { addr, width, value } => pieces!(
            Word(b"store "),
            Number(width as u64),
            Word(b" "),
            Hex8(addr),
            Word(b" "),
            Hex(2 * width as u32, value)
        )
        .put_all(out),
        Access::Swap {
            addr,
            expected,
            desired,
        } => pieces!(
            Word(b"cas "),
            Hex8(addr),
            Word(b" "),
            Hex16(expected),
            Word(b" "),
            Hex16(desired),
            Word(b" = "),
            Hex16(seen)
        )
        .put_all(out),
        Access::In { port, width } => pieces!(
            Word(b"in "),
            Number(width as u64),
            Word(b" "),
            Hex4(port),
            Word(b" = "),
            Hex(2 * width as u32, seen)
        )
        .put_all(out),
        Access::Out { port, width, value } => pieces!(
            Word(b"out "),
            Number(width as u64),
            Word(b" "),
            Hex4(port),
            Word(b" "),
            Hex(2 * width as u32, value as u64)
        )
        .put_all(out),
        Access::CfgRead { reg } => {
            pieces!(Word(b"cfgr "), Hex2(reg), Word(b" = "), Hex(2, seen)).put_all(out)
        }
        Access::CfgWrite { reg, value } => {
            pieces!(Word(b"cfgw "), Hex2(reg), Word(b" "), Hex2(value)).put_all(out)
        }
        Access::Icr { high, low } => {
            pieces!(Word(b"icr "), Hex8(high), Word(b" "), Hex8(low)).put_all(out)
        }
        Access::Halt => pieces!(Word(b"halt")).put_all(out),
        Access::Nop => pieces!(Word(b"nop")).put_all(out),
    }
}
