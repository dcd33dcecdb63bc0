//! What a line is put together from. The compiler knows each line's pieces, so what is left of them at run time is their bytes.

ghost use Rattle.std.specs.Prelude.{◌≡◌, ◌++◌, ◌∷◌, [], List, OnErr, OnOk};
ghost use Rattle.hp_model.specs.Text.{hexadecimal, number, numbers_text, spell, spell_piece, word, Piece as Spelled};
ghost use Rattle.hp_trace.specs.Pieces.{Begins};

use crate::digits::{put_decimal, put_eight, put_four, put_hex, put_numbers, put_sixteen, put_two};
use hp_model::NoMemory;

/// A piece of a line.
pub trait Piece {
    ghost piece: { Self → Spelled };

    /// Appends its text. After `NoMemory` the vector begins with what it held.
    fn put(&self, out: &mut Vec<u8>) -> Result<(), NoMemory>
        ensures text { OnOk result (out.new.items ≡ out.old.items ++ spell_piece (piece self.now)) }
        ensures front { OnErr result (Begins out.old.items out.new.items) };
}

/// Bytes as they stand.
#[derive(Clone, Copy)]
pub struct Word<'a>(pub &'a [u8]);

/// A decimal number.
#[derive(Clone, Copy)]
pub struct Number(pub u64);

/// Decimal numbers, with a comma between two.
#[derive(Clone, Copy)]
pub struct Numbers<'a>(pub &'a [u32]);

/// Two hexadecimal digits.
#[derive(Clone, Copy)]
pub struct Hex2(pub u8);

/// Four.
#[derive(Clone, Copy)]
pub struct Hex4(pub u16);

/// Eight.
#[derive(Clone, Copy)]
pub struct Hex8(pub u32);

/// Sixteen.
#[derive(Clone, Copy)]
pub struct Hex16(pub u64);

/// So many hexadecimal digits, and the number whose low digits they are.
#[derive(Clone, Copy)]
pub struct Hex(pub u32, pub u64);

impl<'a> Piece for Word<'a> {
    ghost piece = { λ p. word p.0.now };

    #[inline(always)]
    fn put(&self, out: &mut Vec<u8>) -> Result<(), NoMemory> {
        put_word(self.0, out)
    }
}

impl Piece for Number {
    ghost piece = { λ p. number p.0 };

    #[inline(always)]
    fn put(&self, out: &mut Vec<u8>) -> Result<(), NoMemory> {
        put_decimal(self.0, out)
    }
}

impl<'a> Piece for Numbers<'a> {
    ghost piece = { λ p. word (numbers_text p.0.now) };

    fn put(&self, out: &mut Vec<u8>) -> Result<(), NoMemory> {
        put_numbers(self.0, out)
    }
}

impl Piece for Hex2 {
    ghost piece = { λ p. hexadecimal 2 p.0 };

    #[inline(always)]
    #[tactic(auto, using(crate::proofs::Texts::widths))]
    fn put(&self, out: &mut Vec<u8>) -> Result<(), NoMemory> {
        put_two(u64::from(self.0), out)?;
        Ok(())
    }
}

impl Piece for Hex4 {
    ghost piece = { λ p. hexadecimal 4 p.0 };

    #[inline(always)]
    #[tactic(auto, using(crate::proofs::Texts::widths))]
    fn put(&self, out: &mut Vec<u8>) -> Result<(), NoMemory> {
        put_four(u64::from(self.0), out)?;
        Ok(())
    }
}

impl Piece for Hex8 {
    ghost piece = { λ p. hexadecimal 8 p.0 };

    #[inline(always)]
    #[tactic(auto, using(crate::proofs::Texts::widths))]
    fn put(&self, out: &mut Vec<u8>) -> Result<(), NoMemory> {
        put_eight(u64::from(self.0), out)?;
        Ok(())
    }
}

impl Piece for Hex16 {
    ghost piece = { λ p. hexadecimal 16 p.0 };

    #[inline(always)]
    #[tactic(auto, using(crate::proofs::Texts::widths))]
    fn put(&self, out: &mut Vec<u8>) -> Result<(), NoMemory> {
        put_sixteen(self.0, out)?;
        Ok(())
    }
}

impl Piece for Hex {
    ghost piece = { λ p. hexadecimal p.0 p.1 };

    #[inline(always)]
    fn put(&self, out: &mut Vec<u8>) -> Result<(), NoMemory> {
        put_hex(self.0, self.1, out)
    }
}

/// Appends bytes as they stand, one by one: words are short.
#[inline(always)]
#[tactic(auto, using(crate::proofs::Texts::word_facts))]
fn put_word(text: &[u8], out: &mut Vec<u8>) -> Result<(), NoMemory>
    ensures text { OnOk result (out.new.items ≡ out.old.items ++ text.now) }
    ensures front { OnErr result (Begins out.old.items out.new.items) }
{
    for byte in text {
        out.push(*byte)?;
    }
    Ok(())
}

/// Pieces one after another, as `pieces!` makes them.
pub trait Pieces {
    ghost pieces: { Self → List Spelled };

    /// Appends their text. After `NoMemory` the vector begins with what it held.
    fn put_all(&self, out: &mut Vec<u8>) -> Result<(), NoMemory>
        ensures text { OnOk result (out.new.items ≡ out.old.items ++ spell (pieces self.now)) }
        ensures front { OnErr result (Begins out.old.items out.new.items) };
}

/// No piece more.
#[derive(Clone, Copy)]
pub struct End;

/// A piece, and those after it.
#[derive(Clone, Copy)]
pub struct Then<P, R>(pub P, pub R);

impl Pieces for End {
    ghost pieces = { λ _. [] };

    #[inline(always)]
    fn put_all(&self, out: &mut Vec<u8>) -> Result<(), NoMemory> {
        Ok(())
    }
}

impl<P: Piece, R: Pieces> Pieces for Then<P, R> {
    ghost pieces = { λ t. P.piece t.0 ∷ R.pieces t.1 };

    #[inline(always)]
    #[tactic(auto, using(crate::proofs::Texts::line_facts))]
    fn put_all(&self, out: &mut Vec<u8>) -> Result<(), NoMemory> {
        self.0.put(out)?;
        self.1.put_all(out)
    }
}

/// `pieces!(Word(b"end "), Number(2))`: these pieces, in their order.
macro_rules! pieces {
    () => { $crate::pieces::End };
    ($first:expr $(, $rest:expr)* $(,)?) => { $crate::pieces::Then($first, pieces!($($rest),*)) };
}

pub(crate) use pieces;
