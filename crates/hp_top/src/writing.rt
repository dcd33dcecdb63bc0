//! Hands a text to the sink, to its last byte.

ghost use Rattle.std.specs.Prelude.{OnOk, OnErr};
ghost use Rattle.std.specs.Io.KnownBytes.{Appends};
ghost use Rattle.hp_top.specs.Faults.{StopsFor};
ghost use Rattle.hp_top.specs.Sent.{HoldsFront};

use crate::outside::{Sink, WriteStop};

/// Writes the whole text. After an error the sink has grown by a front of it.
#[tactic(auto, using(crate::proofs::Sends::sending))]
pub(crate) fn write_all<K: Sink>(out: &mut K, text: &[u8]) -> Result<(), WriteStop>
    ensures all { OnOk result (Appends (K.held out.old) (K.held out.new) text.now) }
    ensures part { OnErr result (HoldsFront (K.held out.old) (K.held out.new) text.now) }
    ensures cause { StopsFor (K.faults out.old) (K.faults out.new) result }
{
    let mut rest = text;
    'text: while !rest.is_empty() {
        match out.write(rest) {
            Ok(count) => rest = rest.split_at(count).1,
            Err(stop) => return Err(stop),
        }
    }
    Ok(())
}
