//! A trace, handed to the sink line by line.

ghost use Rattle.std.specs.Prelude.{◌≡◌, ◌∷◌, ◌++◌, [], length, None, IfSome, OnOk, OnErr};
ghost use Rattle.std.specs.Io.KnownBytes.{Appends};
ghost use Rattle.hp_model.specs.Text.{end_text, head_text, line_text, lines_text, trace_text};
ghost use Rattle.hp_top.specs.Faults.{StopsFor};
ghost use Rattle.hp_top.specs.Sent.{HoldsFront};

use crate::outside::{Sink, WriteStop};
use crate::writing::write_all;
use hp_model::{Entry, Platform};

/// Makes the line of an entry in the buffer, whose content goes, and hands it to the sink.
#[inline(never)]
pub(crate) fn send_line<K: Sink>(
    e: &Entry,
    text: &mut Vec<u8>,
    out: &mut K,
) -> Result<(), WriteStop>
    ensures all { OnOk result (Appends (K.held out.old) (K.held out.new) (line_text e.now)) }
    ensures part { OnErr result (HoldsFront (K.held out.old) (K.held out.new) (line_text e.now)) }
    ensures cause { StopsFor (K.faults out.old) (K.faults out.new) result }
{
    text.clear();
    if hp_trace::line(e, text).is_err() {
        return Err(WriteStop::NoMemory);
    }
    write_all(out, text.as_slice())
}

/// The header, likewise.
pub(crate) fn send_head<K: Sink>(
    p: &Platform,
    text: &mut Vec<u8>,
    out: &mut K,
) -> Result<(), WriteStop>
    ensures all { OnOk result (Appends (K.held out.old) (K.held out.new) (head_text p.now)) }
    ensures part { OnErr result (HoldsFront (K.held out.old) (K.held out.new) (head_text p.now)) }
    ensures cause { StopsFor (K.faults out.old) (K.faults out.new) result }
{
    text.clear();
    if hp_trace::head(p, text).is_err() {
        return Err(WriteStop::NoMemory);
    }
    write_all(out, text.as_slice())
}

/// The end line, likewise.
pub(crate) fn send_end<K: Sink>(
    entries: u64,
    text: &mut Vec<u8>,
    out: &mut K,
) -> Result<(), WriteStop>
    ensures all { OnOk result (Appends (K.held out.old) (K.held out.new) (end_text entries)) }
    ensures part { OnErr result (HoldsFront (K.held out.old) (K.held out.new) (end_text entries)) }
    ensures cause { StopsFor (K.faults out.old) (K.faults out.new) result }
{
    text.clear();
    if hp_trace::end(entries, text).is_err() {
        return Err(WriteStop::NoMemory);
    }
    write_all(out, text.as_slice())
}

/// The first of entries and those after it.
fn first_of(entries: &[Entry]) -> Option<(&Entry, &[Entry])>
    ensures some { IfSome result (λ r. entries.now ≡ r.0.now ∷ r.1.now) }
    ensures none { result ≡ None → entries.now ≡ [] }
{
    match entries {
        [entry, more @ ..] => Some((entry, more)),
        [] => None,
    }
}

/// The lines of entries, one after another.
#[tactic(auto, using(crate::proofs::Sends::lines))]
pub(crate) fn send_lines<K: Sink>(
    entries: &[Entry],
    text: &mut Vec<u8>,
    out: &mut K,
) -> Result<(), WriteStop>
    ensures all { OnOk result (Appends (K.held out.old) (K.held out.new) (lines_text entries.now)) }
    ensures part { OnErr result (HoldsFront (K.held out.old) (K.held out.new) (lines_text entries.now)) }
    ensures cause { StopsFor (K.faults out.old) (K.faults out.new) result }
{
    let mut rest = entries;
    'lines: while let Some((entry, more)) = first_of(rest) {
        match send_line(entry, text, out) {
            Ok(()) => rest = more,
            Err(stop) => return Err(stop),
        }
    }
    Ok(())
}

/// The header and the lines of entries.
#[tactic(auto, using(crate::proofs::Sends::lines))]
pub(crate) fn send_front<K: Sink>(
    p: &Platform,
    entries: &[Entry],
    text: &mut Vec<u8>,
    out: &mut K,
) -> Result<(), WriteStop>
    ensures all { OnOk result (Appends (K.held out.old) (K.held out.new) (head_text p.now ++ lines_text entries.now)) }
    ensures part { OnErr result (HoldsFront (K.held out.old) (K.held out.new) (head_text p.now ++ lines_text entries.now)) }
    ensures cause { StopsFor (K.faults out.old) (K.faults out.new) result }
{
    match send_head(p, text, out) {
        Ok(()) => send_lines(entries, text, out),
        Err(stop) => Err(stop),
    }
}

/// The whole trace of entries.
#[tactic(auto, using(crate::proofs::Sends::lines))]
pub(crate) fn send_trace<K: Sink>(
    p: &Platform,
    entries: &[Entry],
    text: &mut Vec<u8>,
    out: &mut K,
) -> Result<(), WriteStop>
    ensures all { OnOk result (Appends (K.held out.old) (K.held out.new) (trace_text p.now entries.now)) }
    ensures part { OnErr result (HoldsFront (K.held out.old) (K.held out.new) (trace_text p.now entries.now)) }
    ensures cause { StopsFor (K.faults out.old) (K.faults out.new) result }
{
    match send_front(p, entries, text, out) {
        Ok(()) => send_end(entries.len() as u64, text, out),
        Err(stop) => Err(stop),
    }
}
