//! Whole lines, each with its line feed. After `NoMemory` a vector holds what it held before, room aside.

ghost use Rattle.std.specs.Prelude.{◌≡◌, ◌++◌, OnErr, OnOk, take};
ghost use Rattle.hp_model.specs.Text.{delivery_pieces, end_text, ext_pieces, head_text, line_of, line_text, spell, truth_text, x2apic_pieces};
ghost use Rattle.hp_trace.specs.Head.{front_pieces};
ghost use Rattle.hp_trace.specs.Pieces.{Begins};

use crate::pieces::{Hex8, Number, Numbers, Pieces, Word, pieces};
use crate::steps::{put_actor, put_event};
use hp_model::{Delivery, Entry, Ids, NoMemory, Platform};

fn truth(value: bool) -> &'static [u8]
    ensures { result.now ≡ truth_text value }
{
    if value { b"true" } else { b"false" }
}

fn ids(list: &Ids) -> &[u32]
    ensures { result.now ≡ list.now }
{
    list.0.as_slice()
}

fn end_line(out: &mut Vec<u8>) -> Result<(), NoMemory>
    ensures text { OnOk result (out.new.items ≡ line_of out.old.items) }
    ensures unchanged { OnErr result (out.new.items ≡ out.old.items) }
{
    Ok(out.push(b'\n')?)
}

#[tactic(auto, using(crate::proofs::Texts::line_facts))]
fn put_line<P: Pieces>(list: &P, out: &mut Vec<u8>) -> Result<(), NoMemory>
    ensures text { OnOk result (out.new.items ≡ out.old.items ++ line_of (spell (P.pieces list.now))) }
    ensures front { OnErr result (Begins out.old.items out.new.items) }
{
    list.put_all(out)?;
    end_line(out)
}

#[tactic(auto, using(crate::proofs::Texts::line_facts), unfolding(hp_model::specs::Text::line_text))]
fn put_entry(e: &Entry, out: &mut Vec<u8>) -> Result<(), NoMemory>
    ensures text { OnOk result (out.new.items ≡ out.old.items ++ line_text e.now) }
    ensures front { OnErr result (Begins out.old.items out.new.items) }
{
    put_actor(e.event, e.at, out)?;
    put_event(e.event, e.answer, out)?;
    end_line(out)
}

/// Where the writing of a line failed, cuts the vector back to the bytes that it held.
fn whole_line(written: Result<(), NoMemory>, held: usize, out: &mut Vec<u8>) -> Result<(), NoMemory>
    ensures answer { result ≡ written }
    ensures written { OnOk written (out.new.items ≡ out.old.items) }
    ensures cut { OnErr written (out.new.items ≡ take held out.old.items) }
{
    if written.is_err() {
        out.truncate(held);
    }
    written
}

/// Appends pieces as a line, or nothing.
#[tactic(auto, using(crate::proofs::Texts::line_facts))]
pub(crate) fn append_line<P: Pieces>(list: &P, out: &mut Vec<u8>) -> Result<(), NoMemory>
    ensures appended { OnOk result (out.new.items ≡ out.old.items ++ line_of (spell (P.pieces list.now))) }
    ensures no_memory { OnErr result (out.new.items ≡ out.old.items) }
{
    let held = out.len();
    let written = put_line(list, out);
    whole_line(written, held, out)
}

/// What is said of a TSEG of 48 MiB: only where there is none.
fn ext_word(ext_tseg: bool) -> &'static [u8]
    ensures { result.now ≡ spell (ext_pieces ext_tseg) }
{
    if ext_tseg { b"" } else { b" ext=false" }
}

/// What is said of x2APIC: only where there is it.
fn x2apic_word(x2apic: bool) -> &'static [u8]
    ensures { result.now ≡ spell (x2apic_pieces x2apic) }
{
    if x2apic { b" x2apic=true" } else { b"" }
}

fn put_front(p: &Platform, out: &mut Vec<u8>) -> Result<(), NoMemory>
    ensures text { OnOk result (out.new.items ≡ out.old.items ++ spell (front_pieces p.now)) }
    ensures front { OnErr result (Begins out.old.items out.new.items) }
{
    pieces!(
        Word(b"platform apic="),
        Numbers(ids(&p.apic)),
        Word(b" boot="),
        Numbers(ids(&p.boot)),
        Word(b" low="),
        Hex8(p.low_memory),
        Word(b" tseg="),
        Number(p.tseg_mib as u64),
        Word(ext_word(p.ext_tseg)),
        Word(b" features="),
        Number(p.features),
        Word(b" polls="),
        Number(p.polls as u64),
        Word(b" turns="),
        Number(p.turns as u64),
        Word(b" modern="),
        Word(truth(p.modern)),
        Word(b" smram="),
        Word(truth(p.default_smram))
    )
    .put_all(out)
}

fn put_delivery(delivery: Delivery, out: &mut Vec<u8>) -> Result<(), NoMemory>
    ensures text { OnOk result (out.new.items ≡ out.old.items ++ spell (delivery_pieces delivery)) }
    ensures front { OnErr result (Begins out.old.items out.new.items) }
{
    match delivery {
        Delivery::Prompt => pieces!(Word(b" delivery=prompt")).put_all(out),
        Delivery::Late { lag } => pieces!(Word(b" delivery=late lag="), Number(lag as u64)).put_all(
            out,
        ),
    }
}

#[tactic(auto, using(crate::proofs::Texts::front_facts))]
fn put_head(p: &Platform, out: &mut Vec<u8>) -> Result<(), NoMemory>
    ensures text { OnOk result (out.new.items ≡ out.old.items ++ head_text p.now) }
    ensures front { OnErr result (Begins out.old.items out.new.items) }
{
    put_front(p, out)?;
    put_delivery(p.delivery, out)?;
    pieces!(Word(x2apic_word(p.x2apic))).put_all(out)?;
    end_line(out)
}

/// Appends the header, which names the platform. Takes any platform, one that doesn't fit too.
#[tactic(auto, using(crate::proofs::Texts::line_facts))]
pub fn head(p: &Platform, out: &mut Vec<u8>) -> Result<(), NoMemory>
    ensures appended { OnOk result (out.new.items ≡ out.old.items ++ head_text p.now) }
    ensures no_memory { OnErr result (out.new.items ≡ out.old.items) }
{
    let held = out.len();
    let written = put_head(p, out);
    whole_line(written, held, out)
}

/// Appends the line of an entry. Takes any entry: where a step shows a value and the answer has none, the value is 0.
#[tactic(auto, using(crate::proofs::Texts::line_facts))]
pub fn line(e: &Entry, out: &mut Vec<u8>) -> Result<(), NoMemory>
    ensures appended { OnOk result (out.new.items ≡ out.old.items ++ line_text e.now) }
    ensures no_memory { OnErr result (out.new.items ≡ out.old.items) }
{
    let held = out.len();
    let written = put_entry(e, out);
    whole_line(written, held, out)
}

/// Appends the end line, which counts the entries.
#[tactic(auto, unfolding(hp_model::specs::Text::end_text))]
pub fn end(entries: u64, out: &mut Vec<u8>) -> Result<(), NoMemory>
    ensures appended { OnOk result (out.new.items ≡ out.old.items ++ end_text entries) }
    ensures no_memory { OnErr result (out.new.items ≡ out.old.items) }
{
    append_line(&pieces!(Word(b"end "), Number(entries)), out)
}
