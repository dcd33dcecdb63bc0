//! What the monarch tells, as text.

ghost use Rattle.std.specs.Prelude.{◌≡◌, ◌++◌, OnErr, OnOk};
ghost use Rattle.hp_model.specs.Text.{outcome_pieces, refusal_pieces, spell, three, two, with_status};
ghost use Rattle.hp_trace.specs.Pieces.{Begins};

use crate::pieces::{Hex2, Number, Pieces, Word, pieces};
use hp_model::{NoMemory, Outcome, Refusal};

fn put_two(name: &[u8], cpu: u32, second: u64, out: &mut Vec<u8>) -> Result<(), NoMemory>
    ensures text { OnOk result (out.new.items ≡ out.old.items ++ spell (two name.now cpu second)) }
    ensures front { OnErr result (Begins out.old.items out.new.items) }
{
    pieces!(Word(name), Number(cpu as u64), Word(b" "), Number(second)).put_all(out)
}

fn put_three(
    name: &[u8],
    cpu: u32,
    apic: u32,
    third: u32,
    out: &mut Vec<u8>,
) -> Result<(), NoMemory>
    ensures text { OnOk result (out.new.items ≡ out.old.items ++ spell (three name.now cpu apic third)) }
    ensures front { OnErr result (Begins out.old.items out.new.items) }
{
    pieces!(
        Word(name),
        Number(cpu as u64),
        Word(b" "),
        Number(apic as u64),
        Word(b" "),
        Number(third as u64)
    )
    .put_all(out)
}

fn put_with_status(name: &[u8], cpu: u32, status: u8, out: &mut Vec<u8>) -> Result<(), NoMemory>
    ensures text { OnOk result (out.new.items ≡ out.old.items ++ spell (with_status name.now cpu status)) }
    ensures front { OnErr result (Begins out.old.items out.new.items) }
{
    pieces!(Word(name), Number(cpu as u64), Word(b" "), Hex2(status)).put_all(out)
}

fn put_refusal(refusal: Refusal, out: &mut Vec<u8>) -> Result<(), NoMemory>
    ensures text { OnOk result (out.new.items ≡ out.old.items ++ spell (refusal_pieces refusal)) }
    ensures front { OnErr result (Begins out.old.items out.new.items) }
{
    match refusal {
        Refusal::Disabled { cpu, status } => put_with_status(b"disabled ", cpu, status, out),
        Refusal::Both { cpu, status } => put_with_status(b"both ", cpu, status, out),
        Refusal::AlreadyKnown { cpu, apic, slot } => put_three(
            b"alreadyknown ",
            cpu,
            apic,
            slot,
            out,
        ),
        Refusal::GateHeld { cpu, apic, held } => put_three(b"gateheld ", cpu, apic, held, out),
        Refusal::NotAtGate { cpu, apic } => put_two(b"notatgate ", cpu, apic as u64, out),
        Refusal::NotCheckedIn { cpu, apic } => put_two(b"notcheckedin ", cpu, apic as u64, out),
        Refusal::NoUnplug { cpu, features } => put_two(b"nounplug ", cpu, features, out),
        Refusal::NotKnown { cpu, apic } => put_two(b"notknown ", cpu, apic as u64, out),
        Refusal::NotArrived { cpu, apic } => put_two(b"notarrived ", cpu, apic as u64, out),
        Refusal::NotParked { cpu, apic } => put_two(b"notparked ", cpu, apic as u64, out),
        Refusal::Foreign { cpu, apic } => put_two(b"foreign ", cpu, apic as u64, out),
        Refusal::StillPending { cpu, status } => put_with_status(
            b"stillpending ",
            cpu,
            status,
            out,
        ),
    }
}

/// Appends an outcome.
pub fn put_outcome(outcome: Outcome, out: &mut Vec<u8>) -> Result<(), NoMemory>
    ensures text { OnOk result (out.new.items ≡ out.old.items ++ spell (outcome_pieces outcome)) }
    ensures front { OnErr result (Begins out.old.items out.new.items) }
{
    match outcome {
        Outcome::Added { cpu, apic, slot } => put_three(b"added ", cpu, apic, slot, out),
        Outcome::Ejected { cpu, apic, slot } => put_three(b"ejected ", cpu, apic, slot, out),
        Outcome::Refused(refusal) => put_refusal(refusal, out),
    }
}
