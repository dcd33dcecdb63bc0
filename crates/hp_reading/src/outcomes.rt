//! Told outcomes, read from their text.

ghost use Rattle.std.specs.Prelude.{◌≡◌, None, codes, option_map};
ghost use Rattle.hp_model.specs.declared.outcomes.Outcome.TheVariants as outcome;
ghost use Rattle.hp_reading.specs.Forms.{past as text_past};
ghost use Rattle.hp_reading.specs.Lines.{of_add, of_status, of_insert, of_eject, outcome_of as text_outcome};

use crate::fronts::past;
use crate::groups::{three_decimals, two_decimals, with_status};
use hp_model::{Outcome, Refusal};

fn refused(refusal: Refusal) -> Option<Outcome>
    ensures { result ≡ Some (outcome.Refused refusal) }
{
    Some(Outcome::Refused(refusal))
}

/// An outcome that says more of a firmware eject.
#[tactic(auto, unfolding(crate::specs::Lines::of_eject))]
fn eject(text: &[u8]) -> Option<Outcome>
    ensures { result ≡ of_eject text.now }
{
    if let Some(rest) = past(text, b"nounplug ") {
        let (cpu, features) = two_decimals(rest, 0xffffffffffffffff)?;
        return refused(Refusal::NoUnplug { cpu, features });
    }
    if let Some(rest) = past(text, b"notknown ") {
        let (cpu, apic) = two_decimals(rest, 0xffffffff)?;
        return refused(Refusal::NotKnown {
            cpu,
            apic: apic as u32,
        });
    }
    if let Some(rest) = past(text, b"notarrived ") {
        let (cpu, apic) = two_decimals(rest, 0xffffffff)?;
        return refused(Refusal::NotArrived {
            cpu,
            apic: apic as u32,
        });
    }
    if let Some(rest) = past(text, b"notparked ") {
        let (cpu, apic) = two_decimals(rest, 0xffffffff)?;
        return refused(Refusal::NotParked {
            cpu,
            apic: apic as u32,
        });
    }
    if let Some(rest) = past(text, b"foreign ") {
        let (cpu, apic) = two_decimals(rest, 0xffffffff)?;
        return refused(Refusal::Foreign {
            cpu,
            apic: apic as u32,
        });
    }
    None
}

/// One that refuses an insert event, or else one of a firmware eject.
#[tactic(auto, unfolding(crate::specs::Lines::of_insert, crate::specs::Forms::past))]
fn insert(text: &[u8]) -> Option<Outcome>
    ensures { result ≡ of_insert text.now }
{
    if let Some(rest) = past(text, b"alreadyknown ") {
        let (cpu, apic, slot) = three_decimals(rest)?;
        return refused(Refusal::AlreadyKnown { cpu, apic, slot });
    }
    if let Some(rest) = past(text, b"gateheld ") {
        let (cpu, apic, held) = three_decimals(rest)?;
        return refused(Refusal::GateHeld { cpu, apic, held });
    }
    if let Some(rest) = past(text, b"notatgate ") {
        let (cpu, apic) = two_decimals(rest, 0xffffffff)?;
        return refused(Refusal::NotAtGate {
            cpu,
            apic: apic as u32,
        });
    }
    if let Some(rest) = past(text, b"notcheckedin ") {
        let (cpu, apic) = two_decimals(rest, 0xffffffff)?;
        return refused(Refusal::NotCheckedIn {
            cpu,
            apic: apic as u32,
        });
    }
    eject(text)
}

/// The outcome whose text this is.
#[tactic(auto, unfolding(crate::specs::Lines::outcome_of))]
pub fn outcome_of(text: &[u8]) -> Option<Outcome>
    ensures { result ≡ text_outcome text.now }
{
    if let Some(rest) = past(text, b"added ") {
        let (cpu, apic, slot) = three_decimals(rest)?;
        return Some(Outcome::Added { cpu, apic, slot });
    }
    if let Some(rest) = past(text, b"ejected ") {
        let (cpu, apic, slot) = three_decimals(rest)?;
        return Some(Outcome::Ejected { cpu, apic, slot });
    }
    if let Some(rest) = past(text, b"disabled ") {
        let (cpu, status) = with_status(rest)?;
        return refused(Refusal::Disabled { cpu, status });
    }
    if let Some(rest) = past(text, b"both ") {
        let (cpu, status) = with_status(rest)?;
        return refused(Refusal::Both { cpu, status });
    }
    if let Some(rest) = past(text, b"stillpending ") {
        let (cpu, status) = with_status(rest)?;
        return refused(Refusal::StillPending { cpu, status });
    }
    insert(text)
}
