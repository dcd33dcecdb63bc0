//! What becomes of a report.

ghost use Rattle.std.specs.Prelude.{◌≡◌, ◌<◌, true, slice_index_or};
ghost use Rattle.hp_model.specs.Monarch.{decision as decision_at, eject_decision, insert_decision, is_own, refuses};
ghost use Rattle.hp_model.specs.Slots.{is_known, slot_among};
ghost use Rattle.hp_monarch.specs.Session.{facts_by};

use hp_model::{Decision, Facts, Outcome, Refusal, Report};
use hp_reloc::Slots;

/// Status bit 0: the processor is enabled.
const ENABLED: u8 = 0x01;
/// Status bit 1: an insert event.
const INSERTED: u8 = 0x02;
/// An insert event and a firmware eject, status bit 4, at once.
const BOTH: u8 = 0x12;
/// Feature bit 2: hot-unplug.
const UNPLUG: u64 = 0x04;
/// What stands for a byte that wasn't read in this session. A byte that is read as 2 counts as not read.
pub const UNREAD: u8 = 2;

/// What was last read of this slot's byte.
fn look_at(last: &[u8], slot: u32) -> u8
    ensures { result ≡ slice_index_or last.now slot 2 }
{
    last.get(slot as usize).copied().unwrap_or(UNREAD)
}

/// The slot of an APIC ID among those bound, and their number where it isn't bound.
#[tactic(auto, using(crate::proofs::Adds::place_facts))]
pub fn bound_slot(slots: &Slots, apic: u32) -> u32
    ensures value { result ≡ slot_among slots.now.slots.bound apic }
    ensures known { is_known slots.now.slots apic ≡ true → result < 512 }
{
    slots.bound(apic).unwrap_or(slots.count())
}

/// What the monarch knows of a report, by its slots, what it last read of their arrived bytes, and the negotiated features.
pub fn gather(slots: &Slots, last: &[u8], features: u64, report: Report) -> Facts
    ensures { result ≡ facts_by slots.now last.now features report }
{
    let slot = bound_slot(slots, report.apic);
    Facts {
        own: has_own_id(slots, report),
        known: slots.known(report.apic),
        slot,
        held: slots.held(),
        features,
        look: look_at(last, slot),
    }
}

/// Whether its APIC ID is that of its processor, and that isn't processor 0.
fn has_own_id(slots: &Slots, report: Report) -> bool
    ensures { result ≡ is_own slots.now.possible report }
{
    report.cpu != 0 && slots.id_of(report.cpu) == Some(report.apic)
}

/// A refusal is told.
fn refuse(why: Refusal) -> Decision
    ensures { result ≡ refuses why }
{
    Decision::Tell(Outcome::Refused(why))
}

/// A report of a processor with an insert event. While another APIC ID is held, none is added.
fn insert(facts: Facts, report: Report) -> Decision
    ensures { result ≡ insert_decision facts report }
{
    let Report { cpu, apic, .. } = report;
    if facts.known {
        let slot = facts.slot;
        return refuse(Refusal::AlreadyKnown { cpu, apic, slot });
    }
    match facts.held {
        Some(held) if held != apic => refuse(Refusal::GateHeld { cpu, apic, held }),
        _ => Decision::Add,
    }
}

/// A report of a processor with a firmware eject.
fn eject(facts: Facts, report: Report) -> Decision
    ensures { result ≡ eject_decision facts report }
{
    let Report { cpu, apic, .. } = report;
    let features = facts.features;
    if features & UNPLUG != UNPLUG {
        return refuse(Refusal::NoUnplug { cpu, features });
    }
    if !facts.known {
        return refuse(Refusal::NotKnown { cpu, apic });
    }
    if facts.look == 0 {
        return refuse(Refusal::NotArrived { cpu, apic });
    }
    Decision::Eject
}

/// What becomes of this report: each has an answer. One whose APIC ID isn't its processor's, one of a processor that isn't enabled, and
/// one with an insert event and a firmware eject at once are refused, in this order.
pub fn judge(facts: Facts, report: Report) -> Decision
    ensures { result ≡ decision_at facts report }
{
    let Report { cpu, status, apic } = report;
    if !facts.own {
        return refuse(Refusal::Foreign { cpu, apic });
    }
    if status & ENABLED != ENABLED {
        return refuse(Refusal::Disabled { cpu, status });
    }
    if status & BOTH == BOTH {
        return refuse(Refusal::Both { cpu, status });
    }
    if status & INSERTED == INSERTED {
        insert(facts, report)
    } else {
        eject(facts, report)
    }
}
