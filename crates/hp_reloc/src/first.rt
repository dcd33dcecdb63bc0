//! The first handler, at the default SMBASE (own rule): a processor passes the gate, takes the SMBASE that lies there, and sends
//! itself an SMI, which leads it to its own handler once it leaves.

ghost use Rattle.std.specs.Prelude.{◌≡◌, ℕ, ◌≤◌, true, Some};
ghost use Rattle.hp_model.specs.Block.{is_in};
ghost use Rattle.hp_model.specs.Boot.{value_in};
ghost use Rattle.hp_model.specs.Handlers.{next_at, want_at};
ghost use Rattle.hp_model.specs.declared.labels.Handler.TheVariants.{First};
ghost use Rattle.hp_model.specs.Labels.{handler_of};
ghost use Rattle.hp_model.specs.Monarch.{Monarch};
ghost use Rattle.hp_model.specs.Platform.{IsFit, high_half, greatest_id};
ghost use Rattle.hp_model.specs.SharedBytes.{Layout};
ghost use Rattle.hp_reloc.specs.Fits.{FitsFirst};

use hp_model::{
    Access, Answer, CLOSED, DEFAULT_SMBASE_FIELD, FLAG, GATE, Label, NEW_SMBASE, Platform, Want,
};

/// The low half of an interrupt command that is an SMI to one APIC ID.
pub const SMI: u32 = 0x200;

/// The high half of an interrupt command to this APIC ID: bits 31 to 24, or under x2APIC all of it.
pub fn destination(x2apic: bool, apic: u32) -> u32
    requires { apic ≤ greatest_id x2apic }
    ensures { result ≡ high_half x2apic apic }
{
    if x2apic { apic } else { apic * 0x1000000 }
}

/// What the processor of this APIC ID wants at a label of the first handler. `base` is the SMBASE that it has loaded.
#[tactic(auto, using(hp_model::proofs::FitPlatforms::possible_small))]
pub fn first_want(p: &Platform, label: Label, apic: u32, base: u32) -> Want
    requires fit { IsFit p.now }
    requires first { handler_of label ≡ First }
    requires possible { is_in apic p.now.apic ≡ true }
    ensures { (y : Layout) (slot : ℕ) (r : Monarch) → y.x2apic ≡ p.now.x2apic →
        want_at y (record { apic = apic; slot = slot; base = base }) r label ≡ Some result }
{
    first_want_by(p.x2apic, label, apic, base)
}

/// The same, by whether APIC IDs have 32 bits.
pub fn first_want_by(x2apic: bool, label: Label, apic: u32, base: u32) -> Want
    requires first { handler_of label ≡ First }
    requires apic { apic ≤ greatest_id x2apic }
    ensures { (y : Layout) (slot : ℕ) (r : Monarch) → y.x2apic ≡ x2apic →
        want_at y (record { apic = apic; slot = slot; base = base }) r label ≡ Some result }
{
    let access = match label {
        Label::F1 => Access::Swap {
            addr: GATE,
            expected: u64::from(apic),
            desired: CLOSED,
        },
        Label::F2 => Access::Load {
            addr: NEW_SMBASE,
            width: 4,
        },
        Label::F3 => Access::Store {
            addr: DEFAULT_SMBASE_FIELD,
            width: 4,
            value: u64::from(base),
        },
        Label::F4 => Access::store_byte(FLAG, 1),
        Label::F5 => Access::Icr {
            high: destination(x2apic, apic),
            low: SMI,
        },
        Label::F6 => return Want::Resume,
        _ => unreachable!(),
    };
    Want::Do(access)
}

/// Where the answer leads: the next label of the first handler, and the base from there on. Who isn't at the gate stays at F1.
pub fn first_next(label: Label, apic: u32, base: u32, answer: Answer) -> (Label, u32)
    requires first { handler_of label ≡ First }
    requires fits { FitsFirst label apic base answer }
    ensures { (y : Layout) (slot : ℕ) (r : Monarch) →
        next_at y (record { apic = apic; slot = slot; base = base }) r label (value_in answer) ≡ record { label = result.0; base = result.1; monarch = r } }
{
    let value = answer.value();
    match label {
        Label::F1 if value == u64::from(apic) => (Label::F2, base),
        Label::F1 => (Label::F1, base),
        Label::F2 => (Label::F3, value as u32),
        Label::F3 => (Label::F4, base),
        Label::F4 => (Label::F5, base),
        Label::F5 | Label::F6 => (Label::F6, base),
        _ => unreachable!(),
    }
}
