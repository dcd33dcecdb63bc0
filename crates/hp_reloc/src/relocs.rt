//! An add (own rule): one processor is led from the default SMBASE to the tile of its slot.

ghost use Rattle.std.specs.Prelude.{◌≡◌, ◌≢◌, ◌↔◌, ◌<◌, ◌≤◌, ◌+◌, ◌*◌, Some, None};
ghost use Rattle.hp_model.specs.declared.labels.Label.{Label};
ghost use Rattle.hp_model.specs.declared.labels.Label.TheVariants.{NB};
ghost use Rattle.hp_model.specs.declared.accesses.Access.TheVariants as accesses;
ghost use Rattle.hp_model.specs.declared.accesses.Want.TheVariants as wants;
ghost use Rattle.hp_model.specs.declared.outcomes.Step.TheVariants as steps;
ghost use Rattle.hp_model.specs.declared.outcomes.Outcome.TheVariants as outcomes;
ghost use Rattle.hp_model.specs.Add.{AddsAt, add_of, begun, failed, looks, saw_arrival, saw_flag, saw_pair, shut};
ghost use Rattle.hp_model.specs.Bare.{layout_at};
ghost use Rattle.hp_model.specs.Boot.{value_in};
ghost use Rattle.hp_model.specs.Handlers.{Seat, next_at, want_at};
ghost use Rattle.hp_model.specs.Monarch.{Monarch, after_add};
ghost use Rattle.hp_model.specs.Platform.{IsFit, high_half, tseg as first_of_tseg, greatest_id};
ghost use Rattle.hp_model.specs.SharedBytes.{Layout, arrived_byte as arrived_byte_of, gate, release_byte as release_byte_of, tile_in};
ghost use Rattle.hp_reloc.specs.Relocating.{Fits, IsGoing, IsOfAdd, add_in, at_next, label_of, outcome_of, step_of};

use crate::first::{SMI, destination};
use crate::rows::Row;
use crate::standing::Standing;
use hp_model::{
    Access, Answer, CLOSED, FLAG, GATE, Label, NEW_SMBASE, Outcome, Platform, Refusal, Step,
    arrived_byte, release_byte, tile_at, tseg,
};
use std::marker::Model;

/// The low half of an interrupt command that is an INIT to one APIC ID.
const INIT: u32 = 0x500;
/// The low half of a SIPI to one APIC ID, which names the page of the pen, 9f.
const SIPI: u32 = 0x69f;
/// How many attempts there are.
const ATTEMPTS: u32 = 3;

/// The add of one processor: what it wants next, and where each answer leads.
#[derive(Drop)]
pub struct Reloc {
    /// The first address of TSEG.
    tseg: u32,
    /// How often a byte is looked at, at most.
    polls: u32,
    /// Whether APIC IDs have 32 bits.
    x2apic: bool,
    /// The place of the processor.
    cpu: u32,
    /// Its APIC ID.
    apic: u32,
    /// The slot of its APIC ID.
    slot: u32,
    /// From 1 to 3; 0 before the first attempt.
    attempt: u32,
    /// Looks left: pairs of flag and arrived byte while the gate is open, arrived bytes after that.
    left: u32,
    /// Whether one of them was 1 while the gate was open.
    seen: bool,
    standing: Standing,
}

impl Model for Reloc {
    ghost use Rattle.hp_model.specs.Add.{Add};
    ghost use Rattle.hp_reloc.specs.Relocating.{Relocating};

    ghost Value = { Relocating };

    ghost use Rattle.hp_reloc.specs.Relocating.{IsSmall, next_of};

    ghost view = { λ r.
        let a : Add = record { cpu = r.cpu; apic = r.apic; slot = r.slot; attempt = r.attempt; polls = r.left; seen = r.seen } in
        record { tseg = r.tseg; polls = r.polls; x2apic = r.x2apic; add = a; next = next_of r.standing a } };

    ghost invariant = { λ r. IsSmall r.tseg r.x2apic r.apic r.slot r.attempt r.standing };
}

/// Opens the gate for an APIC ID, or closes it.
fn store_gate(value: u64) -> Access
    ensures { result ≡ accesses.Store gate 8 value }
{
    Access::Store {
        addr: GATE,
        width: 8,
        value,
    }
}

impl Reloc {
    /// The add of the processor in place `cpu`, whose APIC ID is `apic`, to the tile of `slot`, below 512. It begins at NB. Takes no memory.
    #[tactic(auto, using(hp_model::proofs::FitPlatforms::tseg_below))]
    pub fn new(p: &Platform, cpu: u32, apic: u32, slot: u32) -> Reloc
        requires fit { IsFit p.now }
        requires apic { apic ≤ greatest_id p.now.x2apic }
        requires slot { slot < 512 }
        ensures tseg { result.tseg ≡ first_of_tseg p.now }
        ensures polls { result.polls ≡ p.now.polls }
        ensures x2apic { result.x2apic ≡ p.now.x2apic }
        ensures add { result.add ≡ add_of cpu apic slot }
        ensures next { result.next ≡ AddsAt NB (add_of cpu apic slot) }
    {
        Reloc {
            tseg: tseg(p),
            polls: p.polls,
            x2apic: p.x2apic,
            cpu,
            apic,
            slot,
            attempt: 0,
            left: 0,
            seen: false,
            standing: Standing::At(Row::NB),
        }
    }

    /// Another add begins, as after `new`.
    pub fn restart(&mut self, cpu: u32, apic: u32, slot: u32)
        requires apic { apic ≤ greatest_id self.old.x2apic }
        requires slot { slot < 512 }
        ensures { self.new ≡ record self.old { add = add_of cpu apic slot; next = AddsAt NB (add_of cpu apic slot) } }
    {
        self.cpu = cpu;
        self.apic = apic;
        self.slot = slot;
        self.attempt = 0;
        self.left = 0;
        self.seen = false;
        self.standing = Standing::At(Row::NB);
    }

    /// Its outcome: none while it goes on.
    pub fn outcome(&self) -> Option<Outcome>
        ensures value { result ≡ outcome_of self.now.next }
        ensures going { (result ≡ None) ↔ IsGoing self.now.next }
    {
        match self.standing {
            Standing::At(_) => None,
            Standing::Ended(outcome) => Some(outcome),
        }
    }

    /// Where it stands, while it goes on.
    fn row(&self) -> Row
        requires { IsGoing self.now.next }
        ensures { self.now.next ≡ AddsAt (label_of result) self.now.add }
    {
        match self.standing {
            Standing::At(row) => row,
            Standing::Ended(_) => unreachable!(),
        }
    }

    /// The label where it stands, while it goes on.
    pub fn label(&self) -> Label
        requires { IsGoing self.now.next }
        ensures value { self.now.next ≡ AddsAt result self.now.add }
        ensures adds { IsOfAdd result }
    {
        self.row().label()
    }

    /// The slot of its APIC ID.
    pub fn slot(&self) -> u32
        ensures value { result ≡ self.now.add.slot }
        ensures below { result < 512 }
    {
        self.slot
    }

    /// The arrived byte of its slot.
    fn arrived(&self) -> u32
        ensures { result ≡ arrived_byte_of (layout_at self.now.tseg) self.now.add.slot }
    {
        arrived_byte(self.tseg, self.slot)
    }

    /// The release byte of its slot.
    fn release(&self) -> u32
        ensures { result ≡ release_byte_of (layout_at self.now.tseg) self.now.add.slot }
    {
        release_byte(self.tseg, self.slot)
    }

    /// The first address of the tile of its slot.
    fn tile(&self) -> u32
        ensures { result ≡ tile_in (layout_at self.now.tseg) self.now.add.slot }
    {
        tile_at(self.tseg, self.slot)
    }

    /// An interrupt command to its APIC ID.
    fn send(&self, low: u32) -> Access
        ensures { result ≡ accesses.Icr (high_half self.now.x2apic self.now.add.apic) low }
    {
        Access::Icr {
            high: destination(self.x2apic, self.apic),
            low,
        }
    }

    /// What it wants where it stands, while it goes on.
    pub fn want(&self) -> Access
        requires { IsGoing self.now.next }
        ensures { (y : Layout) (x : Seat) (r : Monarch) (l : Label) → y.tseg ≡ self.now.tseg → y.x2apic ≡ self.now.x2apic →
            self.now.next ≡ AddsAt l r.add → want_at y x r l ≡ Some (wants.Do result) }
    {
        match self.row() {
            Row::NB => Access::store_byte(self.release(), 0),
            Row::N0 | Row::N10 => Access::store_byte(self.arrived(), 0),
            Row::N1 => Access::store_byte(FLAG, 0),
            Row::N2 => Access::Store {
                addr: NEW_SMBASE,
                width: 4,
                value: u64::from(self.tile()),
            },
            Row::N3 => self.send(SMI),
            Row::N4 => self.send(INIT),
            Row::N5 | Row::N6 => self.send(SIPI),
            Row::N7 => store_gate(u64::from(self.apic)),
            Row::N8a => Access::load_byte(FLAG),
            Row::N8b | Row::N11 => Access::load_byte(self.arrived()),
            Row::N9 => store_gate(CLOSED),
        }
    }

    /// On at this row.
    fn go_to(&mut self, row: Row)
        ensures { self.new ≡ at_next (AddsAt (label_of row) self.old.add) self.old }
    {
        self.standing = Standing::At(row);
    }

    /// The first attempt begins.
    fn begin(&mut self)
        ensures { self.new ≡ at_next (begun self.old.add) self.old }
    {
        self.attempt = 1;
        self.go_to(Row::N0);
    }

    /// From this row on bytes are looked at.
    fn look_from(&mut self, row: Row)
        ensures { self.new ≡ at_next (looks (label_of row) self.old.polls self.old.add) self.old }
    {
        self.left = self.polls;
        self.go_to(row);
    }

    /// An attempt has failed: the next one begins, and the third ends the add.
    fn fail(&mut self, why: Refusal)
        ensures { self.new ≡ at_next (failed (outcomes.Refused why) self.old.add) self.old }
    {
        if self.attempt < ATTEMPTS {
            self.attempt += 1;
            self.go_to(Row::N0);
        } else {
            self.standing = Standing::Ended(Outcome::Refused(why));
        }
    }

    /// The flag was read, first of a pair.
    fn see_flag(&mut self, flag: u64)
        ensures { self.new ≡ at_next (saw_flag flag self.old.add) self.old }
    {
        if flag == 1 {
            self.seen = true;
            self.go_to(Row::N9);
        } else {
            self.go_to(Row::N8b);
        }
    }

    /// The arrived byte was read, second of a pair.
    fn see_pair(&mut self, arrived: u64)
        ensures { self.new ≡ at_next (saw_pair arrived self.old.add) self.old }
    {
        if arrived == 1 || self.left <= 1 {
            self.seen = arrived == 1;
            self.go_to(Row::N9);
        } else {
            self.left -= 1;
            self.go_to(Row::N8a);
        }
    }

    /// The gate is closed again.
    fn shut(&mut self)
        ensures { self.new ≡ at_next (shut self.old.add) self.old }
    {
        if self.seen {
            self.go_to(Row::N10);
        } else {
            self.fail(Refusal::NotAtGate {
                cpu: self.cpu,
                apic: self.apic,
            });
        }
    }

    /// The arrived byte was read after it was cleared.
    fn see_arrival(&mut self, arrived: u64)
        ensures { self.new ≡ at_next (saw_arrival arrived self.old.add) self.old }
    {
        if arrived == 1 {
            self.standing = Standing::Ended(Outcome::Added {
                cpu: self.cpu,
                apic: self.apic,
                slot: self.slot,
            });
        } else if self.left <= 1 {
            self.fail(Refusal::NotCheckedIn {
                cpu: self.cpu,
                apic: self.apic,
            });
        } else {
            self.left -= 1;
            self.go_to(Row::N11);
        }
    }

    /// What its last answer led to.
    fn step(&self) -> Step
        ensures step { result ≡ step_of self.now.next }
        ensures of_add { result ≢ steps.Ejected }
    {
        match self.standing {
            Standing::At(_) => Step::Go,
            Standing::Ended(Outcome::Added { .. }) => Step::Added,
            Standing::Ended(Outcome::Ejected { .. }) => unreachable!(),
            Standing::Ended(Outcome::Refused(why)) => Step::Refused(why),
        }
    }

    /// The answer to what it wants, while it goes on, and where it leads: `Added` or `Refused` ends the add, and `Ejected` never
    /// comes. A byte that is neither 0 nor 1 counts as 0.
    pub fn feed(&mut self, answer: Answer) -> Step
        requires { Fits self.old.tseg self.old.x2apic self.old.next answer }
        ensures next { (y : Layout) (x : Seat) (r : Monarch) (l : Label) → y.polls ≡ self.old.polls →
            self.old.next ≡ AddsAt l r.add → (next_at y x r l (value_in answer)).monarch
            ≡ record (after_add self.new.next r) { last = (next_at y x r l (value_in answer)).monarch.last } }
        ensures add { self.new.add ≡ add_in self.new.next self.old.add }
        ensures slot { self.new.add.slot ≡ self.old.add.slot }
        ensures step { result ≡ step_of self.new.next }
        ensures of_add { result ≢ steps.Ejected }
        ensures stays { (self.new.tseg ≡ self.old.tseg) × ((self.new.polls ≡ self.old.polls) × (self.new.x2apic ≡ self.old.x2apic)) }
    {
        let value = answer.value();
        match self.row() {
            Row::NB => self.begin(),
            Row::N0 => self.go_to(Row::N1),
            Row::N1 => self.go_to(Row::N2),
            Row::N2 => self.go_to(Row::N3),
            Row::N3 => self.go_to(Row::N4),
            Row::N4 => self.go_to(Row::N5),
            Row::N5 => self.go_to(Row::N6),
            Row::N6 => self.go_to(Row::N7),
            Row::N7 => self.look_from(Row::N8a),
            Row::N8a => self.see_flag(value),
            Row::N8b => self.see_pair(value),
            Row::N9 => self.shut(),
            Row::N10 => self.look_from(Row::N11),
            Row::N11 => self.see_arrival(value),
        }
        self.step()
    }
}
