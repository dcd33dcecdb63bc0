//! An eject (own rule): one processor parks in its handler, and the register block ejects it. The registers are those of QEMU's
//! "acpi cpu hotplug" register block.

ghost use Rattle.std.specs.Prelude.{◌≡◌, ◌≢◌, ◌↔◌, ◌<◌, ◌≤◌, ◌+◌, Some, None, ℕ};
ghost use Rattle.hp_model.specs.declared.labels.Label.{Label};
ghost use Rattle.hp_model.specs.declared.labels.Label.TheVariants.{E0};
ghost use Rattle.hp_model.specs.declared.accesses.Want.TheVariants as wants;
ghost use Rattle.hp_model.specs.declared.outcomes.Step.TheVariants as steps;
ghost use Rattle.hp_model.specs.declared.outcomes.Outcome.TheVariants as outcomes;
ghost use Rattle.hp_model.specs.Bare.{layout_at};
ghost use Rattle.hp_model.specs.Boot.{value_in};
ghost use Rattle.hp_model.specs.Eject.{Eject as AnEject, EjectEnds, EjectsAt, awaits, eject_of, gone, handed_to_block, saw_parked, saw_status};
ghost use Rattle.hp_model.specs.Handlers.{Seat, by_record, next_at, want_at};
ghost use Rattle.hp_model.specs.Monarch.{Monarch, after_eject};
ghost use Rattle.hp_model.specs.Platform.{IsFit, is_late, tseg as first_of_tseg};
ghost use Rattle.hp_model.specs.SharedBytes.{Layout, arrived_byte as arrived_byte_of, map_byte as map_byte_of, parked_byte as parked_byte_of};
ghost use Rattle.hp_eject.specs.Ejecting.{Fits, IsGoing, IsOfEject, eject_in, at_next, label_of, outcome_of, step_of};

use crate::rows::Row;
use crate::standing::Standing;
use hp_model::{
    Access, Answer, Label, Outcome, Platform, Refusal, Step, arrived_byte, map_byte, parked_byte,
    tseg,
};
use std::marker::Model;

/// Selects the processor that control and status speak of: 4 bytes, written.
const SELECTOR: u16 = 0xcd8;
/// Control where it is written, status where it is read: 1 byte.
const CONTROL: u16 = 0xcdc;
/// Control bit 3 ejects the selected processor.
const EJECT: u32 = 0x08;
/// Status bit 4, a firmware eject that is pending.
const PENDING: u8 = 0x10;

/// The eject of one processor: what it wants next, and where each answer leads.
#[derive(Drop)]
pub struct Eject {
    /// The first address of TSEG.
    tseg: u32,
    /// How often the parked byte is looked at, at most.
    polls: u32,
    /// Whether SMIs may come late, so that others may move the selector.
    late: bool,
    /// The place of the processor.
    cpu: u32,
    /// Its APIC ID.
    apic: u32,
    /// The slot of its APIC ID.
    slot: u32,
    /// Looks left at its parked byte.
    left: u32,
    /// Its status byte, where the eject didn't go through.
    status: u8,
    standing: Standing,
}

impl Model for Eject {
    ghost use Rattle.hp_model.specs.Eject.{Eject};
    ghost use Rattle.hp_eject.specs.Ejecting.{Ejecting};

    ghost Value = { Ejecting };

    ghost use Rattle.hp_eject.specs.Ejecting.{IsSmall, next_of};

    ghost view = { λ e.
        let j : Eject = record { cpu = e.cpu; apic = e.apic; slot = e.slot; polls = e.left; status = e.status } in
        record { tseg = e.tseg; polls = e.polls; late = e.late; eject = j; next = next_of e.standing j } };

    ghost invariant = { λ e. IsSmall e.tseg e.slot e.standing };
}

impl Eject {
    /// The eject of the processor in place `cpu`, whose APIC ID is `apic` and has `slot`, below 512. It begins at E0. Takes no memory.
    #[tactic(auto, using(hp_model::proofs::FitPlatforms::tseg_below))]
    pub fn new(p: &Platform, cpu: u32, apic: u32, slot: u32) -> Eject
        requires fit { IsFit p.now }
        requires slot { slot < 512 }
        ensures tseg { result.tseg ≡ first_of_tseg p.now }
        ensures polls { result.polls ≡ p.now.polls }
        ensures late { result.late ≡ is_late p.now.delivery }
        ensures eject { result.eject ≡ eject_of cpu apic slot }
        ensures next { result.next ≡ EjectsAt E0 (eject_of cpu apic slot) }
    {
        Eject {
            tseg: tseg(p),
            polls: p.polls,
            late: p.delivery.is_late(),
            cpu,
            apic,
            slot,
            left: 0,
            status: 0,
            standing: Standing::At(Row::E0),
        }
    }

    /// Another eject begins, as after `new`.
    pub fn restart(&mut self, cpu: u32, apic: u32, slot: u32)
        requires slot { slot < 512 }
        ensures { self.new ≡ record self.old { eject = eject_of cpu apic slot; next = EjectsAt E0 (eject_of cpu apic slot) } }
    {
        self.cpu = cpu;
        self.apic = apic;
        self.slot = slot;
        self.left = 0;
        self.status = 0;
        self.standing = Standing::At(Row::E0);
    }

    /// Its outcome: none while it goes on.
    pub fn outcome(&self) -> Option<Outcome>
        ensures value { result ≡ outcome_of self.now.next }
        ensures going { (result ≡ None) ↔ IsGoing self.now.next }
    {
        match self.standing {
            Standing::At(_) => None,
            Standing::Ended(outcome) => Some(outcome),
        }
    }

    /// Where it stands, while it goes on.
    fn row(&self) -> Row
        requires { IsGoing self.now.next }
        ensures { self.now.next ≡ EjectsAt (label_of result) self.now.eject }
    {
        match self.standing {
            Standing::At(row) => row,
            Standing::Ended(_) => unreachable!(),
        }
    }

    /// The label where it stands, while it goes on.
    pub fn label(&self) -> Label
        requires { IsGoing self.now.next }
        ensures value { self.now.next ≡ EjectsAt result self.now.eject }
        ensures ejects { IsOfEject result }
    {
        self.row().label()
    }

    /// The slot of its APIC ID.
    pub fn slot(&self) -> u32
        ensures value { result ≡ self.now.eject.slot }
        ensures below { result < 512 }
    {
        self.slot
    }

    /// The arrived byte of its slot.
    fn arrived(&self) -> u32
        ensures { result ≡ arrived_byte_of (layout_at self.now.tseg) self.now.eject.slot }
    {
        arrived_byte(self.tseg, self.slot)
    }

    /// The map byte of its slot.
    fn map(&self) -> u32
        ensures { result ≡ map_byte_of (layout_at self.now.tseg) self.now.eject.slot }
    {
        map_byte(self.tseg, self.slot)
    }

    /// The parked byte of its slot.
    fn parked(&self) -> u32
        ensures { result ≡ parked_byte_of (layout_at self.now.tseg) self.now.eject.slot }
    {
        parked_byte(self.tseg, self.slot)
    }

    /// What it wants where it stands, while it goes on.
    pub fn want(&self) -> Access
        requires { IsGoing self.now.next }
        ensures { (y : Layout) (x : Seat) (r : Monarch) (l : Label) → y.tseg ≡ self.now.tseg →
            self.now.next ≡ EjectsAt l r.eject → want_at y x r l ≡ Some (wants.Do result) }
    {
        match self.row() {
            Row::E0 | Row::E4e => Access::store_byte(self.parked(), 0),
            Row::E1 => Access::store_byte(self.map(), 1),
            Row::E2 => Access::load_byte(self.parked()),
            Row::E3 | Row::E4d | Row::E4h => Access::store_byte(self.map(), 0),
            Row::E4a | Row::E4f => Access::Out {
                port: SELECTOR,
                width: 4,
                value: self.cpu,
            },
            Row::E4b => Access::Out {
                port: CONTROL,
                width: 1,
                value: EJECT,
            },
            Row::E4c => Access::store_byte(self.arrived(), 0),
            Row::E4g => Access::In {
                port: CONTROL,
                width: 1,
            },
        }
    }

    /// On at this row.
    fn go_to(&mut self, row: Row)
        ensures { self.new ≡ at_next (EjectsAt (label_of row) self.old.eject) self.old }
    {
        self.standing = Standing::At(row);
    }

    /// It ends without an eject.
    fn refuse(&mut self, why: Refusal)
        ensures { self.new ≡ at_next (EjectEnds (outcomes.Refused why)) self.old }
    {
        self.standing = Standing::Ended(Outcome::Refused(why));
    }

    /// The processor is ejected, and its bytes are cleared.
    fn finish(&mut self)
        ensures { self.new ≡ at_next (gone self.old.eject) self.old }
    {
        self.standing = Standing::Ended(Outcome::Ejected {
            cpu: self.cpu,
            apic: self.apic,
            slot: self.slot,
        });
    }

    /// From here on the parked byte is looked at.
    fn await_parked(&mut self)
        ensures { self.new ≡ at_next (awaits self.old.polls self.old.eject) self.old }
    {
        self.left = self.polls;
        self.go_to(Row::E2);
    }

    /// The parked byte was read.
    fn see_parked(&mut self, parked: u64)
        ensures { self.new ≡ at_next (saw_parked parked self.old.eject) self.old }
    {
        if parked == 1 {
            self.go_to(Row::E4a);
        } else if self.left <= 1 {
            self.go_to(Row::E3);
        } else {
            self.left -= 1;
            self.go_to(Row::E2);
        }
    }

    /// Control was written. Under late delivery another processor may have been selected then.
    fn hand_over(&mut self)
        ensures { self.new ≡ at_next (EjectsAt (handed_to_block self.old.late) self.old.eject) self.old }
    {
        if self.late {
            self.go_to(Row::E4f);
        } else {
            self.go_to(Row::E4c);
        }
    }

    /// The status was read after that.
    fn see_status(&mut self, status: u8)
        ensures { self.new ≡ at_next (saw_status status self.old.eject) self.old }
    {
        if status & PENDING == PENDING {
            self.status = status;
            self.go_to(Row::E4h);
        } else {
            self.go_to(Row::E4c);
        }
    }

    /// What its last answer led to.
    fn step(&self) -> Step
        ensures step { result ≡ step_of self.now.next }
        ensures of_eject { result ≢ steps.Added }
    {
        match self.standing {
            Standing::At(_) => Step::Go,
            Standing::Ended(Outcome::Added { .. }) => unreachable!(),
            Standing::Ended(Outcome::Ejected { .. }) => Step::Ejected,
            Standing::Ended(Outcome::Refused(why)) => Step::Refused(why),
        }
    }

    /// The answer to what it wants, while it goes on, and where it leads: `Ejected` or `Refused` ends the eject, and `Added` never
    /// comes. A parked byte that is neither 0 nor 1 counts as 0.
    pub fn feed(&mut self, answer: Answer) -> Step
        requires { Fits self.old.tseg self.old.next answer }
        ensures next { (y : Layout) (x : Seat) (r : Monarch) (l : Label) → y.polls ≡ self.old.polls → y.late ≡ self.old.late →
            self.old.next ≡ EjectsAt l r.eject → next_at y x r l (value_in answer) ≡ by_record x (after_eject self.new.next r) }
        ensures ejects { (l : Label) (j : AnEject) → self.old.next ≡ EjectsAt l j → IsOfEject l }
        ensures same { (l : Label) (j : AnEject) → self.old.next ≡ EjectsAt l j → j ≡ self.old.eject }
        ensures eject { self.new.eject ≡ eject_in self.new.next self.old.eject }
        ensures slot { self.new.eject.slot ≡ self.old.eject.slot }
        ensures step { result ≡ step_of self.new.next }
        ensures of_eject { result ≢ steps.Added }
        ensures stays { (self.new.tseg ≡ self.old.tseg) × ((self.new.polls ≡ self.old.polls) × (self.new.late ≡ self.old.late)) }
    {
        let value = answer.value();
        match self.row() {
            Row::E0 => self.go_to(Row::E1),
            Row::E1 => self.await_parked(),
            Row::E2 => self.see_parked(value),
            Row::E3 => self.refuse(Refusal::NotParked {
                cpu: self.cpu,
                apic: self.apic,
            }),
            Row::E4a => self.go_to(Row::E4b),
            Row::E4b => self.hand_over(),
            Row::E4c => self.go_to(Row::E4d),
            Row::E4d => self.go_to(Row::E4e),
            Row::E4e => self.finish(),
            Row::E4f => self.go_to(Row::E4g),
            Row::E4g => self.see_status(value as u8),
            Row::E4h => self.refuse(Refusal::StillPending {
                cpu: self.cpu,
                status: self.status,
            }),
        }
        self.step()
    }
}
