//! The monarch's record, what it wants, and how it goes on.

ghost use Rattle.std.specs.Prelude.{◌≡◌, ◌≢◌, ◌↔◌, ◌<◌, ◌≤◌, ◌+◌, ◌^◌, ◌∷◌, ◌++◌, [], Some, IfOk, length, nat_lt, replicate, slice_set, vec_capacity, if◌then◌else◌};
ghost use Rattle.hp_model.specs.declared.labels.Label.TheVariants as labels;
ghost use Rattle.hp_model.specs.Boot.{value_in};
ghost use Rattle.hp_model.specs.Handlers.{Seat, next_at, want_at};
ghost use Rattle.hp_model.specs.Fitting.{FitsWant};
ghost use Rattle.hp_model.specs.declared.reports.Decision.TheVariants.{Add as ToAdd, Eject as ToEject};
ghost use Rattle.hp_model.specs.Monarch.{adds, answered, decision as decision_at, commanded, ejects, facts_of, first_slot, look_at, looked, monarch_start, next_report, next_slot, noted, restarted, after_tell, with_features};
ghost use Rattle.hp_model.specs.Platform.{IsFit, is_late};
ghost use Rattle.hp_model.specs.SharedBytes.{layout_of};
ghost use Rattle.hp_model.specs.Slots.{known_from};
ghost use Rattle.hp_monarch.specs.declared.rows.Row.TheVariants as rows;
ghost use Rattle.hp_monarch.specs.Session.{Fits, ReadsByte, label_of};

use crate::decisions::{UNREAD, bound_slot, gather, judge};
use crate::rows::{Row, Standing};
use hp_collect::{Collect, Stage};
use hp_eject::Eject;
use hp_model::{
    Access, Answer, Decision, Label, NoMemory, Outcome, Platform, Refusal, Report, Want,
    arrived_byte, release_byte, session_byte, tseg,
};
use hp_reloc::{Reloc, Slots};
use std::alloc::Global;
use std::marker::Model;

/// The port of the SMI command (ICH9).
const APM_CNT: u16 = 0xb2;
/// The SMI command that announces processors (own rule, after EDK II).
const COLLECT: u64 = 4;
/// The low half of an interrupt command that is an SMI to all but the sender.
const SMI_TO_OTHERS: u32 = 0xc0200;
/// As many slots as there may be.
const MOST_SLOTS: usize = 512;

/// Whether a session goes on.
#[derive(Clone, Copy)]
pub enum Phase {
    More,
    /// The monarch has left SMM by RSM.
    Left,
}

/// The monarch. It keeps its record from one session to the next; SMI entry begins a session.
#[derive(Drop)]
pub struct Monarch {
    /// The first address of TSEG.
    tseg: u32,
    /// How many processors are possible.
    count: u32,
    /// How often a byte is looked at, at most.
    looks: u32,
    /// Whether APIC IDs have 32 bits.
    x2apic: bool,
    /// Whether SMIs may come late.
    late: bool,
    standing: Standing,
    /// The slot whose byte is next.
    slot: u32,
    /// Looks left at one arrived byte, before the SMI command is read.
    polls: u32,
    slots: Slots,
    /// Of each bound slot, what was last read of its arrived byte in this session, or `UNREAD`.
    last: Vec<u8>,
    /// The negotiated SMI features.
    features: u64,
    collect: Collect,
    /// How many of its reports were taken up.
    taken: usize,
    add: Reloc,
    eject: Eject,
    /// What is told next, or was told last.
    outcome: Outcome,
}

impl Model for Monarch {
    ghost use Rattle.std.specs.Prelude.{vec_capacity};
    ghost use Rattle.hp_collect.specs.Collecting.{collection_in};
    ghost use Rattle.hp_reloc.specs.Relocating.{add_in};
    ghost use Rattle.hp_eject.specs.Ejecting.{eject_in};
    ghost use Rattle.hp_monarch.specs.Session.{Session};

    ghost Value = { Session };

    ghost use Rattle.hp_monarch.specs.Session.{IsSound, label_at};

    ghost view = { λ m. record {
      layout = record { tseg = m.tseg; count = m.count; apics = m.slots.possible; polls = m.looks; x2apic = m.x2apic; late = m.late };
      monarch = record {
        label = label_at m.standing m.collect.next m.add.next m.eject.next;
        slot = m.slot;
        polls = m.polls;
        slots = m.slots.slots;
        last = m.last.items;
        features = m.features;
        collection = collection_in m.collect.next;
        taken = m.taken;
        add = add_in m.add.next m.add.add;
        eject = eject_in m.eject.next m.eject.eject;
        outcome = m.outcome;
      };
    } };

    ghost invariant = { λ m. IsSound m.tseg m.count m.looks m.x2apic m.late m.slot m.standing m.slots m.last.items (vec_capacity m.last) m.collect m.add m.eject };
}

impl Monarch {
    /// No session has begun, and boot processors have the first slots. Later calls take no memory.
    #[tactic(auto, using(crate::proofs::Start::start_facts))]
    pub fn new(alloc: Global, p: &Platform) -> Result<Monarch, NoMemory>
        requires { IsFit p.now }
        ensures layout { IfOk result (λ m. m.layout ≡ layout_of p.now) }
        ensures monarch { IfOk result (λ m. m.monarch ≡ monarch_start p.now) }
    {
        let count = p.apic.0.len() as u32;
        let slots = Slots::new(alloc, p)?;
        let mut last = vec![in alloc; UNREAD; slots.count() as usize]?;
        last.reserve(MOST_SLOTS)?;
        Ok(Monarch {
            tseg: tseg(p),
            count,
            looks: p.polls,
            x2apic: p.x2apic,
            late: p.delivery.is_late(),
            standing: Standing::At(Row::S0),
            slot: 0,
            polls: 0,
            slots,
            last,
            features: 0,
            collect: Collect::new(alloc, count)?,
            taken: 0,
            add: Reloc::new(p, 0, 0, 0),
            eject: Eject::new(p, 0, 0, 0),
            outcome: Outcome::Refused(Refusal::Disabled { cpu: 0, status: 0 }),
        })
    }

    /// The negotiated SMI features: bit 0 broadcast, bit 1 hot-plug, bit 2 hot-unplug.
    pub fn features(&mut self, negotiated: u64)
        ensures { self.new ≡ record self.old { monarch = with_features negotiated self.old.monarch } }
    {
        self.features = negotiated;
    }

    /// SMI entry begins a session.
    pub fn restart(&mut self)
        ensures { self.new ≡ record self.old { monarch = restarted self.old.monarch } }
    {
        self.standing = Standing::At(Row::S0);
        self.slot = 0;
        self.polls = 0;
        forget(self.last.as_mut_slice());
    }

    /// The first address of TSEG.
    pub fn tseg(&self) -> u32
        ensures value { result ≡ self.now.layout.tseg }
        ensures below { result ≤ 0x80000000 }
    {
        self.tseg
    }

    /// How many processors are possible.
    pub fn count(&self) -> u32
        ensures value { result ≡ self.now.layout.count }
        ensures few { result ≤ 512 }
    {
        self.count
    }

    /// Whether APIC IDs have 32 bits.
    pub fn x2apic(&self) -> bool
        ensures { result ≡ self.now.layout.x2apic }
    {
        self.x2apic
    }

    /// Which APIC ID has which slot.
    pub fn slots(&self) -> &Slots
        ensures { result.now.slots ≡ self.now.monarch.slots }
    {
        &self.slots
    }

    /// Where the monarch stands.
    pub fn label(&self) -> Label
        ensures { result ≡ self.now.monarch.label }
    {
        match self.standing {
            Standing::At(row) => row.label(),
            Standing::Collects => self.collect.label(),
            Standing::Adds => self.add.label(),
            Standing::Ejects => self.eject.label(),
        }
    }

    /// What the monarch wants where it stands: an access, to tell an outcome, or RSM.
    pub fn want(&self) -> Want
        ensures { (x : Seat) → want_at self.now.layout x self.now.monarch self.now.monarch.label ≡ Some result }
    {
        match self.standing {
            Standing::At(row) => self.want_in(row),
            Standing::Collects => Want::Do(self.collect.want()),
            Standing::Adds => Want::Do(self.add.want()),
            Standing::Ejects => Want::Do(self.eject.want()),
        }
    }

    /// What it wants at a row of its own.
    fn want_in(&self, row: Row) -> Want
        ensures { (x : Seat) → want_at self.now.layout x self.now.monarch (label_of row) ≡ Some result }
    {
        let access = match row {
            Row::S0 => Access::store_byte(session_byte(self.tseg), 1),
            Row::S1 => Access::store_byte(release_byte(self.tseg, self.slot), 0),
            Row::S2 => Access::Icr {
                high: 0,
                low: SMI_TO_OTHERS,
            },
            Row::S3 => Access::load_byte(arrived_byte(self.tseg, self.slot)),
            Row::S4 => Access::In {
                port: APM_CNT,
                width: 1,
            },
            Row::T => return Want::Tell(self.outcome),
            Row::E5 => Access::store_byte(session_byte(self.tseg), 0),
            Row::E6 => Access::store_byte(release_byte(self.tseg, self.slot), 1),
            Row::E7 => return Want::Resume,
        };
        Want::Do(access)
    }

    /// From slot 1 on, if one is bound, at `each`, else at `past`.
    fn go_to_first(&mut self, each: Row, past: Row)
        ensures { self.new ≡ record self.old { monarch = first_slot (label_of each) (label_of past) self.old.monarch } }
    {
        if self.slots.count() > 1 {
            self.standing = Standing::At(each);
            self.slot = 1;
        } else {
            self.standing = Standing::At(past);
        }
    }

    /// The next bound slot at `each`, and past the last at `past`.
    fn go_to_next(&mut self, each: Row, past: Row)
        ensures { self.new ≡ record self.old { monarch = next_slot (label_of each) (label_of past) self.old.monarch } }
    {
        if self.slot + 1 < self.slots.count() {
            self.standing = Standing::At(each);
            self.slot += 1;
        } else {
            self.standing = Standing::At(past);
        }
    }

    /// The arrived byte of the first known slot from this one on is next. Where there is none, the SMI command is.
    fn look_from(&mut self, slot: u32)
        ensures { self.new ≡ record self.old { monarch = look_at self.old.layout.polls (known_from self.old.monarch.slots slot) self.old.monarch } }
    {
        match self.slots.known_from(slot) {
            Some(slot) => {
                self.standing = Standing::At(Row::S3);
                self.slot = slot;
                self.polls = self.looks;
            }
            None => self.standing = Standing::At(Row::S4),
        }
    }

    /// An arrived byte was read: the next known slot's is next after a 1 or the last look, else it is looked at once more.
    fn look(&mut self, value: u8)
        ensures { self.new ≡ record self.old { monarch = looked self.old.layout.polls value (noted self.old.monarch.slot value self.old.monarch) } }
    {
        self.last[self.slot as usize] = value;
        if value == 1 || self.polls <= 1 {
            self.look_from(self.slot + 1);
        } else {
            self.polls -= 1;
        }
    }

    /// The SMI command was read: 4 begins a collection, any other ends the session.
    fn obey(&mut self, command: u64)
        ensures { self.new ≡ record self.old { monarch = commanded command self.old.monarch } }
    {
        if command == COLLECT {
            self.collect.restart();
            self.taken = 0;
            self.standing = Standing::Collects;
        } else {
            self.standing = Standing::At(Row::E5);
        }
    }

    /// An add begins: its APIC ID is bound and held. The byte of a new slot wasn't read.
    #[tactic(auto, using(crate::proofs::Adds::add_facts))]
    fn begin_add(&mut self, report: Report)
        requires { decision_at (facts_of self.old.layout.apics self.old.monarch report) report ≡ ToAdd }
        ensures { self.new ≡ record self.old { monarch = adds report self.old.monarch } }
    {
        let slot = self.slots.bind(report.apic);
        add_unread(&mut self.last, self.slots.count());
        self.add.restart(report.cpu, report.apic, slot);
        self.standing = Standing::Adds;
    }

    /// An eject begins.
    fn begin_eject(&mut self, report: Report)
        requires { decision_at (facts_of self.old.layout.apics self.old.monarch report) report ≡ ToEject }
        ensures { self.new ≡ record self.old { monarch = ejects report self.old.monarch } }
    {
        let slot = bound_slot(&self.slots, report.apic);
        self.eject.restart(report.cpu, report.apic, slot);
        self.standing = Standing::Ejects;
    }

    /// A report is answered: by an outcome, an add or an eject.
    fn answer(&mut self, report: Report)
        ensures { self.new ≡ record self.old {
          monarch =
              answered (decision_at (facts_of self.old.layout.apics self.old.monarch report) report) report self.old.monarch;
        } }
    {
        let facts = gather(&self.slots, self.last.as_slice(), self.features, report);
        match judge(facts, report) {
            Decision::Tell(outcome) => {
                self.outcome = outcome;
                self.standing = Standing::At(Row::T);
            }
            Decision::Add => self.begin_add(report),
            Decision::Eject => self.begin_eject(report),
        }
    }

    /// The next report is answered. Without one the session ends.
    #[tactic(auto, using(crate::proofs::Reports::report_facts))]
    fn take_next(&mut self)
        ensures { self.new ≡ record self.old { monarch = next_report self.old.layout.apics self.old.monarch } }
    {
        let Some(report) = self.collect.report().get(self.taken) else {
            self.standing = Standing::At(Row::E5);
            return;
        };
        let report = *report;
        self.taken += 1;
        self.answer(report);
    }

    /// An outcome was told: an APIC ID that was added is known from here on, and one that was ejected is forgotten.
    fn complete(&mut self)
        ensures { self.new ≡ record self.old { monarch = after_tell self.old.monarch.outcome self.old.monarch } }
    {
        match self.outcome {
            Outcome::Added { apic, .. } => self.slots.complete(apic),
            Outcome::Ejected { apic, .. } => self.slots.forget(apic),
            Outcome::Refused(_) => {}
        }
    }

    /// The answer at a row of the monarch's own.
    fn feed_in(&mut self, row: Row, answer: Answer) -> Phase
        requires here { self.old.monarch.label ≡ label_of row }
        requires fits { (x : Seat) → FitsWant (want_at self.old.layout x self.old.monarch (label_of row)) answer }
        ensures monarch { (x : Seat) → self.new ≡ record self.old { monarch = (next_at self.old.layout x self.old.monarch (label_of row) (value_in answer)).monarch } }
        ensures left { (result ≡ Phase.Left) ↔ (row ≡ rows.E7) }
    {
        match row {
            Row::S0 => self.go_to_first(Row::S1, Row::S2),
            Row::S1 => self.go_to_next(Row::S1, Row::S2),
            Row::S2 => self.look_from(1),
            Row::S3 => self.look(answer.value() as u8),
            Row::S4 => self.obey(answer.value()),
            Row::T => {
                self.complete();
                self.take_next();
            }
            Row::E5 => self.go_to_first(Row::E6, Row::E7),
            Row::E6 => self.go_to_next(Row::E6, Row::E7),
            Row::E7 => return Phase::Left,
        }
        Phase::More
    }

    /// The answer to what is wanted, and where it leads. RSM is answered by `Quiet`, and leads nowhere: the next session begins
    /// with `restart`.
    pub fn feed(&mut self, answer: Answer) -> Phase
        requires { Fits self.old answer }
        ensures monarch { (x : Seat) → self.new ≡ record self.old { monarch = (next_at self.old.layout x self.old.monarch self.old.monarch.label (value_in answer)).monarch } }
        ensures left { (result ≡ Phase.Left) ↔ (self.old.monarch.label ≡ labels.E7) }
    {
        match self.standing {
            Standing::At(row) => return self.feed_in(row, answer),
            Standing::Collects => {
                if let Stage::Ended = self.collect.feed(answer) {
                    self.standing = Standing::At(Row::E5);
                    self.take_next();
                }
            }
            Standing::Adds => {
                let label = self.add.label();
                note(self.last.as_mut_slice(), label, self.add.slot(), answer);
                self.add.feed(answer);
                if let Some(outcome) = self.add.outcome() {
                    self.outcome = outcome;
                    self.standing = Standing::At(Row::T);
                }
            }
            Standing::Ejects => {
                self.eject.feed(answer);
                if let Some(outcome) = self.eject.outcome() {
                    self.outcome = outcome;
                    self.standing = Standing::At(Row::T);
                }
            }
        }
        Phase::More
    }
}

/// An add reads the arrived byte of its slot at N8b and at N11.
fn note(last: &mut [u8], label: Label, slot: u32, answer: Answer)
    requires slot { slot < length last.old }
    requires byte { ReadsByte label → value_in answer < 256 }
    ensures read { ReadsByte label → last.new ≡ slice_set last.old slot (value_in answer) }
    ensures other { label ≢ labels.N8b → label ≢ labels.N11 → last.new ≡ last.old }
    ensures bytes { length last.new ≡ length last.old }
{
    if let Label::N8b | Label::N11 = label {
        last[slot as usize] = answer.value() as u8;
    }
}

/// A slot that is bound anew has its byte, which wasn't read.
fn add_unread(last: &mut Vec<u8>, bound: u32)
    requires few { bound ≤ 512 }
    requires room { 512 ≤ vec_capacity last.old }
    ensures bytes { last.new.items ≡ (if nat_lt (length last.old.items) bound then last.old.items ++ 2 ∷ [] else last.old.items) }
    ensures room { 512 ≤ vec_capacity last.new }
{
    if last.len() < bound as usize {
        last.push(UNREAD).unwrap();
    }
}

/// Nothing was read of any slot.
fn forget(last: &mut [u8])
    ensures { last.new ≡ replicate (length last.old) 2 }
{
    last.fill(UNREAD);
}
