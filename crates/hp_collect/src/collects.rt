//! A collection of the processors that have an event. The registers are those of QEMU's "acpi cpu hotplug" register block; in which
//! order they are used is an own rule.

ghost use Rattle.std.specs.Prelude.{◌≡◌, ◌<◌, ◌≤◌, ◌^◌, ℕ, true, nat_lt, Some, None, IfOk, length, if◌then◌else◌};
ghost use Rattle.std.specs.List.{list_all};
ghost use Rattle.hp_model.specs.declared.accesses.Access.TheVariants.{Out};
ghost use Rattle.hp_model.specs.declared.accesses.Want.TheVariants as want;
ghost use Rattle.hp_model.specs.declared.labels.Label.{Label};
ghost use Rattle.hp_model.specs.declared.labels.Label.TheVariants.{C1};
ghost use Rattle.hp_model.specs.Boot.{value_in};
ghost use Rattle.hp_model.specs.Collection.{Collection, CollectsAt, collection_start, found, judged, next_processor, reported};
ghost use Rattle.hp_model.specs.Handlers.{Seat, by_record, next_at, want_at};
ghost use Rattle.hp_model.specs.Monarch.{Monarch, after_collection};
ghost use Rattle.hp_model.specs.SharedBytes.{Layout};
ghost use Rattle.hp_collect.specs.declared.rows.Row.TheVariants as rows;
ghost use Rattle.hp_collect.specs.Collecting.{Fits, IsGoing, IsOfCollection, collection_in, stage_of};

use crate::rows::Row;
use hp_model::{Access, Answer, Label, NoMemory, Report};
use std::alloc::Global;
use std::marker::Model;

/// Selects the processor that command, command data and status speak of: 4 bytes, written.
const SELECTOR: u16 = 0xcd8;
/// 1 byte, read.
const STATUS: u16 = 0xcdc;
/// 1 byte, written.
const COMMAND: u16 = 0xcdd;
/// 4 bytes, read. What it is depends on the last command.
const COMMAND_DATA: u16 = 0xce0;
/// The selector goes on to the next processor with an event, if there is one, and command data is the selector.
const NEXT_WITH_EVENT: u32 = 0;
/// Command data is the APIC ID of the selected processor.
const GET_APIC_ID: u32 = 3;
/// Status bit 1, an insert event, and bit 4, a firmware eject.
const EVENTS: u8 = 0x12;

/// Whether a collection goes on.
#[derive(Clone, Copy)]
pub enum Stage {
    More,
    Ended,
}

/// A collection. It goes through the processors in ascending order, and keeps a report of each that has an event.
#[derive(Drop)]
pub struct Collect {
    /// How many processors are possible.
    count: u32,
    /// `None` once it has ended.
    row: Option<Row>,
    /// The processor from which on the next event is looked for, and the one that was found.
    cpu: u32,
    /// Its status byte, once it has an event.
    status: u8,
    /// There is room for one of each possible processor.
    reports: Vec<Report>,
}

impl Model for Collect {
    ghost use Rattle.std.specs.Prelude.{vec_capacity};
    ghost use Rattle.hp_collect.specs.Collecting.{Collecting};

    ghost Value = { Collecting };

    ghost use Rattle.hp_collect.specs.Standing.{IsSound, next_of};

    ghost view = { λ c. record {
      count = c.count;
      next = next_of c.row (record { cpu = c.cpu; status = c.status; reports = c.reports.items });
    } };

    ghost invariant = { λ c. IsSound c.count c.cpu (vec_capacity c.reports) c.row c.reports.items };
}

fn command(value: u32) -> Access
    ensures { result ≡ Out 0xcdd 1 value }
{
    Access::Out {
        port: COMMAND,
        width: 1,
        value,
    }
}

/// Where it is looked for events from this processor on.
fn row_at(cpu: u32, count: u32) -> Option<Row>
    ensures { result ≡ (if nat_lt cpu count then Some rows.C1 else None) }
{
    if cpu < count { Some(Row::C1) } else { None }
}

impl Collect {
    /// A collection that is to begin. `count` is how many processors are possible. Later calls take no memory.
    pub fn new(alloc: Global, count: u32) -> Result<Collect, NoMemory>
        requires some { 1 ≤ count }
        requires few { count ≤ 512 }
        ensures count { IfOk result (λ c. c.count ≡ count) }
        ensures next { IfOk result (λ c. c.next ≡ CollectsAt C1 collection_start) }
    {
        let mut reports = Vec::new(alloc);
        reports.reserve(count as usize)?;
        Ok(Collect {
            count,
            row: Some(Row::C1),
            cpu: 0,
            status: 0,
            reports,
        })
    }

    /// A collection begins anew, with no report.
    pub fn restart(&mut self)
        ensures { self.new ≡ record self.old { next = CollectsAt C1 collection_start } }
    {
        self.row = Some(Row::C1);
        self.cpu = 0;
        self.status = 0;
        self.reports.clear();
    }

    /// Where the collection stands.
    pub fn label(&self) -> Label
        requires { IsGoing self.now.next }
        ensures value { (l : Label) (c : Collection) → self.now.next ≡ CollectsAt l c → result ≡ l }
        ensures collects { IsOfCollection result }
    {
        match self.row {
            Some(row) => row.label(),
            None => unreachable!(),
        }
    }

    /// The access that is next.
    pub fn want(&self) -> Access
        requires { IsGoing self.now.next }
        ensures { (y : Layout) (x : Seat) (r : Monarch) (l : Label) →
            self.now.next ≡ CollectsAt l r.collection → want_at y x r l ≡ Some (want.Do result) }
    {
        match self.row {
            Some(Row::C1) => Access::Out {
                port: SELECTOR,
                width: 4,
                value: self.cpu,
            },
            Some(Row::C2) => command(NEXT_WITH_EVENT),
            Some(Row::C5) => command(GET_APIC_ID),
            Some(Row::C3 | Row::C6) => Access::In {
                port: COMMAND_DATA,
                width: 4,
            },
            Some(Row::C4) => Access::In {
                port: STATUS,
                width: 1,
            },
            None => unreachable!(),
        }
    }

    /// The next processor, and the end past the last.
    fn go_to_next(&mut self)
        requires { IsGoing self.old.next }
        ensures { self.new ≡ record self.old { next = next_processor self.old.count (collection_in self.old.next) } }
    {
        self.cpu += 1;
        self.row = row_at(self.cpu, self.count);
    }

    /// Command 0 went on to this processor.
    fn find(&mut self, cpu: u32)
        requires { IsGoing self.old.next }
        ensures { self.new ≡ record self.old { next = found self.old.count cpu (collection_in self.old.next) } }
    {
        if cpu < self.cpu || cpu >= self.count {
            self.row = None;
        } else {
            self.cpu = cpu;
            self.row = Some(Row::C4);
        }
    }

    /// The processor has this status.
    fn judge(&mut self, status: u8)
        requires { IsGoing self.old.next }
        ensures { self.new ≡ record self.old { next = judged self.old.count status (collection_in self.old.next) } }
    {
        if status & EVENTS == 0 {
            self.go_to_next();
        } else {
            self.status = status;
            self.row = Some(Row::C5);
        }
    }

    /// The processor has an event, and this APIC ID.
    fn add_report(&mut self, apic: u32)
        requires { IsGoing self.old.next }
        ensures { self.new ≡ record self.old { next = reported self.old.count apic (collection_in self.old.next) } }
    {
        let report = Report {
            cpu: self.cpu,
            status: self.status,
            apic,
        };
        self.reports.push(report).unwrap();
        self.cpu = report.cpu + 1;
        self.row = row_at(self.cpu, self.count);
    }

    /// Whether the collection goes on.
    pub fn stage(&self) -> Stage
        ensures { result ≡ stage_of self.now.next }
    {
        match self.row {
            Some(_) => Stage::More,
            None => Stage::Ended,
        }
    }

    /// The answer to the access that was next, and where it leads.
    pub fn feed(&mut self, answer: Answer) -> Stage
        requires { Fits self.old.next answer }
        ensures next { (y : Layout) (x : Seat) (r : Monarch) (l : Label) → y.count ≡ self.old.count →
            self.old.next ≡ CollectsAt l r.collection → next_at y x r l (value_in answer) ≡ by_record x (after_collection y.apics self.new.next r) }
        ensures count { self.new.count ≡ self.old.count }
        ensures stage { result ≡ stage_of self.new.next }
        ensures collects { (l : Label) (c : Collection) → self.old.next ≡ CollectsAt l c → IsOfCollection l }
    {
        let value = answer.value();
        match self.row {
            Some(Row::C1) => self.row = Some(Row::C2),
            Some(Row::C2) => self.row = Some(Row::C3),
            Some(Row::C3) => self.find(value as u32),
            Some(Row::C4) => self.judge(value as u8),
            Some(Row::C5) => self.row = Some(Row::C6),
            Some(Row::C6) => self.add_report(value as u32),
            None => unreachable!(),
        }
        self.stage()
    }

    /// The reports so far, in the order in which they were made.
    pub fn report(&self) -> &[Report]
        ensures value { result.now ≡ (collection_in self.now.next).reports }
        ensures possible { list_all (λ t. nat_lt t.cpu self.now.count) result.now ≡ true }
        ensures few { length result.now ≤ self.now.count }
    {
        self.reports.as_slice()
    }
}
