//! The gate and its calls (own rule, after the handshake of EDK II's OvmfPkg/CpuHotplugSmm: `SmbaseRelocate` of Smbase.c for the
//! monarch, FirstSmiHandler.nasm for a new processor).
//!
//! Each call makes one or two steps on atomic words, each with the seat that it is handed. No call waits.

ghost use Rattle.std.specs.Prelude.{◌≡◌, ◌≢◌, ◌+◌, ◌<◌, ◌≤◌, true, length, IfOk};
ghost use Rattle.hp_model.specs.Block.{is_in};
ghost use Rattle.hp_model.specs.Platform.{all_distinct};
ghost use Rattle.hp_gate.specs.Openings.{apics_of, base_of, named_at, names, opened, word_of};
ghost use Rattle.hp_gate.specs.Seats.{ClosesAs, IsOpen, IsShut, LooksAs, PassesAs, cpu_at, is_idle, monarch_at};
ghost use Rattle.hp_gate.specs.Steps.{after_arrive, after_flag, after_open, after_seat, cpu_start, monarch_start};
ghost use Rattle.hp_gate.specs.declared.views.View.TheVariants.{Cpu};
ghost use Rattle.hp_gate.specs.declared.views.Work.TheVariants.{Flagged, Free, Passed};

use crate::answers::{Closed, Look, Pass};
use crate::rule::{
    Arrives, Closes, Exchanges, Flags, GateRule, LoadsBase, LoadsGate, Looks, Opens, Place, Seats,
    StoresBase, Words,
};
use crate::seats::{CpuSeat, MonarchSeat};
use crate::views::{Named, Stage, View};
use atomic_table::Table;
use hp_model::{CLOSED, NoMemory};
use std::alloc::Global;
use std::marker::Model;
use std::snapshot::Snapshot;

/// The number of an opening above the APIC ID of its processor; `CLOSED` where there is none to pass.
const GATE: usize = 0;

/// The SMBASE for whoever passes the gate.
const BASE: usize = 1;

/// The number of the last pass that was flagged.
const FLAG: usize = 2;

/// The number of the last pass whose processor has arrived.
const ARRIVED: usize = 3;

/// A gate: four atomic words. Contracts see which gate it is, as its seats do.
#[derive(Drop)]
pub struct Gate {
    words: Words,
}

impl Model for Gate {
    ghost use Rattle.std.specs.Prelude.{◌≡◌};
    ghost use Rattle.atomic_table.specs.Seated.{TableId};

    ghost Value = { TableId };

    ghost view = { λ g. g.words.shared.table_id };

    ghost invariant = { λ g. g.words.shared.table_id.words ≡ 4 };
}

fn word(number: u32, apic: u32) -> u64
    ensures { result ≡ word_of number apic }
{
    u64::from(number) * 0x100000000 + u64::from(apic)
}

/// Whether this word, found in a gate, is an opening of this APIC ID.
fn names_apic(apic: u32, word: u64) -> bool
    ensures { result ≡ names apic word }
{
    word != CLOSED && word % 0x100000000 == u64::from(apic)
}

fn base_at(list: &[Named], apic: u32) -> u32
    ensures { result ≡ base_of list.now apic }
{
    match list {
        [] => 0,
        [first, rest @ ..] => {
            if first.apic == apic {
                first.base
            } else {
                base_at(rest, apic)
            }
        }
    }
}

/// The base is for the proof alone: a parameter has its range.
fn sit(place: Place, apic: u32, _base: u32) -> CpuSeat
    requires { place.me.0 ≡ Cpu (cpu_start (record { apic = apic; base = _base })) }
    ensures { result ≡ cpu_at place.table_id (cpu_start (record { apic = apic; base = _base })) }
{
    CpuSeat {
        place,
        apic,
        passed: 0,
    }
}

impl Gate {
    /// A gate that is closed and was never open, and the monarch's seat. It may name the processors of this list, which it copies.
    pub fn new(alloc: Global, list: &[Named]) -> Result<(Gate, MonarchSeat), NoMemory>
        requires distinct { all_distinct (apics_of list.now) ≡ true }
        requires count { (0 < length list.now) × (length list.now ≤ 512) }
        ensures { IfOk result (λ made. made.1 ≡ monarch_at made.0 (monarch_start list.now)) }
    {
        let mut own = Vec::new(alloc);
        own.extend_from_slice(list)?;
        let about = Snapshot::of(&own);
        let (words, place) = Table::<(), View, Snapshot<Vec<Named>>, GateRule, Global>::of_words(
            alloc,
            &[CLOSED, 0, 0, 0],
            &about,
        )?;
        let monarch = MonarchSeat {
            place,
            list: own,
            seats: 0,
            number: 0,
            stage: Stage::Idle,
        };
        Ok((Gate { words }, monarch))
    }

    /// The seat of the next processor of the list, before the first opening.
    pub fn seat(&self, m: &mut MonarchSeat) -> CpuSeat
        requires mine { m.old.gate ≡ self.now }
        requires never_open { opened m.old.view ≡ 0 }
        requires room { m.old.view.seats < length m.old.view.list }
        ensures monarch { m.new ≡ monarch_at m.old.gate (after_seat m.old.view) }
        ensures cpu { result ≡ cpu_at m.old.gate (cpu_start (named_at m.old.view.list m.old.view.seats)) }
    {
        let named = m.list[m.seats as usize];
        let place = self.words.shared.split_seat::<Seats>(&mut m.place);
        m.seats += 1;
        sit(place, named.apic, named.base)
    }

    /// Names a processor: stores its base, and then opens the gate for its APIC ID. Answers the opening's number, counted from 1.
    pub fn name(&self, m: &mut MonarchSeat, apic: u32) -> u32
        requires mine { m.old.gate ≡ self.now }
        requires listed { is_in apic (apics_of m.old.view.list) ≡ true }
        requires idle { is_idle m.old.view.stage ≡ true }
        requires room { opened m.old.view < 0xfffffffe }
        ensures monarch { m.new ≡ monarch_at m.old.gate (after_open apic m.old.view) }
        ensures number { result ≡ opened m.old.view + 1 }
    {
        let base = base_at(m.list.as_slice(), apic);
        let number = m.number + 1;
        let new = word(number, apic);
        self.words
            .shared
            .store::<StoresBase>(&mut m.place, BASE, u64::from(base));
        // Behind the base: whoever passes from here on loads it.
        self.words.shared.store::<Opens>(&mut m.place, GATE, new);
        m.number = number;
        m.stage = Stage::Open(apic);
        number
    }

    /// Closes the gate by a swap, behind an opening that isn't closed.
    pub fn close(&self, m: &mut MonarchSeat) -> Closed
        requires mine { m.old.gate ≡ self.now }
        requires is_open { IsOpen m.old.view.stage }
        ensures { ClosesAs m.old m.new result }
    {
        let Stage::Open(apic) = m.stage else {
            unreachable!()
        };
        // A swap, since a store would not tell whether somebody has passed.
        let found = self.words.shared.swap::<Closes>(&mut m.place, GATE, CLOSED);
        if found == word(m.number, apic) {
            m.stage = Stage::Idle;
            Closed::Unpassed
        } else {
            m.stage = Stage::Shut(apic);
            Closed::Passed
        }
    }

    /// Looks once whether the processor that has passed the last opening has arrived. The opening is closed and not finished.
    pub fn look(&self, m: &mut MonarchSeat) -> Look
        requires mine { m.old.gate ≡ self.now }
        requires is_shut { IsShut m.old.view.stage }
        ensures { LooksAs m.old m.new result }
    {
        let found = self.words.shared.load::<Looks>(&mut m.place, ARRIVED);
        if found == u64::from(m.number) {
            m.stage = Stage::Idle;
            Look::Arrived
        } else {
            Look::NotYet(found)
        }
    }

    /// Tries once to pass. The processor has no pass that hasn't arrived. `Closed` and `Moved` leave it where it was.
    pub fn pass(&self, c: &mut CpuSeat) -> Pass
        requires mine { c.old.gate ≡ self.now }
        requires free { c.old.view.work ≡ Free }
        ensures { PassesAs c.old c.new result }
    {
        let seen = self.words.shared.load::<LoadsGate>(&mut c.place, GATE);
        if !names_apic(c.apic, seen) {
            return Pass::Closed(seen);
        }
        // Passes and closes in one step: by the number in the word another opening of its APIC ID is another word.
        let found = self
            .words
            .shared
            .compare_exchange::<Exchanges>(&mut c.place, GATE, seen, CLOSED);
        if found != seen {
            return Pass::Moved(found);
        }
        let number = (seen / 0x100000000) as u32;
        c.passed = number;
        Pass::Through(number)
    }

    /// Loads the base of a processor that has passed and not arrived: the one that the list gives its APIC ID.
    pub fn base(&self, c: &mut CpuSeat) -> u32
        requires mine { c.old.gate ≡ self.now }
        requires passed { c.old.view.work ≢ Free }
        ensures base { result ≡ c.old.view.own.base }
        ensures unchanged { c.new ≡ c.old }
    {
        self.words.shared.load::<LoadsBase>(&mut c.place, BASE) as u32
    }

    /// Stores the number of its pass in flag. The processor has passed, and not flagged.
    pub fn flag(&self, c: &mut CpuSeat)
        requires mine { c.old.gate ≡ self.now }
        requires passed { c.old.view.work ≡ Passed }
        ensures { c.new ≡ cpu_at c.old.gate (after_flag c.old.view) }
    {
        let number = u64::from(c.passed);
        self.words.shared.store::<Flags>(&mut c.place, FLAG, number);
    }

    /// Stores the number of its pass in arrived. The processor has flagged, and not arrived.
    pub fn arrive(&self, c: &mut CpuSeat)
        requires mine { c.old.gate ≡ self.now }
        requires flagged { c.old.view.work ≡ Flagged }
        ensures { c.new ≡ cpu_at c.old.gate (after_arrive c.old.view) }
    {
        let number = u64::from(c.passed);
        self.words
            .shared
            .store::<Arrives>(&mut c.place, ARRIVED, number);
    }
}
