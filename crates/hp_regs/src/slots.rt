//! What the block keeps of one processor, and of all by place.

ghost use Rattle.std.specs.Prelude.{◌≡◌, ◌↔◌, ◌<◌, ◌≤◌, ◌==◌, ◌&&◌, not, true, IfOk, IfSome, IsTrue, length, slice_index_or, slice_set};
ghost use Rattle.std.specs.List.{list_any, position};
ghost use Rattle.hp_model.specs.Block.{no_slot, has_event as shows_event, status as status_of, controlled, with_data, found, bitmap as bits_of, first_places, slots_from};

use crate::flags::{Control, Status};
use bitflags::Flags;
use hp_model::NoMemory;
use std::alloc::Global;
use std::marker::Model;

/// The registers of one possible processor.
#[derive(Clone, Copy)]
pub struct Slot {
    enabled: bool,
    /// The insert event.
    inserting: bool,
    /// The remove event.
    removing: bool,
    /// The eject was handed to the firmware.
    ejecting: bool,
    ost_event: u32,
    ost_status: u32,
}

impl Model for Slot {
    ghost use Rattle.hp_model.specs.Block as model;

    ghost Value = { model.Slot };

    ghost view = { λ s. record { enabled = s.enabled; inserting = s.inserting; removing = s.removing; ejecting = s.ejecting; ost_event = s.ost_event; ost_status = s.ost_status } };

    ghost inverse = { λ s. record { enabled = s.enabled; inserting = s.inserting; removing = s.removing; ejecting = s.ejecting; ost_event = s.ost_event; ost_status = s.ost_status } };
}

impl Slot {
    fn new(enabled: bool) -> Slot
        ensures { result ≡ record no_slot { enabled = enabled } }
    {
        Slot {
            enabled,
            inserting: false,
            removing: false,
            ejecting: false,
            ost_event: 0,
            ost_status: 0,
        }
    }

    fn is_same(&self, other: &Slot) -> bool
        ensures { IsTrue result ↔ (self.now ≡ other.now) }
    {
        self.enabled == other.enabled
            && self.inserting == other.inserting
            && self.removing == other.removing
            && self.ejecting == other.ejecting
            && self.ost_event == other.ost_event
            && self.ost_status == other.ost_status
    }

    fn is_enabled(&self) -> bool
        ensures { result ≡ self.now.enabled }
    {
        self.enabled
    }

    fn has_event(&self) -> bool
        ensures { result ≡ shows_event self.now }
    {
        self.inserting || self.removing || self.ejecting
    }

    fn status(&self) -> u8
        ensures { result ≡ status_of self.now }
    {
        let mut shown = Status::empty();
        shown.set(Status::ENABLED, self.enabled);
        shown.set(Status::INSERTING, self.inserting);
        shown.set(Status::REMOVING, self.removing);
        shown.set(Status::EJECTING, self.ejecting);
        shown.bits()
    }

    fn insert(&mut self)
        ensures { self.new ≡ record self.old { enabled = true; inserting = true } }
    {
        self.enabled = true;
        self.inserting = true;
    }

    fn request_removal(&mut self)
        ensures { self.new ≡ record self.old { removing = true } }
    {
        self.removing = true;
    }

    /// Answers whether the processor was ejected. `is_first` tells that it is processor 0, which is never ejected.
    fn control(&mut self, is_first: bool, asked: Control) -> bool
        ensures slot { self.new ≡ controlled self.old is_first asked.0 }
        ensures ejected { result ≡ (self.old.enabled && not self.new.enabled) }
    {
        if asked.contains(Control::CLEAR_INSERT) {
            self.inserting = false;
        } else if asked.contains(Control::CLEAR_REMOVE) {
            self.removing = false;
        } else if !is_first && self.enabled {
            if asked.contains(Control::EJECT) {
                self.enabled = false;
                self.ejecting = false;
                return true;
            }
            if asked.contains(Control::HAND_TO_FIRMWARE) {
                self.ejecting = true;
            }
        }
        false
    }

    fn keep_data(&mut self, command: u8, value: u32)
        ensures { self.new ≡ with_data self.old command value }
    {
        match command {
            1 => self.ost_event = value,
            2 => self.ost_status = value,
            _ => {}
        }
    }
}

pub fn status_at(slots: &[Slot], place: usize) -> u8
    requires { place < length slots.now }
    ensures { result ≡ status_of (slice_index_or slots.now place no_slot) }
{
    let slot = &slots[place];
    slot.status()
}

/// Answers whether the processor was ejected.
pub fn control_at(slots: &mut [Slot], place: usize, asked: Control) -> bool
    requires { place < length slots.old }
    ensures slots { slots.new ≡ slice_set slots.old place (controlled (slice_index_or slots.old place no_slot) (place == 0) asked.0) }
    ensures ejected { result ≡ ((slice_index_or slots.old place no_slot).enabled && not (slice_index_or slots.new place no_slot).enabled) }
{
    let slot = &mut slots[place];
    slot.control(place == 0, asked)
}

pub fn keep_data_at(slots: &mut [Slot], place: usize, command: u8, value: u32)
    requires { place < length slots.old }
    ensures { slots.new ≡ slice_set slots.old place (with_data (slice_index_or slots.old place no_slot) command value) }
{
    let slot = &mut slots[place];
    slot.keep_data(command, value);
}

pub fn insert_at(slots: &mut [Slot], place: usize)
    requires { place < length slots.old }
    ensures { slots.new ≡ slice_set slots.old place (record (slice_index_or slots.old place no_slot) { enabled = true; inserting = true }) }
{
    let slot = &mut slots[place];
    slot.insert();
}

pub fn request_removal_at(slots: &mut [Slot], place: usize)
    requires { place < length slots.old }
    ensures { slots.new ≡ slice_set slots.old place (record (slice_index_or slots.old place no_slot) { removing = true }) }
{
    let slot = &mut slots[place];
    slot.request_removal();
}

/// The place of the first slot with an event.
fn first_event(slots: &[Slot]) -> Option<usize>
    ensures value { result ≡ position shows_event slots.now }
    ensures below { IfSome result (λ place. place < length slots.now) }
{
    slots.iter().position(|slot| slot.has_event())
}

/// The place of the first slot with an event from `start` upward and then from 0; `start` where none has one.
#[tactic(auto, using(crate::proofs::Search::first_position))]
pub fn search(slots: &[Slot], start: usize) -> usize
    requires { start < length slots.now }
    ensures value { result ≡ found start slots.now }
    ensures below { result < length slots.now }
{
    let (before, after) = slots.split_at(start);
    match first_event(after) {
        Some(ahead) => start + ahead,
        None => first_event(before).unwrap_or(start),
    }
}

/// A bit for each slot, set where its processor is enabled, the first lowest.
#[tactic(auto, using(crate::proofs::Bitmap::bitmap_fits))]
fn bitmap(slots: &[Slot]) -> u32
    requires { length slots.now ≤ 32 }
    ensures { result ≡ bits_of slots.now }
{
    match slots {
        [] => 0,
        [first, rest @ ..] => u32::from(first.is_enabled()) + 2 * bitmap(rest),
    }
}

/// A bit for each of the first 32 slots.
#[tactic(auto, using(crate::proofs::Bitmap::bitmap_facts))]
pub fn legacy_bitmap(slots: &[Slot]) -> u32
    ensures { result ≡ bits_of (first_places slots.now) }
{
    if slots.len() <= 32 {
        bitmap(slots)
    } else {
        bitmap(slots.split_at(32).0)
    }
}

/// A slot for each APIC ID, enabled where its place is among `boot`.
#[tactic(auto, using(crate::proofs::AtBoot::slots_more))]
pub fn slots_at_boot(alloc: Global, apic: &[u32], boot: &[u32]) -> Result<Vec<Slot>, NoMemory>
    ensures { IfOk result (λ slots. slots.items ≡ slots_from 0 apic.now boot.now) }
{
    let mut slots = Vec::new(alloc);
    for (place, _apic) in apic.iter().enumerate() {
        slots.push(Slot::new(is_among(place, boot)))?;
    }
    Ok(slots)
}

fn is_among(place: usize, boot: &[u32]) -> bool
    ensures { result ≡ list_any (λ x. x == place) boot.now }
{
    boot.iter().any(|other| *other as usize == place)
}

/// Whether two lists keep the same, place by place.
pub fn are_same(slots: &[Slot], others: &[Slot]) -> bool
    ensures { IsTrue result ↔ (slots.now ≡ others.now) }
{
    match (slots, others) {
        ([], []) => true,
        ([slot, slots @ ..], [other, others @ ..]) => slot.is_same(other)
            && are_same(slots, others),
        _ => false,
    }
}
