//! Which APIC ID has which slot (own rule).

ghost use Rattle.std.specs.Prelude.{◌≡◌, ◌<◌, ◌≤◌, ◌+◌, ◌∷◌, ◌++◌, [], true, false, Some, None, IfOk, IfSome, length, drop, map, nat_lt, slice_get, slice_index_or, slice_set, vec_len, vec_capacity, if◌then◌else◌};
ghost use Rattle.std.specs.List.{list_all};
ghost use Rattle.hp_model.specs.Block.{is_in};
ghost use Rattle.hp_model.specs.Platform.{IsFit, no_id};
ghost use Rattle.hp_model.specs.Slots.{bind as bind_slot, boot_ids, completed, first_true, forgotten, is_known, known_from as known_slot_from, slot_among, slot_in, slots_start, with_slot};
ghost use Rattle.hp_reloc.specs.Roster.{IsFree};

use hp_model::{NoMemory, Platform};
use std::alloc::Global;
use std::marker::Model;

/// The slots of one machine: its APIC IDs, and those that have a slot. A slot stays with its APIC ID for good.
#[derive(Drop)]
pub struct Slots {
    /// The APIC IDs that have a slot, by slot. There is room for all possible ones.
    bound: Vec<u32>,
    /// Of each of them, whether it is a boot processor's or was added, and not ejected since. Room likewise.
    known: Vec<bool>,
    /// The APIC ID whose add isn't complete.
    held: Option<u32>,
    /// The possible APIC IDs, by place.
    possible: Vec<u32>,
}

impl Model for Slots {
    ghost use Rattle.std.specs.Prelude.{◌≡◌, ◌≤◌, length, vec_len, vec_capacity};
    ghost use Rattle.hp_reloc.specs.Roster.{Roster};

    ghost Value = { Roster };

    ghost view = { λ s. record { slots = record { bound = s.bound.items; known = s.known.items; held = s.held }; possible = s.possible.items } };

    ghost use Rattle.hp_reloc.specs.Roster.{IsSound};

    ghost invariant = { λ s. IsSound s.bound.items s.known.items s.possible.items (vec_capacity s.bound) (vec_capacity s.known) };
}

/// The index of an APIC ID among these: of those bound, its slot.
#[tactic(auto, using(crate::proofs::Places::place_facts))]
fn index_among(ids: &[u32], apic: u32) -> Option<u32>
    requires { length ids.now ≤ 512 }
    ensures { result ≡ (if is_in apic ids.now then Some (slot_among ids.now apic) else None) }
{
    for (index, id) in ids.iter().enumerate() {
        if *id == apic {
            return Some(index as u32);
        }
    }
    None
}

/// The first slot from `from` on that is known.
#[tactic(auto, using(crate::proofs::Places::true_facts))]
fn first_known(known: &[bool], from: u32) -> Option<u32>
    requires { length known.now ≤ 512 }
    ensures value { result ≡ first_true from (drop from known.now) }
    ensures slot { IfSome result (λ slot. slot < length known.now) }
{
    for slot in from as usize..known.len() {
        if known[slot] {
            return Some(slot as u32);
        }
    }
    None
}

/// The APIC IDs of these places.
#[tactic(auto, using(hp_model::proofs::Counts::below_at))]
fn ids_at(alloc: Global, apic: &[u32], places: &[u32]) -> Result<Vec<u32>, NoMemory>
    requires { list_all (λ k. nat_lt k (length apic.now)) places.now ≡ true }
    ensures { IfOk result (λ ids. ids.items ≡ map (λ k. slice_index_or apic.now k no_id) places.now) }
{
    let mut ids = Vec::new(alloc);
    for place in places {
        ids.push(apic[*place as usize])?;
    }
    Ok(ids)
}

impl Slots {
    /// The boot processors have the first slots, in their order, and are known. No call but this one wants for memory.
    #[tactic(auto, using(crate::proofs::Bound::boot_below))]
    pub fn new(alloc: Global, p: &Platform) -> Result<Slots, NoMemory>
        requires { IsFit p.now }
        ensures slots { IfOk result (λ s. s.slots ≡ slots_start p.now) }
        ensures possible { IfOk result (λ s. s.possible ≡ p.now.apic) }
    {
        let count = p.apic.0.len();
        let mut bound = ids_at(alloc, p.apic.0.as_slice(), p.boot.0.as_slice())?;
        bound.reserve(count)?;
        let mut known = vec![in alloc; true; p.boot.0.len()]?;
        known.reserve(count)?;
        let possible = Vec::from_slice(alloc, p.apic.0.as_slice())?;
        Ok(Slots {
            bound,
            known,
            held: None,
            possible,
        })
    }

    /// The slot of this APIC ID, if it has one.
    pub fn bound(&self, apic: u32) -> Option<u32>
        ensures { result ≡ slot_in self.now.slots apic }
    {
        index_among(self.bound.as_slice(), apic)
    }

    /// Whether this APIC ID is a boot processor's or was added, and not ejected since.
    #[tactic(auto, using(crate::proofs::Places::known_facts))]
    pub fn known(&self, apic: u32) -> bool
        ensures { result ≡ is_known self.now.slots apic }
    {
        match index_among(self.bound.as_slice(), apic) {
            Some(slot) => self.known[slot as usize],
            None => false,
        }
    }

    /// Whether this APIC ID is a possible one.
    pub fn is_possible(&self, apic: u32) -> bool
        ensures { result ≡ is_in apic self.now.possible }
    {
        index_among(self.possible.as_slice(), apic).is_some()
    }

    /// The APIC ID of the possible processor in this place; none in a place past the last.
    pub fn id_of(&self, cpu: u32) -> Option<u32>
        ensures { result ≡ slice_get self.now.possible cpu }
    {
        self.possible.get(cpu as usize).copied()
    }

    /// The APIC ID whose add isn't complete.
    pub fn held(&self) -> Option<u32>
        ensures { result ≡ self.now.slots.held }
    {
        self.held
    }

    /// How many APIC IDs have a slot: at most as many as are possible.
    pub fn count(&self) -> u32
        ensures value { result ≡ length self.now.slots.bound }
        ensures known { result ≡ length self.now.slots.known }
        ensures few { result ≤ 512 }
    {
        self.bound.len() as u32
    }

    /// The first known slot from this one on.
    pub fn known_from(&self, slot: u32) -> Option<u32>
        ensures value { result ≡ known_slot_from self.now.slots slot }
        ensures bound { IfSome result (λ known. known < length self.now.slots.bound) }
    {
        first_known(self.known.as_slice(), slot)
    }

    /// An APIC ID gets the next slot, unless it has one, and is held until its add is complete. Answers its slot. Takes no memory.
    #[tactic(auto, using(crate::proofs::Adding::adding_facts))]
    pub fn bind(&mut self, apic: u32) -> u32
        requires free { IsFree self.old.slots.held apic }
        requires unknown { is_known self.old.slots apic ≡ false }
        requires possible { is_in apic self.old.possible ≡ true }
        ensures slots { self.new ≡ record self.old { slots = bind_slot apic self.old.slots } }
        ensures slot { slot_in self.new.slots apic ≡ Some result }
    {
        self.held = Some(apic);
        if let Some(slot) = index_among(self.bound.as_slice(), apic) {
            return slot;
        }
        let slot = self.bound.len() as u32;
        self.bound.push(apic).unwrap();
        self.known.push(false).unwrap();
        slot
    }

    /// The add of this APIC ID is complete: no APIC ID is held any longer, and this one is known, if it has a slot.
    #[tactic(auto, using(crate::proofs::Places::set_facts))]
    pub fn complete(&mut self, apic: u32)
        ensures { self.new ≡ record self.old { slots = completed apic self.old.slots } }
    {
        self.held = None;
        if let Some(slot) = index_among(self.bound.as_slice(), apic) {
            self.known[slot as usize] = true;
        }
    }

    /// An ejected APIC ID is forgotten, if it has a slot. Its slot stays bound.
    #[tactic(auto, using(crate::proofs::Places::set_facts))]
    pub fn forget(&mut self, apic: u32)
        ensures { self.new ≡ record self.old { slots = forgotten apic self.old.slots } }
    {
        if let Some(slot) = index_among(self.bound.as_slice(), apic) {
            self.known[slot as usize] = false;
        }
    }
}
