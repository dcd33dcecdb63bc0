//! Relocation: which APIC ID has which slot, the first handler, which gives a processor its own SMBASE, and the add that leads
//! it there.
#![tactic(auto)]

mod first;
mod laws;
mod relocs;
mod rows;
mod slots;
mod standing;

pub use first::{first_next, first_want, first_want_by};
pub use laws::{
    a_slot_stays_with_its_apic_id, an_apic_id_has_a_slot_of_its_own,
    an_apic_id_is_known_from_its_add_to_its_eject,
};
pub use relocs::Reloc;
pub use slots::Slots;
