//! The processor hot-plug register block: what the firmware and the operating system read and write of processors.
#![tactic(auto)]

mod flags;
mod laws;
mod registers;
mod slots;

pub use laws::{
    a_write_touches_the_selected_processor_alone, an_eject_leaves_the_events,
    offset_0_tells_the_form, registers_answer_at_their_first_offset, the_first_processor_stays,
    the_lowest_control_bit_acts_alone, the_modern_form_is_for_good,
    the_search_finds_the_next_event, without_a_processor_only_the_selector_is_written,
};
pub use registers::Block;
