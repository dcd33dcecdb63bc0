//! Laws of the register block: public functions with empty bodies, whose clauses are what is proved.

ghost use Rattle.std.specs.Prelude.{◌≡◌, ◌≢◌, ◌≤◌, ℕ, Bool, true, false, Option, Some, length};
ghost use Rattle.hp_model.specs.Block.{Slot, Block, slot_at, set_slot, is_selected, cut, has_event, controlled, block_read, block_write, ejected_by};
ghost use Rattle.hp_model.specs.Access.{IsPortWidth};
ghost use Rattle.hp_regs.specs.Words.{is_search, starts_register, lowest_bit, steps_up};

/// A register answers at its first offset alone: a read anywhere else is 0, and a write there changes nothing.
#[tactic(auto, using(crate::proofs::Offsets::first_offset_facts))]
pub fn registers_answer_at_their_first_offset()
    ensures reads { (b : Block) (offset width : ℕ) → starts_register b offset ≡ false → block_read b offset width ≡ 0 }
    ensures writes { (b : Block) (offset width value : ℕ) → starts_register b offset ≡ false → block_write b offset width value ≡ b }
{}

/// While the selector of the modern form names no possible processor, every read is 0, and no write but the selector's
/// changes anything.
#[tactic(auto, using(crate::proofs::Offsets::unselected_facts))]
pub fn without_a_processor_only_the_selector_is_written()
    ensures reads { (b : Block) (offset width : ℕ) → b.modern ≡ true → is_selected b ≡ false → block_read b offset width ≡ 0 }
    ensures writes { (b : Block) (offset width value : ℕ) → b.modern ≡ true → is_selected b ≡ false → offset ≢ 0 → block_write b offset width value ≡ b }
    ensures selector { (b : Block) (width value : ℕ) → b.modern ≡ true → block_write b 0 width value ≡ record b { selector = cut width value } }
{}

/// The switch to the modern form is for good, and no write changes which processors are possible.
#[tactic(auto, using(crate::proofs::Offsets::lasting_facts, crate::proofs::Ejects::stays_count))]
pub fn the_modern_form_is_for_good()
    ensures modern { (b : Block) (offset width value : ℕ) → b.modern ≡ true → (block_write b offset width value).modern ≡ true }
    ensures apic { (b : Block) (offset width value : ℕ) → (block_write b offset width value).apic ≡ b.apic }
    ensures count { (b : Block) (offset width value : ℕ) → length (block_write b offset width value).slots ≡ length b.slots }
{}

/// Offset 0 tells the form: it reads other than 0 in the legacy form, where processor 0 is enabled, and 0 in the modern.
#[tactic(auto, using(crate::proofs::Bitmap::modern_reads_zero))]
pub fn offset_0_tells_the_form()
    ensures legacy { (b : Block) (width : ℕ) → IsPortWidth width → b.modern ≡ false → (slot_at b 0).enabled ≡ true → block_read b 0 width ≢ 0 }
    ensures modern { (b : Block) (width : ℕ) → b.modern ≡ true → block_read b 0 width ≡ 0 }
{}

/// No write ejects processor 0.
#[tactic(auto, using(crate::proofs::Ejects::first_stays))]
pub fn the_first_processor_stays()
    ensures { (b : Block) (offset width value : ℕ) → ejected_by b (block_write b offset width value) ≢ Some 0 }
{}

/// A write touches at most the selected processor.
#[tactic(auto, using(crate::proofs::Ejects::other_stays))]
pub fn a_write_touches_the_selected_processor_alone()
    ensures { (b : Block) (offset width value k : ℕ) → k ≢ b.selector → slot_at (block_write b offset width value) k ≡ slot_at b k }
{}

/// An eject clears the enabled bit and the firmware's bit of the ejected processor: its insert and remove events and
/// all else of the block stay. The answer of a write tells each change of an enabled bit.
#[tactic(auto, using(crate::proofs::Ejects::eject_stays))]
pub fn an_eject_leaves_the_events()
    ensures stays { (b : Block) (offset width value s : ℕ) → ejected_by b (block_write b offset width value) ≡ Some s
        → block_write b offset width value ≡ set_slot b s (record (slot_at b s) { enabled = false; ejecting = false }) }
    ensures told { (b : Block) (offset width value k : ℕ) → (slot_at (block_write b offset width value) k).enabled ≢ (slot_at b k).enabled
        → ejected_by b (block_write b offset width value) ≡ Some k }
{}

/// Of several control bits the lowest of bits 1 to 4 acts alone.
#[tactic(auto, using(crate::proofs::Ejects::lowest_acts))]
pub fn the_lowest_control_bit_acts_alone()
    ensures { (s : Slot) (is_first : Bool) (value : ℕ) → controlled s is_first value ≡ controlled s is_first (lowest_bit value) }
{}

/// A write of command 0 moves the selector to the processor with an event that comes first on the way upward from the selector and
/// round; the selector stays where none has an event. No processor is touched.
#[tactic(auto, using(crate::proofs::Search::search_facts))]
pub fn the_search_finds_the_next_event()
    ensures event { (b : Block) (width value k : ℕ) → b.modern ≡ true → is_selected b ≡ true → is_search width value ≡ true → has_event (slot_at b k) ≡ true
        → has_event (slot_at b (block_write b 5 width value).selector) ≡ true }
    ensures nearest { (b : Block) (width value k : ℕ) → b.modern ≡ true → is_selected b ≡ true → is_search width value ≡ true → has_event (slot_at b k) ≡ true
        → steps_up (length b.slots) b.selector (block_write b 5 width value).selector ≤ steps_up (length b.slots) b.selector k }
    ensures none { (b : Block) (width value : ℕ) → b.modern ≡ true → is_selected b ≡ true → is_search width value ≡ true → ((k : ℕ) → has_event (slot_at b k) ≡ false)
        → (block_write b 5 width value).selector ≡ b.selector }
    ensures slots { (b : Block) (width value : ℕ) → b.modern ≡ true → (block_write b 5 width value).slots ≡ b.slots }
{}
