//! Whether two memories have the same bytes, but for hidden addresses.

ghost use Rattle.std.specs.Prelude.{◌≡◌, ◌↔◌, ◌+◌, ◌*◌, ◌^◌, ◌<◌, ◌≤◌, length, IsTrue};
ghost use Rattle.hp_model.specs.Spans.{in_some_span};
ghost use Rattle.hp_mem.specs.Pages.{ArePages, byte_by, byte_in};
ghost use Rattle.hp_mem.specs.Same.{SameAt, SameFrom, SameOutside};

use crate::pages::{PAGE, entry_of};
use hp_model::Span;

/// Whether an address is in one of the spans.
fn is_hidden(hidden: &[Span], addr: u32) -> bool
    ensures { result ≡ in_some_span hidden.now addr }
{
    hidden
        .iter()
        .any(|span| span.from <= addr && addr <= span.to)
}

/// The byte at an address, by the entry of its page.
fn byte_by_entry(bytes: &[u8], entry: usize, addr: u32) -> u8
    requires { entry * 4096 ≤ length bytes.now }
    ensures { result ≡ byte_by entry bytes.now addr }
{
    if entry == 0 {
        return 0;
    }
    bytes[(entry - 1) * PAGE + addr as usize % PAGE]
}

/// Whether an address is hidden, or has the same byte by both entries.
fn is_same_byte(
    ours: &[u8],
    our_entry: usize,
    theirs: &[u8],
    their_entry: usize,
    hidden: &[Span],
    addr: u32,
) -> bool
    requires ours { our_entry * 4096 ≤ length ours.now }
    requires theirs { their_entry * 4096 ≤ length theirs.now }
    ensures { IsTrue result ↔ SameAt (byte_by our_entry ours.now) (byte_by their_entry theirs.now) hidden.now addr }
{
    byte_by_entry(ours, our_entry, addr) == byte_by_entry(theirs, their_entry, addr)
        || is_hidden(hidden, addr)
}

/// Whether a page has the same bytes by both entries, but for hidden addresses.
#[tactic(auto, using(crate::proofs::Comparing::page_facts))]
fn is_same_page(
    ours: &[u8],
    our_entry: usize,
    theirs: &[u8],
    their_entry: usize,
    hidden: &[Span],
    page: u32,
) -> bool
    requires ours { our_entry * 4096 ≤ length ours.now }
    requires theirs { their_entry * 4096 ≤ length theirs.now }
    requires page { page < 2 ^ 20 }
    ensures { IsTrue result ↔ SameFrom (byte_by our_entry ours.now) (byte_by their_entry theirs.now) hidden.now (page * 4096) 4096 }
{
    if our_entry == 0 && their_entry == 0 {
        return true;
    }
    for offset in 0..4096u32 {
        if !is_same_byte(
            ours,
            our_entry,
            theirs,
            their_entry,
            hidden,
            page * 4096 + offset,
        ) {
            return false;
        }
    }
    true
}

/// Whether all pages have the same bytes, but for hidden addresses.
#[tactic(auto, using(crate::proofs::Comparing::memory_facts))]
pub fn are_same_pages(
    our_directory: &[usize],
    ours: &[u8],
    their_directory: &[usize],
    theirs: &[u8],
    hidden: &[Span],
) -> bool
    requires ours { ArePages our_directory.now ours.now }
    requires theirs { ArePages their_directory.now theirs.now }
    ensures { IsTrue result ↔ SameOutside (byte_in our_directory.now ours.now) (byte_in their_directory.now theirs.now) hidden.now }
{
    let pages = our_directory.len().max(their_directory.len());
    for page in 0..pages as u32 {
        let our_entry = entry_of(our_directory, page as usize);
        let their_entry = entry_of(their_directory, page as usize);
        if !is_same_page(ours, our_entry, theirs, their_entry, hidden, page) {
            return false;
        }
    }
    true
}
