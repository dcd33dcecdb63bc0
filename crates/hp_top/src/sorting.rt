//! The host events of a file, turn by turn.

ghost use Rattle.std.specs.Prelude.{◌≡◌, ℕ, IfOk};
ghost use Rattle.hp_top.specs.Turns.{Rises, at_turn, turn_of};

use hp_model::{HostEvent, NoMemory};
use std::alloc::Global;

/// The host events by turn; those of one turn stay in the order of the file.
pub(crate) fn by_turn(alloc: Global, hosts: &[HostEvent]) -> Result<Vec<HostEvent>, NoMemory>
    ensures rises { IfOk result (λ sorted. Rises turn_of 0 sorted.items) }
    ensures same { IfOk result (λ sorted. (turn : ℕ) → at_turn turn sorted.items ≡ at_turn turn hosts.now) }
{
    let mut sorted = Vec::from_slice(alloc, hosts)?;
    sorted.sort_by_key(|h| h.turn)?;
    Ok(sorted)
}
