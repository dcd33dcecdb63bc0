//! Reads the whole input, up to a limit.

ghost use Rattle.std.specs.Prelude.{◌≡◌, ◌≤◌, ◌<◌, ◌+◌, MatchResult};
ghost use Rattle.hp_top.specs.Input.{HasRead, StaysReading, StopsReading, limit};

use crate::outside::Source;
use std::alloc::Global;

/// How many bytes a platform file may have.
pub const LIMIT: usize = 1_048_576;

/// How many bytes are asked for at once.
pub(crate) const PIECE: usize = 16_384;

/// Why the input wasn't read to its end.
#[derive(Clone, Copy)]
pub(crate) enum ReadStop {
    ReadFault,
    TooLong,
    NoMemory,
}

/// Reads to the end, or up to one byte past the limit. A read that fails takes nothing.
pub(crate) fn read_all<S: Source>(alloc: Global, src: &mut S) -> Result<Vec<u8>, ReadStop>
    ensures later { S.faults src.old ≤ S.faults src.new }
    ensures ends { MatchResult result (λ all. HasRead limit (S.left src.old) (S.left src.new) all.items)
        (λ stop. StopsReading limit (S.left src.old) (S.left src.new) (S.faults src.old) (S.faults src.new) stop) }
    ensures calm { MatchResult result (λ all. S.faults src.new ≡ S.faults src.old)
        (λ stop. StaysReading (S.faults src.old) (S.faults src.new) stop) }
{
    let mut all = Vec::new(alloc);
    let mut piece = [0u8; PIECE];
    'source: while all.len() <= LIMIT {
        // not past the byte that tells that the input is too long
        let most = PIECE.min(LIMIT + 1 - all.len());
        let count = match src.read(&mut piece[..most]) {
            Ok(count) => count,
            Err(_) => return Err(ReadStop::ReadFault),
        };
        if count == 0 {
            return Ok(all);
        }
        if all.extend_from_slice(&piece[..count]).is_err() {
            return Err(ReadStop::NoMemory);
        }
    }
    Err(ReadStop::TooLong)
}
