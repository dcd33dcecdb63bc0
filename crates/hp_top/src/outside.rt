//! The two traits by which bytes come in and go out.

ghost use Rattle.std.specs.Prelude.{◌<◌, ℕ, List, Option, Result, length, IfOk};
ghost use Rattle.std.specs.Io.{ReadsAtMost, WritesAtMost};
ghost use Rattle.std.specs.Io.KnownBytes.{ReadConsumes, WriteAppends};
ghost use Rattle.hp_top.specs.Faults.{HasCause, StopsFor};

/// A read failed. Nothing was read by that call.
#[derive(Clone, Copy, Debug, PartialEq)]
pub struct Failed;

/// Why a write took nothing.
#[derive(Clone, Copy, Debug, PartialEq)]
pub enum WriteStop {
    /// The outside refused. The count of faults rose.
    Failed,
    /// Want of memory. The sink holds what it held.
    NoMemory,
}

/// Where bytes come from.
///
/// Contracts see what is `left`, where the source tells that, and a count of `faults`, which never falls. A count has
/// risen in a call where it is greater at the exit than at the entry, or stands at 2^64 - 1, its last value.
pub trait Source {
    ghost left: { Self → Option (List ℕ) };

    ghost faults: { Self → ℕ };

    /// Reads up to the buffer's length. 0 into a buffer that isn't empty is the end. `Failed` comes only where the count
    /// of faults rose, and then what is left is as it was.
    fn read(&mut self, buf: &mut [u8]) -> Result<usize, Failed>
        ensures bound { ReadsAtMost result buf.new }
        ensures bytes { ReadConsumes (left self.old) (left self.new) result buf.new }
        ensures cause { HasCause (faults self.old) (faults self.new) result };
}

/// Where bytes go to.
///
/// Contracts see what is `held`, where the sink tells that, and a count of `faults`, as for a source.
pub trait Sink {
    ghost held: { Self → Option (List ℕ) };

    ghost faults: { Self → ℕ };

    /// Takes the first bytes of the piece, and answers how many: at least one of a piece that isn't empty. After an
    /// error the sink holds what it held.
    fn write(&mut self, buf: &[u8]) -> Result<usize, WriteStop>
        ensures bound { WritesAtMost result buf.now }
        ensures took { IfOk result (λ n. 0 < length buf.now → 0 < n) }
        ensures bytes { WriteAppends (held self.old) (held self.new) result buf.now }
        ensures cause { StopsFor (faults self.old) (faults self.new) result };
}
