//! Which processor gets no turn, asked turn after turn.

ghost use Rattle.std.specs.Prelude.{◌≡◌, ℕ, List, ◌+◌, ◌<◌, ◌≤◌, ◌∷◌, true, false, nat_lt, IfOk, IfSome, None, length, slice_index_or};
ghost use Rattle.hp_model.specs.declared.files.Stall.{Stall as StallValue};
ghost use Rattle.hp_model.specs.Schedule.{is_stalled};
ghost use Rattle.hp_top.specs.Stalls.{Tracks, begun};
ghost use Rattle.hp_top.specs.Turns.{Rises, start_of};

use hp_model::{NoMemory, Stall};
use std::alloc::Global;
use std::marker::Model;

/// The stalls by the turn they start.
pub(crate) fn by_start(alloc: Global, stalls: &[Stall]) -> Result<Vec<Stall>, NoMemory>
    ensures rises { IfOk result (λ sorted. Rises start_of 0 sorted.items) }
    ensures same { IfOk result (λ sorted. (k t : ℕ) → is_stalled sorted.items k t ≡ is_stalled stalls.now k t) }
{
    let mut sorted = Vec::from_slice(alloc, stalls)?;
    sorted.sort_by_key(|s| s.from)?;
    Ok(sorted)
}

/// The first of these stalls if it starts by this turn, and those after it.
#[tactic(auto, using(crate::proofs::Tracking::none_begun))]
fn next_begun(stalls: &[Stall], turn: u32) -> Option<(Stall, &[Stall])>
    ensures some { IfSome result (λ next. stalls.now ≡ next.0 ∷ next.1.now) }
    ensures begun { IfSome result (λ next. next.0.from ≤ turn) }
    ensures none { result ≡ None → Rises start_of 0 stalls.now → (k : ℕ) → is_stalled stalls.now k turn ≡ false }
{
    match stalls {
        [first, more @ ..] => {
            if first.from <= turn {
                Some((*first, more))
            } else {
                None
            }
        }
        [] => None,
    }
}

/// A stall has begun: its processor gets no turn up to its last.
fn begin(until: &mut Vec<u64>, stall: &Stall)
    ensures { until.new.items ≡ begun stall.now until.old.items }
{
    let place = stall.cpu as usize;
    let last = u64::from(stall.to);
    if place < until.len() && until[place] <= last {
        until[place] = last + 1;
    }
}

/// The stalls that haven't begun, by the turn they start; and for each processor the turn after the last that a begun
/// one keeps from it.
#[derive(Drop)]
pub(crate) struct Stalled<'s> {
    rest: &'s [Stall],
    until: Vec<u64>,
}

impl<'s> Model for Stalled<'s> {
    ghost use Rattle.hp_top.specs.Stalls.{Stalled};

    ghost Value = { Stalled };

    ghost view = { λ s. record { rest = s.rest.now; until = s.until.items } };
}

impl<'s> Stalled<'s> {
    /// Of stalls by the turn they start, for so many processors.
    pub(crate) fn new(
        alloc: Global,
        sorted: &'s [Stall],
        count: usize,
    ) -> Result<Stalled<'s>, NoMemory>
        ensures rest { IfOk result (λ s. s.rest ≡ sorted.now) }
        ensures count { IfOk result (λ s. length s.until ≡ count) }
        ensures tracks { IfOk result (Tracks sorted.now 0) }
    {
        let until = vec![in alloc; 0u64; count]?;
        Ok(Stalled {
            rest: sorted,
            until,
        })
    }

    /// The first stall that is left if it starts by this turn, and those after it.
    fn next(&self, turn: u32) -> Option<(Stall, &'s [Stall])>
        ensures some { IfSome result (λ next. self.now.rest ≡ next.0 ∷ next.1.now) }
        ensures begun { IfSome result (λ next. next.0.from ≤ turn) }
        ensures none { result ≡ None → Rises start_of 0 self.now.rest → (k : ℕ) → is_stalled self.now.rest k turn ≡ false }
    {
        next_begun(self.rest, turn)
    }

    /// That stall has begun, and those after it are left.
    fn take(&mut self, stall: &Stall, more: &'s [Stall])
        ensures rest { self.new.rest ≡ more.now }
        ensures until { self.new.until ≡ begun stall.now self.old.until }
    {
        begin(&mut self.until, stall);
        self.rest = more;
    }

    /// Takes what has begun by this turn.
    #[tactic(auto, using(crate::proofs::Tracking::tracking))]
    fn reach(&mut self, turn: u32)
        ensures tracks { (all : List StallValue) → Tracks all turn self.old → Tracks all turn self.new }
        ensures rises { Rises start_of 0 self.old.rest → Rises start_of 0 self.new.rest }
        ensures none { Rises start_of 0 self.old.rest → (k : ℕ) → is_stalled self.new.rest k turn ≡ false }
        ensures count { length self.new.until ≡ length self.old.until }
    {
        'begun: while let Some((stall, more)) = self.next(turn) {
            self.take(&stall, more);
        }
    }

    /// Whether a stall keeps this turn from the processor. Takes no turn before one that it was asked for.
    #[tactic(auto, using(crate::proofs::Tracking::tracking))]
    pub(crate) fn holds(&mut self, cpu: u32, turn: u32) -> bool
        ensures value { (all : List StallValue) → Tracks all turn self.old → Rises start_of 0 self.old.rest → cpu < length self.old.until → result ≡ is_stalled all cpu turn }
        ensures tracks { (all : List StallValue) → Tracks all turn self.old → Tracks all (turn + 1) self.new }
        ensures rises { Rises start_of 0 self.old.rest → Rises start_of 0 self.new.rest }
        ensures count { length self.new.until ≡ length self.old.until }
    {
        self.reach(turn);
        match self.until.get(cpu as usize) {
            Some(until) => u64::from(turn) < *until,
            None => false,
        }
    }
}
