//! Whether a list of entries is a run.

ghost use Rattle.std.specs.Prelude.{◌≡◌, ◌<◌, ◌+◌, ◌^◌, ◌∷◌, [], false, length, IfSome, None};
ghost use Rattle.hp_model.specs.Platform.{IsFit};
ghost use Rattle.hp_check.specs.Checking.{Checks, Walks};

use crate::walks::Walk;
use hp_exact::runs_are_safe;
use hp_model::{Entry, NoMemory, Platform};
use std::alloc::Global;
use thiserror::Error;

/// Why a list of entries isn't found to be a run.
#[derive(Debug, Drop, Error)]
pub enum Fault {
    /// The entry of this number, from 1, is no step after those before it.
    #[error("entry {} is no step", .0)]
    NotAStep(u64),
    #[error("no memory")]
    NoMemory,
}

/// The first of these entries, and those behind it.
fn first_of(entries: &[Entry]) -> Option<(&Entry, &[Entry])>
    ensures some { IfSome result (λ next. entries.now ≡ next.0.now ∷ next.1.now) }
    ensures none { result ≡ None → entries.now ≡ [] }
{
    match entries {
        [first, more @ ..] => Some((first, more)),
        [] => None,
    }
}

/// Goes on by entries of which the first has this number.
fn walk_on(walk: &mut Walk, entries: &[Entry], number: u64) -> Result<(), Fault>
    requires going { walk.old.stopped ≡ false }
    requires few { number + length entries.now < 2 ^ 64 }
    ensures { Walks walk.old entries.now number result }
{
    let mut rest = entries;
    let mut next = number;
    'entries: while let Some((first, more)) = first_of(rest) {
        match walk.step(first) {
            Ok(true) => {}
            Ok(false) => return Err(Fault::NotAStep(next)),
            Err(NoMemory) => return Err(Fault::NoMemory),
        }
        next += 1;
        rest = more;
    }
    Ok(())
}

/// Whether these entries are a run of the platform from its start. `Ok` exactly where they are, and then the run is safe: every
/// instruction executed in SMM lies in SMRAM locked before it, no two processors hold one relocated SMBASE, a processor's SMBASE
/// changes only after passing the gate while the monarch had named its APIC ID, and in each undisturbed session completed adds and
/// ejects change exactly the processors reported, each refusal naming its fact. `NotAStep` has the number, from 1, of the first that
/// is no step of the machine after those before it, or has another answer or instruction address than that step.
pub fn check(alloc: Global, p: &Platform, entries: &[Entry]) -> Result<(), Fault>
    requires { IsFit p.now }
    ensures { Checks p.now entries.now result }
{
    runs_are_safe();
    let mut walk = match Walk::new(alloc, p) {
        Ok(walk) => walk,
        Err(NoMemory) => return Err(Fault::NoMemory),
    };
    walk_on(&mut walk, entries, 1)
}
