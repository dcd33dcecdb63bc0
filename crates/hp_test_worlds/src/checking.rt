//! Lists of entries, checked as a list and one by one.

ghost use Rattle.hp_model.specs.Platform.{IsFit};

use hp_check::{Fault as CheckFault, Walk, check};
use hp_model::{Entry, NoMemory, Platform};
use std::alloc::Global;

/// So many of the first entries, and these behind them.
fn joined(
    alloc: Global,
    entries: &[Entry],
    first: usize,
    more: &[Entry],
) -> Result<Vec<Entry>, NoMemory> {
    let mut list = Vec::new(alloc);
    for entry in entries.iter().take(first) {
        list.push(*entry)?;
    }
    for entry in more {
        list.push(*entry)?;
    }
    Ok(list)
}

/// The number of the entry at which a walk stops; 0 where it goes on to the end.
fn stop_of(walk: &mut Walk, entries: &[Entry]) -> Result<u64, NoMemory> {
    let mut number = 0u64;
    for entry in entries {
        number = number.saturating_add(1);
        if walk.stopped() || !walk.step(entry)? {
            break;
        }
    }
    Ok(if walk.stopped() { number } else { 0 })
}

/// The number of the entry at which a walk of its own stops.
fn walked(alloc: Global, p: &Platform, entries: &[Entry]) -> Result<u64, NoMemory>
    requires { IsFit p.now }
{
    let mut walk = Walk::new(alloc, p)?;
    stop_of(&mut walk, entries)
}

/// The number of the first that is no step; 0 where they are a run.
fn checked(alloc: Global, p: &Platform, entries: &[Entry]) -> Result<u64, NoMemory>
    requires { IsFit p.now }
{
    match check(alloc, p, entries) {
        Ok(()) => Ok(0),
        Err(CheckFault::NotAStep(number)) => Ok(number),
        Err(CheckFault::NoMemory) => Err(NoMemory),
    }
}

/// What a check of the list, and a walk by its entries, stop at: so many of the first entries, and these behind them.
pub(crate) fn stops(
    alloc: Global,
    p: &Platform,
    entries: &[Entry],
    first: usize,
    more: &[Entry],
) -> Result<(u64, u64), NoMemory>
    requires { IsFit p.now }
{
    let list = joined(alloc, entries, first, more)?;
    let number = checked(alloc, p, list.as_slice())?;
    let stop = walked(alloc, p, list.as_slice())?;
    Ok((number, stop))
}
