//! Entries and the end line, read from their lines.

ghost use Rattle.std.specs.Prelude.{◌≡◌, None};
ghost use Rattle.hp_reading.specs.Lines.{entry as quiet_entry, only, access_line, outside_line, told_line, inside_line, address_line, behind_cpu, cpu_line, host_line, entry_of, end_of};

use crate::accesses::access_of;
use crate::fronts::{decimal, hex, past};
use crate::groups::last_decimal;
use crate::outcomes::outcome_of;
use hp_model::{Answer, Entry, Event};

fn quiet(event: Event, at: Option<u32>) -> Entry
    ensures { result ≡ quiet_entry event at }
{
    Entry {
        event,
        at,
        answer: Answer::Quiet,
    }
}

/// An entry with nothing behind it.
fn only_quiet(event: Event, at: Option<u32>, text: &[u8]) -> Option<Entry>
    ensures { result ≡ only (quiet_entry event at) text.now }
{
    if text.is_empty() {
        Some(quiet(event, at))
    } else {
        None
    }
}

fn access(cpu: u32, at: Option<u32>, text: &[u8]) -> Option<Entry>
    ensures { result ≡ access_line cpu at text.now }
{
    let made = access_of(text)?;
    Some(Entry {
        event: Event::Do(cpu, made.access),
        at,
        answer: made.answer,
    })
}

/// What a processor does outside SMM.
fn outside(cpu: u32, text: &[u8]) -> Option<Entry>
    ensures { result ≡ outside_line cpu text.now }
{
    if let Some(rest) = past(text, b"smi") {
        return only_quiet(Event::TakeSmi(cpu), None, rest);
    }
    if let Some(rest) = past(text, b"init") {
        return only_quiet(Event::TakeInit(cpu), None, rest);
    }
    access(cpu, None, text)
}

fn told(cpu: u32, at: u32, text: &[u8]) -> Option<Entry>
    ensures { result ≡ told_line cpu at text.now }
{
    if cpu != 0 {
        return None;
    }
    let outcome = outcome_of(text)?;
    Some(quiet(Event::Tell(outcome), Some(at)))
}

/// What a processor does in SMM, at the address of its instruction.
fn inside(cpu: u32, at: u32, text: &[u8]) -> Option<Entry>
    ensures { result ≡ inside_line cpu at text.now }
{
    if let Some(rest) = past(text, b"rsm") {
        return only_quiet(Event::Resume(cpu), Some(at), rest);
    }
    if let Some(rest) = past(text, b"tell ") {
        return told(cpu, at, rest);
    }
    access(cpu, Some(at), text)
}

fn address(cpu: u32, text: &[u8]) -> Option<Entry>
    ensures { result ≡ address_line cpu text.now }
{
    let (at, rest) = hex(text, 8)?;
    inside(cpu, at as u32, past(rest, b" ")?)
}

fn behind(cpu: u32, text: &[u8]) -> Option<Entry>
    ensures { result ≡ behind_cpu cpu text.now }
{
    if let Some(rest) = past(text, b" @") {
        return address(cpu, rest);
    }
    if let Some(rest) = past(text, b" ") {
        return outside(cpu, rest);
    }
    None
}

fn processor(text: &[u8]) -> Option<Entry>
    ensures { result ≡ cpu_line text.now }
{
    let (cpu, rest) = decimal(text, 0xffffffff)?;
    behind(cpu as u32, rest)
}

fn host(text: &[u8]) -> Option<Entry>
    ensures { result ≡ host_line text.now }
{
    if let Some(rest) = past(text, b"insert ") {
        let cpu = last_decimal(rest, 0xffffffff)?;
        return Some(quiet(Event::Insert(cpu as u32), None));
    }
    if let Some(rest) = past(text, b"remove ") {
        let cpu = last_decimal(rest, 0xffffffff)?;
        return Some(quiet(Event::Remove(cpu as u32), None));
    }
    None
}

/// The entry whose line this is, without its line feed; None exactly where it is no entry's line.
#[tactic(auto, unfolding(crate::specs::Lines::entry_of))]
pub fn read_entry(line: &[u8]) -> Option<Entry>
    ensures { result ≡ entry_of line.now }
{
    if let Some(rest) = past(line, b"host ") {
        return host(rest);
    }
    if let Some(rest) = past(line, b"p") {
        return processor(rest);
    }
    None
}

/// The number of an end line, without its line feed; None exactly where it is no end line.
#[tactic(auto, unfolding(crate::specs::Lines::end_of))]
pub fn end_number(line: &[u8]) -> Option<u64>
    ensures { result ≡ end_of line.now }
{
    if let Some(rest) = past(line, b"end ") {
        return last_decimal(rest, 0xffffffffffffffff);
    }
    None
}
