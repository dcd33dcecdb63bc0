//! Facts of a written text: what it tells, the line in a place, how many lines are one or begin so.

use std::alloc::{AllocError, Global};

/// The outcomes that are told, in order.
fn told(alloc: Global, text: &str) -> Result<String, AllocError> {
    let mut all = String::new(alloc);
    for line in text.lines() {
        if let Some((_cpu, outcome)) = line.split_once(" tell ") {
            if !all.is_empty() {
                all.push_str(", ")?;
            }
            all.push_str(outcome)?;
        }
    }
    if all.is_empty() {
        all.push_str("nothing")?;
    }
    Ok(all)
}

/// How many lines are this one, or begin so.
fn count(text: &str, what: &str, is_front: bool) -> u64 {
    let mut count = 0u64;
    for line in text.lines() {
        if line == what || is_front && line.starts_with(what) {
            count = count.saturating_add(1);
        }
    }
    count
}

/// The line with this number, counted from 1.
fn line_at(text: &str, number: u64) -> &str {
    let mut at = 0u64;
    for line in text.lines() {
        at = at.saturating_add(1);
        if at == number {
            return line;
        }
    }
    "nothing"
}

/// What is found of the text, in the form in which `wanted` has it.
pub fn found(alloc: Global, of: &str, wanted: &str, text: &str) -> Result<String, AllocError> {
    if of == "tells" {
        return told(alloc, text);
    }
    let (number, what) = wanted.split_once(' ').unwrap_or((wanted, ""));
    let number = number.parse::<u64>().unwrap_or(0);
    match of {
        "line" => format!(in alloc; "{number} {}", line_at(text, number)),
        "times" => format!(in alloc; "{} {what}", count(text, what, false)),
        "least" => format!(in alloc; "{} {what}", count(text, what, false).min(number)),
        "begin" => format!(in alloc; "{} {what}", count(text, what, true)),
        _ => "no such fact".to_string(alloc),
    }
}
