//! Cases of one line each: a file, what fails, words, the status and what is written.

use crate::facts::found;
use crate::inputs::{bytes_of, first_lines};
use crate::runs::{Fails, Ran, run};
use crate::texts::{count_lines, first_difference};
use std::alloc::{AllocError, Global};
use std::{fs, io};

/// One line of `cases`.
#[derive(Clone, Copy)]
struct Case<'a> {
    name: &'a str,
    /// A file, or what is made of one.
    input: &'a str,
    fails: Fails,
    words: &'a str,
    /// The exit status and its text.
    status: &'a str,
    written: &'a str,
}

fn fails_of(text: &str) -> Option<Fails> {
    if text == "one byte a read" {
        return Some(Fails::Drips);
    }
    let (what, call) = text.split_once(' ')?;
    let call = call.parse::<u64>().ok()?;
    match what {
        "read" => Some(Fails::Read(call)),
        "write" => Some(Fails::Write(call)),
        _ => None,
    }
}

fn case_of(line: &str) -> Option<Case<'_>> {
    let (name, rest) = line.split_once(" | ")?;
    let (run, rest) = rest.split_once(" | ")?;
    let (status, written) = rest.split_once(" | ")?;
    let (before, input) = run.split_once("< ")?;
    let (fails, words) = match before.split_once(" of ") {
        Some((fails, words)) => (fails_of(fails)?, words),
        None => (Fails::Nothing, before),
    };
    Some(Case {
        name,
        input,
        fails,
        words,
        status,
        written,
    })
}

/// The first fact of the file that doesn't hold of the text, and what does.
fn other_fact(rt: &HostRuntime, file: &str, text: &str) -> io::Result<Option<String>> {
    let facts = fs::read_to_string(rt, file)?;
    for fact in facts.lines() {
        let (of, wanted) = fact.split_once(' ').unwrap_or((fact, ""));
        let found = found(rt.alloc(), of, wanted, text)?;
        if found.as_str() != wanted {
            let other = format!(in rt.alloc(); "wanted {fact}, found {of} {found}")?;
            return Ok(Some(other));
        }
    }
    Ok(None)
}

/// The first line in which the text differs from what is wanted.
fn other_line(alloc: Global, wanted: &str, text: &str) -> Result<Option<String>, AllocError> {
    Ok(match first_difference(wanted, text) {
        Some((line, other)) => Some(format!(in alloc; "wanted {line}, found {other}")?),
        None => None,
    })
}

/// In what the text isn't what is wanted.
fn other_text(rt: &HostRuntime, wanted: &str, text: &str) -> io::Result<Option<String>> {
    if wanted == "nothing" {
        return Ok(match text.lines().next() {
            Some(line) => Some(format!(in rt.alloc(); "wanted nothing, found {line}")?),
            None => None,
        });
    }
    if wanted.ends_with(".want") {
        return other_fact(rt, wanted, text);
    }
    let lines = match wanted.split_once(" lines of ") {
        Some((count, file)) => first_lines(rt, file, count.parse::<usize>().unwrap_or(0))?,
        None => match wanted.strip_prefix("line ") {
            Some(line) => format!(in rt.alloc(); "{line}\n")?,
            None => first_lines(rt, wanted, usize::MAX)?,
        },
    };
    Ok(other_line(rt.alloc(), lines.as_str(), text)?)
}

/// In what the run isn't what is wanted.
fn other_run(rt: &HostRuntime, case: &Case<'_>, ran: &Ran) -> io::Result<Option<String>> {
    let answer = ran.answer(rt.alloc())?;
    if answer.as_str() != case.status {
        let other = format!(in rt.alloc(); "wanted {}, found {answer}", case.status)?;
        return Ok(Some(other));
    }
    other_text(rt, case.written, ran.text.as_str())
}

/// Runs a case and says how it went. Answers whether it went as wanted.
fn play(rt: &HostRuntime, case: &Case<'_>) -> io::Result<bool> {
    let Some(bytes) = bytes_of(rt, case.input)? else {
        println!(rt; "{}: nothing is there to change", case.name)?;
        return Ok(false);
    };
    let ran = run(rt.alloc(), case.words, bytes, case.fails)?;
    match other_run(rt, case, &ran)? {
        Some(other) => {
            println!(rt; "{}: {other}", case.name)?;
            Ok(false)
        }
        None if case.written.ends_with(".want") => {
            println!(rt;
                "{}: status {}, with its facts",
                case.name,
                ran.status.code()
            )?;
            Ok(true)
        }
        None => {
            let lines = count_lines(ran.text.as_str());
            println!(rt;
                "{}: status {}, {lines} lines as written",
                case.name,
                ran.status.code()
            )?;
            Ok(true)
        }
    }
}

/// Runs a case. Answers what is other than wanted.
fn other_case(rt: &HostRuntime, case: &Case<'_>) -> io::Result<Option<String>> {
    let Some(bytes) = bytes_of(rt, case.input)? else {
        return Ok(Some("nothing is there to change".to_string(rt.alloc())?));
    };
    let ran = run(rt.alloc(), case.words, bytes, case.fails)?;
    other_run(rt, case, &ran)
}

/// The line of a case with a number for `n`, and the next for `n+1`.
fn numbered(alloc: Global, line: &str, number: u64) -> Result<String, AllocError> {
    let next = format!(in alloc; "{}", number.saturating_add(1))?;
    let number = format!(in alloc; "< {number} lines")?;
    line.replace(alloc, "< n lines", number.as_str())?
        .replace(alloc, "n+1", next.as_str())
}

/// Runs a case for each number, and says what is wrong. Answers whether each went as wanted.
fn play_each(rt: &HostRuntime, line: &str, from: u64, to: u64) -> io::Result<bool> {
    for number in from..=to {
        let one = numbered(rt.alloc(), line, number)?;
        let Some(case) = case_of(one.as_str()) else {
            println!(rt; "no case: {one}")?;
            return Ok(false);
        };
        if let Some(other) = other_case(rt, &case)? {
            println!(rt; "{}, n = {number}: {other}", case.name)?;
            return Ok(false);
        }
    }
    println!(rt;
        "{}, n from {from} to {to}, as written",
        line.split_once(" | ").unwrap_or((line, "")).0
    )?;
    Ok(true)
}

/// Runs the case of a line, or one for each number where it says `, n from 0 to 83`. Answers whether all went as wanted.
fn play_line(rt: &HostRuntime, line: &str) -> io::Result<bool> {
    if let Some((front, rest)) = line.split_once(", n from ") {
        if let Some((numbers, back)) = rest.split_once(" | ") {
            let (from, to) = numbers.split_once(" to ").unwrap_or((numbers, numbers));
            let one = format!(in rt.alloc(); "{front} | {back}")?;
            return match (from.parse::<u64>(), to.parse::<u64>()) {
                (Ok(from), Ok(to)) => play_each(rt, one.as_str(), from, to),
                _ => Ok(false),
            };
        }
    }
    match case_of(line) {
        Some(case) => play(rt, &case),
        None => {
            println!(rt; "no case: {line}")?;
            Ok(false)
        }
    }
}

/// Runs all cases of the file, and answers how many went wrong. A line that begins with a number sign is a comment.
pub fn play_all(rt: &HostRuntime, file: &str) -> io::Result<u64> {
    let text = fs::read_to_string(rt, file)?;
    let mut failed = 0u64;
    for line in text.lines() {
        if line.is_empty() || line.starts_with('#') {
            continue;
        }
        if !play_line(rt, line)? {
            failed = failed.saturating_add(1);
        }
    }
    Ok(failed)
}
