//! Plays the case files that data/names lists over machines, and writes of each whether all its lines came out.
#![tactic(auto)]

mod case_files;
mod facts;
mod looks;
mod players;
mod steps;

use case_files::{Verdict, verdict_of};
use hp_model::NoMemory;
use std::alloc::Global;
use std::fs;
use std::io::{self, Write};
use std::process::ExitCode;

/// The line that tells of a case file.
fn report(alloc: Global, name: &str, verdict: &Verdict) -> Result<Vec<u8>, NoMemory> {
    match verdict {
        Verdict::Kept(lines) => Ok(format!(in alloc; "{name}: {lines} lines\n")?.into_bytes()),
        Verdict::Broken {
            line,
            wanted,
            found,
        } => {
            let mut text = format!(in alloc;
                "{name}, line {line}: wanted {wanted}, found "
            )?.into_bytes();
            text.extend_from_slice(found.as_slice())?;
            text.push(b'\n')?;
            Ok(text)
        }
    }
}

/// The only want of this program that is no fault of a file.
fn no_memory(_: NoMemory) -> io::Error {
    io::Error::from(io::ErrorKind::OutOfMemory)
}

/// Plays `NAME.txt` and tells of it. Answers whether all its lines came out; a file that can't be read is an error.
fn play(rt: &HostRuntime, name: &str) -> io::Result<bool> {
    let alloc = rt.alloc();
    let path = format!(in alloc; "{name}.txt")?;
    let text = fs::read_to_string(rt, path.as_str())?;
    let verdict = verdict_of(alloc, text.as_str()).map_err(no_memory)?;
    let told = report(alloc, name, &verdict).map_err(no_memory)?;
    io::writer(rt).write_all(told.as_slice())?;
    Ok(matches!(verdict, Verdict::Kept(_)))
}

/// Plays all files, also after one that did not come out.
fn main(rt: HostRuntime) -> io::Result<ExitCode> {
    let names = fs::read_to_string(&rt, "names")?;
    let mut all_kept = true;
    for name in names.lines() {
        if !play(&rt, name)? {
            all_kept = false;
        }
    }
    Ok(if all_kept {
        ExitCode::SUCCESS
    } else {
        ExitCode::FAILURE
    })
}
