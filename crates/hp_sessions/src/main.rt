//! Plays the cases of data/ over the firmware alone, without a machine or memory, and says of each whether all its lines came out.
#![tactic(auto)]

mod answers;
mod cases;
mod firmware;
mod seats;
mod words;

use cases::{Verdict, play};
use std::process::ExitCode;
use std::{fs, io};

/// The text of the case with this name.
fn read_case(rt: &HostRuntime, name: &str) -> io::Result<String> {
    let path = format!(in rt.alloc(); "{name}.txt")?;
    fs::read_to_string(rt, path.as_str())
}

/// Plays one case and prints its verdict. Answers whether all its lines came out.
fn judge(rt: &HostRuntime, name: &str) -> io::Result<bool> {
    let text = read_case(rt, name)?;
    match play(rt.alloc(), text.as_str()) {
        Ok(Verdict::Holds(lines)) => {
            println!(rt; "{name}: {lines} lines")?;
            Ok(true)
        }
        Ok(Verdict::Empty) => {
            println!(rt; "{name}: no line that is compared")?;
            Ok(false)
        }
        Ok(Verdict::Fails(fault)) => {
            let line = fault.line;
            println!(rt;
                "{name}, line {line}: wanted {}, found {}",
                fault.wanted, fault.found
            )?;
            Ok(false)
        }
        Err(_) => Err(io::Error::from(io::ErrorKind::OutOfMemory)),
    }
}

fn main(rt: HostRuntime) -> io::Result<ExitCode> {
    let names = fs::read_to_string(&rt, "names")?;
    let mut status = ExitCode::SUCCESS;
    for name in names.lines() {
        if !judge(&rt, name)? {
            status = ExitCode::FAILURE;
        }
    }
    Ok(status)
}
