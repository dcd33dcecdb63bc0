//! Reads lines of traces and script steps, and compares with what the data say of each. README.md has the forms of the data.
#![tactic(auto)]

mod forms;
mod near;
mod traces;

use forms::{Form, or_error};
use std::process::ExitCode;
use std::{fs, io};

/// Tries all lines of one form, and says how many there are. Answers whether all are as the data say.
fn try_form(rt: &HostRuntime, form: Form, name: &str, text: &str) -> io::Result<bool> {
    let mut count = 0u64;
    let mut is_fine = true;
    for line in text.lines() {
        let Some((said, shown)) = line.split_once(" \"") else {
            continue;
        };
        if said.trim_start_matches("no ") != name {
            continue;
        }
        count = count.saturating_add(1);
        let quoted = shown
            .trim_end_matches('"')
            .replace(rt.alloc(), "\\n", "\n")?;
        if or_error(form.has(rt.alloc(), quoted.as_bytes()))? == said.starts_with("no ") {
            println!(rt; "not {line}")?;
            is_fine = false;
        }
    }
    println!(rt; "{name}: {count} texts")?;
    Ok(is_fine)
}

fn main(rt: HostRuntime) -> io::Result<ExitCode> {
    let text = fs::read_to_string(&rt, "lines")?;
    let mut is_fine = true;
    for (form, name) in [
        (Form::Entry, "entry"),
        (Form::Header, "header"),
        (Form::End, "end"),
        (Form::Step, "step"),
    ] {
        is_fine = try_form(&rt, form, name, text.as_str())? && is_fine;
    }
    is_fine = near::try_near(&rt, text.as_str())? && is_fine;
    for file in ["an_add", "lines_after_the_end", "no_header"] {
        traces::read_trace(&rt, file)?;
    }
    Ok(if is_fine {
        ExitCode::SUCCESS
    } else {
        ExitCode::FAILURE
    })
}
