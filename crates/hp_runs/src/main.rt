//! Runs platform files through the top call, and compares what it answers and writes with what the data want. README.md has
//! the forms of the data.
#![tactic(auto)]

mod cases;
mod facts;
mod inputs;
mod masks;
mod parts;
mod runs;
mod texts;

use std::io;
use std::process::ExitCode;

fn main(rt: HostRuntime) -> io::Result<ExitCode> {
    let mut failed = cases::play_all(&rt, "cases")?;
    for file in [
        "shapes",
        "rules",
        "sizes",
        "kinds",
        "features",
        "changed_adds",
    ] {
        failed = failed.saturating_add(parts::play_all(&rt, file)?);
    }
    failed = failed.saturating_add(cases::play_all(&rt, "checks")?);
    failed = failed.saturating_add(masks::play_all(&rt, "changed_bytes", "an_add.out")?);
    failed = failed.saturating_add(cases::play_all(&rt, "numbers")?);
    Ok(if failed == 0 {
        ExitCode::SUCCESS
    } else {
        ExitCode::FAILURE
    })
}
