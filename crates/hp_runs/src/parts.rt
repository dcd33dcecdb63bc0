//! Small platform files that stand in one text, each below a line with the status that it is to have.

use crate::runs::{Fails, run};
use crate::texts::count_lines;
use std::{fs, io};

/// Runs one file and says how it went. Answers whether it has this status, and wrote nothing where the file is refused.
fn play(rt: &HostRuntime, name: &str, status: &str, file: &str) -> io::Result<bool> {
    let bytes = file.as_bytes().to_vec(rt.alloc())?;
    let ran = run(rt.alloc(), "run", bytes, Fails::Nothing)?;
    let answer = ran.answer(rt.alloc())?;
    let lines = count_lines(ran.text.as_str());
    let is_fine = answer.as_str() == status && (lines == 0 || ran.status.code() != 6);
    if is_fine {
        println!(rt; "{name}: status {}, {lines} lines", ran.status.code())?;
    } else {
        println!(rt; "{name}: wanted {status}, found {answer} and {lines} lines")?;
    }
    Ok(is_fine)
}

/// Runs all files of the text, and answers how many went wrong. What stands above the first is a comment.
pub fn play_all(rt: &HostRuntime, file: &str) -> io::Result<u64> {
    let text = fs::read_to_string(rt, file)?;
    let mut failed = 0u64;
    for part in text.split("\n-- ").skip(1) {
        let (head, small) = part.split_once('\n').unwrap_or((part, ""));
        let (status, name) = head.split_once(" | ").unwrap_or((head, "no name"));
        if !play(rt, name, status, small)? {
            failed = failed.saturating_add(1);
        }
    }
    Ok(failed)
}
