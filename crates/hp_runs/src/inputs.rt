//! What a case gives to read: a file, the first lines of one, one with a change in a line, or so many number signs.

use std::alloc::{AllocError, Global};
use std::{fs, io};

/// Puts a text behind the bytes. `\xff` in it is that byte, which no UTF-8 has.
fn put(bytes: &mut Vec<u8>, text: &str) -> Result<(), AllocError> {
    let mut parts = text.split("\\xff");
    if let Some(first) = parts.next() {
        bytes.extend_from_slice(first.as_bytes())?;
    }
    for part in parts {
        bytes.push(0xff)?;
        bytes.extend_from_slice(part.as_bytes())?;
    }
    Ok(())
}

/// The text with what `\n` and `\r` in it stand for.
fn unescaped(alloc: Global, text: &str) -> Result<String, AllocError> {
    text.replace(alloc, "\\n", "\n")?
        .replace(alloc, "\\r", "\r")
}

/// The bytes of a text in whose line with this number, line feed and all, the new stands for the old; none where the old isn't there.
fn changed(
    alloc: Global,
    text: &str,
    number: u64,
    old: &str,
    new: &str,
) -> Result<Option<Vec<u8>>, AllocError> {
    let mut bytes = Vec::new(alloc);
    let mut at = 0u64;
    let mut is_changed = false;
    for line in text.split_inclusive('\n') {
        at = at.saturating_add(1);
        match line.split_once(old) {
            Some((front, back)) if at == number => {
                put(&mut bytes, front)?;
                put(&mut bytes, new)?;
                put(&mut bytes, back)?;
                is_changed = true;
            }
            _ => put(&mut bytes, line)?,
        }
    }
    Ok(if is_changed { Some(bytes) } else { None })
}

/// A file with a change, which is written `line 6: 9c ff => 9c FF`.
fn change_of(rt: &HostRuntime, file: &str, change: &str) -> io::Result<Option<Vec<u8>>> {
    let text = fs::read_to_string(rt, file)?;
    let Some((place, words)) = change.split_once(": ") else {
        return Ok(None);
    };
    let Some((old, new)) = words.split_once(" =>") else {
        return Ok(None);
    };
    let number = place
        .trim_start_matches("line ")
        .parse::<u64>()
        .unwrap_or(0);
    let old = unescaped(rt.alloc(), old)?;
    let new = unescaped(rt.alloc(), new.strip_prefix(' ').unwrap_or(""))?;
    Ok(changed(
        rt.alloc(),
        text.as_str(),
        number,
        old.as_str(),
        new.as_str(),
    )?)
}

/// The first lines of a file, so many.
pub fn first_lines(rt: &HostRuntime, file: &str, count: usize) -> io::Result<String> {
    let whole = fs::read_to_string(rt, file)?;
    let mut lines = String::new(rt.alloc());
    for line in whole.lines().take(count) {
        lines.push_str(line)?;
        lines.push_str("\n")?;
    }
    Ok(lines)
}

/// What is read; none where the file hasn't what is to be changed.
pub fn bytes_of(rt: &HostRuntime, input: &str) -> io::Result<Option<Vec<u8>>> {
    if let Some((count, _)) = input.split_once(" number signs") {
        let count = count.parse::<usize>().unwrap_or(0);
        return Ok(Some(vec![in rt.alloc(); b'#'; count]?));
    }
    if let Some((count, file)) = input.split_once(" lines of ") {
        let lines = first_lines(rt, file, count.parse::<usize>().unwrap_or(0))?;
        return Ok(Some(lines.as_bytes().to_vec(rt.alloc())?));
    }
    match input.split_once(", ") {
        Some((file, change)) => change_of(rt, file, change),
        None => Ok(Some(fs::read(rt, input)?)),
    }
}
