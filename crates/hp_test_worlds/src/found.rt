//! What came where another thing was to come.

use hp_model::NoMemory;
use std::alloc::Global;

/// What came, and in place of what; None where that came which was to come.
pub(crate) type Found = Option<String>;

pub(crate) fn shown(alloc: Global, found: &str, want: &str) -> Result<Found, NoMemory> {
    Ok(Some(format!(in alloc; "{found} for {want}")?))
}

/// Whether this number is the one that was to come.
pub(crate) fn number(alloc: Global, found: u64, want: u64) -> Result<Found, NoMemory> {
    if found == want {
        Ok(None)
    } else {
        Ok(Some(format!(in alloc; "{found} for {want}")?))
    }
}

/// Whether this line is the one that was to come.
pub(crate) fn line(alloc: Global, found: &[u8], want: &str) -> Result<Found, NoMemory> {
    if found == want.as_bytes() {
        return Ok(None);
    }
    let text = String::from_utf8_lossy(alloc, found)?;
    shown(alloc, text.as_str(), want)
}
