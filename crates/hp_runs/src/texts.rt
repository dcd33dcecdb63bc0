//! Where two texts differ.

/// The first line that differs, as the one text and the other have it; none where the texts are the same.
pub fn first_difference<'a>(wanted: &'a str, found: &'a str) -> Option<(&'a str, &'a str)> {
    let mut others = found.split('\n');
    for line in wanted.split('\n') {
        match others.next() {
            Some(other) if other == line => {}
            Some(other) => return Some((line, other)),
            None => return Some((line, "no more lines")),
        }
    }
    match others.next() {
        Some(other) => Some(("no more lines", other)),
        None => None,
    }
}

/// How many lines there are.
pub fn count_lines(text: &str) -> u64 {
    let mut count = 0u64;
    for _line in text.lines() {
        count = count.saturating_add(1);
    }
    count
}
