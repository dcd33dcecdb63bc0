//! The forms that a text may have. One that is read is written again, and has to be the text that it was.

use hp_config::step_of;
use hp_model::{Answer, Entry, Event, NoMemory};
use hp_reading::{end_number, read_entry, read_head};
use std::alloc::Global;
use std::io;

/// Want of memory as an error of the program.
pub fn or_error<T: Drop>(made: Result<T, NoMemory>) -> io::Result<T> {
    match made {
        Ok(value) => Ok(value),
        Err(NoMemory) => Err(io::Error::from(io::ErrorKind::OutOfMemory)),
    }
}

#[derive(Clone, Copy)]
pub enum Form {
    Entry,
    Header,
    End,
    Step,
}

impl Form {
    /// Whether the text has this form. A step stands in a line of processor 0, in front of its answer.
    pub fn has(self, alloc: Global, text: &[u8]) -> Result<bool, NoMemory> {
        let mut line = Vec::new(alloc);
        match self {
            Form::Entry => match read_entry(text) {
                Some(entry) => hp_trace::line(&entry, &mut line)?,
                None => return Ok(false),
            },
            Form::Header => match read_head(alloc, text)? {
                Some(platform) => hp_trace::head(&platform, &mut line)?,
                None => return Ok(false),
            },
            Form::End => match end_number(text) {
                Some(entries) => hp_trace::end(entries, &mut line)?,
                None => return Ok(false),
            },
            Form::Step => return is_step(alloc, text),
        }
        Ok(line.strip_suffix(b"\n") == Some(text))
    }
}

fn is_step(alloc: Global, text: &[u8]) -> Result<bool, NoMemory> {
    let Some(access) = step_of(text) else {
        return Ok(false);
    };
    let mut line = Vec::new(alloc);
    let entry = Entry {
        event: Event::Do(0, access),
        at: None,
        answer: Answer::Quiet,
    };
    hp_trace::line(&entry, &mut line)?;
    let step = line.strip_prefix(b"p0 ").unwrap_or(b"");
    Ok(step.starts_with(text))
}
