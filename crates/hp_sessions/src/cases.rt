//! A case: its lines in turn, played over the firmware of its platform.

use crate::firmware::{Firmware, Move};
use crate::words::{Word, word_of};
use hp_boot::BootStage;
use hp_model::{Answer, BootFact, Entry, Event, NoMemory, fits};
use hp_reading::{read_entry, read_head};
use std::alloc::{AllocError, Global};

/// How a case came out.
#[derive(Drop)]
pub enum Verdict {
    /// All lines came out, and so many of them were compared.
    Holds(u64),
    /// No line was compared.
    Empty,
    Fails(Fault),
}

/// The first line that did not come out.
#[derive(Drop)]
pub struct Fault {
    /// Its number, from 1.
    pub line: u64,
    /// What the case has.
    pub wanted: String,
    /// What the firmware has.
    pub found: String,
}

/// What a line came to.
#[derive(Drop)]
enum Played {
    /// It tells the firmware something.
    Told,
    /// The firmware has it too.
    Came,
    /// The firmware has this in its place.
    Other(String),
}

fn other(alloc: Global, text: &str) -> Result<Played, AllocError> {
    Ok(Played::Other(text.to_string(alloc)?))
}

/// The line of an entry, without its line feed.
fn line_of(alloc: Global, entry: &Entry) -> Result<String, NoMemory> {
    let mut bytes = Vec::new(alloc);
    hp_trace::line(entry, &mut bytes)?;
    bytes.pop();
    let text = str::from_utf8(bytes.as_slice()).unwrap_or_default();
    Ok(text.to_string(alloc)?)
}

/// The line of an entry; where there is none, the text `nothing`.
fn text_of(alloc: Global, entry: Option<Entry>) -> Result<String, NoMemory> {
    match entry {
        Some(entry) => line_of(alloc, &entry),
        None => Ok("nothing".to_string(alloc)?),
    }
}

/// How a boot stands, as a line.
fn text_of_boot(alloc: Global, stage: BootStage) -> Result<String, AllocError> {
    match stage {
        BootStage::More => format!(in alloc; "boot goes on"),
        BootStage::Handed(requested) => {
            format!(in alloc; "boot handed over: features {requested}")
        }
        BootStage::Refused(BootFact::NotModern(value)) => {
            format!(in alloc; "boot refused: command data 2 read {value:08x}")
        }
        BootStage::Refused(BootFact::NoDefaultSmram(value)) => {
            format!(in alloc; "boot refused: register 9c read {value:02x}")
        }
        BootStage::Refused(BootFact::NotNegotiated(value)) => {
            format!(in alloc; "boot refused: features-ok read {value:02x}")
        }
        BootStage::Refused(BootFact::NoExtTseg(value)) => {
            format!(in alloc; "boot refused: register 50 read {value:02x}")
        }
    }
}

/// Compares what the firmware has with the line.
fn compare(text: String, line: &str) -> Played {
    if text.as_str() == line {
        Played::Came
    } else {
        Played::Other(text)
    }
}

/// The entry that the firmware has in the place of this one.
fn due(firmware: &Firmware, entry: &Entry) -> Option<Entry> {
    match (entry.event, entry.at) {
        (Event::Do(_, _), None) => firmware.in_boot(entry.answer),
        (Event::Do(cpu, _) | Event::Resume(cpu), Some(_)) => firmware.in_smm(cpu, entry.answer),
        (Event::Tell(_), Some(_)) => firmware.in_smm(0, entry.answer),
        _ => None,
    }
}

/// Feeds the entry's answer to who made its step. Answers whether it was taken.
fn feed(firmware: &mut Firmware, entry: &Entry) -> bool {
    match (entry.event, entry.at) {
        (Event::Do(_, _), None) => firmware.feed_boot(entry.answer),
        (Event::Do(cpu, _), Some(_)) => firmware.feed(cpu, entry.answer),
        (Event::Tell(_), Some(_)) => firmware.feed(0, entry.answer),
        (Event::Resume(cpu), Some(_)) => firmware.go(cpu, Move::Leave),
        _ => false,
    }
}

/// A processor is told to be elsewhere.
fn go(alloc: Global, firmware: &mut Firmware, cpu: u32, to: Move) -> Result<Played, AllocError> {
    if firmware.go(cpu, to) {
        Ok(Played::Told)
    } else {
        other(alloc, "no such processor")
    }
}

/// A line of a trace: SMI entry is told, all else is compared and its answer fed.
fn play_entry(
    alloc: Global,
    firmware: &mut Firmware,
    entry: &Entry,
    line: &str,
) -> Result<Played, NoMemory> {
    if let Event::TakeSmi(cpu) = entry.event {
        return Ok(go(alloc, firmware, cpu, Move::Enter)?);
    }
    let played = compare(text_of(alloc, due(firmware, entry))?, line);
    if let Played::Came = played {
        if !feed(firmware, entry) {
            return Ok(other(alloc, "no such answer")?);
        }
    }
    Ok(played)
}

/// Where a processor stands, as a line.
fn text_of_seat(alloc: Global, firmware: &Firmware, cpu: u32) -> Result<String, AllocError> {
    match firmware.seat(cpu) {
        Some(seat) => {
            let at = seat.at;
            let base = seat.smm_cpu.base;
            format!(in alloc; "seat {cpu} {at:08x} {base:08x}")
        }
        None => format!(in alloc; "no such processor"),
    }
}

/// What a processor in SMM wants, as a line: `astray CPU` where it has no row.
fn text_of_row(alloc: Global, firmware: &Firmware, cpu: u32) -> Result<String, NoMemory> {
    match firmware.in_smm(cpu, Answer::Quiet) {
        None if firmware.seat(cpu).is_some() => Ok(format!(in alloc; "astray {cpu}")?),
        step => text_of(alloc, step),
    }
}

fn play_word(
    alloc: Global,
    firmware: &mut Firmware,
    word: Word,
    line: &str,
) -> Result<Played, NoMemory> {
    match word {
        Word::Features(negotiated) => {
            firmware.features(negotiated);
            Ok(Played::Told)
        }
        Word::Stand(cpu, to) => Ok(go(alloc, firmware, cpu, to)?),
        Word::Seat(cpu) => Ok(compare(text_of_seat(alloc, firmware, cpu)?, line)),
        Word::Astray(cpu) => Ok(compare(text_of_row(alloc, firmware, cpu)?, line)),
        Word::Boot => Ok(compare(text_of_boot(alloc, firmware.stage())?, line)),
    }
}

/// A line behind a header.
fn play_line(alloc: Global, firmware: &mut Firmware, line: &str) -> Result<Played, NoMemory> {
    if let Some(entry) = read_entry(line.as_bytes()) {
        return play_entry(alloc, firmware, &entry, line);
    }
    match word_of(line) {
        Some(word) => play_word(alloc, firmware, word, line),
        None => Ok(other(alloc, "a line that is none of a case")?),
    }
}

/// The firmware of the platform whose header the line is; none where it is no header of one that fits.
fn begin(alloc: Global, line: &str) -> Result<Option<Firmware>, NoMemory> {
    match read_head(alloc, line.as_bytes())? {
        Some(p) if fits(&p).is_ok() => Ok(Some(Firmware::new(alloc, &p)?)),
        _ => Ok(None),
    }
}

/// Any line: an empty one and a comment say nothing, and a header begins anew.
fn play_any(
    alloc: Global,
    firmware: &mut Option<Firmware>,
    line: &str,
) -> Result<Played, NoMemory> {
    if line.is_empty() || line.starts_with('#') {
        return Ok(Played::Told);
    }
    if line.starts_with("platform ") {
        *firmware = begin(alloc, line)?;
        return match firmware {
            Some(_) => Ok(Played::Told),
            None => Ok(other(alloc, "no header of a platform that fits")?),
        };
    }
    match firmware {
        Some(firmware) => play_line(alloc, firmware, line),
        None => Ok(other(alloc, "no platform")?),
    }
}

/// Plays the lines of a case, up to the first that does not come out.
pub fn play(alloc: Global, text: &str) -> Result<Verdict, NoMemory> {
    let mut firmware = None;
    let mut compared = 0u64;
    let mut number = 0u64;
    for line in text.lines() {
        number = number.saturating_add(1);
        match play_any(alloc, &mut firmware, line)? {
            Played::Told => {}
            Played::Came => compared = compared.saturating_add(1),
            Played::Other(found) => {
                return Ok(Verdict::Fails(Fault {
                    line: number,
                    wanted: line.to_string(alloc)?,
                    found,
                }));
            }
        }
    }
    if compared == 0 {
        return Ok(Verdict::Empty);
    }
    Ok(Verdict::Holds(compared))
}
