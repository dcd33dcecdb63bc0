//! What the entries of a run come to, counted one by one, and its line.

ghost use Rattle.std.specs.Prelude.{◌≡◌, ◌<◌, ◌≤◌, ◌+◌, ◌-◌, ◌^◌, ◌++◌, ◌∷◌, [], List, OnErr, OnOk};
ghost use Rattle.hp_model.specs.declared.entries.Entry.{Entry as AnEntry};
ghost use Rattle.hp_trace.specs.Summary.{IsSummary, ok_text, summary as summary_of, summary_text, with_entry};

use crate::lines::append_line;
use crate::pieces::{Number, Pieces, Word, pieces};
use hp_model::{Entry, Event, NoMemory, Outcome};

/// How many entries a run has, and how many of them tell an outcome of each kind.
#[derive(Clone, Copy, Debug, PartialEq)]
pub struct Summary {
    pub entries: u64,
    pub added: u64,
    pub ejected: u64,
    pub refused: u64,
}

impl Summary {
    /// Of no entry.
    pub fn new() -> Summary
        ensures { result ≡ summary_of [] }
    {
        Summary {
            entries: 0,
            added: 0,
            ejected: 0,
            refused: 0,
        }
    }

    /// An entry more, where each number has room for it.
    fn put(&mut self, e: &Entry)
        requires entries { self.old.entries < 2 ^ 64 - 1 }
        requires added { self.old.added ≤ self.old.entries }
        requires ejected { self.old.ejected ≤ self.old.entries }
        requires refused { self.old.refused ≤ self.old.entries }
        ensures { self.new ≡ with_entry e.now self.old }
    {
        self.entries += 1;
        match e.event {
            Event::Tell(Outcome::Added { cpu, apic, slot }) => self.added += 1,
            Event::Tell(Outcome::Ejected { cpu, apic, slot }) => self.ejected += 1,
            Event::Tell(Outcome::Refused(_)) => self.refused += 1,
            Event::Insert(_) | Event::Remove(_) | Event::Do(_, _) => {}
            Event::TakeSmi(_) | Event::TakeInit(_) | Event::Resume(_) => {}
        }
    }

    /// Counts an entry more.
    pub fn count(&mut self, e: &Entry)
        requires summary { IsSummary self.old }
        requires room { self.old.entries < 2 ^ 64 - 1 }
        ensures { (es : List AnEntry) → self.old ≡ summary_of es → self.new ≡ summary_of (es ++ e.now ∷ []) }
    {
        self.put(e)
    }
}

/// Appends the line of the run that a number makes.
#[tactic(auto, unfolding(crate::specs::Summary::summary_text))]
pub fn gen_line(number: u32, s: &Summary, out: &mut Vec<u8>) -> Result<(), NoMemory>
    ensures appended { OnOk result (out.new.items ≡ out.old.items ++ summary_text number s.now) }
    ensures no_memory { OnErr result (out.new.items ≡ out.old.items) }
{
    append_line(
        &pieces!(
            Word(b"gen "),
            Number(number as u64),
            Word(b" entries "),
            Number(s.entries),
            Word(b" added "),
            Number(s.added),
            Word(b" ejected "),
            Number(s.ejected),
            Word(b" refused "),
            Number(s.refused)
        ),
        out,
    )
}

/// Appends the line of a trace of so many entries that is accepted.
#[tactic(auto, unfolding(crate::specs::Summary::ok_text))]
pub fn ok_line(entries: u64, out: &mut Vec<u8>) -> Result<(), NoMemory>
    ensures appended { OnOk result (out.new.items ≡ out.old.items ++ ok_text entries) }
    ensures no_memory { OnErr result (out.new.items ≡ out.old.items) }
{
    append_line(&pieces!(Word(b"ok "), Number(entries)), out)
}
