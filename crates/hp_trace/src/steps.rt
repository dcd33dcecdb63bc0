//! Who acts in an entry, and what the step is, as text.

ghost use Rattle.std.specs.Prelude.{◌≡◌, ◌++◌, OnErr, OnOk};
ghost use Rattle.hp_model.specs.Boot.{value_in};
ghost use Rattle.hp_model.specs.Text.{actor_pieces, cpu_pieces, event_pieces, spell};
ghost use Rattle.hp_trace.specs.Pieces.{Begins};

use crate::accesses::put_access;
use crate::outcomes::put_outcome;
use crate::pieces::{Hex8, Number, Pieces, Word, pieces};
use hp_model::{Answer, Event, NoMemory};

fn put_cpu(cpu: u32, at: Option<u32>, out: &mut Vec<u8>) -> Result<(), NoMemory>
    ensures text { OnOk result (out.new.items ≡ out.old.items ++ spell (cpu_pieces cpu at)) }
    ensures front { OnErr result (Begins out.old.items out.new.items) }
{
    match at {
        None => pieces!(Word(b"p"), Number(cpu as u64), Word(b" ")).put_all(out),
        Some(address) => {
            pieces!(
                Word(b"p"),
                Number(cpu as u64),
                Word(b" @"),
                Hex8(address),
                Word(b" ")
            )
            .put_all(out)
        }
    }
}

/// Appends who acts: the host, or a processor, with its instruction address where there is one.
pub fn put_actor(event: Event, at: Option<u32>, out: &mut Vec<u8>) -> Result<(), NoMemory>
    ensures text { OnOk result (out.new.items ≡ out.old.items ++ spell (actor_pieces event at)) }
    ensures front { OnErr result (Begins out.old.items out.new.items) }
{
    match event {
        Event::Insert(_) | Event::Remove(_) => pieces!(Word(b"host ")).put_all(out),
        Event::Do(cpu, _) | Event::TakeSmi(cpu) | Event::TakeInit(cpu) | Event::Resume(cpu) =>
            put_cpu(cpu, at, out),
        Event::Tell(_) => put_cpu(0, at, out),
    }
}

/// Appends what the step is.
#[tactic(auto, using(crate::proofs::Texts::front_facts))]
pub fn put_event(event: Event, answer: Answer, out: &mut Vec<u8>) -> Result<(), NoMemory>
    ensures text { OnOk result (out.new.items ≡ out.old.items ++ spell (event_pieces event (value_in answer))) }
    ensures front { OnErr result (Begins out.old.items out.new.items) }
{
    match event {
        Event::Insert(cpu) => pieces!(Word(b"insert "), Number(cpu as u64)).put_all(out),
        Event::Remove(cpu) => pieces!(Word(b"remove "), Number(cpu as u64)).put_all(out),
        Event::Do(_, access) => put_access(access, answer.value(), out),
        Event::TakeSmi(_) => pieces!(Word(b"smi")).put_all(out),
        Event::TakeInit(_) => pieces!(Word(b"init")).put_all(out),
        Event::Resume(_) => pieces!(Word(b"rsm")).put_all(out),
        Event::Tell(outcome) => {
            pieces!(Word(b"tell ")).put_all(out)?;
            put_outcome(outcome, out)
        }
    }
}
