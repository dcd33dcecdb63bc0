//! Entries that are a run, and where they are none.

use hp_model::{Access, Answer, Entry, Event, Outcome};
use hp_test_worlds::{BOTH, Case, Move, play};
use std::test::Fail;

/// The entry of an event outside SMM, with no value.
macro_rules! quiet {
    ($event:expr) => {
        Entry {
            event: $event,
            at: None,
            answer: Answer::Quiet,
        }
    };
}

const HALT: Entry = quiet!(Event::Do(1, Access::Halt));

const FIRST_HALTS: Entry = quiet!(Event::Do(0, Access::Halt));

const ANSWERED: Entry = Entry {
    event: Event::Do(1, Access::Halt),
    at: None,
    answer: Answer::Value(0),
};

const ELSEWHERE: Entry = Entry {
    event: Event::Do(1, Access::Halt),
    at: Some(0x38000),
    answer: Answer::Quiet,
};

/// The register that locks the default area is read. It is locked, and reads as 2.
macro_rules! lock_read {
    ($answer:expr) => {
        Entry {
            event: Event::Do(1, Access::CfgRead { reg: 0x9c }),
            at: None,
            answer: $answer,
        }
    };
}

const COMMAND: Entry = quiet!(Event::Do(
    0,
    Access::Out {
        port: 0xb2,
        width: 1,
        value: 5,
    }
));

const SMI: Entry = quiet!(Event::TakeSmi(1));

/// Processor 1 arrives, in the tile of slot 1.
macro_rules! arrives {
    ($at:expr) => {
        Entry {
            event: Event::Do(
                1,
                Access::Store {
                    addr: 0x07f0_0001,
                    width: 1,
                    value: 1,
                },
            ),
            at: $at,
            answer: Answer::Quiet,
        }
    };
}

const WIDE: Entry = quiet!(Event::Do(
    1,
    Access::Store {
        addr: 0x1000,
        width: 3,
        value: 1,
    }
));

const TELL: Entry = quiet!(Event::Tell(Outcome::Added {
    cpu: 1,
    apic: 1,
    slot: 1,
}));

/// What may stand behind the boot, which has 27 entries, and its fronts.
const RUNS: [(usize, &[Entry], u64); 9] = [
    (0, &[], 0),
    (1, &[], 0),
    (26, &[], 0),
    (27, &[], 0),
    (27, &[HALT], 0),
    (27, &[HALT, FIRST_HALTS], 0),
    (27, &[quiet!(Event::Remove(1))], 0),
    (27, &[lock_read!(Answer::Value(2))], 0),
    (27, &[COMMAND, SMI, arrives!(Some(0x07f3_8000))], 0),
];

/// Steps with another answer, or another address.
const OTHERWISE: [(usize, &[Entry], u64); 6] = [
    (27, &[ANSWERED], 28),
    (27, &[ELSEWHERE], 28),
    (27, &[lock_read!(Answer::Value(1))], 28),
    (27, &[lock_read!(Answer::Quiet)], 28),
    (27, &[COMMAND, SMI, arrives!(None)], 30),
    (27, &[COMMAND, SMI, arrives!(Some(0x0003_8000))], 30),
];

/// No steps there.
const NO_STEPS: [(usize, &[Entry], u64); 15] = [
    // a halt comes too early in front of the boot, or of its last step
    (0, &[HALT], 1),
    (26, &[HALT], 27),
    (26, &[FIRST_HALTS], 27),
    (27, &[SMI], 28),
    (27, &[quiet!(Event::TakeInit(1))], 28),
    (27, &[quiet!(Event::Resume(1))], 28),
    (27, &[TELL], 28),
    (27, &[quiet!(Event::Insert(1))], 28),
    (27, &[quiet!(Event::Remove(0))], 28),
    (27, &[quiet!(Event::Do(2, Access::Halt))], 28),
    (27, &[WIDE], 28),
    // it is halted
    (27, &[HALT, HALT], 29),
    // its SMI goes first
    (27, &[COMMAND, HALT], 29),
    // the first fault counts, and what is behind it doesn't
    (27, &[HALT, SMI, TELL], 29),
    (27, &[quiet!(Event::Insert(1)), HALT], 28),
];

const CHECKED: [Case; 1] = [Case {
    header: BOTH,
    steps: &[],
    said: &[],
    moves: &[
        Move::Boot(27),
        Move::Check(&RUNS),
        Move::Check(&OTHERWISE),
        Move::Check(&NO_STEPS),
    ],
}];

#[test]
fn a_boot_is_a_run_and_nothing_else_is_in_its_place(rt: HostRuntime) -> Result<(), Fail> {
    play(rt.alloc(), &CHECKED)?;
    Ok(())
}
