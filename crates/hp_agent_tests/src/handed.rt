//! What agents say in a world: accesses that no text spells, and whom a handed-in agent hears.

use crate::echoes::Echo;
use hp_agent::Agent;
use hp_model::{Access, Actor, Event};
use hp_test_worlds::{BOTH, Case, Counts, Move, TWO, play, play_handed};
use std::alloc::Global;
use std::sync::Arc;
use std::sync::atomic::AtomicU32;
use std::test::Fail;

const ADDR: u32 = 0x1000;

const PORT: u16 = 0x80;

macro_rules! load {
    ($width:expr) => {
        Access::Load {
            addr: ADDR,
            width: $width,
        }
    };
}

macro_rules! store {
    ($width:expr, $value:expr) => {
        Access::Store {
            addr: ADDR,
            width: $width,
            value: $value,
        }
    };
}

macro_rules! port_in {
    ($width:expr) => {
        Access::In {
            port: PORT,
            width: $width,
        }
    };
}

macro_rules! port_out {
    ($width:expr, $value:expr) => {
        Access::Out {
            port: PORT,
            width: $width,
            value: $value,
        }
    };
}

/// What comes of accesses that processor 1 says after the boot.
macro_rules! said {
    ($said:expr) => {
        Case {
            header: BOTH,
            steps: &[],
            said: $said,
            moves: &[Move::Boot(27), Move::Said],
        }
    };
}

const NO_WIDTH: [(Access, &str); 18] = [
    (load!(0), "p1 nop"),
    (store!(0, 1), "p1 nop"),
    (port_in!(0), "p1 nop"),
    (port_out!(0, 1), "p1 nop"),
    (load!(3), "p1 nop"),
    (store!(3, 1), "p1 nop"),
    (port_in!(3), "p1 nop"),
    (port_out!(3, 1), "p1 nop"),
    (load!(16), "p1 nop"),
    (store!(16, 1), "p1 nop"),
    (port_in!(16), "p1 nop"),
    (port_out!(16, 1), "p1 nop"),
    (load!(255), "p1 nop"),
    (store!(255, 1), "p1 nop"),
    (port_in!(255), "p1 nop"),
    (port_out!(255, 1), "p1 nop"),
    (port_in!(8), "p1 nop"),
    (port_out!(8, 1), "p1 nop"),
];

const CUT: [(Access, &str); 7] = [
    (store!(1, 0x1ff), "p1 store 1 00001000 ff"),
    (store!(2, 0x12345), "p1 store 2 00001000 2345"),
    (store!(4, 0x1_2345_6789), "p1 store 4 00001000 23456789"),
    (store!(8, u64::MAX), "p1 store 8 00001000 ffffffffffffffff"),
    (port_out!(1, 0x1ff), "p1 out 1 0080 ff"),
    (port_out!(2, 0x12345), "p1 out 2 0080 2345"),
    (port_out!(4, u32::MAX), "p1 out 4 0080 ffffffff"),
];

const SAID: [Case; 2] = [said!(&NO_WIDTH), said!(&CUT)];

#[test]
fn an_access_of_no_width_does_nothing_and_a_value_is_cut(rt: HostRuntime) -> Result<(), Fail> {
    play(rt.alloc(), &SAID)?;
    Ok(())
}

/// Until processor 1 runs at page 9f.
const AT_TWO_PAGES: [(Actor, &str, u32); 8] = [
    (
        Actor::Cpu(1),
        "p1 cas 00000000 0000000000000001 0000000000000000 = 0000000000000000",
        1,
    ),
    (Actor::Cpu(0), "p0 icr 01000000 00000500", 1),
    (Actor::Cpu(1), "p1 init", 1),
    (Actor::Cpu(1), "idle", 1),
    (Actor::Cpu(0), "p0 icr 01000000 0000069f", 1),
    (
        Actor::Cpu(1),
        "p1 cas 0000009f 0000000000000001 0000000000000001 = 0000000000000000",
        2,
    ),
    (Actor::Cpu(0), "p0 store 8 0000009f 0000000000000007", 2),
    (
        Actor::Cpu(1),
        "p1 cas 0000009f 0000000000000001 0000000000000001 = 0000000000000007",
        3,
    ),
];

/// After the command it is asked again only once it has been in SMM, twice, and then with the answer from before.
const THROUGH_SMM: [(Actor, &str, u32); 1] = [(
    Actor::Cpu(1),
    "p1 cas 0000009f 0000000000000001 0000000000000008 = 0000000000000007",
    4,
)];

/// Processor 0 starts processor 1 at page 9f, writes at the first bytes that `Echo` looks at there, and raises an SMI.
const QUESTIONS: Case = Case {
    header: BOTH,
    steps: &[
        "icr 01000000 00000500",
        "icr 01000000 0000069f",
        "store 8 0000009f 0000000000000007",
        "out 1 00b2 05",
    ],
    said: &[],
    moves: &[
        Move::Boot(27),
        Move::Heard(&AT_TWO_PAGES),
        Move::Rounds {
            count: 2,
            rounds: 18,
        },
        Move::Heard(&THROUGH_SMM),
    ],
};

const UNTIL_IT_IS_ASKED: [(Actor, &str, u32); 6] = [
    (Actor::Cpu(1), "idle", 0),
    (Actor::Insert(1), "host insert 1", 0),
    (Actor::Cpu(1), "idle", 0),
    (Actor::Cpu(0), "p0 out 4 0cd8 00000001", 0),
    (Actor::Cpu(0), "p0 icr 01000000 0000069f", 0),
    (
        Actor::Cpu(1),
        "p1 cas 0000009f 0000000000000001 0000000000000000 = 0000000000000000",
        1,
    ),
];

/// It is absent, and when it comes again it halts.
const AFTER_THE_EJECT: [(Actor, &str, u32); 5] = [
    (Actor::Cpu(1), "idle", 1),
    (Actor::Remove(1), "idle", 1),
    (Actor::Insert(1), "host insert 1", 1),
    (Actor::Cpu(0), "p0 icr 01000000 0000069f", 1),
    (Actor::Cpu(1), "p1 halt", 1),
];

/// Processor 0 selects processor 1, starts it, ejects it, and starts it again: processor 1 is inserted, started, ejected, and comes
/// again. Its agent is dropped at the eject, and not before.
const EJECT: Case = Case {
    header: TWO,
    steps: &[
        "out 4 0cd8 00000001",
        "icr 01000000 0000069f",
        "out 1 0cdc 08",
        "icr 01000000 0000069f",
    ],
    said: &[],
    moves: &[
        Move::Boot(27),
        Move::Heard(&UNTIL_IT_IS_ASKED),
        Move::Dropped(0),
        Move::Turns(&[(Actor::Cpu(0), "p0 out 1 0cdc 08")]),
        Move::Dropped(1),
        Move::Heard(&AFTER_THE_EJECT),
        Move::Dropped(1),
    ],
};

/// Events that are applied: processor 1 is inserted, selected and started.
const STARTED: [(Event, &str); 3] = [
    (Event::Insert(1), "host insert 1"),
    (
        Event::Do(
            0,
            Access::Out {
                port: 0xcd8,
                width: 4,
                value: 1,
            },
        ),
        "p0 out 4 0cd8 00000001",
    ),
    (
        Event::Do(
            0,
            Access::Icr {
                high: 0x0100_0000,
                low: 0x69f,
            },
        ),
        "p0 icr 01000000 0000069f",
    ),
];

const EJECTED: [(Event, &str); 2] = [
    (Event::Do(1, Access::Nop), "p1 nop"),
    (
        Event::Do(
            0,
            Access::Out {
                port: 0xcdc,
                width: 1,
                value: 8,
            },
        ),
        "p0 out 1 0cdc 08",
    ),
];

/// The same by events that are applied: the agent is dropped, and was asked in its own turn alone.
const APPLIED: Case = Case {
    header: TWO,
    steps: &[],
    said: &[],
    moves: &[
        Move::Boot(27),
        Move::Apply(&STARTED),
        Move::Heard(&[(
            Actor::Cpu(1),
            "p1 cas 0000009f 0000000000000001 0000000000000000 = 0000000000000000",
            1,
        )]),
        Move::Dropped(0),
        Move::Apply(&EJECTED),
        Move::Dropped(1),
        Move::Heard(&[(Actor::Cpu(1), "idle", 1)]),
    ],
};

/// Plays a case in which a boxed `Echo` is handed in for processor 1.
fn play_boxed(alloc: Global, case: &Case) -> Result<(), Fail> {
    let asked = Arc::new(alloc, AtomicU32::new(0))?;
    let drops = Arc::new(alloc, AtomicU32::new(0))?;
    let mut list: Vec<Box<dyn Agent + Send>> = Vec::new(alloc);
    let agent = Echo::new(Arc::try_clone(&asked)?, Arc::try_clone(&drops)?);
    list.push(Box::new(alloc, agent)?)?;
    let counts = Counts {
        asked: &asked,
        drops: &drops,
    };
    play_handed(alloc, case, list, &counts)?;
    Ok(())
}

#[test]
fn an_agent_is_asked_where_its_processor_runs(rt: HostRuntime) -> Result<(), Fail> {
    play_boxed(rt.alloc(), &QUESTIONS)
}

#[test]
fn an_ejected_processor_has_no_agent(rt: HostRuntime) -> Result<(), Fail> {
    play_boxed(rt.alloc(), &EJECT)?;
    play_boxed(rt.alloc(), &APPLIED)
}
