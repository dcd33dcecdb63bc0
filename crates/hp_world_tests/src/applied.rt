//! Events that are applied to a world, and no actor's turn.

use hp_model::{Access, Actor, Event};
use hp_test_worlds::{Case, Move, TWO, play};
use std::test::Fail;

const SELECT: Event = Event::Do(
    0,
    Access::Out {
        port: 0xcd8,
        width: 4,
        value: 0,
    },
);

const COMMAND: Event = Event::Do(
    0,
    Access::Out {
        port: 0xb2,
        width: 1,
        value: 5,
    },
);

const WIDE: Event = Event::Do(
    0,
    Access::Load {
        addr: 0x1000,
        width: 3,
    },
);

const SESSION: Event = Event::Do(
    0,
    Access::Store {
        addr: 0x07f0_4000,
        width: 1,
        value: 1,
    },
);

/// Before the boot, whose first step selects a processor.
const IN_FRONT: [(Event, &str); 4] = [
    (Event::Do(0, Access::Halt), "none"),
    (Event::Insert(1), "none"),
    (SELECT, "p0 out 4 0cd8 00000000"),
    (Event::TakeSmi(0), "none"),
];

/// Behind it.
const BEHIND: [(Event, &str); 10] = [
    (SELECT, "p0 out 4 0cd8 00000000"),
    (WIDE, "none"),
    (Event::Remove(0), "none"),
    (Event::Remove(1), "none"),
    (Event::Insert(2), "none"),
    (Event::Insert(1), "host insert 1"),
    (Event::Insert(1), "none"),
    (Event::Do(1, Access::Halt), "none"),
    (Event::TakeInit(0), "none"),
    (Event::TakeSmi(0), "none"),
];

/// An SMI, and the session that it begins.
const IN_SMM: [(Event, &str); 7] = [
    (COMMAND, "p0 out 1 00b2 05"),
    (Event::Do(0, Access::Halt), "none"),
    (Event::TakeSmi(0), "p0 smi"),
    (Event::TakeSmi(1), "none"),
    (Event::Resume(0), "none"),
    (SELECT, "none"),
    (SESSION, "p0 @07f28000 store 1 07f04000 01"),
];

const APPLIED: [Case; 1] = [Case {
    header: TWO,
    steps: &["store 1 00001000 05"],
    said: &[],
    moves: &[
        Move::Apply(&IN_FRONT),
        Move::Stands {
            handed: false,
            refused: None,
            entries: 1,
        },
        Move::Boot(26),
        Move::Stands {
            handed: true,
            refused: None,
            entries: 27,
        },
        Move::Apply(&BEHIND),
        // the script was asked nothing yet
        Move::Turns(&[(Actor::Cpu(0), "p0 store 1 00001000 05")]),
        Move::Apply(&IN_SMM),
        // no slot but that of processor 0 is bound, so the broadcast is next
        Move::Turns(&[(Actor::Cpu(0), "p0 @07f28008 icr 00000000 000c0200")]),
        Move::Stands {
            handed: true,
            refused: None,
            entries: 34,
        },
        // turns alone are counted: those of the boot, and two
        Move::Asked(&[
            (Actor::Cpu(0), 28),
            (Actor::Cpu(1), 0),
            (Actor::Insert(1), 0),
        ]),
    ],
}];

#[test]
fn an_event_that_is_applied_counts_no_turn_and_asks_no_agent(rt: HostRuntime) -> Result<(), Fail> {
    play(rt.alloc(), &APPLIED)?;
    Ok(())
}
