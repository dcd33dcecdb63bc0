//! Worlds by their turns: whose turn makes a step, and how often each actor had one.

use hp_model::{Access, Actor, BootFact};
use hp_test_worlds::{BOTH, Case, Header, Move, TWO, play};
use std::test::Fail;

/// Turns after a refused boot: nobody has a step.
const AFTER: [(Actor, &str); 5] = [
    (Actor::Cpu(0), "idle"),
    (Actor::Cpu(1), "idle"),
    (Actor::Insert(1), "idle"),
    (Actor::Remove(1), "idle"),
    (Actor::Cpu(2), "idle"),
];

/// A boot that is refused after so many steps, by the value that was read then.
macro_rules! refused {
    ($line:expr, $steps:expr, $fact:expr) => {
        Case {
            header: Header::Line($line),
            steps: &["out 1 00b2 05"],
            said: &[],
            moves: &[
                Move::Boot($steps),
                Move::Turns(&AFTER),
                Move::Stands {
                    handed: false,
                    refused: Some($fact),
                    entries: $steps,
                },
                Move::Turns(&AFTER),
                Move::Stands {
                    handed: false,
                    refused: Some($fact),
                    entries: $steps,
                },
            ],
        }
    };
}

const REFUSED: [Case; 3] = [
    refused!(
        "platform apic=0,1 boot=0 low=08000000 tseg=1 features=7 polls=8 turns=0 modern=false smram=true delivery=prompt",
        4,
        BootFact::NotModern(1)
    ),
    refused!(
        "platform apic=0,1 boot=0 low=08000000 tseg=1 features=7 polls=8 turns=0 modern=true smram=false delivery=prompt",
        6,
        BootFact::NoDefaultSmram(0)
    ),
    refused!(
        "platform apic=0,1 boot=0 low=08000000 tseg=1 features=5 polls=8 turns=0 modern=true smram=true delivery=prompt",
        26,
        BootFact::NotNegotiated(0)
    ),
];

#[test]
fn after_a_refused_boot_there_is_no_step(rt: HostRuntime) -> Result<(), Fail> {
    play(rt.alloc(), &REFUSED)?;
    Ok(())
}

/// Turns after the boot, with what each makes.
const TURNS: [(Actor, &str); 13] = [
    (Actor::Cpu(2), "idle"),
    (Actor::Cpu(u32::MAX), "idle"),
    (Actor::Insert(0), "idle"),
    (Actor::Remove(0), "idle"),
    (Actor::Remove(1), "idle"),
    (Actor::Insert(2), "idle"),
    (Actor::Insert(1), "host insert 1"),
    (Actor::Insert(1), "idle"),
    (Actor::Remove(1), "host remove 1"),
    (Actor::Remove(1), "host remove 1"),
    (Actor::Cpu(1), "idle"),
    (Actor::Cpu(0), "p0 out 1 00b2 05"),
    (Actor::Cpu(0), "p0 smi"),
];

/// How many turns actors had then, with those before.
const COUNTS: [(Actor, u64); 6] = [
    (Actor::Cpu(0), 29),
    (Actor::Cpu(1), 1),
    (Actor::Cpu(2), 0),
    (Actor::Cpu(u32::MAX), 0),
    (Actor::Insert(0), 9),
    (Actor::Remove(9), 9),
];

const COUNTED: [Case; 1] = [Case {
    header: TWO,
    steps: &["out 1 00b2 05"],
    said: &[],
    moves: &[
        Move::Turns(&[(Actor::Insert(1), "idle")]),
        Move::Boot(27),
        Move::Stands {
            handed: true,
            refused: None,
            entries: 27,
        },
        Move::Turns(&TURNS),
        Move::Asked(&COUNTS),
    ],
}];

#[test]
fn turns_are_counted_with_a_step_and_without(rt: HostRuntime) -> Result<(), Fail> {
    play(rt.alloc(), &COUNTED)?;
    Ok(())
}

/// Rounds of all processors of two platforms, in which a session begins and ends.
const ROUNDS: [Case; 2] = [
    Case {
        header: Header::Many {
            count: 2,
            tseg_mib: 1,
            more: "",
        },
        steps: &["out 1 00b2 05"],
        said: &[],
        moves: &[
            Move::Boot(27),
            Move::Rounds {
                count: 2,
                rounds: 19,
            },
            Move::Asked(&[(Actor::Cpu(0), 46), (Actor::Cpu(1), 19)]),
        ],
    },
    Case {
        header: Header::Many {
            count: 64,
            tseg_mib: 8,
            more: "",
        },
        steps: &["out 1 00b2 05"],
        said: &[],
        moves: &[
            Move::Boot(27),
            Move::Rounds {
                count: 64,
                rounds: 220,
            },
            Move::Asked(&[(Actor::Cpu(0), 247)]),
            Move::AskedEach {
                from: 1,
                to: 64,
                turns: 220,
            },
        ],
    },
];

#[test]
fn the_turns_of_rounds_are_counted(rt: HostRuntime) -> Result<(), Fail> {
    play(rt.alloc(), &ROUNDS)?;
    Ok(())
}

/// The monarch leaves once, and this is what processors and the monarch do about their arrived bytes.
const ARRIVALS: [(&str, u64); 9] = [
    ("p0 @05028094 rsm", 1),
    ("p1 @05038000 store 1 05000001 01", 1),
    ("p0 @0502800c load 1 05000001 = 01", 1),
    ("p255 @06018000 store 1 050000ff 01", 1),
    ("p0 @0502800c load 1 050000ff = 01", 1),
    ("p256 @06028000 store 1 05000100 01", 1),
    ("p0 @0502800c load 1 05000100 = 01", 1),
    ("p511 @07018000 store 1 050001ff 01", 1),
    ("p0 @0502800c load 1 050001ff = 01", 1),
];

/// All 512 come to SMM, each in the tile of its slot, which begin at 5020000; the monarch sees each arrived byte. No run has
/// as many turns as this session takes, where all processors have as many.
const MEETING: [Case; 1] = [Case {
    header: Header::Many {
        count: 512,
        tseg_mib: 48,
        more: " x2apic=true",
    },
    steps: &["out 1 00b2 05"],
    said: &[],
    moves: &[
        Move::Boot(29),
        Move::Stands {
            handed: true,
            refused: None,
            entries: 29,
        },
        Move::Rounds {
            count: 512,
            rounds: 3,
        },
        Move::Rounds {
            count: 1,
            rounds: 1600,
        },
        Move::Times(&ARRIVALS),
    ],
}];

#[test]
fn five_hundred_and_twelve_processors_meet_in_smm(rt: HostRuntime) -> Result<(), Fail> {
    play(rt.alloc(), &MEETING)?;
    Ok(())
}

const AFTER_THE_TELL: [(Actor, &str); 6] = [
    (Actor::Cpu(0), "p0 @07f2808c store 1 07f04000 00"),
    (Actor::Cpu(0), "p0 @07f28090 store 1 07f01001 01"),
    // the SMI of processor 1 is latched all the time, and its own turn leaves it so
    (Actor::Cpu(1), "p1 halt"),
    (Actor::Cpu(1), "idle"),
    (Actor::Smi(1), "p1 smi"),
    (Actor::Smi(2), "idle"),
];

const LATE_COUNTS: [(Actor, u64); 3] = [(Actor::Smi(1), 5), (Actor::Cpu(1), 5), (Actor::Smi(2), 0)];

/// Processor 1 never takes its SMI. It selects processor 0 when the monarch has read the status of processor 1.
const LATE: [Case; 1] = [Case {
    header: Header::Line(
        "platform apic=0,1 boot=0,1 low=08000000 tseg=1 features=7 polls=8 turns=0 modern=true smram=true delivery=late lag=3",
    ),
    steps: &["out 4 0cd8 00000001", "out 1 0cdc 10", "out 1 00b2 04"],
    said: &[(
        Access::Out {
            port: 0xcd8,
            width: 4,
            value: 0,
        },
        "p1 out 4 0cd8 00000000",
    )],
    moves: &[
        Move::Boot(27),
        Move::Turns(&[(Actor::Smi(1), "idle")]),
        Move::Reach("p0 @07f28020 "),
        Move::Said,
        Move::Reach("p0 @07f28088 "),
        Move::Times(&[("p0 @07f28088 tell foreign 1 0", 1)]),
        // the session ends with that, and tells nothing more
        Move::Turns(&AFTER_THE_TELL),
        // both are turns of processor 1
        Move::Asked(&LATE_COUNTS),
    ],
}];

#[test]
fn a_late_processor_moves_the_selector(rt: HostRuntime) -> Result<(), Fail> {
    play(rt.alloc(), &LATE)?;
    Ok(())
}

const TURNS_AT_ONCE: [(Actor, &str); 5] = [
    (Actor::Smi(0), "idle"),
    (Actor::Cpu(0), "p0 out 1 00b2 05"),
    (Actor::Smi(1), "p1 smi"),
    (Actor::Smi(1), "idle"),
    (Actor::Cpu(0), "p0 smi"),
];

/// Where SMIs don't come late, the turn of an SMI takes it as its processor's does.
const AT_ONCE: [Case; 1] = [Case {
    header: BOTH,
    steps: &["out 1 00b2 05"],
    said: &[],
    moves: &[
        Move::Turns(&[(Actor::Smi(0), "idle")]),
        Move::Boot(27),
        Move::Turns(&TURNS_AT_ONCE),
    ],
}];

#[test]
fn an_smi_that_comes_at_once_has_its_turn_too(rt: HostRuntime) -> Result<(), Fail> {
    play(rt.alloc(), &AT_ONCE)?;
    Ok(())
}
