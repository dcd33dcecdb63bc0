//! The line of each kind of step, as a value.

use hp_model::{Access, Answer, Entry, Event};
use hp_reading::read_entry;
use hp_trace::line;
use std::alloc::Global;
use std::process::Abort;
use std::test::Fail;

/// The entry has this line, behind what was there, and what is read of the line has it too.
pub(crate) fn try_line(
    rt: &impl Abort,
    alloc: Global,
    entry: &Entry,
    text: &str,
) -> Result<(), Fail> {
    let Some(read) = read_entry(text.as_bytes()) else {
        return Err(Fail::from("a line isn't read"));
    };
    let mut out = Vec::from_slice(alloc, b"kept\n")?;
    line(entry, &mut out)?;
    line(&read, &mut out)?;
    let want = format!(in alloc; "kept\n{text}\n{text}\n")?;
    assert_eq!(rt; out.as_slice(), want.as_bytes());
    Ok(())
}

const STEPS: [(Event, Option<u32>, Answer, &str); 24] = [
    (Event::Insert(1), None, Answer::Quiet, "host insert 1"),
    (Event::Remove(40), None, Answer::Quiet, "host remove 40"),
    (
        Event::Do(
            0,
            Access::Out {
                port: 0xcd8,
                width: 4,
                value: 0,
            },
        ),
        None,
        Answer::Quiet,
        "p0 out 4 0cd8 00000000",
    ),
    (
        Event::Do(
            0,
            Access::Out {
                port: 0x510,
                width: 2,
                value: 0x20,
            },
        ),
        None,
        Answer::Quiet,
        "p0 out 2 0510 0020",
    ),
    (
        Event::Do(
            0,
            Access::In {
                port: 0x511,
                width: 1,
            },
        ),
        None,
        Answer::Value(1),
        "p0 in 1 0511 = 01",
    ),
    (
        Event::Do(
            0,
            Access::CfgWrite {
                reg: 0x9c,
                value: 0xff,
            },
        ),
        None,
        Answer::Quiet,
        "p0 cfgw 9c ff",
    ),
    (
        Event::Do(0, Access::CfgRead { reg: 0x9c }),
        None,
        Answer::Value(1),
        "p0 cfgr 9c = 01",
    ),
    (
        Event::Do(
            0,
            Access::Store {
                addr: 0x1000,
                width: 8,
                value: 0x080000000a002200,
            },
        ),
        None,
        Answer::Quiet,
        "p0 store 8 00001000 080000000a002200",
    ),
    (
        Event::Do(
            0,
            Access::Load {
                addr: 0x1010,
                width: 8,
            },
        ),
        None,
        Answer::Value(7),
        "p0 load 8 00001010 = 0000000000000007",
    ),
    (Event::TakeSmi(0), None, Answer::Quiet, "p0 smi"),
    (
        Event::Do(
            0,
            Access::Icr {
                high: 0,
                low: 0x000c0200,
            },
        ),
        Some(0x07f28008),
        Answer::Quiet,
        "p0 @07f28008 icr 00000000 000c0200",
    ),
    (
        Event::Do(
            1,
            Access::Swap {
                addr: 0x30000,
                expected: 1,
                desired: 0xffffffffffffffff,
            },
        ),
        Some(0x00038000),
        Answer::Value(0xffffffffffffffff),
        "p1 @00038000 cas 00030000 0000000000000001 ffffffffffffffff = ffffffffffffffff",
    ),
    (
        Event::Resume(1),
        Some(0x00038014),
        Answer::Quiet,
        "p1 @00038014 rsm",
    ),
    (Event::TakeInit(63), None, Answer::Quiet, "p63 init"),
    (Event::Do(1, Access::Halt), None, Answer::Quiet, "p1 halt"),
    (Event::Do(2, Access::Nop), None, Answer::Quiet, "p2 nop"),
    (Event::Insert(1), None, Answer::Quiet, "host insert 1"),
    (Event::Remove(511), None, Answer::Quiet, "host remove 511"),
    (Event::TakeInit(63), None, Answer::Quiet, "p63 init"),
    (
        Event::TakeSmi(4294967295),
        None,
        Answer::Quiet,
        "p4294967295 smi",
    ),
    (
        Event::Resume(1),
        Some(0x38014),
        Answer::Quiet,
        "p1 @00038014 rsm",
    ),
    (
        Event::Do(
            0,
            Access::Load {
                addr: 0x07f00001,
                width: 1,
            },
        ),
        Some(0x07f28054),
        Answer::Value(0),
        "p0 @07f28054 load 1 07f00001 = 00",
    ),
    (
        Event::Do(
            1,
            Access::Swap {
                addr: 0x30000,
                expected: 1,
                desired: 0xffffffffffffffff,
            },
        ),
        Some(0x38000),
        Answer::Value(0xfffffffffffffffe),
        "p1 @00038000 cas 00030000 0000000000000001 ffffffffffffffff = fffffffffffffffe",
    ),
    (
        Event::Do(
            0,
            Access::Out {
                port: 0x510,
                width: 2,
                value: 0x20,
            },
        ),
        None,
        Answer::Quiet,
        "p0 out 2 0510 0020",
    ),
];

#[test]
fn each_kind_of_step_has_its_line(rt: HostRuntime) -> Result<(), Fail> {
    for (event, at, answer, text) in STEPS {
        try_line(&rt, rt.alloc(), &Entry { event, at, answer }, text)?;
    }
    Ok(())
}
