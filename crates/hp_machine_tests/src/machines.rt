//! The machine where no line says it: accesses that no text spells, all ports, the initial stores, and room.

use crate::platforms::platform_of;
use hp_image::{Cell, CellList, Cells};
use hp_machine::Machine;
use hp_model::{Access, Answer, Event};
use hp_reading::read_entry;
use std::alloc::Global;
use std::process::Abort;
use std::test::Fail;

/// One processor, and 16 MiB of RAM.
const SMALL: &str =
    "platform apic=0 boot=0 low=01000000 tseg=1 features=7 polls=8 turns=0 modern=true smram=true delivery=prompt";

const UNSPELLED: [(&str, Access); 6] = [
    (
        "a load of 3 bytes",
        Access::Load {
            addr: 0x1000,
            width: 3,
        },
    ),
    (
        "a store of 3 bytes",
        Access::Store {
            addr: 0x1000,
            width: 3,
            value: 0,
        },
    ),
    (
        "a store that is wider than its width",
        Access::Store {
            addr: 0x1000,
            width: 2,
            value: 0x10000,
        },
    ),
    (
        "a read of a port of 8 bytes",
        Access::In {
            port: 0xcd8,
            width: 8,
        },
    ),
    (
        "a write of a port of 0 bytes",
        Access::Out {
            port: 0xcd8,
            width: 0,
            value: 0,
        },
    ),
    (
        "a write of a port that is wider than its width",
        Access::Out {
            port: 0xcd8,
            width: 1,
            value: 0x100,
        },
    ),
];

const FIRST: Cell = Cell {
    addr: 0x38000,
    width: 8,
    value: 0x1122334455667788,
};

/// Lies over the first.
const SECOND: Cell = Cell {
    addr: 0x38002,
    width: 2,
    value: 0xaabb,
};

/// Makes the steps of trace lines, each with the answer that it says.
fn play(rt: &impl Abort, machine: &mut Machine, lines: &[&str]) -> Result<(), Fail> {
    for line in lines {
        let Some(said) = read_entry(line.as_bytes()) else {
            panic!(rt; "no line: {line}");
        };
        assert!(rt; machine.enabled(&said.event), "{line}");
        assert_eq!(rt; machine.step(&said.event)?, said.answer, "{line}");
    }
    Ok(())
}

fn empty_machine(rt: &impl Abort, alloc: Global, head: &str) -> Result<Machine, Fail> {
    let p = platform_of(rt, alloc, head)?;
    let cells = Cells {
        list: CellList(Vec::new(alloc)),
    };
    Ok(Machine::new(alloc, &p, &cells)?)
}

#[test]
fn accesses_that_are_not_normal_are_never_enabled(rt: HostRuntime) -> Result<(), Fail> {
    let machine = empty_machine(&rt, rt.alloc(), SMALL)?;
    for (what, access) in &UNSPELLED {
        assert!(rt; !machine.enabled(&Event::Do(0, *access)), "{what}");
    }
    Ok(())
}

#[test]
fn cells_are_there_at_the_start_and_reserved_room_takes_a_store(
    rt: HostRuntime,
) -> Result<(), Fail> {
    let alloc = rt.alloc();
    let p = platform_of(&rt, alloc, SMALL)?;
    assert_eq!(rt; p.low_memory, 0x1000000);
    let cells = Cells {
        list: CellList(vec![in alloc; FIRST, SECOND]?),
    };
    let mut machine = Machine::new(alloc, &p, &cells)?;
    machine.reserve()?;
    play(
        &rt,
        &mut machine,
        &[
            "p0 load 8 00038000 = 11223344aabb7788",
            "p0 store 8 0001fffc 0000000000000001",
            "p0 load 8 0001fffc = 0000000000000001",
            "p0 load 1 0001fffd = 00",
        ],
    )
}

/// The ports that a rule names, and those beside them: case files have them one by one.
const PORTS: [u16; 44] = [
    0xb1, 0xb2, 0xb3, 0xb4, 0x50f, 0x510, 0x511, 0x512, 0x513, 0x514, 0x515, 0x516, 0x517, 0x518,
    0x519, 0x51a, 0x51b, 0x51c, 0x61f, 0x620, 0x621, 0x622, 0x62f, 0x630, 0x631, 0x632, 0x633,
    0x634, 0xcd7, 0xcd8, 0xcd9, 0xcda, 0xcdb, 0xcdc, 0xcdd, 0xcde, 0xcdf, 0xce0, 0xce1, 0xce2,
    0xce3, 0xce4, 0, 0xffff,
];

/// Two possible processors, of which the second is absent at first.
const TWO: &str =
    "platform apic=0,1 boot=0 low=08000000 tseg=1 features=7 polls=8 turns=0 modern=true smram=true delivery=prompt";

/// After these the registers all hold something: processor 1 has come and is selected, etc/smi/requested-features has the bytes
/// 21, 22 .. 28 and is selected, and a descriptor at 0 asks for 2 bytes of the item at 2000.
const FILL: [&str; 15] = [
    "p0 store 8 00001800 2827262524232221",
    "p0 store 4 00001000 18002100",
    "p0 store 4 00001004 08000000",
    "p0 store 8 00001008 0018000000000000",
    "p0 out 4 0518 00100000",
    "p0 load 4 00001000 = 00000000",
    "p0 out 2 0510 0021",
    "host insert 1",
    "p0 out 4 0cd8 00000000",
    "p0 out 4 0cd8 00000001",
    "p0 out 1 00b2 11",
    "p0 out 1 00b3 22",
    "p0 out 4 0630 44434241",
    "p0 store 8 00000000 0200000002000000",
    "p0 store 8 00000008 0020000000000000",
];

const SEEN: [&str; 11] = [
    "p0 in 1 00b2 = 11",
    "p0 in 1 00b3 = 22",
    "p0 in 1 0620 = 04",
    "p0 in 4 0630 = 44434241",
    "p0 in 4 0cdc = 00000003",
    "p0 in 4 0ce0 = 00000001",
    "p0 load 4 00000000 = 02000000",
    "p0 store 4 00000000 02000000",
    "p0 store 2 00002000 0000",
    "p0 out 4 0518 00000000",
    "p0 load 2 00002000 = 2221",
];

/// Makes an access of processor 0, which it may make.
fn take(rt: &impl Abort, machine: &mut Machine, access: Access) -> Result<Answer, Fail> {
    let event = Event::Do(0, access);
    assert!(rt; machine.enabled(&event), "the event isn't enabled");
    Ok(machine.step(&event)?)
}

/// Writes ones to a port, and reads 0.
fn check_unnamed(
    rt: &impl Abort,
    machine: &mut Machine,
    port: u16,
    width: u8,
    ones: u32,
) -> Result<(), Fail> {
    let written = take(
        rt,
        machine,
        Access::Out {
            port,
            width,
            value: ones,
        },
    )?;
    assert_eq!(rt; written, Answer::Quiet, "{width} bytes at {port:x}");
    let read = take(rt, machine, Access::In { port, width })?;
    assert_eq!(rt; read, Answer::Value(0), "{width} bytes at {port:x}");
    Ok(())
}

#[test]
fn ports_that_no_rule_names_read_0(rt: HostRuntime) -> Result<(), Fail> {
    let mut machine = empty_machine(&rt, rt.alloc(), TWO)?;
    play(&rt, &mut machine, &FILL)?;
    for port in 0..=u16::MAX {
        if PORTS.contains(&port) {
            continue;
        }
        for (width, ones) in [(1, 0xff), (2, 0xffff), (4, 0xffffffff)] {
            check_unnamed(&rt, &mut machine, port, width, ones)?;
        }
    }
    play(&rt, &mut machine, &SEEN)
}
