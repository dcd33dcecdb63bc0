//! Memory where no machine reaches it: its last addresses, values wider than their access, its room, and when two are the same.

ghost use Rattle.hp_model.specs.Access.{IsMemoryWidth};
ghost use Rattle.std.specs.Prelude.{◌+◌, ◌^◌, ◌≤◌, IsTrue};

use hp_mem::Mem;
use hp_model::Span;
use std::test::Fail;

/// Whether a memory takes an access.
fn is_access(addr: u32, width: u8) -> bool
    ensures width { IsTrue result → IsMemoryWidth width }
    ensures end { IsTrue result → addr + width ≤ 2 ^ 32 }
{
    matches!(width, 1 | 2 | 4 | 8) && u64::from(addr) + u64::from(width) <= 0x1_0000_0000
}

/// A store, and loads after it: address, width and value.
#[derive(Clone, Copy)]
struct Case {
    store: (u32, u8, u64),
    loads: [(u32, u8, u64); 5],
}

const CASES: [Case; 5] = [
    Case {
        store: (0xffffffff, 1, 0xc1),
        loads: [
            (0xffffffff, 1, 0xc1),
            (0xfffffffe, 2, 0xc100),
            (0xfffffffc, 4, 0xc1000000),
            (0xfffffff8, 8, 0xc100000000000000),
            (0xfffffff7, 8, 0),
        ],
    },
    Case {
        store: (0xfffffff8, 8, 0x2827262524232221),
        loads: [
            (0xffffffff, 1, 0x28),
            (0xfffffffe, 2, 0x2827),
            (0xfffffffc, 4, 0x28272625),
            (0xfffffff8, 8, 0x2827262524232221),
            (0xfffffff7, 8, 0x2726252423222100),
        ],
    },
    Case {
        store: (0xfffffffe, 2, 0x4241),
        loads: [
            (0xffffffff, 1, 0x42),
            (0xfffffffe, 2, 0x4241),
            (0xfffffffc, 4, 0x42412625),
            (0xfffffff8, 8, 0x4241262524232221),
            (0xfffffff7, 8, 0x4126252423222100),
        ],
    },
    // values that are wider than their access
    Case {
        store: (0xffe, 4, 0xffff_fff3_3333_3231),
        loads: [
            (0xffe, 4, 0x33333231),
            (0xffe, 8, 0x33333231),
            (0x1000, 2, 0x3333),
            (0x1002, 1, 0),
            (0xffd, 1, 0),
        ],
    },
    Case {
        store: (0x30003, 1, 0x1_51),
        loads: [
            (0x30003, 1, 0x51),
            (0x30003, 2, 0x51),
            (0x30004, 1, 0),
            (0x30002, 2, 0x5100),
            (0x30000, 8, 0x51000000),
        ],
    },
];

#[test]
fn stores_reach_the_last_address_and_are_cut_to_their_width(rt: HostRuntime) -> Result<(), Fail> {
    let mut mem = Mem::new(rt.alloc());
    for case in &CASES {
        let (addr, width, value) = case.store;
        assert!(rt; is_access(addr, width));
        mem.store(addr, width, value)?;
        for (from, size, want) in &case.loads {
            assert!(rt; is_access(*from, *size));
            assert_eq!(rt;
                mem.load(*from, *size),
                *want,
                "{size} bytes at {from:x} after a store at {addr:x}"
            );
        }
    }
    let mut other = Mem::new(rt.alloc());
    assert_eq!(rt; other.swap_if(0xfffffff8, 0, 1)?, 0);
    assert_eq!(rt; other.load(0xfffffff8, 8), 1);
    Ok(())
}

/// Addresses far apart, each in a page of its own.
fn scattered(place: u32) -> u32
    ensures { result + 1 ≤ 2 ^ 32 }
{
    place.wrapping_mul(0x00f0_e1ff)
}

#[test]
fn reserved_room_takes_34_stores_of_8_bytes_or_a_byte_in_each_of_272_pages(
    rt: HostRuntime,
) -> Result<(), Fail> {
    let mut mem = Mem::new(rt.alloc());
    mem.reserve()?;
    for place in 0..34u32 {
        mem.store(0x2ff00 + 8 * place, 8, u64::from(place) + 1)?;
    }
    for place in 0..34u32 {
        assert_eq!(rt; mem.load(0x2ff00 + 8 * place, 8), u64::from(place) + 1);
    }
    let mut mem = Mem::new(rt.alloc());
    mem.store(0x5, 1, 0xff)?;
    mem.reserve()?;
    for place in 0..272u32 {
        mem.store(scattered(place), 1, u64::from(place % 251) + 1)?;
    }
    for place in 0..272u32 {
        assert_eq!(rt; mem.load(scattered(place), 1), u64::from(place % 251) + 1);
    }
    assert_eq!(rt; mem.load(0x5, 1), 0xff);
    Ok(())
}

#[test]
fn memories_are_the_same_outside_what_differs(rt: HostRuntime) -> Result<(), Fail> {
    let mut one = Mem::new(rt.alloc());
    let mut other = Mem::new(rt.alloc());
    let none: [Span; 0] = [];
    assert!(rt; one.same_outside(&other, &none));
    one.store(0x1ffc, 8, 0x1122334455667788)?;
    other.store(0x70000000, 2, 0)?;
    other.store(0x1ffc, 8, 0x1122334455667788)?;
    assert!(rt; one.same_outside(&other, &none) && other.same_outside(&one, &none));
    other.store(0x3000, 1, 7)?;
    other.store(0x3fff, 1, 7)?;
    assert!(rt; !one.same_outside(&other, &none) && !other.same_outside(&one, &none));
    let page = [Span {
        from: 0x3000,
        to: 0x3fff,
    }];
    assert!(rt; one.same_outside(&other, &page) && other.same_outside(&one, &page));
    let short = [
        Span {
            from: 0x3000,
            to: 0x3ffe,
        },
        Span {
            from: 0,
            to: 0x2fff,
        },
    ];
    assert!(rt; !one.same_outside(&other, &short) && !other.same_outside(&one, &short));
    Ok(())
}
