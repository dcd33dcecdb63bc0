//! Devices by their own calls, where no port of a machine leads: values wider than their port, other events, other keys, and when
//! two devices are the same.

use crate::platforms::{LARGE, platform_of};
use hp_fwcfg::{FwCfg, Transfer, directory};
use hp_ich9::{Ich9, Raise};
use hp_model::Span;
use hp_regs::Block;
use hp_smram::Locks;
use std::test::Fail;

#[test]
fn a_block_cuts_a_value_to_its_width_and_is_the_same_where_its_registers_are(
    rt: HostRuntime,
) -> Result<(), Fail> {
    let alloc = rt.alloc();
    let p = platform_of(&rt, alloc, LARGE)?;
    let mut block = Block::new(alloc, &p)?;
    let other = Block::new(alloc, &p)?;
    assert!(rt; block.same(&other));
    assert_eq!(rt; block.write(0, 4, 0), None);
    assert!(rt; !block.same(&other));
    assert_eq!(rt; block.write(0, 1, 0x101), None);
    assert_eq!(rt; block.read(8, 4), 1);
    assert_eq!(rt; block.write(0, 2, 0x10000), None);
    assert_eq!(rt; (block.read(4, 1), block.read(8, 4)), (1, 0));
    let wider = platform_of(&rt, alloc, WIDER)?;
    assert!(rt; !other.same(&Block::new(alloc, &wider)?));
    Ok(())
}

/// With a third processor.
const WIDER: &str =
    "platform apic=0,1,2 boot=0,1 low=08000000 tseg=48 features=7 polls=8 turns=0 modern=true smram=true delivery=prompt x2apic=true";

/// What APM_CNT, APM_STS, the GPE status and SMI_EN hold.
fn registers(ich9: &Ich9) -> [u32; 4] {
    [
        ich9.inp(0xb2, 1),
        ich9.inp(0xb3, 1),
        ich9.inp(0x620, 1),
        ich9.inp(0x630, 4),
    ]
}

// port, width, value; what it raises, and what the registers hold then
const WRITES: [(u16, u8, u32, Raise, [u32; 4]); 10] = [
    (
        0x630,
        4,
        0x89abcdef,
        Raise::Nothing,
        [0, 0, 0xa7, 0x89abcdef],
    ),
    (0xb2, 1, 0xffffff12, Raise::Smi, [0x12, 0, 0xa7, 0x89abcdef]),
    (
        0xb3,
        1,
        0xffffff34,
        Raise::Nothing,
        [0x12, 0x34, 0xa7, 0x89abcdef],
    ),
    // ones at another width
    (
        0x620,
        2,
        0xffffffff,
        Raise::Nothing,
        [0x12, 0x34, 0xa7, 0x89abcdef],
    ),
    (
        0xb2,
        1,
        0xdeadbe5a,
        Raise::Smi,
        [0x5a, 0x34, 0xa7, 0x89abcdef],
    ),
    (
        0xb3,
        1,
        0xdeadbe5a,
        Raise::Nothing,
        [0x5a, 0x5a, 0xa7, 0x89abcdef],
    ),
    // of the bits 0, 1, 2, 5 and 7 bit 1 alone is among these ones
    (
        0x620,
        1,
        0xdeadbe5a,
        Raise::Nothing,
        [0x5a, 0x5a, 0xa5, 0x89abcdef],
    ),
    (
        0x620,
        1,
        0xfffffffb,
        Raise::Nothing,
        [0x5a, 0x5a, 0x04, 0x89abcdef],
    ),
    (
        0x630,
        4,
        0xdeadbe5a,
        Raise::Nothing,
        [0x5a, 0x5a, 0x04, 0xdeadbe5a],
    ),
    (0x620, 1, 0xff, Raise::Nothing, [0x5a, 0x5a, 0, 0xdeadbe5a]),
];

#[test]
fn each_event_has_its_bit_and_what_was_written_tells_two_ich9_apart(rt: HostRuntime) {
    let mut ich9 = Ich9::new();
    let other = Ich9::new();
    assert!(rt; ich9.same(&other));
    assert_eq!(rt; ich9.out(0x630, 4, 0x40), Raise::Nothing);
    assert!(rt; !ich9.same(&other));
    assert_eq!(rt; ich9.out(0x630, 4, 0), Raise::Nothing);
    assert!(rt; ich9.same(&other));
    for bit in [0, 1, 2, 5, 7] {
        ich9.gpe(bit);
    }
    assert!(rt; !other.same(&ich9));
    for (port, width, value, raise, held) in WRITES {
        assert_eq!(rt;
            ich9.out(port, width, value),
            raise,
            "{value:x} at {port:x}"
        );
        assert_eq!(rt; registers(&ich9), held, "{value:x} at {port:x}");
    }
    ich9.gpe(2);
    ich9.gpe(7);
    assert_eq!(rt; ich9.inp(0x620, 1), 0x84);
}

/// Features whose bytes in etc/smi/supported-features are 1 to 8.
const COUNTED: u64 = 0x0807060504030201;

/// The sum of the first 16 bytes of the item with this key.
fn sum_of(device: &mut FwCfg, key: u16) -> u32 {
    device.select(key);
    let mut sum = 0u32;
    for _ in 0..16 {
        sum = sum.wrapping_add(u32::from(device.read_byte()));
    }
    sum
}

#[test]
fn each_other_key_names_an_empty_item(rt: HostRuntime) {
    let mut device = FwCfg::new(COUNTED);
    // a write of 8 bytes from 1000 to the requested features, which are selected
    let write = [0, 0x21, 0, 0x18, 0, 0, 0, 8, 0, 0, 0, 0, 0, 0, 0x10, 0];
    assert!(rt; matches!(device.dma(&write), Transfer::FromMemory { len: 8, .. }));
    device.finish(&[1, 0, 0, 0, 0, 0, 0, 0]);
    for key in 0..=u16::MAX {
        let wanted = match key {
            0x19 => 3 + 1 + 0x20 + 0x65 + 0x74 + 0x63 + 0x2f,
            0x20 | 0x21 => 1,
            0x22 => 36,
            _ => 0,
        };
        assert_eq!(rt; sum_of(&mut device, key), wanted, "key {key:x}");
    }
    device.select(0x19);
    for byte in directory() {
        assert_eq!(rt; device.read_byte(), byte);
    }
    assert_eq!(rt; device.read_byte(), 0);
}

#[test]
fn the_halves_of_the_address_have_their_highest_byte_first(rt: HostRuntime) {
    let mut device = FwCfg::new(7);
    assert_eq!(rt; device.address(false, 0x78563412), Some(0x12345678));
    assert_eq!(rt; device.address(true, 0x04030201), None);
    assert_eq!(rt; device.address(false, 0x08070605), Some(0x0102030405060708));
    // the high half is 0 again, and the last of several counts
    assert_eq!(rt; device.address(false, 0x01000000), Some(1));
    assert_eq!(rt; device.address(true, 0xffffffff), None);
    assert_eq!(rt; device.address(true, 0x01000000), None);
    assert_eq!(rt; device.address(false, 0), Some(0x100000000));
    let mut device = FwCfg::new(7);
    let other = FwCfg::new(7);
    assert!(rt; device.same(&other));
    assert!(rt; !device.same(&FwCfg::new(3)));
    device.select(0x20);
    assert!(rt; !device.same(&other));
    device.select(0);
    assert!(rt; !other.same(&device));
}

fn locks_after(writes: &[(u8, u8)]) -> Locks {
    let mut locks = Locks::new(0x8000000, true, true);
    for (reg, value) in writes {
        locks.write(*reg, *value);
    }
    locks
}

/// Whether a range is this one.
fn is_range(span: Option<Span>, from: u32, to: u32) -> bool {
    match span {
        Some(span) => span.from == from && span.to == to,
        None => false,
    }
}

#[test]
fn locked_ranges_are_listed_once_they_are_locked(rt: HostRuntime) {
    let [area, tseg] = locks_after(&[(0x9c, 0xff), (0x9e, 3), (0x9d, 0x10)]).locked();
    assert!(rt; area.is_none() && tseg.is_none());
    let [area, tseg] = locks_after(&[(0x9d, 0x18)]).locked();
    assert!(rt; area.is_none() && tseg.is_none());
    let [area, tseg] = locks_after(&[(0x9c, 0xff), (0x9c, 2), (0x9e, 3), (0x9d, 0x18)]).locked();
    assert!(rt; is_range(area, 0x30000, 0x4ffff));
    assert!(rt; is_range(tseg, 0x7e00000, 0x7ffffff));
    let writes = [(0x9c, 0xff), (0x50, 0xff), (0x9e, 7)];
    let locks = locks_after(&writes);
    assert!(rt; locks.same(&locks_after(&writes)));
    assert!(rt; !locks.same(&locks_after(&writes[1..])));
    assert!(rt; !locks.same(&Locks::new(0x8000000, true, false)));
}
