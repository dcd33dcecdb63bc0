//! The firmware's marks and cells as look-ups, and how many stores its image has.

use crate::platforms::sized;
use hp_image::{cell, image, label_of, mark, pen_bytes};
use hp_model::Label;
use std::test::Fail;

/// Labels and their marks.
const MARKS: [(Label, u32); 17] = [
    (Label::F1, 0x53000001),
    (Label::F6, 0x53000006),
    (Label::R1, 0x53000011),
    (Label::R6, 0x53000016),
    (Label::S0, 0x53000021),
    (Label::C1, 0x53000026),
    (Label::NB, 0x5300002c),
    (Label::N0, 0x5300002d),
    (Label::N8a, 0x53000035),
    (Label::N8b, 0x53000036),
    (Label::E0, 0x5300003a),
    (Label::E4e, 0x53000042),
    (Label::T, 0x53000043),
    (Label::E7, 0x53000046),
    // those that look whether an eject went through came last
    (Label::E4f, 0x53000047),
    (Label::E4g, 0x53000048),
    (Label::E4h, 0x53000049),
];

/// Whether a number is a mark: 6 are the first handler's, 6 the relocated handler's, 41 the monarch's.
fn is_mark(number: u32) -> bool {
    matches!(
        number,
        0x53000001..=0x53000006 | 0x53000011..=0x53000016 | 0x53000021..=0x53000049
    )
}

#[test]
fn a_label_is_found_by_its_mark_and_by_no_other_number(rt: HostRuntime) {
    for (label, value) in MARKS {
        assert_eq!(rt; mark(label), value);
    }
    for number in 0x52fffff0..0x53000100u32 {
        let wanted = if is_mark(number) { Some(number) } else { None };
        let found = label_of(number).map(|label| mark(label));
        assert_eq!(rt; found, wanted, "{number:x}");
    }
    for number in [0, 1, 0x01000053, 0x53, 0x4e4550, 0xd3000001, 0xffffffff] {
        assert!(rt; label_of(number).is_none(), "{number:x}");
    }
    assert_eq!(rt; pen_bytes(), [0x50, 0x45, 0x4e, 0x00]);
}

// RAM, MiB of TSEG, how many processors, a slot; then the cells of F6, R6 and E4h
const CELLS: [(u32, u32, u32, u32, [u32; 3]); 7] = [
    (0x1000000, 1, 1, 0, [0x38014, 0xf28014, 0xf280a0]),
    (0x1000000, 1, 14, 13, [0x38014, 0xff8014, 0xf280a0]),
    (0x1000000, 8, 64, 63, [0x38014, 0xc18014, 0x8280a0]),
    (0x8000000, 2, 30, 1, [0x38014, 0x7e38014, 0x7e280a0]),
    (0x8000000, 2, 30, 29, [0x38014, 0x7ff8014, 0x7e280a0]),
    (0x80000000, 8, 126, 125, [0x38014, 0x7fff8014, 0x7f8280a0]),
    (0x4000000, 48, 512, 511, [0x38014, 0x3018014, 0x10280a0]),
];

#[test]
fn cells_lie_at_these_addresses(rt: HostRuntime) -> Result<(), Fail> {
    for (low_memory, tseg_mib, count, slot, cells) in CELLS {
        let p = sized(&rt, rt.alloc(), count, 1, low_memory, tseg_mib)?;
        assert!(rt; (slot as usize) < p.apic.0.len());
        let got = [
            cell(&p, Label::F6, slot),
            cell(&p, Label::R6, slot),
            cell(&p, Label::E4h, slot),
        ];
        assert_eq!(rt;
            got,
            cells,
            "slot {slot} of {count}, {tseg_mib} MiB below {low_memory:x}"
        );
    }
    // a handler's first cell is where SMI entry leads, and in slot 0 the monarch's cells are those of the relocated handler
    let p = sized(&rt, rt.alloc(), 2, 1, 0x8000000, 1)?;
    assert_eq!(rt; p.apic.0.len(), 2);
    assert_eq!(rt; cell(&p, Label::F1, 1), 0x38000);
    assert_eq!(rt; cell(&p, Label::R1, 1), 0x7f38000);
    assert_eq!(rt; cell(&p, Label::S0, 1), 0x7f28000);
    assert_eq!(rt; cell(&p, Label::R1, 0), cell(&p, Label::S0, 0));
    Ok(())
}

// possible processors, how many of them are boot processors, MiB of TSEG, stores
const IMAGES: [(u32, u32, u32, usize); 7] = [
    (1, 1, 1, 41),
    (2, 1, 1, 47),
    (2, 2, 1, 48),
    (3, 3, 1, 6 + 6 + 41 + 2),
    (14, 1, 1, 119),
    (14, 3, 1, 121),
    (512, 1, 48, 3107),
];

#[test]
fn each_possible_slot_has_its_tile_and_each_boot_slot_from_1_on_its_release_byte(
    rt: HostRuntime,
) -> Result<(), Fail> {
    for (count, boot, tseg_mib, stores) in IMAGES {
        let p = sized(&rt, rt.alloc(), count, boot, 0x8000000, tseg_mib)?;
        let cells = image(rt.alloc(), &p)?;
        assert_eq!(rt; cells.list.0.len(), stores, "{boot} of {count}");
    }
    Ok(())
}
