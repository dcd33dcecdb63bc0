//! Slots in orders that no session has: a session completes the APIC ID that it holds, ejects one that has a slot, and asks for known
//! slots from 1 on.

use hp_model::{Delivery, Ids, NoMemory, Platform, fits};
use hp_reloc::Slots;
use std::alloc::Global;
use std::process::Abort;
use std::test::Fail;

/// APIC IDs 0 and 8 are there at boot, so they have slots 0 and 1.
fn start(rt: &impl Abort, alloc: Global) -> Result<Slots, NoMemory> {
    let p = Platform {
        apic: Ids(vec![in alloc; 0, 4, 8, 9]?),
        boot: Ids(vec![in alloc; 0, 2]?),
        low_memory: 0x8000000,
        tseg_mib: 1,
        features: 7,
        polls: 8,
        turns: 0,
        modern: true,
        default_smram: true,
        delivery: Delivery::Prompt,
        x2apic: false,
        ext_tseg: true,
    };
    assert!(rt; fits(&p).is_ok());
    Slots::new(alloc, &p)
}

/// The add of APIC ID 4 begins, with the next slot.
fn bind_4(rt: &impl Abort, slots: &mut Slots) {
    assert!(rt; slots.held().is_none());
    assert!(rt; !slots.known(4));
    assert!(rt; slots.is_possible(4));
    assert_eq!(rt; slots.bind(4), 2);
}

#[test]
fn slots_keep_to_their_rules_in_orders_that_no_session_has(rt: HostRuntime) -> Result<(), Fail> {
    // whichever APIC ID is held, none is after an add; one without a slot doesn't become known
    let mut slots = start(&rt, rt.alloc())?;
    assert!(rt; !slots.is_possible(1));
    bind_4(&rt, &mut slots);
    slots.complete(9);
    assert_eq!(rt; slots.held(), None);
    assert!(rt; !slots.known(9));
    assert!(rt; !slots.known(4));
    assert_eq!(rt; slots.count(), 3);
    // nothing changes where one is forgotten that has no slot
    slots = start(&rt, rt.alloc())?;
    slots.forget(9);
    assert!(rt; slots.known(0));
    assert!(rt; slots.known(8));
    assert_eq!(rt; slots.count(), 2);
    // the next known slot passes those that are not
    bind_4(&rt, &mut slots);
    slots.complete(4);
    slots.forget(8);
    for (from, next) in [
        (0, Some(0)),
        (1, Some(2)),
        (2, Some(2)),
        (3, None),
        (4, None),
    ] {
        assert_eq!(rt; slots.known_from(from), next, "from {from}");
    }
    Ok(())
}
