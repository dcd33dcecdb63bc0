//! Handshakes step by step, by one thread.

use hp_gate::{Closed, Gate, Look, Named, Pass};
use std::test::Fail;

const TWO: [Named; 2] = [
    Named {
        apic: 1,
        base: 0x07f30000,
    },
    Named {
        apic: 2,
        base: 0x07f40000,
    },
];

#[test]
fn an_opening_is_passed_by_whom_it_names(rt: HostRuntime) -> Result<(), Fail> {
    let (gate, mut monarch) = Gate::new(rt.alloc(), &TWO)?;
    let mut one = gate.seat(&mut monarch);
    let mut two = gate.seat(&mut monarch);
    assert_eq!(rt; gate.name(&mut monarch, 1), 1);
    assert_eq!(rt; gate.pass(&mut two), Pass::Closed(0x0000000100000001));
    let passed = gate.pass(&mut one);
    let Pass::Through(1) = passed else {
        panic!(rt; "{passed:?}")
    };
    assert_eq!(rt; gate.base(&mut one), 0x07f30000);
    let closed = gate.close(&mut monarch);
    let Closed::Passed = closed else {
        panic!(rt; "{closed:?}")
    };
    let look = gate.look(&mut monarch);
    let Look::NotYet(0) = look else {
        panic!(rt; "{look:?}")
    };
    gate.flag(&mut one);
    gate.arrive(&mut one);
    let look = gate.look(&mut monarch);
    let Look::Arrived = look else {
        panic!(rt; "{look:?}")
    };
    assert_eq!(rt; gate.name(&mut monarch, 2), 2);
    assert_eq!(rt;
        (one.apic(), one.passed(), two.apic(), two.passed()),
        (1, 1, 2, 0)
    );
    assert_eq!(rt; (monarch.opened(), monarch.idle()), (2, false));
    Ok(())
}

#[test]
fn an_opening_that_was_closed_is_not_passed(rt: HostRuntime) -> Result<(), Fail> {
    let (gate, mut monarch) = Gate::new(rt.alloc(), &TWO)?;
    let mut one = gate.seat(&mut monarch);
    assert_eq!(rt; gate.name(&mut monarch, 1), 1);
    let closed = gate.close(&mut monarch);
    let Closed::Unpassed = closed else {
        panic!(rt; "{closed:?}")
    };
    let passed = gate.pass(&mut one);
    let Pass::Closed(0xffffffffffffffff) = passed else {
        panic!(rt; "{passed:?}")
    };
    assert_eq!(rt; gate.name(&mut monarch, 1), 2);
    assert_eq!(rt; gate.pass(&mut one), Pass::Through(2));
    Ok(())
}
