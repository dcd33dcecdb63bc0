//! Headers, ends and script steps, as values.

use hp_config::step_of;
use hp_model::{Access, Delivery, Ids, Platform};
use hp_trace::{end, head};
use std::test::Fail;

#[test]
fn the_header_and_the_end_stand_around_the_lines(rt: HostRuntime) -> Result<(), Fail> {
    let mut platform = Platform {
        apic: Ids(vec![in rt.alloc(); 0, 1]?),
        boot: Ids(vec![in rt.alloc(); 0]?),
        low_memory: 0x08000000,
        tseg_mib: 1,
        features: 7,
        polls: 8,
        turns: 72,
        modern: true,
        default_smram: true,
        delivery: Delivery::Prompt,
        x2apic: false,
        ext_tseg: true,
    };
    let mut out = Vec::from_slice(rt.alloc(), b"kept\n")?;
    head(&platform, &mut out)?;
    end(82, &mut out)?;
    platform.boot.0.push(1)?;
    platform.default_smram = false;
    head(&platform, &mut out)?;
    platform.delivery = Delivery::Late { lag: 1000 };
    head(&platform, &mut out)?;
    platform.apic.0.push(70000)?;
    platform.tseg_mib = 48;
    platform.ext_tseg = false;
    platform.x2apic = true;
    head(&platform, &mut out)?;
    platform.delivery = Delivery::Prompt;
    head(&platform, &mut out)?;
    let want =
        "kept\nplatform apic=0,1 boot=0 low=08000000 tseg=1 features=7 polls=8 turns=72 modern=true smram=true delivery=prompt\nend 82\nplatform apic=0,1 boot=0,1 low=08000000 tseg=1 features=7 polls=8 turns=72 modern=true smram=false delivery=prompt\nplatform apic=0,1 boot=0,1 low=08000000 tseg=1 features=7 polls=8 turns=72 modern=true smram=false delivery=late lag=1000\nplatform apic=0,1,70000 boot=0,1 low=08000000 tseg=48 ext=false features=7 polls=8 turns=72 modern=true smram=false delivery=late lag=1000 x2apic=true\nplatform apic=0,1,70000 boot=0,1 low=08000000 tseg=48 ext=false features=7 polls=8 turns=72 modern=true smram=false delivery=prompt x2apic=true\n";
    assert_eq!(rt; out.as_slice(), want.as_bytes());
    Ok(())
}

const STEPS: [(&str, Access); 10] = [
    (
        "load 4 07f28088",
        Access::Load {
            addr: 0x7f28088,
            width: 4,
        },
    ),
    (
        "store 8 000a0000 00000000fedcba98",
        Access::Store {
            addr: 0xa0000,
            width: 8,
            value: 0xfedcba98,
        },
    ),
    (
        "cas 00000010 0000000000000000 0123456789abcdef",
        Access::Swap {
            addr: 16,
            expected: 0,
            desired: 0x123456789abcdef,
        },
    ),
    (
        "in 2 0cd8",
        Access::In {
            port: 0xcd8,
            width: 2,
        },
    ),
    (
        "out 1 00b2 04",
        Access::Out {
            port: 0xb2,
            width: 1,
            value: 4,
        },
    ),
    ("cfgr 9d", Access::CfgRead { reg: 0x9d }),
    (
        "cfgw 9d 5a",
        Access::CfgWrite {
            reg: 0x9d,
            value: 0x5a,
        },
    ),
    (
        "icr 01000000 00000500",
        Access::Icr {
            high: 0x1000000,
            low: 0x500,
        },
    ),
    ("halt", Access::Halt),
    ("nop", Access::Nop),
];

#[test]
fn steps_are_read(rt: HostRuntime) {
    for (text, access) in STEPS {
        assert_eq!(rt; step_of(text.as_bytes()), Some(access), "{text}");
    }
}
