//! Platforms for tests.

ghost use Rattle.std.specs.Prelude.{IfOk};
ghost use Rattle.hp_model.specs.Platform.{IsFit};

use hp_model::{Ids, NoMemory, Platform, fits};
use hp_reading::read_head;
use std::alloc::Global;
use std::process::Abort;
use std::test::Fail;

/// The platform whose trace has this header.
pub fn platform_of(rt: &impl Abort, alloc: Global, head: &str) -> Result<Platform, Fail>
    ensures { IfOk result (λ p. IsFit p) }
{
    let Some(p) = read_head(alloc, head.as_bytes())? else {
        panic!(rt; "no header");
    };
    assert!(rt; fits(&p).is_ok());
    Ok(p)
}

/// Processors with APIC IDs from 0 on, of which the first `boot` are there at boot, and RAM and TSEG of these sizes.
pub fn sized(
    rt: &impl Abort,
    alloc: Global,
    count: u32,
    boot: u32,
    low_memory: u32,
    tseg_mib: u32,
) -> Result<Platform, Fail>
    ensures { IfOk result (λ p. IsFit p) }
{
    let p = Platform {
        apic: ids(alloc, count)?,
        boot: ids(alloc, boot)?,
        low_memory,
        tseg_mib,
        ..platform_of(rt, alloc, LARGE)?
    };
    assert!(rt; fits(&p).is_ok());
    Ok(p)
}

/// 128 MiB of RAM and a TSEG of 48 MiB, with x2APIC.
pub const LARGE: &str =
    "platform apic=0,1 boot=0,1 low=08000000 tseg=48 features=7 polls=8 turns=0 modern=true smram=true delivery=prompt x2apic=true";

fn ids(alloc: Global, count: u32) -> Result<Ids, NoMemory> {
    let mut list = Vec::new(alloc);
    for place in 0..count {
        list.push(place)?;
    }
    Ok(Ids(list))
}
