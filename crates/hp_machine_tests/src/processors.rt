//! Processors by their own calls, where no event of a machine leads, and the packed fields of the state save area.

ghost use Rattle.std.specs.Prelude.{◌≡◌, true, IsTrue};
ghost use Rattle.hp_model.specs.Cpu.{is_running};

use crate::platforms::platform_of;
use hp_cpu::{Cpus, SavePlan, get, put};
use hp_model::{Cpu, Kind, Mode};
use std::test::Fail;

/// Three processors, of which the last is absent at first.
const THREE: &str =
    "platform apic=16,17,18 boot=0,1 low=08000000 tseg=8 features=7 polls=8 turns=0 modern=true smram=true delivery=prompt";

fn runs(cpu: Cpu) -> bool
    ensures present { IsTrue result → cpu.present ≡ true }
    ensures running { IsTrue result → is_running cpu.mode ≡ true }
{
    cpu.present && matches!(cpu.mode, Mode::Running(_))
}

#[test]
fn a_present_processor_is_not_inserted_and_an_absent_one_not_removed(
    rt: HostRuntime,
) -> Result<(), Fail> {
    let p = platform_of(&rt, rt.alloc(), THREE)?;
    assert_eq!(rt; p.apic.0.len(), 3);
    let mut cpus = Cpus::new(rt.alloc(), &p)?;
    assert!(rt; !cpus.remove(2) && !cpus.get(2).present);
    assert!(rt; cpus.insert(2) && !cpus.insert(2));
    assert!(rt; cpus.get(2).present && matches!(cpus.get(2).mode, Mode::Wait));
    cpus.hit(2, Kind::Start(0x9f));
    assert!(rt; !cpus.insert(2));
    assert!(rt; matches!(cpus.get(2).mode, Mode::Running(0x9f)));
    assert!(rt; runs(cpus.get(2)));
    cpus.halt(2);
    assert!(rt; !cpus.insert(2));
    assert!(rt; matches!(cpus.get(2).mode, Mode::Halted(0x9f)));
    cpus.hit(2, Kind::Smi);
    assert!(rt; !cpus.insert(2) && cpus.get(2).smi);
    assert!(rt; cpus.get(2).can_take_smi());
    cpus.enter(2);
    assert!(rt; !cpus.insert(2));
    assert!(rt; matches!(cpus.get(2).mode, Mode::Smm(0x38000)));
    assert!(rt; cpus.remove(2) && !cpus.get(2).present);
    Ok(())
}

#[test]
fn the_fields_are_packed_with_their_lowest_bytes_first(rt: HostRuntime) {
    let plan = SavePlan {
        smbase: 0x7830000,
        revision: 0x20064,
        rip: 0x1234_5678_9abc_def0,
    };
    let bytes = put(&plan);
    let want = [
        0, 0, 0x83, 7, 0x64, 0, 2, 0, 0xf0, 0xde, 0xbc, 0x9a, 0x78, 0x56, 0x34, 0x12,
    ];
    assert_eq!(rt; bytes, want);
    let saved = get(&bytes);
    assert_eq!(rt; saved.smbase, 0x7830000);
    assert_eq!(rt; saved.rip, 0x1234_5678_9abc_def0);
}
