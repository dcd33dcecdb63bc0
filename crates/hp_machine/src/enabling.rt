//! What a processor may do, by its presence, mode and latches.

ghost use Rattle.std.specs.Prelude.{◌≡◌};
ghost use Rattle.hp_model.specs.Cpu.{is_unlatched as unlatched, is_free as free, is_running, is_in_smm};
ghost use Rattle.hp_model.specs.Access.{is_normal as normal, is_halt as halt, stands_in_smm, may_access};

use hp_model::{Access, Cpu, Mode, holds, is_memory_width, is_port_width};

/// Whether the access has a width that there is, and no value that its width can't hold.
pub fn is_normal(access: Access) -> bool
    ensures { result ≡ normal access }
{
    match access {
        Access::Load { addr: _, width } => is_memory_width(width),
        Access::Store {
            addr: _,
            width,
            value,
        } => is_memory_width(width) && holds(width, value),
        Access::In { port: _, width } => is_port_width(width),
        Access::Out {
            port: _,
            width,
            value,
        } => is_port_width(width) && holds(width, u64::from(value)),
        Access::Swap { .. }
        | Access::CfgRead { .. }
        | Access::CfgWrite { .. }
        | Access::Icr { .. }
        | Access::Halt
        | Access::Nop => true,
    }
}

fn is_halt(access: Access) -> bool
    ensures { result ≡ halt access }
{
    matches!(access, Access::Halt)
}

fn is_running_mode(mode: Mode) -> bool
    ensures { result ≡ is_running mode }
{
    matches!(mode, Mode::Running(_))
}

pub fn is_smm_mode(mode: Mode) -> bool
    ensures { result ≡ is_in_smm mode }
{
    matches!(mode, Mode::Smm(_))
}

/// Whether nothing is latched that goes before the processor's next access. `late` tells that a latched SMI may come
/// late, after it.
fn is_unlatched(late: bool, cpu: &Cpu) -> bool
    ensures { result ≡ unlatched late cpu.now }
{
    late && cpu.smi || !cpu.smi && !cpu.init
}

/// Whether the processor may make any access: present, running, and nothing goes before.
fn is_free(late: bool, cpu: &Cpu) -> bool
    ensures { result ≡ free late cpu.now }
{
    cpu.present && is_running_mode(cpu.mode) && is_unlatched(late, cpu)
}

/// Whether a present processor is in SMM.
pub fn is_in_smm_now(cpu: &Cpu) -> bool
    ensures { result ≡ stands_in_smm cpu.now }
{
    cpu.present && is_smm_mode(cpu.mode)
}

/// Whether the processor may make this access, which is normal.
pub fn can_access(late: bool, cpu: &Cpu, access: Access) -> bool
    ensures { result ≡ may_access late cpu.now access }
{
    is_free(late, cpu) || is_in_smm_now(cpu) && !is_halt(access)
}
