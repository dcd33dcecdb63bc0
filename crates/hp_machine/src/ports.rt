//! Which device an I/O port belongs to, and accesses to the register block and to ICH9.

ghost use Rattle.std.specs.Prelude.{◌≡◌, ◌≤◌, ◌<◌, ◌+◌, ◌-◌, ◌^◌, length, true, if◌then◌else◌};
ghost use Rattle.hp_model.specs.Ports.{is_on_block as on_block, is_fw_cfg_selector, is_fw_cfg_data, is_dma_high as dma_high, is_dma_low as dma_low, without_ejected};
ghost use Rattle.hp_model.specs.Block.{block_write, ejected_by};
ghost use Rattle.hp_model.specs.FwCfg.{has_broadcast};
ghost use Rattle.hp_model.specs.Ich9.{ich9_write, raises_smi};
ghost use Rattle.hp_model.specs.Interrupts.{smi_raised};
ghost use Rattle.hp_model.specs.Access.{IsPortWidth};
ghost use Rattle.hp_machine.specs.Machine.{port_value, port_read, most_processors};

use crate::interrupts::raise_smi;
use hp_cpu::Cpus;
use hp_fwcfg::FwCfg;
use hp_ich9::{Ich9, Raise};
use hp_regs::Block;

/// The register block's first port, and the one past its last.
const FIRST_PORT: u16 = 0xcd8;

const PAST_PORT: u16 = 0xce4;

/// Whether the port is one of the register block's.
pub fn is_on_block(port: u16) -> bool
    ensures value { result ≡ on_block port }
    ensures within { result ≡ true → (0xcd8 ≤ port) × (port < 0xce4) }
{
    FIRST_PORT <= port && port < PAST_PORT
}

/// Whether the access is to fw_cfg's selector.
pub fn is_selector(port: u16, width: u8) -> bool
    ensures { result ≡ is_fw_cfg_selector port width }
{
    port == 0x510 && width == 2
}

/// Whether the access is to fw_cfg's data.
pub fn is_data(port: u16, width: u8) -> bool
    ensures { result ≡ is_fw_cfg_data port width }
{
    port == 0x511 && width == 1
}

/// Whether the access is to the high half of fw_cfg's DMA address.
pub fn is_dma_high(port: u16, width: u8) -> bool
    ensures { result ≡ dma_high port width }
{
    port == 0x514 && width == 4
}

/// Whether the access is to its low half.
pub fn is_dma_low(port: u16, width: u8) -> bool
    ensures { result ≡ dma_low port width }
{
    port == 0x518 && width == 4
}

/// Reads a port. A read of fw_cfg's data moves its offset; ports that no rule names read 0.
pub fn read_port(block: &Block, ich9: &Ich9, fw_cfg: &mut FwCfg, port: u16, width: u8) -> u32
    requires { IsPortWidth width }
    ensures value { result ≡ port_value port width block.now ich9.now fw_cfg.old }
    ensures moved { fw_cfg.new ≡ port_read port width fw_cfg.old }
    ensures below { result < 256 ^ width }
{
    if is_on_block(port) {
        block.read((port - FIRST_PORT) as u8, width)
    } else if is_data(port, width) {
        u32::from(fw_cfg.read_byte())
    } else {
        ich9.inp(port, width)
    }
}

/// Writes a port of the register block. A processor that the write ejects is absent, and answered.
#[tactic(auto, using(crate::proofs::Ejects::ejects))]
pub fn write_block(
    block: &mut Block,
    cpus: &mut Cpus,
    port: u16,
    width: u8,
    value: u32,
) -> Option<u32>
    requires width { IsPortWidth width }
    requires from { 0xcd8 ≤ port }
    requires to { port < 0xce4 }
    requires count { length cpus.old ≡ length block.old.slots }
    ensures block { block.new ≡ block_write block.old (port - 0xcd8) width value }
    ensures cpus { cpus.new ≡ without_ejected (ejected_by block.old block.new) cpus.old }
    ensures ejected { result ≡ ejected_by block.old block.new }
{
    let ejected = block.write((port - FIRST_PORT) as u8, width, value);
    if let Some(place) = ejected {
        cpus.remove(place);
    }
    ejected
}

/// Whether these features hold broadcast; None where none were negotiated.
pub fn is_broadcast(negotiated: Option<u64>) -> bool
    ensures { result ≡ has_broadcast negotiated }
{
    match negotiated {
        Some(features) => features & 1 == 1,
        None => false,
    }
}

/// Writes a port of ICH9, or one that no rule names. The SMI that it may raise reaches all present processors where it is
/// broadcast, else processor `cpu`.
pub fn write_ich9(
    ich9: &mut Ich9,
    cpus: &mut Cpus,
    apic: &[u32],
    cpu: u32,
    broadcast: bool,
    port: u16,
    width: u8,
    value: u32,
)
    requires same { length cpus.old ≡ length apic.now }
    requires few { length apic.now ≤ most_processors }
    requires place { cpu < length apic.now }
    ensures ich9 { ich9.new ≡ ich9_write ich9.old port width value }
    ensures cpus { cpus.new ≡ (if raises_smi ich9.old port width then smi_raised broadcast cpu apic.now cpus.old else cpus.old) }
{
    match ich9.out(port, width, value) {
        Raise::Smi => raise_smi(cpus, apic, cpu, broadcast),
        Raise::Nothing => {}
    }
}
