//! An interrupt command reaches its targets.

ghost use Rattle.std.specs.Prelude.{◌≡◌, ◌≤◌, ◌<◌, length, true};
ghost use Rattle.hp_model.specs.Interrupts.{is_target, hit_each, sent, decoded, smi_raised};
ghost use Rattle.hp_machine.specs.Machine.{hit_at, most_processors};

use hp_apic::{decode, decode_wide, hits};
use hp_cpu::Cpus;
use hp_model::{Ipi, Kind};

/// A hit of the processor in a place, where it is one of the targets.
fn hit_target(cpus: &mut Cpus, place: u32, is_aimed: bool, kind: Kind)
    requires { place < length cpus.old }
    ensures { cpus.new ≡ hit_at is_aimed kind place cpus.old }
{
    if is_aimed {
        cpus.hit(place, kind);
    }
}

/// Hits each processor whose APIC ID the command is sent to. `sender` is an APIC ID.
#[tactic(auto, using(crate::proofs::Sending::hits))]
fn send_to_targets(cpus: &mut Cpus, apic: &[u32], ipi: &Ipi, sender: u32)
    requires same { length cpus.old ≡ length apic.now }
    requires few { length apic.now ≤ most_processors }
    ensures { cpus.new ≡ hit_each (is_target ipi.now.to sender) ipi.now.kind apic.now cpus.old }
{
    for place in 0..apic.len() {
        let is_aimed = hits(ipi, sender, apic[place]);
        hit_target(cpus, place as u32, is_aimed, ipi.kind);
    }
}

/// The command in the two halves. `x2apic` tells that the high half is an APIC ID.
fn command(x2apic: bool, high: u32, low: u32) -> Option<Ipi>
    ensures { result ≡ decoded x2apic high low }
{
    if x2apic {
        decode_wide(high, low)
    } else {
        decode(high, low)
    }
}

/// What an interrupt command does, sent by the processor with this APIC ID.
pub fn send(cpus: &mut Cpus, apic: &[u32], sender: u32, x2apic: bool, high: u32, low: u32)
    requires same { length cpus.old ≡ length apic.now }
    requires few { length apic.now ≤ most_processors }
    ensures { cpus.new ≡ sent (decoded x2apic high low) sender apic.now cpus.old }
{
    if let Some(ipi) = command(x2apic, high, low) {
        send_to_targets(cpus, apic, &ipi, sender);
    }
}

/// An SMI to each processor.
#[tactic(auto, using(crate::proofs::Sending::hits))]
fn hit_all(cpus: &mut Cpus, apic: &[u32])
    requires same { length cpus.old ≡ length apic.now }
    requires few { length apic.now ≤ most_processors }
    ensures { cpus.new ≡ hit_each (λ id. true) Kind.Smi apic.now cpus.old }
{
    for place in 0..apic.len() {
        hit_target(cpus, place as u32, true, Kind::Smi);
    }
}

/// The SMI of the SMI command port: to all present processors where it is broadcast, else to processor `cpu`.
pub fn raise_smi(cpus: &mut Cpus, apic: &[u32], cpu: u32, broadcast: bool)
    requires same { length cpus.old ≡ length apic.now }
    requires few { length apic.now ≤ most_processors }
    requires place { cpu < length apic.now }
    ensures { cpus.new ≡ smi_raised broadcast cpu apic.now cpus.old }
{
    if broadcast {
        hit_all(cpus, apic);
    } else {
        cpus.hit(cpu, Kind::Smi);
    }
}
