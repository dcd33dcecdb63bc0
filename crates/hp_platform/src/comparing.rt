//! Whether two accesses, or two outcomes, are one: by their kinds and their fields.

ghost use Rattle.std.specs.Prelude.{◌≡◌};
ghost use Rattle.hp_model.specs.Access.{same_access as one_access};
ghost use Rattle.hp_model.specs.Firmware.{same_outcome as one_outcome, same_refusal as one_refusal};

use hp_model::{Access, Outcome, Refusal};

#[tactic(auto, unfolding(hp_model::specs::Access::same_access))]
pub(crate) fn same_access(access: Access, other: Access) -> bool
    ensures { result ≡ one_access access other }
{
    match (access, other) {
        (
            Access::Load { addr, width },
            Access::Load {
                addr: at,
                width: wide,
            },
        ) => { addr == at && width == wide }
        (
            Access::Store { addr, width, value },
            Access::Store {
                addr: at,
                width: wide,
                value: v,
            },
        ) => addr == at && width == wide && value == v,
        (
            Access::Swap {
                addr,
                expected,
                desired,
            },
            Access::Swap {
                addr: at,
                expected: seen,
                desired: d,
            },
        ) => addr == at && expected == seen && desired == d,
        (
            Access::In { port, width },
            Access::In {
                port: at,
                width: wide,
            },
        ) => { port == at && width == wide }
        (
            Access::Out { port, width, value },
            Access::Out {
                port: at,
                width: wide,
                value: v,
            },
        ) => port == at && width == wide && value == v,
        (Access::CfgRead { reg }, Access::CfgRead { reg: at }) => reg == at,
        (Access::CfgWrite { reg, value }, Access::CfgWrite { reg: at, value: v }) => {
            reg == at && value == v
        }
        (
            Access::Icr { high, low },
            Access::Icr {
                high: up,
                low: down,
            },
        ) => { high == up && low == down }
        (Access::Halt, Access::Halt) | (Access::Nop, Access::Nop) => true,
        _ => false,
    }
}

#[tactic(auto, unfolding(hp_model::specs::Firmware::same_refusal))]
fn same_refusal(why: Refusal, other: Refusal) -> bool
    ensures { result ≡ one_refusal why other }
{
    match (why, other) {
        (Refusal::Disabled { cpu, status }, Refusal::Disabled { cpu: k, status: t }) => {
            cpu == k && status == t
        }
        (Refusal::Both { cpu, status }, Refusal::Both { cpu: k, status: t }) => {
            cpu == k && status == t
        }
        (
            Refusal::AlreadyKnown { cpu, apic, slot },
            Refusal::AlreadyKnown {
                cpu: k,
                apic: a,
                slot: t,
            },
        ) => cpu == k && apic == a && slot == t,
        (
            Refusal::GateHeld { cpu, apic, held },
            Refusal::GateHeld {
                cpu: k,
                apic: a,
                held: h,
            },
        ) => cpu == k && apic == a && held == h,
        (Refusal::NotAtGate { cpu, apic }, Refusal::NotAtGate { cpu: k, apic: a }) => {
            cpu == k && apic == a
        }
        (Refusal::NotCheckedIn { cpu, apic }, Refusal::NotCheckedIn { cpu: k, apic: a }) => {
            cpu == k && apic == a
        }
        (
            Refusal::NoUnplug { cpu, features },
            Refusal::NoUnplug {
                cpu: k,
                features: f,
            },
        ) => { cpu == k && features == f }
        (Refusal::NotKnown { cpu, apic }, Refusal::NotKnown { cpu: k, apic: a }) => {
            cpu == k && apic == a
        }
        (Refusal::NotArrived { cpu, apic }, Refusal::NotArrived { cpu: k, apic: a }) => {
            cpu == k && apic == a
        }
        (Refusal::NotParked { cpu, apic }, Refusal::NotParked { cpu: k, apic: a }) => {
            cpu == k && apic == a
        }
        (Refusal::Foreign { cpu, apic }, Refusal::Foreign { cpu: k, apic: a }) => {
            cpu == k && apic == a
        }
        (Refusal::StillPending { cpu, status }, Refusal::StillPending { cpu: k, status: t }) => {
            cpu == k && status == t
        }
        _ => false,
    }
}

#[tactic(auto, unfolding(hp_model::specs::Firmware::same_outcome))]
pub(crate) fn same_outcome(outcome: Outcome, other: Outcome) -> bool
    ensures { result ≡ one_outcome outcome other }
{
    match (outcome, other) {
        (
            Outcome::Added { cpu, apic, slot },
            Outcome::Added {
                cpu: k,
                apic: a,
                slot: t,
            },
        ) => cpu == k && apic == a && slot == t,
        (
            Outcome::Ejected { cpu, apic, slot },
            Outcome::Ejected {
                cpu: k,
                apic: a,
                slot: t,
            },
        ) => cpu == k && apic == a && slot == t,
        (Outcome::Refused(why), Outcome::Refused(another)) => same_refusal(why, another),
        _ => false,
    }
}
