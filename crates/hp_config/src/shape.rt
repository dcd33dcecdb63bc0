//! The shape of a platform file, which is its rule 1.

ghost use Rattle.std.specs.Prelude.{◌≡◌, IfOk, option_map};
ghost use Rattle.toml.specs.View.{view, table_view};
ghost use Rattle.hp_config.specs.Tree.{seen};
ghost use Rattle.hp_config.specs.Shape.{sizes_of as sizes_in, late_with as late_in, delivery_without_lag as without_lag, delivery_named, delivery_in, switches_of as switches_in, machine_from as machine_with, machine_of as platform_in, machine_in, parts_of as parts_in};

use crate::keys::{Form, has_only_known, is_word};
use crate::parts::{AgentRow, AgentRows, Machine, Parts, Sizes, Switches};
use crate::tree::{bool_at, ids_at, number_at, rows_at, u32_of, value_at};
use hp_model::{Delivery, HostEvent, Hosts, Ids, NoMemory, Platform, Stall, Stalls};
use std::alloc::Global;
use toml::{Table, Value};

#[tactic(auto, unfolding(crate::specs::Shape::sizes_of))]
fn sizes_of(table: &Table) -> Option<Sizes>
    ensures { result ≡ sizes_in (table_view table.now) }
{
    let low_memory = number_at(table, "low_memory")?;
    let tseg_mib = number_at(table, "tseg_mib")?;
    let features = number_at(table, "features")?;
    let polls = number_at(table, "polls")?;
    let turns = number_at(table, "turns")?;
    Some(Sizes {
        low_memory,
        tseg_mib,
        features,
        polls,
        turns,
    })
}

fn late_with(lag: Option<&Value>) -> Option<Option<Delivery>>
    ensures { result ≡ late_in (seen lag.entry) }
{
    let lag = u32_of(lag?)?;
    Some(Some(Delivery::Late { lag }))
}

fn delivery_without_lag(name: &str) -> Option<Delivery>
    ensures { result ≡ without_lag name.now }
{
    if is_word(name, "prompt") {
        Some(Delivery::Prompt)
    } else {
        None
    }
}

/// The delivery of this name, with its lag where it has one.
#[tactic(auto, unfolding(crate::specs::Shape::delivery_named))]
fn delivery_with(name: &str, lag: Option<&Value>) -> Option<Option<Delivery>>
    ensures { result ≡ delivery_named name.now (seen lag.entry) }
{
    if is_word(name, "late") {
        return late_with(lag);
    }
    if lag.is_some() {
        return None;
    }
    Some(delivery_without_lag(name))
}

/// The delivery, which is prompt if absent.
fn delivery_of(value: Option<&Value>, lag: Option<&Value>) -> Option<Option<Delivery>>
    ensures { result ≡ delivery_in (seen value.entry) (seen lag.entry) }
{
    match value {
        Some(value) => match value.as_str() {
            Some(name) => delivery_with(name, lag),
            None => None,
        },
        None => delivery_with("prompt", lag),
    }
}

#[tactic(auto, unfolding(crate::specs::Shape::switches_of))]
fn switches_of(table: &Table) -> Option<Switches>
    ensures { result ≡ switches_in (table_view table.now) }
{
    let modern = bool_at(table, "modern", true)?;
    let default_smram = bool_at(table, "default_smram", true)?;
    let x2apic = bool_at(table, "x2apic", false)?;
    let ext_tseg = bool_at(table, "ext_tseg", true)?;
    let delivery = delivery_of(value_at(table, "delivery"), value_at(table, "lag"))?;
    Some(Switches {
        modern,
        default_smram,
        x2apic,
        ext_tseg,
        delivery,
    })
}

fn machine_from(apic: Ids, boot: Ids, sizes: Sizes, switches: Switches) -> Machine
    ensures { result ≡ machine_with apic boot sizes switches }
{
    Machine {
        platform: Platform {
            apic,
            boot,
            low_memory: sizes.low_memory,
            tseg_mib: sizes.tseg_mib,
            features: sizes.features as u64,
            polls: sizes.polls,
            turns: sizes.turns,
            modern: switches.modern,
            default_smram: switches.default_smram,
            delivery: switches.delivery.unwrap_or(Delivery::Prompt),
            x2apic: switches.x2apic,
            ext_tseg: switches.ext_tseg,
        },
        names_delivery: switches.delivery.is_some(),
    }
}

/// The platform's table.
#[tactic(auto, unfolding(crate::specs::Shape::machine_of))]
fn machine_of(alloc: Global, table: &Table) -> Result<Option<Machine>, NoMemory>
    ensures { IfOk result (λ machine. machine ≡ platform_in (table_view table.now)) }
{
    if !has_only_known(Form::Platform, table) {
        return Ok(None);
    }
    let Some(apic) = ids_at(alloc, table, "apic")? else {
        return Ok(None)
    };
    let Some(boot) = ids_at(alloc, table, "boot")? else {
        return Ok(None)
    };
    let Some(sizes) = sizes_of(table) else {
        return Ok(None)
    };
    match switches_of(table) {
        Some(switches) => Ok(Some(machine_from(apic, boot, sizes, switches))),
        None => Ok(None),
    }
}

/// The platform's table in the whole file.
fn machine_at(alloc: Global, value: Option<&Value>) -> Result<Option<Machine>, NoMemory>
    ensures { IfOk result (λ machine. machine ≡ machine_in (seen value.entry)) }
{
    let Some(value) = value else { return Ok(None) };
    match value.as_table() {
        Some(table) => machine_of(alloc, table),
        None => Ok(None),
    }
}

/// The whole file, None where rule 1 fails.
#[tactic(auto, unfolding(crate::specs::Shape::parts_of))]
pub fn parts_of(alloc: Global, table: &Table) -> Result<Option<Parts>, NoMemory>
    ensures { IfOk result (λ parts. parts ≡ parts_in (table_view table.now)) }
{
    if !has_only_known(Form::Whole, table) {
        return Ok(None);
    }
    let Some(machine) = machine_at(alloc, value_at(table, "platform"))? else {
        return Ok(None)
    };
    let Some(hosts) = rows_at::<HostEvent>(alloc, table, "host")? else {
        return Ok(None)
    };
    let Some(stalls) = rows_at::<Stall>(alloc, table, "stall")? else {
        return Ok(None)
    };
    match rows_at::<AgentRow>(alloc, table, "agent")? {
        Some(agents) => Ok(Some(Parts {
            machine,
            hosts: Hosts(hosts),
            stalls: Stalls(stalls),
            agents: AgentRows(agents),
        })),
        None => Ok(None),
    }
}
