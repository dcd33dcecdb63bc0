//! The tables of the arrays of a platform file.

ghost use Rattle.std.specs.Prelude.{◌≡◌, IfOk, option_map};
ghost use Rattle.std.specs.List.{list_all};
ghost use Rattle.std.specs.Option.{is_some};
ghost use Rattle.toml.specs.Data.{as_str};
ghost use Rattle.toml.specs.View.{view, table_view, items_view};
ghost use Rattle.hp_config.specs.Tree.{seen};
ghost use Rattle.hp_config.specs.Rows.{in_table, actor_of as actor_in, host_of as host_in, stall_of as stall_in, are_texts as all_texts, step_in, script_in, script_kind, seeded_kind, plain_kind, kind_named, kind_of as kind_in, agent_of as agent_in};

use crate::keys::{Form, has_only_known, is_word};
use crate::parts::AgentRow;
use crate::steps::step_of;
use crate::tree::{Item, all_of, number_at, string_at, u32_of, value_at};
use hp_model::{Access, Actor, HostEvent, NoMemory, Stall, Steps, VoiceKind};
use std::alloc::Global;
use toml::{Table, Value};

/// Exactly one of an insert and a removal.
fn actor_of(insert: Option<&Value>, remove: Option<&Value>) -> Option<Actor>
    ensures { result ≡ actor_in (seen insert.entry) (seen remove.entry) }
{
    match (insert, remove) {
        (Some(value), None) => Some(Actor::Insert(u32_of(value)?)),
        (None, Some(value)) => Some(Actor::Remove(u32_of(value)?)),
        _ => None,
    }
}

/// A host event.
#[tactic(auto, unfolding(crate::specs::Rows::host_of))]
fn host_of(table: &Table) -> Option<HostEvent>
    ensures { result ≡ host_in (table_view table.now) }
{
    if !has_only_known(Form::Host, table) {
        return None;
    }
    let turn = number_at(table, "turn")?;
    let actor = actor_of(value_at(table, "insert"), value_at(table, "remove"))?;
    Some(HostEvent { turn, actor })
}

/// A stall.
#[tactic(auto, unfolding(crate::specs::Rows::stall_of))]
fn stall_of(table: &Table) -> Option<Stall>
    ensures { result ≡ stall_in (table_view table.now) }
{
    if !has_only_known(Form::Stall, table) {
        return None;
    }
    let cpu = number_at(table, "cpu")?;
    let from = number_at(table, "from")?;
    let to = number_at(table, "to")?;
    Some(Stall { cpu, from, to })
}

impl Item for HostEvent {
    ghost use Rattle.hp_config.specs.Rows.{in_table, host_of};

    ghost reads = { in_table host_of };

    fn read(_alloc: Global, value: &Value) -> Result<Option<HostEvent>, NoMemory> {
        match value.as_table() {
            Some(table) => Ok(host_of(table)),
            None => Ok(None),
        }
    }
}

impl Item for Stall {
    ghost use Rattle.hp_config.specs.Rows.{in_table, stall_of};

    ghost reads = { in_table stall_of };

    fn read(_alloc: Global, value: &Value) -> Result<Option<Stall>, NoMemory> {
        match value.as_table() {
            Some(table) => Ok(stall_of(table)),
            None => Ok(None),
        }
    }
}

impl Item for Access {
    ghost use Rattle.hp_config.specs.Rows.{step_in};

    ghost reads = { step_in };

    fn read(_alloc: Global, value: &Value) -> Result<Option<Access>, NoMemory> {
        match value.as_str() {
            Some(text) => Ok(step_of(text.as_bytes())),
            None => Ok(None),
        }
    }
}

#[tactic(auto, using(crate::proofs::AllIn::text_steps))]
fn are_texts(values: &[Value]) -> bool
    ensures { result ≡ all_texts (items_view values.now) }
{
    for value in values {
        if !value.is_str() {
            return false;
        }
    }
    true
}

/// A script of these steps.
fn script_of(alloc: Global, values: &[Value]) -> Result<Option<Option<VoiceKind>>, NoMemory>
    ensures { IfOk result (λ kind. kind ≡ script_in (items_view values.now)) }
{
    if !are_texts(values) {
        return Ok(None);
    }
    match all_of::<Access>(alloc, values)? {
        Some(steps) => Ok(Some(Some(VoiceKind::Script(Steps(steps))))),
        None => Ok(Some(None)),
    }
}

fn script_kind_of(
    alloc: Global,
    steps: Option<&Value>,
) -> Result<Option<Option<VoiceKind>>, NoMemory>
    ensures { IfOk result (λ kind. kind ≡ script_kind (seen steps.entry)) }
{
    let Some(value) = steps else { return Ok(None) };
    match value.as_array() {
        Some(values) => script_of(alloc, values.as_slice()),
        None => Ok(None),
    }
}

fn seeded_kind_of(seed: Option<&Value>) -> Option<Option<VoiceKind>>
    ensures { result ≡ seeded_kind (seen seed.entry) }
{
    let seed = u32_of(seed?)?;
    Some(Some(VoiceKind::Seeded(seed as u64)))
}

fn plain_kind_of(name: &str) -> Option<Option<VoiceKind>>
    ensures { result ≡ plain_kind name.now }
{
    if is_word(name, "os") {
        Some(Some(VoiceKind::Os))
    } else if is_word(name, "pen") {
        Some(Some(VoiceKind::Pen))
    } else if is_word(name, "handed") {
        Some(Some(VoiceKind::Handed))
    } else {
        None
    }
}

/// The kind of this name, with its steps or its seed where it has them.
#[tactic(auto, unfolding(crate::specs::Rows::kind_named))]
fn kind_with(
    alloc: Global,
    name: &str,
    steps: Option<&Value>,
    seed: Option<&Value>,
) -> Result<Option<Option<VoiceKind>>, NoMemory>
    ensures { IfOk result (λ kind. kind ≡ kind_named name.now (seen steps.entry) (seen seed.entry)) }
{
    if is_word(name, "script") {
        return if seed.is_some() {
            Ok(None)
        } else {
            script_kind_of(alloc, steps)
        };
    }
    if is_word(name, "seeded") {
        return if steps.is_some() {
            Ok(None)
        } else {
            Ok(seeded_kind_of(seed))
        };
    }
    if steps.is_some() || seed.is_some() {
        return Ok(None);
    }
    Ok(plain_kind_of(name))
}

#[tactic(auto, unfolding(crate::specs::Rows::kind_of))]
fn kind_of(alloc: Global, table: &Table) -> Result<Option<Option<VoiceKind>>, NoMemory>
    ensures { IfOk result (λ kind. kind ≡ kind_in (table_view table.now)) }
{
    match string_at(table, "kind") {
        Some(name) => kind_with(
            alloc,
            name,
            value_at(table, "steps"),
            value_at(table, "seed"),
        ),
        None => Ok(None),
    }
}

/// An agent.
#[tactic(auto, unfolding(crate::specs::Rows::agent_of))]
fn agent_of(alloc: Global, table: &Table) -> Result<Option<AgentRow>, NoMemory>
    ensures { IfOk result (λ agent. agent ≡ agent_in (table_view table.now)) }
{
    if !has_only_known(Form::Agent, table) {
        return Ok(None);
    }
    let Some(cpu) = number_at(table, "cpu") else {
        return Ok(None)
    };
    match kind_of(alloc, table)? {
        Some(kind) => Ok(Some(AgentRow { cpu, kind })),
        None => Ok(None),
    }
}

impl Item for AgentRow {
    ghost use Rattle.hp_config.specs.Rows.{in_table, agent_of};

    ghost reads = { in_table agent_of };

    fn read(alloc: Global, value: &Value) -> Result<Option<AgentRow>, NoMemory> {
        match value.as_table() {
            Some(table) => agent_of(alloc, table),
            None => Ok(None),
        }
    }
}
