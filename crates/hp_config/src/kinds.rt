//! The kind of voice of each possible processor.

ghost use Rattle.std.specs.Prelude.{◌≡◌, ◌==◌, IfOk, OnOk, length};
ghost use Rattle.std.specs.List.{list_any};
ghost use Rattle.hp_config.specs.Kinds.{default_kind as kind_by_default, default_kinds as kinds_by_default, put_kind, put_kinds, kinds_of as kinds_with};

use crate::parts::{AgentRow, AgentRows};
use hp_model::{NoMemory, Steps, VoiceKind, Voices};
use std::alloc::Global;

fn is_place(place: usize, places: &[u32]) -> bool
    ensures { result ≡ list_any (λ k. k == place) places.now }
{
    places.iter().any(|other| *other as usize == place)
}

/// The kind of a processor without an agent.
fn default_kind(alloc: Global, boot: &[u32], place: usize) -> VoiceKind
    ensures { result ≡ kind_by_default boot.now place }
{
    if is_place(place, boot) {
        VoiceKind::Script(Steps(Vec::new(alloc)))
    } else {
        VoiceKind::Pen
    }
}

/// The kinds of so many processors, without their agents.
fn default_kinds(alloc: Global, boot: &[u32], count: usize) -> Result<Vec<VoiceKind>, NoMemory>
    ensures { IfOk result (λ kinds. kinds.items ≡ kinds_by_default boot.now count) }
{
    let mut kinds = Vec::new(alloc);
    for place in 0..count {
        kinds.push(default_kind(alloc, boot, place))?;
    }
    Ok(kinds)
}

/// Gives its agent's kind to a processor.
fn put(kinds: &mut [VoiceKind], agent: AgentRow)
    ensures { kinds.new ≡ put_kind agent.cpu agent.kind kinds.old }
{
    let AgentRow { cpu, kind } = agent;
    let place = cpu as usize;
    if let Some(kind) = kind {
        if place < kinds.len() {
            kinds[place] = kind;
        }
    }
}

/// Gives each agent's kind to its processor, the last agent's first.
#[tactic(auto, using(crate::proofs::Kept::put_kinds_last))]
fn put_all(kinds: &mut [VoiceKind], agents: &mut Vec<AgentRow>)
    ensures { kinds.new ≡ put_kinds agents.old.items kinds.old }
{
    'agents: while let Some(agent) = agents.pop() {
        put(kinds, agent);
    }
}

/// The kinds of so many processors.
#[tactic(auto, unfolding(crate::specs::Kinds::kinds_of))]
pub fn kinds_of(
    alloc: Global,
    agents: AgentRows,
    boot: &[u32],
    count: usize,
) -> Result<Voices, NoMemory>
    ensures { IfOk result (λ voices. voices ≡ kinds_with agents boot.now count) }
{
    let mut kinds = default_kinds(alloc, boot, count)?;
    let AgentRows(mut rows) = agents;
    put_all(kinds.as_mut_slice(), &mut rows);
    Ok(Voices(kinds))
}
