//! The agents of a case.

use crate::cases::{Case, Fault};
use hp_agent::{Agent, Script, Voice};
use hp_config::step_of;
use hp_model::{Access, NoMemory, Steps};
use std::alloc::Global;

/// The script of these steps.
fn script_of(alloc: Global, steps: &[&str]) -> Result<Script, Fault> {
    let mut list = Vec::new(alloc);
    for step in steps {
        match step_of(step.as_bytes()) {
            Some(access) => list.push(access)?,
            None => return Err(Fault::NotACase),
        }
    }
    Ok(Script::new(Steps(list)))
}

/// The script of the accesses that stand beside lines.
fn script_said(alloc: Global, said: &[(Access, &str)]) -> Result<Script, NoMemory> {
    let mut list = Vec::new(alloc);
    for (access, _line) in said {
        list.push(*access)?;
    }
    Ok(Script::new(Steps(list)))
}

/// The scripts of the first two processors, or of processor 0 alone.
fn scripts<A: Agent>(alloc: Global, case: &Case) -> Result<Vec<Option<Voice<A>>>, Fault> {
    let mut voices = Vec::new(alloc);
    let steps = script_of(alloc, case.steps)?;
    voices.push(Some(Voice::Script(steps)))?;
    if !case.said.is_empty() {
        let said = script_said(alloc, case.said)?;
        voices.push(Some(Voice::Script(said)))?;
    }
    Ok(voices)
}

/// What the processors have, so many of them: the scripts of a case, behind them the agents that are handed in, else nobody.
pub(crate) fn voices_of<A: Agent>(
    alloc: Global,
    case: &Case,
    handed: Vec<A>,
    count: usize,
) -> Result<Vec<Option<Voice<A>>>, Fault> {
    let mut voices = scripts(alloc, case)?;
    for agent in handed {
        voices.push(Some(Voice::Handed(agent)))?;
    }
    for _place in voices.len()..count {
        voices.push(None)?;
    }
    Ok(voices)
}
