//! A platform file is read from its text.

ghost use Rattle.std.specs.Prelude.{◌≡◌, IfOk};
ghost use Rattle.hp_config.specs.Reading.{fault_of as first_rule, file_from as file_with, judged, AnswersReading, reading_of, file_of, IsReadAs};
ghost use Rattle.toml.specs.View.{table_view};

use crate::faults::ConfigFault;
use crate::kinds::kinds_of;
use crate::parts::{Machine, Parts};
use crate::rules::fault_of;
use crate::shape::parts_of;
use hp_model::{File, NoMemory, Rule};
use std::alloc::Global;
use toml::Table;

/// The file of these parts.
fn file_from(alloc: Global, parts: Parts) -> Result<File, NoMemory>
    ensures { IfOk result (λ file. file ≡ file_with parts) }
{
    let Parts {
        machine,
        hosts,
        stalls,
        agents,
    } = parts;
    let Machine {
        platform,
        names_delivery: _,
    } = machine;
    let count = platform.apic.0.len();
    let voices = kinds_of(alloc, agents, platform.boot.0.as_slice(), count)?;
    Ok(File {
        platform,
        hosts,
        stalls,
        voices,
    })
}

/// Holds the parts against the rules past the first.
fn judge(alloc: Global, parts: Parts) -> Result<File, ConfigFault>
    ensures { AnswersReading (judged parts (first_rule parts)) result }
{
    if let Some(rule) = fault_of(&parts) {
        return Err(ConfigFault::Rule(rule));
    }
    match file_from(alloc, parts) {
        Ok(file) => Ok(file),
        Err(NoMemory) => Err(ConfigFault::NoMemory),
    }
}

/// Reads the tree of a TOML document.
#[tactic(auto, unfolding(crate::specs::Reading::file_of))]
fn read_table(alloc: Global, table: &Table) -> Result<File, ConfigFault>
    ensures { AnswersReading (file_of (table_view table.now)) result }
{
    match parts_of(alloc, table) {
        Ok(Some(parts)) => judge(alloc, parts),
        Ok(None) => Err(ConfigFault::Rule(Rule(1))),
        Err(NoMemory) => Err(ConfigFault::NoMemory),
    }
}

/// Reads the text of a platform file, of any length. `NotToml` comes only where the kit's `toml` refuses the text for
/// another cause than memory, and neither a file nor a rule comes there; a rule that fails is the first of
/// docs/FORMATS.md that does.
pub fn read(alloc: Global, text: &[u8]) -> Result<File, ConfigFault>
    ensures { IsReadAs text.now result }
{
    match toml::table_from_slice(alloc, text) {
        Ok(table) => read_table(alloc, &table),
        Err(refused) => {
            if refused.is_memory() {
                Err(ConfigFault::NoMemory)
            } else {
                Err(ConfigFault::NotToml)
            }
        }
    }
}
