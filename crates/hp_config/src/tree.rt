//! What stands at a key of a TOML table.

ghost use Rattle.std.specs.Prelude.{◌≡◌, IfOk, Option, option_map, option_copied};
ghost use Rattle.toml.specs.Data.{Data, get_member};
ghost use Rattle.toml.specs.View.{view, table_view, items_view};
ghost use Rattle.hp_config.specs.Tree.{seen, u32_in, u32_at, text_at, truth_at, all_in, rows_in, numbers_at};

use hp_model::{Ids, NoMemory};
use std::alloc::Global;
use toml::{Table, Value};

/// What stands at a key, if anything.
pub fn value_at<'a>(table: &'a Table, key: &str) -> Option<&'a Value>
    ensures { seen result ≡ get_member key.now (table_view table.now) }
{
    table.get(key)
}

/// A number of 32 bits.
pub fn u32_of(value: &Value) -> Option<u32>
    ensures { result ≡ u32_in (view value.now) }
{
    match value.as_integer() {
        Some(number) => u32::try_from(number).ok(),
        None => None,
    }
}

/// The number at a key.
#[tactic(auto, unfolding(crate::specs::Tree::u32_at))]
pub fn number_at(table: &Table, key: &str) -> Option<u32>
    ensures { result ≡ u32_at key.now (table_view table.now) }
{
    match value_at(table, key) {
        Some(value) => u32_of(value),
        None => None,
    }
}

/// The text at a key.
#[tactic(auto, unfolding(crate::specs::Tree::text_at))]
pub fn string_at<'a>(table: &'a Table, key: &str) -> Option<&'a str>
    ensures { option_copied result ≡ text_at key.now (table_view table.now) }
{
    match value_at(table, key) {
        Some(value) => value.as_str(),
        None => None,
    }
}

/// The truth at a key, `absent` if the key is.
#[tactic(auto, unfolding(crate::specs::Tree::truth_at))]
pub fn bool_at(table: &Table, key: &str, absent: bool) -> Option<bool>
    ensures { result ≡ truth_at absent key.now (table_view table.now) }
{
    match value_at(table, key) {
        Some(value) => value.as_bool(),
        None => Some(absent),
    }
}

/// A type whose values are read from values of the tree.
pub trait Item: Drop + Sized {
    ghost reads: { Data → Option Self };

    /// The value that this one stands for, None where it has another form.
    fn read(alloc: Global, value: &Value) -> Result<Option<Self>, NoMemory>
        ensures { IfOk result (λ found. found ≡ reads (view value.now)) };
}

impl Item for u32 {
    ghost reads = { u32_in };

    fn read(_alloc: Global, value: &Value) -> Result<Option<u32>, NoMemory> {
        Ok(u32_of(value))
    }
}

#[tactic(auto, using(crate::proofs::AllIn::all_in_steps))]
/// Each of the values, None where one has another form.
pub fn all_of<T: Item>(alloc: Global, values: &[Value]) -> Result<Option<Vec<T>>, NoMemory>
    ensures { IfOk result (λ found. option_map (λ v. v.items) found ≡ all_in T.reads (items_view values.now)) }
{
    let mut all = Vec::new(alloc);
    for value in values {
        match T::read(alloc, value)? {
            Some(item) => all.push(item)?,
            None => return Ok(None),
        }
    }
    Ok(Some(all))
}

/// The array of them at a key, empty if the key is absent.
pub fn rows_at<T: Item>(alloc: Global, table: &Table, key: &str) -> Result<Option<Vec<T>>, NoMemory>
    ensures { IfOk result (λ found. option_map (λ v. v.items) found ≡ rows_in T.reads (get_member key.now (table_view table.now))) }
{
    match value_at(table, key) {
        None => Ok(Some(Vec::new(alloc))),
        Some(value) => match value.as_array() {
            Some(values) => all_of::<T>(alloc, values.as_slice()),
            None => Ok(None),
        },
    }
}

/// The numbers of the array at a key.
#[tactic(auto, unfolding(crate::specs::Tree::numbers_at))]
pub fn ids_at(alloc: Global, table: &Table, key: &str) -> Result<Option<Ids>, NoMemory>
    ensures { IfOk result (λ found. found ≡ numbers_at key.now (table_view table.now)) }
{
    let Some(value) = value_at(table, key) else {
        return Ok(None);
    };
    let Some(values) = value.as_array() else {
        return Ok(None);
    };
    match all_of::<u32>(alloc, values.as_slice())? {
        Some(numbers) => Ok(Some(Ids(numbers))),
        None => Ok(None),
    }
}
