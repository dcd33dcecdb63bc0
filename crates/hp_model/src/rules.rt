//! The rules that a platform meets.

ghost use Rattle.std.specs.Prelude.{◌≡◌, ◌↔◌, ◌==◌, None, Some, IsOk, IfErr, nat_lt, nat_le};
ghost use Rattle.std.specs.List.{list_all, list_any};
ghost use Rattle.hp_model.specs.Platform.{counts_fit, all_distinct, ids_fit, ascends_from, boot_fits, memory_fits, tseg_fits, tiles_fit, features_fit, polls_fit, turns_fit, greatest_id as greatest, delivery_fits, first_broken};

use crate::platforms::{Delivery, Platform};

/// The number of a rule of the platform file; docs/FORMATS.md lists them.
#[derive(Clone, Copy, Debug, PartialEq)]
pub struct Rule(pub u8);

fn has_fitting_count(p: &Platform) -> bool
    ensures { result ≡ counts_fit p.now }
{
    let count = p.apic.0.len();
    0 < count && count <= 512
}

fn is_among(id: u32, ids: &[u32]) -> bool
    ensures { result ≡ list_any (λ y. y == id) ids.now }
{
    ids.iter().any(|other| *other == id)
}

fn are_distinct(ids: &[u32]) -> bool
    ensures { result ≡ all_distinct ids.now }
{
    match ids {
        [] => true,
        [first, rest @ ..] => !is_among(*first, rest) && are_distinct(rest),
    }
}

fn are_at_most(ids: &[u32], greatest: u32) -> bool
    ensures { result ≡ list_all (λ a. nat_le a greatest) ids.now }
{
    ids.iter().all(|id| *id <= greatest)
}

/// The greatest APIC ID that a processor may have: of 8 bits, or of 32 under x2APIC, and not the one of all ones.
pub fn greatest_id(x2apic: bool) -> u32
    ensures { result ≡ greatest x2apic }
{
    if x2apic { 0xfffffffe } else { 254 }
}

fn has_fitting_ids(p: &Platform) -> bool
    ensures { result ≡ ids_fit p.now }
{
    are_at_most(p.apic.0.as_slice(), greatest_id(p.x2apic)) && are_distinct(p.apic.0.as_slice())
}

/// Whether the numbers ascend strictly, the first from above `low`.
fn ascends(low: u32, numbers: &[u32]) -> bool
    ensures { result ≡ ascends_from low numbers.now }
{
    let mut last = low;
    for number in numbers {
        if *number <= last {
            return false;
        }
        last = *number;
    }
    true
}

fn are_places(numbers: &[u32], count: usize) -> bool
    ensures { result ≡ list_all (λ k. nat_lt k count) numbers.now }
{
    numbers.iter().all(|place| (*place as usize) < count)
}

fn has_fitting_boot(p: &Platform) -> bool
    ensures { result ≡ boot_fits p.now }
{
    match p.boot.0.as_slice() {
        [] => false,
        [first, rest @ ..] => {
            *first == 0 && ascends(0, rest) && are_places(p.boot.0.as_slice(), p.apic.0.len())
        }
    }
}

fn has_fitting_memory(p: &Platform) -> bool
    ensures { result ≡ memory_fits p.now }
{
    p.low_memory % 0x100000 == 0 && 0x1000000 <= p.low_memory && p.low_memory <= 0x80000000
}

fn has_fitting_tseg(p: &Platform) -> bool
    ensures { result ≡ tseg_fits p.now }
{
    p.tseg_mib == 1 || p.tseg_mib == 2 || p.tseg_mib == 8 || p.tseg_mib == 48
}

fn has_fitting_tiles(p: &Platform) -> bool
    ensures { result ≡ tiles_fit p.now }
{
    let count = p.apic.0.len();
    match p.tseg_mib {
        1 => count <= 14,
        2 => count <= 30,
        8 => count <= 126,
        48 => count <= 512 && 0x4000000 <= p.low_memory,
        _ => false,
    }
}

fn has_fitting_features(p: &Platform) -> bool
    ensures { result ≡ features_fit p.now }
{
    p.features <= 7
}

fn has_fitting_polls(p: &Platform) -> bool
    ensures { result ≡ polls_fit p.now }
{
    1 <= p.polls && p.polls <= 4096
}

fn has_fitting_turns(p: &Platform) -> bool
    ensures { result ≡ turns_fit p.now }
{
    p.turns <= 200000
}

fn has_fitting_delivery(p: &Platform) -> bool
    ensures { result ≡ delivery_fits p.now }
{
    match p.delivery {
        Delivery::Prompt => true,
        Delivery::Late { lag } => 1 <= lag && lag <= 1000,
    }
}

/// Whether the machine can be built: Ok exactly where rules 2 to 11 of docs/FORMATS.md hold, else the first that fails.
///
/// Of rule 11 the type already meets what is about the text of `delivery`.
pub fn fits(p: &Platform) -> Result<(), Rule>
    ensures ok { IsOk result ↔ (first_broken p.now ≡ None) }
    ensures broken { IfErr result (λ rule. first_broken p.now ≡ Some rule.0) }
{
    if !has_fitting_count(p) {
        return Err(Rule(2));
    }
    if !has_fitting_ids(p) {
        return Err(Rule(3));
    }
    if !has_fitting_boot(p) {
        return Err(Rule(4));
    }
    if !has_fitting_memory(p) {
        return Err(Rule(5));
    }
    if !has_fitting_tseg(p) {
        return Err(Rule(6));
    }
    if !has_fitting_tiles(p) {
        return Err(Rule(7));
    }
    if !has_fitting_features(p) {
        return Err(Rule(8));
    }
    if !has_fitting_polls(p) {
        return Err(Rule(9));
    }
    if !has_fitting_turns(p) {
        return Err(Rule(10));
    }
    if !has_fitting_delivery(p) {
        return Err(Rule(11));
    }
    Ok(())
}
