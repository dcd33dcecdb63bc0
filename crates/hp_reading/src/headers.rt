//! The header, read from its line.

ghost use Rattle.std.specs.Prelude.{◌≡◌, ◌≤◌, ◌<◌, ◌^◌, IfOk, IfSome, option_map};
ghost use Rattle.hp_model.specs.Platform.{first_broken};
ghost use Rattle.hp_reading.specs.Header.{numbers_onto as text_numbers, numbers_after as text_numbers_after, hex_after as text_hex_after, decimal_after as text_decimal_after, truth_front, truth_after as text_truth_after, ext_front as text_ext, x2apic_of as text_x2apic, delivery_front as text_delivery, sizes_front, counts_front, kinds_of as text_kinds, platform_of, behind_ids, named_by as text_named, fitting as fitting_platform, head_of};

use crate::fronts::{decimal, hex, past};
use hp_model::{Delivery, Ids, NoMemory, Platform, fits};
use std::alloc::Global;

/// The parts of a header that say where memory lies.
#[derive(Clone, Copy)]
pub struct Sizes {
    pub low_memory: u32,
    pub tseg_mib: u32,
    pub ext_tseg: bool,
}

/// The numbers behind them.
#[derive(Clone, Copy)]
pub struct Counts {
    pub features: u64,
    pub polls: u32,
    pub turns: u32,
}

/// And the rest.
#[derive(Clone, Copy)]
pub struct Kinds {
    pub modern: bool,
    pub default_smram: bool,
    pub delivery: Delivery,
    pub x2apic: bool,
}

/// At most `left` numbers with a comma between two, behind those that were read; and what follows them.
#[tactic(auto, using(crate::proofs::Numbers::number_steps))]
fn numbers_onto(
    text: &[u8],
    left: u32,
    mut made: Vec<u32>,
) -> Result<Option<(Vec<u32>, &[u8])>, NoMemory>
    ensures { IfOk result (λ found. option_map (λ p. (p.0.items, p.1.now)) found ≡ text_numbers left made.items text.now) }
{
    if left == 0 {
        return Ok(None);
    }
    let Some((value, rest)) = decimal(text, 0xffffffff) else {
        return Ok(None);
    };
    made.push(value as u32)?;
    match past(rest, b",") {
        Some(others) => numbers_onto(others, left - 1, made),
        None => Ok(Some((made, rest))),
    }
}

/// The numbers behind a word, of which there are no more than a platform has processors.
#[tactic(auto, unfolding(crate::specs::Header::numbers_after))]
fn numbers_after<'a>(
    alloc: Global,
    text: &'a [u8],
    word: &[u8],
) -> Result<Option<(Vec<u32>, &'a [u8])>, NoMemory>
    ensures { IfOk result (λ found. option_map (λ p. (p.0.items, p.1.now)) found ≡ text_numbers_after word.now text.now) }
{
    match past(text, word) {
        Some(rest) => numbers_onto(rest, 512, Vec::new(alloc)),
        None => Ok(None),
    }
}

/// The hexadecimal number of 32 bits behind a word.
#[tactic(auto, unfolding(crate::specs::Header::hex_after))]
fn hex_after<'a>(text: &'a [u8], word: &[u8]) -> Option<(u32, &'a [u8])>
    ensures { option_map (λ p. (p.0, p.1.now)) result ≡ text_hex_after word.now 8 text.now }
{
    let (value, rest) = hex(past(text, word)?, 8)?;
    Some((value as u32, rest))
}

/// The decimal number behind a word.
#[tactic(auto, unfolding(crate::specs::Header::decimal_after))]
fn decimal_after<'a>(text: &'a [u8], word: &[u8], most: u64) -> Option<(u64, &'a [u8])>
    ensures value { option_map (λ p. (p.0, p.1.now)) result ≡ text_decimal_after word.now most text.now }
    ensures small { IfSome result (λ p. p.0 ≤ most) }
{
    decimal(past(text, word)?, most)
}

fn truth(text: &[u8]) -> Option<(bool, &[u8])>
    ensures { option_map (λ p. (p.0, p.1.now)) result ≡ truth_front text.now }
{
    if let Some(rest) = past(text, b"true") {
        return Some((true, rest));
    }
    if let Some(rest) = past(text, b"false") {
        return Some((false, rest));
    }
    None
}

/// The truth value behind a word.
#[tactic(auto, unfolding(crate::specs::Header::truth_after))]
fn truth_after<'a>(text: &'a [u8], word: &[u8]) -> Option<(bool, &'a [u8])>
    ensures { option_map (λ p. (p.0, p.1.now)) result ≡ text_truth_after word.now text.now }
{
    truth(past(text, word)?)
}

#[tactic(auto, unfolding(crate::specs::Header::ext_front))]
fn ext_front(text: &[u8]) -> (bool, &[u8])
    ensures { (result.0, result.1.now) ≡ text_ext text.now }
{
    match past(text, b" ext=false") {
        Some(rest) => (false, rest),
        None => (true, text),
    }
}

#[tactic(auto, unfolding(crate::specs::Header::x2apic_of))]
fn x2apic_of(text: &[u8]) -> Option<bool>
    ensures { result ≡ text_x2apic text.now }
{
    match past(text, b" x2apic=true") {
        Some(rest) => if rest.is_empty() { Some(true) } else { None },
        None => if text.is_empty() { Some(false) } else { None },
    }
}

#[tactic(auto, unfolding(crate::specs::Header::delivery_front))]
fn delivery_front(text: &[u8]) -> Option<(Delivery, &[u8])>
    ensures { option_map (λ p. (p.0, p.1.now)) result ≡ text_delivery text.now }
{
    if let Some(rest) = past(text, b" delivery=prompt") {
        return Some((Delivery::Prompt, rest));
    }
    let (lag, rest) = decimal_after(text, b" delivery=late lag=", 0xffffffff)?;
    Some((Delivery::Late { lag: lag as u32 }, rest))
}

#[tactic(auto, unfolding(crate::specs::Header::sizes_front))]
fn sizes_of(text: &[u8]) -> Option<(Sizes, &[u8])>
    ensures { option_map (λ p. (p.0, p.1.now)) result ≡ sizes_front text.now }
{
    let (low_memory, rest) = hex_after(text, b" low=")?;
    let (tseg_mib, rest) = decimal_after(rest, b" tseg=", 0xffffffff)?;
    let (ext_tseg, rest) = ext_front(rest);
    Some((
        Sizes {
            low_memory,
            tseg_mib: tseg_mib as u32,
            ext_tseg,
        },
        rest,
    ))
}

#[tactic(auto, unfolding(crate::specs::Header::counts_front))]
fn counts_of(text: &[u8]) -> Option<(Counts, &[u8])>
    ensures { option_map (λ p. (p.0, p.1.now)) result ≡ counts_front text.now }
{
    let (features, rest) = decimal_after(text, b" features=", 0xffffffffffffffff)?;
    let (polls, rest) = decimal_after(rest, b" polls=", 0xffffffff)?;
    let (turns, rest) = decimal_after(rest, b" turns=", 0xffffffff)?;
    Some((
        Counts {
            features,
            polls: polls as u32,
            turns: turns as u32,
        },
        rest,
    ))
}

#[tactic(auto, unfolding(crate::specs::Header::kinds_of))]
fn kinds_of(text: &[u8]) -> Option<Kinds>
    ensures { result ≡ text_kinds text.now }
{
    let (modern, rest) = truth_after(text, b" modern=")?;
    let (default_smram, rest) = truth_after(rest, b" smram=")?;
    let (delivery, rest) = delivery_front(rest)?;
    let x2apic = x2apic_of(rest)?;
    Some(Kinds {
        modern,
        default_smram,
        delivery,
        x2apic,
    })
}

/// The platform of these APIC IDs and boot processors whose other parts the text has.
#[tactic(auto, unfolding(crate::specs::Header::behind_ids))]
fn behind(apic: Ids, boot: Ids, text: &[u8]) -> Option<Platform>
    ensures { result ≡ behind_ids apic boot text.now }
{
    let (sizes, rest) = sizes_of(text)?;
    let (counts, rest) = counts_of(rest)?;
    let kinds = kinds_of(rest)?;
    Some(Platform {
        apic,
        boot,
        low_memory: sizes.low_memory,
        tseg_mib: sizes.tseg_mib,
        features: counts.features,
        polls: counts.polls,
        turns: counts.turns,
        modern: kinds.modern,
        default_smram: kinds.default_smram,
        delivery: kinds.delivery,
        x2apic: kinds.x2apic,
        ext_tseg: sizes.ext_tseg,
    })
}

#[tactic(auto, unfolding(crate::specs::Header::named_by))]
fn named_by(alloc: Global, text: &[u8]) -> Result<Option<Platform>, NoMemory>
    ensures { IfOk result (λ found. found ≡ text_named text.now) }
{
    let Some((apic, rest)) = numbers_after(alloc, text, b"platform apic=")? else {
        return Ok(None);
    };
    let Some((boot, rest)) = numbers_after(alloc, rest, b" boot=")? else {
        return Ok(None);
    };
    Ok(behind(Ids(apic), Ids(boot), rest))
}

fn fitting(p: Platform) -> Option<Platform>
    ensures { result ≡ fitting_platform p (first_broken p) }
{
    if fits(&p).is_ok() { Some(p) } else { None }
}

/// The platform whose header this line is, without its line feed; None exactly where it is no header of one that fits.
#[tactic(auto, unfolding(crate::specs::Header::head_of))]
pub fn read_head(alloc: Global, line: &[u8]) -> Result<Option<Platform>, NoMemory>
    ensures { IfOk result (λ found. found ≡ head_of line.now) }
{
    match named_by(alloc, line)? {
        Some(p) => Ok(fitting(p)),
        None => Ok(None),
    }
}
