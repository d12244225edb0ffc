// The texts that stand in a symbol, and those that stand twice.
ghost use Rattle.std.specs.Prelude.{◌≡◌, IfOk, map, option_copied};
ghost use Rattle.sym_check.specs.Findings.{pin_numbers_of, seqs_of};
ghost use Rattle.sym_check.specs.Slotdefs.{heads_of, slotdef_head};
ghost use Rattle.sym_check.specs.steps.FoundBy.{HasPrinted, HasTwice, has_text, key_of};
ghost use Rattle.printed_texts.specs.PrintedTexts.{word};

use crate::checked::CheckedPin;
use geda_model::{Block, Line};
use printed_texts::name_words;
use std::alloc::{AllocError, Global};
use std::collections::BTreeSet;
use text_tallies::{PairKey, names_once, pairs_twice};

fn key_of(text: &str) -> PairKey<'_>
    ensures { result ≡ key_of text.now }
{
    PairKey {
        first: "",
        second: text,
    }
}

/// Whether a text is in a set.
pub fn has_text<'a>(texts: &BTreeSet<PairKey<'a>>, text: &'a str) -> bool
    ensures { result ≡ has_text texts.now text.now }
{
    texts.contains(&key_of(text))
}

/// What stands before the first `:` of a `slotdef`.
#[tactic(auto, unfolding(attr_rules::specs::PinLists::cut_of))]
pub fn head_of(slotdef: &str) -> Option<&str>
    ensures { option_copied result ≡ slotdef_head slotdef.now }
{
    let (head, _) = slotdef.split_once(':')?;
    Some(head)
}

fn number_keys(alloc: Global, pins: &[CheckedPin]) -> Result<Vec<PairKey<'_>>, AllocError>
    ensures { IfOk result (λ keys. keys.items ≡ map key_of (pin_numbers_of pins.now)) }
{
    let mut keys = Vec::new(alloc);
    for pin in pins {
        if let Some(number) = &pin.number {
            keys.push(key_of(number.as_str()))?;
        }
    }
    Ok(keys)
}

fn seq_keys(alloc: Global, pins: &[CheckedPin]) -> Result<Vec<PairKey<'_>>, AllocError>
    ensures { IfOk result (λ keys. keys.items ≡ map key_of (seqs_of pins.now)) }
{
    let mut keys = Vec::new(alloc);
    for pin in pins {
        if let Some(seq) = &pin.seq {
            keys.push(key_of(seq.as_str()))?;
        }
    }
    Ok(keys)
}

fn head_keys(alloc: Global, slotdefs: &[Block]) -> Result<Vec<PairKey<'_>>, AllocError>
    ensures { IfOk result (λ keys. keys.items ≡ map key_of (heads_of slotdefs.now)) }
{
    let mut keys = Vec::new(alloc);
    for slotdef in slotdefs {
        if let Some(head) = head_of(slotdef.as_str()) {
            keys.push(key_of(head))?;
        }
    }
    Ok(keys)
}

/// The `pinnumber` that two pins have.
pub fn numbers_twice(
    alloc: Global,
    pins: &[CheckedPin],
) -> Result<BTreeSet<PairKey<'_>>, AllocError>
    ensures { IfOk result (HasTwice (pin_numbers_of pins.now)) }
{
    let keys = number_keys(alloc, pins)?;
    let twice = pairs_twice(alloc, keys)?;
    Ok(twice)
}

/// The `pinseq` that two pins have.
pub fn seqs_twice(alloc: Global, pins: &[CheckedPin]) -> Result<BTreeSet<PairKey<'_>>, AllocError>
    ensures { IfOk result (HasTwice (seqs_of pins.now)) }
{
    let keys = seq_keys(alloc, pins)?;
    let twice = pairs_twice(alloc, keys)?;
    Ok(twice)
}

/// What two of these `slotdef` have before their first `:`.
pub fn heads_twice(alloc: Global, slotdefs: &[Block]) -> Result<BTreeSet<PairKey<'_>>, AllocError>
    ensures { IfOk result (HasTwice (heads_of slotdefs.now)) }
{
    let keys = head_keys(alloc, slotdefs)?;
    let twice = pairs_twice(alloc, keys)?;
    Ok(twice)
}

fn head_lines(alloc: Global, slotdefs: &[Block]) -> Result<Vec<Line>, AllocError>
    ensures { IfOk result (λ lines. lines.items ≡ map word (heads_of slotdefs.now)) }
{
    let mut lines = Vec::new(alloc);
    for slotdef in slotdefs {
        if let Some(head) = head_of(slotdef.as_str()) {
            lines.push(name_words(alloc, head)?)?;
        }
    }
    Ok(lines)
}

/// What these `slotdef` have before their first `:`, as it prints. Digits print as they are.
pub fn printed_heads(alloc: Global, slotdefs: &[Block]) -> Result<BTreeSet<Line>, AllocError>
    ensures { IfOk result (HasPrinted (heads_of slotdefs.now)) }
{
    let lines = head_lines(alloc, slotdefs)?;
    let printed = names_once(alloc, lines)?;
    Ok(printed)
}
