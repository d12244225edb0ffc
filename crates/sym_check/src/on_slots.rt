// What is found on the slots of a symbol.
ghost use Rattle.std.specs.Prelude.{◌≡◌, ◌++◌, IfOk, OnOk, is_some, not, option_copied};
ghost use Rattle.std.specs.List.{flat_map, range_with_len};
ghost use Rattle.attr_rules.specs.Slots.{slot_count};
ghost use Rattle.sym_check.specs.Findings.{bad_numslots, bad_slotdef, found_on_slotdef};
ghost use Rattle.sym_check.specs.Findings.{found_on_slots, missing_slotdef};
ghost use Rattle.sym_check.specs.Slotdefs.{is_bad_slotdef, slotdef_head};
ghost use Rattle.sym_check.specs.steps.FoundBy.{missing_slotdef_by, on_slotdef_by, repeated_by};

use crate::checked::CheckedSymbol;
use crate::finding::SymFinding;
use crate::pushing::{error_on, number_line, push_error};
use crate::repeats::{has_text, head_of, heads_twice, printed_heads};
use attr_rules::{SlotFault, short_number, slot_pins};
use geda_model::{Block, Line};
use std::alloc::{AllocError, Global};
use std::collections::BTreeSet;
use std::slice;
use text_tallies::PairKey;

fn numslots_of(symbol: &CheckedSymbol) -> Option<&str>
    ensures { option_copied result ≡ symbol.now.numslots }
{
    match &symbol.numslots {
        Some(value) => Some(value.as_str()),
        None => None,
    }
}

fn slot_count(symbol: &CheckedSymbol) -> Option<u32>
    ensures { result ≡ slot_count symbol.now.numslots }
{
    short_number(numslots_of(symbol)?)
}

fn push_bad_numslots(
    alloc: Global,
    found: &mut Vec<SymFinding>,
    symbol: &CheckedSymbol,
) -> Result<(), AllocError>
    ensures { OnOk result (found.new.items ≡ found.old.items ++ bad_numslots symbol.now) }
{
    match &symbol.numslots {
        None => Ok(()),
        Some(value) => {
            let is_bad = short_number(value.as_str()).is_none();
            error_on(alloc, found, is_bad, 11, value.as_str())
        }
    }
}

fn push_if_missing(
    alloc: Global,
    found: &mut Vec<SymFinding>,
    heads: &BTreeSet<Line>,
    number: u32,
) -> Result<(), AllocError>
    ensures { OnOk result
        (found.new.items ≡ found.old.items ++ missing_slotdef_by heads.now number) }
{
    let words = number_line(alloc, number)?;
    if !heads.contains(&words) {
        push_error(found, 12, words)?;
    }
    Ok(())
}

fn push_missing(
    alloc: Global,
    found: &mut Vec<SymFinding>,
    heads: &BTreeSet<Line>,
    count: u32,
) -> Result<(), AllocError>
    ensures { OnOk result (found.new.items ≡ found.old.items
        ++ flat_map (missing_slotdef_by heads.now) (range_with_len 1 count)) }
{
    for place in 0..count {
        push_if_missing(alloc, found, heads, place + 1)?;
    }
    Ok(())
}

fn push_missing_slotdefs(
    alloc: Global,
    found: &mut Vec<SymFinding>,
    slotdefs: &[Block],
    count: u32,
) -> Result<(), AllocError>
    ensures { OnOk result (found.new.items ≡ found.old.items
        ++ flat_map (missing_slotdef slotdefs.now) (range_with_len 1 count)) }
{
    let heads = printed_heads(alloc, slotdefs)?;
    push_missing(alloc, found, &heads, count)
}

/// Whether a `slotdef` gives so many pins of a symbol no numbers.
fn is_bad_slotdef(
    alloc: Global,
    numslots: Option<&str>,
    pins: usize,
    slotdef: &Block,
) -> Result<bool, AllocError>
    ensures { IfOk result (λ bad. bad
        ≡ is_bad_slotdef (slot_count (option_copied numslots.entry)) pins slotdef.now) }
{
    let Some(head) = head_of(slotdef.as_str()) else {
        return Ok(true);
    };
    match slot_pins(alloc, head, numslots, slice::from_ref(slotdef)) {
        Ok(numbers) => Ok(numbers.len() != pins),
        Err(SlotFault::NoMemory) => Err(AllocError),
        Err(_) => Ok(true),
    }
}

fn push_bad_slotdef(
    alloc: Global,
    found: &mut Vec<SymFinding>,
    symbol: &CheckedSymbol,
    slotdef: &Block,
) -> Result<(), AllocError>
    ensures { OnOk result
        (found.new.items ≡ found.old.items ++ bad_slotdef symbol.now slotdef.now) }
{
    let is_bad = is_bad_slotdef(alloc, numslots_of(symbol), symbol.pins.len(), slotdef)?;
    error_on(alloc, found, is_bad, 14, slotdef.as_str())
}

fn push_repeated_head<'a>(
    alloc: Global,
    found: &mut Vec<SymFinding>,
    twice: &BTreeSet<PairKey<'a>>,
    slotdef: &'a str,
) -> Result<(), AllocError>
    ensures { OnOk result
        (found.new.items ≡ found.old.items ++ repeated_by 13 twice.now (slotdef_head slotdef.now)) }
{
    match head_of(slotdef) {
        None => Ok(()),
        Some(head) => error_on(alloc, found, has_text(twice, head), 13, head),
    }
}

fn push_on_slotdef<'a>(
    alloc: Global,
    found: &mut Vec<SymFinding>,
    twice: &BTreeSet<PairKey<'a>>,
    symbol: &CheckedSymbol,
    slotdef: &'a Block,
) -> Result<(), AllocError>
    ensures { OnOk result (found.new.items
        ≡ found.old.items ++ on_slotdef_by twice.now symbol.now slotdef.now) }
{
    push_repeated_head(alloc, found, twice, slotdef.as_str())?;
    push_bad_slotdef(alloc, found, symbol, slotdef)
}

fn push_on_each<'a>(
    alloc: Global,
    found: &mut Vec<SymFinding>,
    twice: &BTreeSet<PairKey<'a>>,
    symbol: &CheckedSymbol,
    slotdefs: &'a [Block],
) -> Result<(), AllocError>
    ensures { OnOk result (found.new.items ≡ found.old.items
        ++ flat_map (on_slotdef_by twice.now symbol.now) slotdefs.now) }
{
    for slotdef in slotdefs {
        push_on_slotdef(alloc, found, twice, symbol, slotdef)?;
    }
    Ok(())
}

fn push_on_slotdefs(
    alloc: Global,
    found: &mut Vec<SymFinding>,
    symbol: &CheckedSymbol,
) -> Result<(), AllocError>
    ensures { OnOk result (found.new.items
        ≡ found.old.items ++ flat_map (found_on_slotdef symbol.now) symbol.now.slotdefs) }
{
    let slotdefs = symbol.slotdefs.as_slice();
    let twice = heads_twice(alloc, slotdefs)?;
    push_on_each(alloc, found, &twice, symbol, slotdefs)
}

/// Adds what is found on the slots of a symbol: the rules BadNumslots, MissingSlotdef,
/// DuplicateSlotdef and BadSlotdef.
pub fn push_on_slots(
    alloc: Global,
    found: &mut Vec<SymFinding>,
    symbol: &CheckedSymbol,
) -> Result<(), AllocError>
    ensures { OnOk result (found.new.items ≡ found.old.items ++ found_on_slots symbol.now) }
{
    push_bad_numslots(alloc, found, symbol)?;
    let count = slot_count(symbol).unwrap_or(0);
    push_missing_slotdefs(alloc, found, symbol.slotdefs.as_slice(), count)?;
    push_on_slotdefs(alloc, found, symbol)
}
