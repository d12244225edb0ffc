// What is found on the pins of a symbol.
ghost use Rattle.std.specs.Prelude.{◌≡◌, ◌++◌, OnOk};
ghost use Rattle.std.specs.List.{flat_map};
ghost use Rattle.sym_check.specs.Findings.{found_on_pin, is_good_seq, missing_number};
ghost use Rattle.sym_check.specs.Findings.{bad_pintype, missing_label, missing_seq, off_grid};
ghost use Rattle.sym_check.specs.Slotdefs.{is_small_number};
ghost use Rattle.sym_check.specs.steps.FoundBy.{on_pin_by, repeated_by};

use crate::checked::CheckedPin;
use crate::finding::SymFinding;
use crate::pushing::{error_at, error_on, warn_at};
use crate::repeats::{has_text, numbers_twice, seqs_twice};
use attr_rules::short_number;
use geda_model::Block;
use std::alloc::{AllocError, Global};
use std::collections::BTreeSet;
use text_tallies::PairKey;

/// Whether a text is 1 to 4 digits with a value of at least 1. It takes no memory.
pub fn is_small_number(text: &str) -> bool
    ensures { result ≡ is_small_number text.now }
{
    match short_number(text) {
        Some(number) => number != 0,
        None => false,
    }
}

fn is_good_seq(seq: &Option<Block>) -> bool
    ensures { result ≡ is_good_seq seq.now }
{
    match seq {
        Some(seq) => is_small_number(seq.as_str()),
        None => false,
    }
}

fn push_repeated<'a>(
    alloc: Global,
    found: &mut Vec<SymFinding>,
    code: u8,
    twice: &BTreeSet<PairKey<'a>>,
    text: &'a Option<Block>,
) -> Result<(), AllocError>
    ensures { OnOk result (found.new.items
        ≡ found.old.items ++ repeated_by code twice.now text.now) }
{
    match text {
        None => Ok(()),
        Some(text) => {
            let is_repeated = has_text(twice, text.as_str());
            error_on(alloc, found, is_repeated, code, text.as_str())
        }
    }
}

fn push_on_numbers<'a>(
    alloc: Global,
    found: &mut Vec<SymFinding>,
    numbers: &BTreeSet<PairKey<'a>>,
    seqs: &BTreeSet<PairKey<'a>>,
    pin: &'a CheckedPin,
) -> Result<(), AllocError>
    ensures { OnOk result (found.new.items ≡ found.old.items ++ (missing_number pin.now
        ++ (missing_seq pin.now ++ (repeated_by 6 numbers.now pin.now.number
        ++ repeated_by 7 seqs.now pin.now.seq)))) }
{
    error_at(alloc, found, pin.number.is_none(), 4, pin.place)?;
    error_at(alloc, found, !is_good_seq(&pin.seq), 5, pin.place)?;
    push_repeated(alloc, found, 6, numbers, &pin.number)?;
    push_repeated(alloc, found, 7, seqs, &pin.seq)
}

fn push_on_looks(
    alloc: Global,
    found: &mut Vec<SymFinding>,
    pin: &CheckedPin,
) -> Result<(), AllocError>
    ensures { OnOk result (found.new.items ≡ found.old.items
        ++ (missing_label pin.now ++ (bad_pintype pin.now ++ off_grid pin.now))) }
{
    warn_at(alloc, found, !pin.has_label, 8, pin.place)?;
    error_at(alloc, found, !pin.has_kind, 9, pin.place)?;
    warn_at(alloc, found, pin.is_off_grid, 10, pin.place)
}

fn push_on_pin<'a>(
    alloc: Global,
    found: &mut Vec<SymFinding>,
    numbers: &BTreeSet<PairKey<'a>>,
    seqs: &BTreeSet<PairKey<'a>>,
    pin: &'a CheckedPin,
) -> Result<(), AllocError>
    ensures { OnOk result (found.new.items
        ≡ found.old.items ++ on_pin_by numbers.now seqs.now pin.now) }
{
    push_on_numbers(alloc, found, numbers, seqs, pin)?;
    push_on_looks(alloc, found, pin)
}

fn push_on_each<'a>(
    alloc: Global,
    found: &mut Vec<SymFinding>,
    numbers: &BTreeSet<PairKey<'a>>,
    seqs: &BTreeSet<PairKey<'a>>,
    pins: &'a [CheckedPin],
) -> Result<(), AllocError>
    ensures { OnOk result (found.new.items
        ≡ found.old.items ++ flat_map (on_pin_by numbers.now seqs.now) pins.now) }
{
    for pin in pins {
        push_on_pin(alloc, found, numbers, seqs, pin)?;
    }
    Ok(())
}

/// Adds what is found on net pins: the rules MissingNumber, MissingSeq, DuplicateNumber,
/// DuplicateSeq, MissingLabel, BadPintype and OffGrid.
pub fn push_on_pins(
    alloc: Global,
    found: &mut Vec<SymFinding>,
    pins: &[CheckedPin],
) -> Result<(), AllocError>
    ensures { OnOk result (found.new.items
        ≡ found.old.items ++ flat_map (found_on_pin pins.now) pins.now) }
{
    let numbers = numbers_twice(alloc, pins)?;
    let seqs = seqs_twice(alloc, pins)?;
    push_on_each(alloc, found, &numbers, &seqs, pins)
}
