// The findings of a symbol.
ghost use Rattle.std.specs.Prelude.{◌≡◌, ◌↔◌, Contains, IfOk};
ghost use Rattle.std.specs.List.Sorted.{IsStrictlySortedBy};
ghost use Rattle.sym_check.specs.declared.finding.SymFinding.{SymFinding};
ghost use Rattle.sym_check.specs.Findings.{found_in_symbol, found_on_symbol};
ghost use Rattle.sym_check.specs.Order.{AreInOrder, by_symbol_finding};

use crate::checked::CheckedSymbol;
use crate::finding::SymFinding;
use crate::on_pins::push_on_pins;
use crate::on_slots::push_on_slots;
use crate::on_whole::{push_on_nets, push_on_whole};
use crate::symbols::checked_symbol;
use geda_model::Symbol;
use std::alloc::{AllocError, Global};
use std::collections::BTreeSet;

fn found_on(alloc: Global, symbol: &CheckedSymbol) -> Result<Vec<SymFinding>, AllocError>
    ensures { IfOk result (λ found. found.items ≡ found_on_symbol symbol.now) }
{
    let mut found = Vec::new(alloc);
    push_on_whole(alloc, &mut found, symbol)?;
    push_on_pins(alloc, &mut found, symbol.pins.as_slice())?;
    push_on_slots(alloc, &mut found, symbol)?;
    push_on_nets(alloc, &mut found, symbol.nets.as_slice())?;
    Ok(found)
}

/// These findings, equal ones once.
fn each_once(alloc: Global, found: Vec<SymFinding>) -> Result<BTreeSet<SymFinding>, AllocError>
    ensures { IfOk result (λ set. (f : SymFinding)
        → Contains set.keys f ↔ Contains found.items f) }
{
    let set = found.into_iter().collect(alloc)?;
    Ok(set)
}

/// The findings of a set, in order.
fn listed(alloc: Global, set: BTreeSet<SymFinding>) -> Result<Vec<SymFinding>, AllocError>
    ensures same { IfOk result (λ list. list.items ≡ set.keys) }
    ensures rising { IsStrictlySortedBy by_symbol_finding set.keys }
{
    // That the findings rise is told by the length.
    let _ = set.len();
    let mut list = Vec::new(alloc);
    for finding in set {
        list.push(finding)?;
    }
    Ok(list)
}

/// The findings of a symbol, by code and then by the bytes of their words, equal ones once
/// (docs/RULES.md, "Symbol check").
pub fn check_symbol(alloc: Global, symbol: &Symbol) -> Result<Vec<SymFinding>, AllocError>
    ensures { IfOk result (λ list. AreInOrder (found_in_symbol symbol.now) list.items) }
{
    let checked = checked_symbol(alloc, symbol)?;
    let found = found_on(alloc, &checked)?;
    let set = each_once(alloc, found)?;
    let list = listed(alloc, set)?;
    Ok(list)
}
