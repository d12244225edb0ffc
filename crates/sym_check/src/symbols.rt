// Symbols as the check sees them.
ghost use Rattle.std.specs.Prelude.{◌≡◌, ◌≤◌, IfOk, length};
ghost use Rattle.sym_check.specs.CheckedSymbols.{checked_parts, checked_symbol};

use crate::checked::CheckedSymbol;
use crate::free_attributes::{copy_of, free_value, free_values, is_graphical};
use crate::net_pins::symbol_pins;
use geda_model::{Items, Part, Symbol};
use std::alloc::{AllocError, Global};

fn checked_parts(alloc: Global, parts: &[Part]) -> Result<CheckedSymbol, AllocError>
    requires { length parts.now ≤ 4294967295 }
    ensures { IfOk result (λ checked. checked ≡ checked_parts parts.now) }
{
    let numslots = copy_of(alloc, free_value(parts, "numslots"))?;
    let slotdefs = free_values(alloc, parts, "slotdef")?;
    let nets = free_values(alloc, parts, "net")?;
    let pins = symbol_pins(alloc, parts)?;
    Ok(CheckedSymbol {
        has_device: free_value(parts, "device").is_some(),
        has_refdes: free_value(parts, "refdes").is_some(),
        is_graphical: is_graphical(parts),
        numslots,
        slotdefs: Items::from_vec(slotdefs),
        nets: Items::from_vec(nets),
        pins: Items::from_vec(pins),
    })
}

/// A symbol as the check sees it.
pub fn checked_symbol(alloc: Global, symbol: &Symbol) -> Result<CheckedSymbol, AllocError>
    ensures { IfOk result (λ checked. checked ≡ checked_symbol symbol.now) }
{
    checked_parts(alloc, symbol.parts.as_slice())
}
