// What is found on a symbol as a whole, and on its values of `net`.
ghost use Rattle.std.specs.Prelude.{◌≡◌, ◌++◌, ◌==◌, ◌&&◌, IfOk, OnOk, is_some, length, not};
ghost use Rattle.std.specs.List.{flat_map};
ghost use Rattle.attr_rules.specs.NetValues.{net_entry};
ghost use Rattle.sym_check.specs.Findings.{bad_net_value, found_on_whole};

use crate::checked::CheckedSymbol;
use crate::finding::SymFinding;
use crate::pushing::{error_on, warn_if};
use attr_rules::{NetFault, net_entries};
use geda_model::Block;
use std::alloc::{AllocError, Global};

fn lacks_refdes(symbol: &CheckedSymbol) -> bool
    ensures { result ≡ (not symbol.now.has_refdes && not symbol.now.is_graphical) }
{
    !symbol.has_refdes && !symbol.is_graphical
}

fn lacks_pins(symbol: &CheckedSymbol) -> bool
    ensures { result ≡ ((length symbol.now.pins == 0) && not symbol.now.is_graphical) }
{
    symbol.pins.len() == 0 && !symbol.is_graphical
}

/// Adds what is found on a symbol as a whole: the rules NoDevice, NoRefdes and NoPins.
pub fn push_on_whole(
    alloc: Global,
    found: &mut Vec<SymFinding>,
    symbol: &CheckedSymbol,
) -> Result<(), AllocError>
    ensures { OnOk result (found.new.items ≡ found.old.items ++ found_on_whole symbol.now) }
{
    warn_if(alloc, found, !symbol.has_device, 1)?;
    warn_if(alloc, found, lacks_refdes(symbol), 2)?;
    warn_if(alloc, found, lacks_pins(symbol), 3)
}

fn is_bad_net(alloc: Global, value: &str) -> Result<bool, AllocError>
    ensures { IfOk result (λ bad. bad ≡ not (is_some (net_entry value.now))) }
{
    match net_entries(alloc, value) {
        Ok(_) => Ok(false),
        Err(NetFault::BadNet) => Ok(true),
        Err(NetFault::NoMemory) => Err(AllocError),
    }
}

fn push_on_net(alloc: Global, found: &mut Vec<SymFinding>, value: &str) -> Result<(), AllocError>
    ensures { OnOk result (found.new.items ≡ found.old.items ++ bad_net_value value.now) }
{
    let is_bad = is_bad_net(alloc, value)?;
    error_on(alloc, found, is_bad, 15, value)
}

/// Adds what is found on values of `net`: the rule BadNet.
pub fn push_on_nets(
    alloc: Global,
    found: &mut Vec<SymFinding>,
    nets: &[Block],
) -> Result<(), AllocError>
    ensures { OnOk result (found.new.items ≡ found.old.items ++ flat_map bad_net_value nets.now) }
{
    for value in nets {
        push_on_net(alloc, found, value.as_str())?;
    }
    Ok(())
}
