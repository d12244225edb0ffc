// Pins that join nothing, and those that may.
ghost use Rattle.std.specs.Prelude.{◌≡◌, ◌++◌, OnOk};
ghost use Rattle.std.specs.List.{flat_map};
ghost use Rattle.drc_rules.specs.OnNets.{is_unconnected_net, may_be_open, unconnected_member};
ghost use Rattle.drc_rules.specs.OnNets.{unconnected_pin};

use crate::pin_spelling::spelled_pin;
use attr_rules::PinKind;
use drc_findings::{Finding, Rule, add_finding};
use net_list::{Member, Net, NetSort};
use pin_matrix::{Matrix, is_correct};
use std::alloc::{AllocError, Global};

/// Whether a net is an unconnected pin. It takes no memory.
pub fn is_unconnected(net: &Net) -> bool
    ensures { result ≡ is_unconnected_net net.now }
{
    match net.sort {
        NetSort::Unconnected => true,
        NetSort::Named | NetSort::Unnamed => false,
    }
}

/// Whether a net is an unconnected pin, or has a no-connection directive. It takes no memory.
pub fn may_be_open(net: &Net) -> bool
    ensures { result ≡ may_be_open net.now }
{
    is_unconnected(net) || net.directive
}

fn add_member(
    alloc: Global,
    spelling: &mut String,
    found: &mut Vec<Finding>,
    matrix: &Matrix,
    net: &Net,
    member: &Member,
) -> Result<(), AllocError>
    ensures { OnOk result
        (found.new.items ≡ found.old.items ++ unconnected_member matrix.now net.now member.now) }
{
    let level = matrix.entry(PinKind::Unconnected, member.kind);
    if is_unconnected(net) && !is_correct(level) {
        let words = spelled_pin(alloc, spelling, member.refdes.as_str(), member.pin.as_str())?;
        add_finding(found, level, Rule::UnconnectedPin, words)?;
    }
    Ok(())
}

fn add_members(
    alloc: Global,
    spelling: &mut String,
    found: &mut Vec<Finding>,
    matrix: &Matrix,
    net: &Net,
    members: &[Member],
) -> Result<(), AllocError>
    ensures { OnOk result (found.new.items
        ≡ found.old.items ++ flat_map (unconnected_member matrix.now net.now) members.now) }
{
    for member in members {
        add_member(alloc, spelling, found, matrix, net, member)?;
    }
    Ok(())
}

/// Adds what is found on the member of an unconnected pin.
pub fn add_unconnected_pin(
    alloc: Global,
    spelling: &mut String,
    found: &mut Vec<Finding>,
    matrix: &Matrix,
    net: &Net,
) -> Result<(), AllocError>
    ensures { OnOk result
        (found.new.items ≡ found.old.items ++ unconnected_pin matrix.now net.now) }
{
    add_members(alloc, spelling, found, matrix, net, net.members.as_slice())
}
