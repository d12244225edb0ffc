// What is found on nets.
ghost use Rattle.std.specs.Prelude.{◌≡◌, ◌++◌, IfOk, List, OnOk, map};
ghost use Rattle.net_list.specs.declared.nets.Net.{Net};
ghost use Rattle.drc_rules.specs.OnNets.{by_count, found_on_net, found_on_nets, names_of_nets};
ghost use Rattle.drc_rules.specs.steps.Pins.{HasAlikeNames, HasPinsOnTwo};

use crate::conflicts::add_conflicts;
use crate::no_connection::add_no_connection;
use crate::not_driven::add_not_driven;
use crate::one_pin::add_one_pin;
use crate::pairs_on_two::pairs_on_two;
use crate::pins_on_two::add_pins_on_two;
use crate::unconnected::add_unconnected_pin;
use drc_findings::{Finding, add_same_text};
use geda_model::Line;
use net_list::Net;
use pin_matrix::Matrix;
use std::alloc::{AllocError, Global};
use std::collections::BTreeSet;
use text_tallies::{PairKey, alike_texts};

fn names_of<'a>(alloc: Global, nets: &'a [Net]) -> Result<Vec<&'a str>, AllocError>
    ensures { IfOk result (λ names. map (λ n. n.now) names.items ≡ names_of_nets nets.now) }
{
    let mut names = Vec::new(alloc);
    for net in nets {
        names.push(net.name.as_str())?;
    }
    Ok(names)
}

fn alike_names(alloc: Global, nets: &[Net]) -> Result<BTreeSet<Line>, AllocError>
    ensures { IfOk result (HasAlikeNames nets.now) }
{
    let names = names_of(alloc, nets)?;
    alike_texts(alloc, &names)
}

/// Adds what is found by the count of the members of a net.
#[tactic(auto, unfolding(crate::specs::OnNets::by_count))]
fn add_by_count(alloc: Global, found: &mut Vec<Finding>, net: &Net) -> Result<(), AllocError>
    ensures { OnOk result (found.new.items ≡ found.old.items ++ by_count net.now) }
{
    add_one_pin(alloc, found, net)?;
    add_no_connection(alloc, found, net)
}

fn add_on_net<'a>(
    alloc: Global,
    spelling: &mut String,
    found: &mut Vec<Finding>,
    matrix: &Matrix,
    on_two: &BTreeSet<PairKey<'a>>,
    alike: &BTreeSet<Line>,
    net: &'a Net,
) -> Result<(), AllocError>
    ensures { (nets : List Net) → HasPinsOnTwo nets on_two.now → HasAlikeNames nets alike.now
        → OnOk result (found.new.items ≡ found.old.items ++ found_on_net matrix.now nets net.now) }
{
    add_conflicts(alloc, found, matrix, net)?;
    add_by_count(alloc, found, net)?;
    add_unconnected_pin(alloc, spelling, found, matrix, net)?;
    add_not_driven(alloc, found, net)?;
    add_pins_on_two(alloc, found, on_two, net.members.as_slice())?;
    add_same_text(alloc, found, alike, net.name.as_str())
}

fn add_on_each<'a>(
    alloc: Global,
    spelling: &mut String,
    found: &mut Vec<Finding>,
    matrix: &Matrix,
    on_two: &BTreeSet<PairKey<'a>>,
    alike: &BTreeSet<Line>,
    nets: &'a [Net],
) -> Result<(), AllocError>
    requires on_two { HasPinsOnTwo nets.now on_two.now }
    requires alike { HasAlikeNames nets.now alike.now }
    ensures { OnOk result (found.new.items ≡ found.old.items ++ found_on_nets matrix.now nets.now) }
{
    for net in nets {
        add_on_net(alloc, spelling, found, matrix, on_two, alike, net)?;
    }
    Ok(())
}

/// Adds what is found on nets under a matrix: Conflict, OnePin, UnconnectedPin, NotDriven,
/// PinOnTwoNets, SameText on the names of nets, and NoConnection.
pub fn add_on_nets(
    alloc: Global,
    found: &mut Vec<Finding>,
    matrix: &Matrix,
    nets: &[Net],
) -> Result<(), AllocError>
    ensures { OnOk result (found.new.items ≡ found.old.items ++ found_on_nets matrix.now nets.now) }
{
    let on_two = pairs_on_two(alloc, nets)?;
    let alike = alike_names(alloc, nets)?;
    let mut spelling = String::new(alloc);
    add_on_each(alloc, &mut spelling, found, matrix, &on_two, &alike, nets)
}
