// The class of each conductor of a project: what is linked stands in one class.
ghost use Rattle.std.specs.Prelude.{IfOk, length};
ghost use Rattle.std.specs.List.Sorted.{IsStrictlySortedBy};
ghost use Rattle.std.specs.Map.{keys_of};
ghost use Rattle.geda_defs.specs.Classes.{AreClasses};
ghost use Rattle.geda_geom.specs.Keys.{by_key};
ghost use Rattle.link_classes.specs.InstanceGroups.{AreInstanceGroups, groups_by};
ghost use Rattle.link_classes.specs.Links.{Linked};
ghost use Rattle.pair_classes.specs.Pairs.{Spans};

use crate::groups::group_pairs;
use crate::names::name_pairs;
use crate::ports::port_pairs;
use flat_rows::FlatRows;
use geda_geom::Key;
use pair_classes::classes_of;
use std::alloc::{AllocError, Global};

/// Pairs that stand for all links.
fn link_pairs(
    alloc: Global,
    flat: &FlatRows,
    groups: &[(Key, Key)],
) -> Result<Vec<(usize, usize)>, AllocError>
    requires groups { AreInstanceGroups flat.now.conductors (groups_by groups.now) }
    requires rising { IsStrictlySortedBy by_key (keys_of groups.now) }
    ensures { IfOk result (λ pairs.
        Spans (Linked flat.now.conductors) (length flat.now.conductors) pairs.items) }
{
    let mut pairs = group_pairs(alloc, flat, groups)?;
    let names = name_pairs(alloc, flat)?;
    pairs.extend_from_slice(&names)?;
    let ties = port_pairs(alloc, flat)?;
    pairs.extend_from_slice(&ties)?;
    Ok(pairs)
}

/// The label of each conductor of a project (docs/RULES.md, "Nets"): the least place of its class.
/// Conductors of one instance that touch, those that have a name in common, and those that a port
/// ties stand in one class. Places count from 0; the groups are those that touch in each instance,
/// as rows of a key and its group in order of their keys.
pub fn class_labels(
    alloc: Global,
    flat: &FlatRows,
    groups: &[(Key, Key)],
) -> Result<Vec<usize>, AllocError>
    requires groups { AreInstanceGroups flat.now.conductors (groups_by groups.now) }
    requires rising { IsStrictlySortedBy by_key (keys_of groups.now) }
    ensures { IfOk result (λ labels.
        AreClasses (Linked flat.now.conductors) (length flat.now.conductors) labels.items) }
{
    let pairs = link_pairs(alloc, flat, groups)?;
    classes_of(alloc, flat.rows().len(), &pairs)
}
