// Pairs that stand for all that touches: the members of a group in an instance with the first one.
ghost use Rattle.std.specs.Prelude.{◌≡◌, ◌++◌, List, length, IfOk, OnOk};
ghost use Rattle.std.specs.List.Sorted.{IsStrictlySortedBy};
ghost use Rattle.std.specs.Map.{keys_of};
ghost use Rattle.std.specs.Option.{option_to_list};
ghost use Rattle.flat_rows.specs.Keyed.{Keyed, keyed_at};
ghost use Rattle.geda_geom.specs.Keys.{by_key};
ghost use Rattle.link_classes.specs.InstanceGroups.{AreInstanceGroups, groups_by};
ghost use Rattle.link_classes.specs.Links.{AreTouching, AtPlaces};
ghost use Rattle.link_classes.specs.steps.FirstPlaces.{AddsKey, TiesKeys, pair_with};
ghost use Rattle.link_classes.specs.steps.GroupPlaces.{InstanceGroup, group_place, row_group};
ghost use Rattle.link_classes.specs.steps.GroupPlaces.{same_group};
ghost use Rattle.pair_classes.specs.Pairs.{Spans};

use crate::rows::key_row;
use crate::runs::rising_pairs;
use flat_rows::{FlatRow, FlatRows};
use geda_geom::Key;
use std::alloc::{AllocError, Global};
use std::collections::HashMap;
use std::collections::hash_map::Entry;

/// The group of a key, if it has one. In an instance keys rise, so that its row comes next for the
/// most part.
fn group_at(rows: &[(Key, Key)], next: &mut usize, key: Key) -> Option<Key>
    requires rising { IsStrictlySortedBy by_key (keys_of rows.now) }
    ensures { result ≡ groups_by rows.now key }
{
    let at = key_row(rows, *next, &key)?;
    *next = at.saturating_add(1);
    Some(rows[at].1)
}

/// The instance and the group of a conductor, if it is drawn and has a group. The place after that
/// of its key comes next.
fn instance_group(
    conductor: &FlatRow,
    groups: &[(Key, Key)],
    next: &mut usize,
) -> Option<(usize, Key)>
    requires rising { IsStrictlySortedBy by_key (keys_of groups.now) }
    ensures { result ≡ row_group (groups_by groups.now) conductor.now }
{
    if conductor.shape.is_none() {
        return None;
    }
    let group = group_at(groups, next, conductor.key)?;
    Some((conductor.instance, group))
}

/// Pairs a place with the first place of the group, or makes it the first.
fn tie_group(
    first: &mut HashMap<(usize, Key), usize>,
    pairs: &mut Vec<(usize, usize)>,
    group: (usize, Key),
    place: usize,
) -> Result<(), AllocError>
    ensures first { OnOk result
        (AddsKey same_group group place (group_place first.old) (group_place first.new)) }
    ensures pairs { OnOk result
        (pairs.new.items ≡ pairs.old.items ++ pair_with (group_place first.old group) place) }
{
    match first.entry(group)? {
        Entry::Occupied(found) => pairs.push((*found.get(), place))?,
        Entry::Vacant(free) => {
            free.insert(place);
        }
    }
    Ok(())
}

/// Ties the group of a conductor, if it has one.
fn tie_member(
    first: &mut HashMap<(usize, Key), usize>,
    pairs: &mut Vec<(usize, usize)>,
    group: Option<(usize, Key)>,
    place: usize,
) -> Result<(), AllocError>
    ensures { OnOk result ((keyed : List (Keyed InstanceGroup))
        → TiesKeys (group_place first.old) pairs.old.items keyed
        → TiesKeys (group_place first.new) pairs.new.items
        (keyed ++ keyed_at place (option_to_list group))) }
{
    if let Some(group) = group {
        tie_group(first, pairs, group, place)?;
    }
    Ok(())
}

/// Pairs that stand for all that touches, whatever the order of the conductors: at most one for
/// each.
fn mapped_pairs(
    alloc: Global,
    flat: &FlatRows,
    groups: &[(Key, Key)],
) -> Result<Vec<(usize, usize)>, AllocError>
    requires groups { AreInstanceGroups flat.now.conductors (groups_by groups.now) }
    requires rising { IsStrictlySortedBy by_key (keys_of groups.now) }
    ensures { IfOk result (λ pairs. Spans (AtPlaces AreTouching flat.now.conductors)
        (length flat.now.conductors) pairs.items) }
{
    let conductors = flat.rows();
    let mut first = HashMap::with_capacity(alloc, conductors.len())?;
    let mut pairs = Vec::with_capacity(alloc, conductors.len())?;
    let mut next = 0;
    for place in 0..conductors.len() {
        let group = instance_group(&conductors[place], groups, &mut next);
        tie_member(&mut first, &mut pairs, group, place)?;
    }
    Ok(pairs)
}

/// Pairs that stand for all that touches: at most one for each conductor. A map is needed only
/// where the instances of what is drawn fall, or the key of a group has no row.
pub(crate) fn group_pairs(
    alloc: Global,
    flat: &FlatRows,
    groups: &[(Key, Key)],
) -> Result<Vec<(usize, usize)>, AllocError>
    requires groups { AreInstanceGroups flat.now.conductors (groups_by groups.now) }
    requires rising { IsStrictlySortedBy by_key (keys_of groups.now) }
    ensures { IfOk result (λ pairs. Spans (AtPlaces AreTouching flat.now.conductors)
        (length flat.now.conductors) pairs.items) }
{
    if let Some(pairs) = rising_pairs(alloc, flat, groups)? {
        return Ok(pairs);
    }
    Ok(mapped_pairs(alloc, flat, groups)?)
}
