// Places that have a name in common, by the first place of each name.
ghost use Rattle.std.specs.Prelude.{◌≡◌, ◌++◌, ℕ, List, length, IfOk, OnOk};
ghost use Rattle.std.specs.HashMap.{get_by_text};
ghost use Rattle.std.specs.Str.{bytes_eq};
ghost use Rattle.flat_rows.specs.Keyed.{Keyed};
ghost use Rattle.link_classes.specs.steps.FirstPlaces.{AddsKey, TiesKeys, pair_with};
ghost use Rattle.link_classes.specs.Links.{AtPlaces, ShareName};
ghost use Rattle.pair_classes.specs.Pairs.{Spans};

use flat_rows::FlatRows;
use geda_model::Block;
use std::alloc::{AllocError, Global};
use std::collections::HashMap;

/// Pairs a place with the first place of the name, or makes it the first.
fn tie_name(
    alloc: Global,
    first: &mut HashMap<String, usize>,
    pairs: &mut Vec<(usize, usize)>,
    name: &Block,
    place: usize,
) -> Result<(), AllocError>
    ensures first { OnOk result
        (AddsKey bytes_eq name.now place (get_by_text first.old) (get_by_text first.new)) }
    ensures pairs { OnOk result
        (pairs.new.items ≡ pairs.old.items ++ pair_with (get_by_text first.old name.now) place) }
{
    match first.get(name.as_str()) {
        Some(found) => pairs.push((*found, place))?,
        None => {
            let key = String::from_str(alloc, name.as_str())?;
            first.insert(key, place)?;
        }
    }
    Ok(())
}

/// Ties names, each with the place of its conductor.
fn tie_names(
    alloc: Global,
    first: &mut HashMap<String, usize>,
    pairs: &mut Vec<(usize, usize)>,
    names: &[(Block, usize)],
) -> Result<(), AllocError>
    ensures { OnOk result ((keyed : List (Keyed (List ℕ)))
        → TiesKeys (get_by_text first.old) pairs.old.items keyed
        → TiesKeys (get_by_text first.new) pairs.new.items (keyed ++ names.now)) }
{
    for row in names {
        tie_name(alloc, first, pairs, &row.0, row.1)?;
    }
    Ok(())
}

/// Pairs that tie all places with a name in common, drawn or not: at most one for each name of a
/// place.
pub(crate) fn name_pairs(alloc: Global, flat: &FlatRows) -> Result<Vec<(usize, usize)>, AllocError>
    ensures { IfOk result (λ pairs. Spans (AtPlaces ShareName flat.now.conductors)
        (length flat.now.conductors) pairs.items) }
{
    let globals = flat.global_names();
    let drawn = flat.drawn_names();
    let mut first = HashMap::new(alloc);
    let mut pairs = Vec::with_capacity(alloc, globals.len().saturating_add(drawn.len()))?;
    tie_names(alloc, &mut first, &mut pairs, globals)?;
    tie_names(alloc, &mut first, &mut pairs, drawn)?;
    Ok(pairs)
}
