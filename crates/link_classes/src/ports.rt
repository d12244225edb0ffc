// Places that ports tie, by a place of the pins above each port and a place of its own pins.
ghost use Rattle.std.specs.Prelude.{◌≡◌, ◌++◌, length, IfOk, OnOk};
ghost use Rattle.std.specs.List.{flat_map};
ghost use Rattle.link_classes.specs.Links.{AreTied, AtPlaces};
ghost use Rattle.link_classes.specs.steps.PortPlaces.{HasKeyed, Notes, place_of, port_pair};
ghost use Rattle.pair_classes.specs.Pairs.{Spans};

use flat_rows::{FlatRows, PortPins};
use std::alloc::{AllocError, Global};
use std::collections::BTreeMap;

/// Notes a place for pins; it replaces one that was noted for them before.
fn note(
    places: &mut BTreeMap<PortPins, usize>,
    pins: &PortPins,
    place: usize,
) -> Result<(), AllocError>
    ensures { OnOk result (Notes pins.now place (place_of places.old) (place_of places.new)) }
{
    places.insert(pins.clone()?, place)?;
    Ok(())
}

/// For each pins one of the places that they have.
fn places_of(
    alloc: Global,
    pins: &[(PortPins, usize)],
) -> Result<BTreeMap<PortPins, usize>, AllocError>
    ensures { IfOk result (λ places. HasKeyed pins.now (place_of places)) }
{
    let mut places = BTreeMap::new(alloc);
    for row in pins {
        note(&mut places, &row.0, row.1)?;
    }
    Ok(places)
}

/// Pairs a place with the one that is noted for its pins.
fn tie(
    pairs: &mut Vec<(usize, usize)>,
    places: &BTreeMap<PortPins, usize>,
    row: &(PortPins, usize),
) -> Result<(), AllocError>
    ensures { OnOk result
        (pairs.new.items ≡ pairs.old.items ++ port_pair (place_of places.now) row.now) }
{
    if let Some(found) = places.get(&row.0) {
        pairs.push((*found, row.1))?;
    }
    Ok(())
}

/// Pairs the place of each pins with the one that is noted for them.
fn tie_all(
    pairs: &mut Vec<(usize, usize)>,
    places: &BTreeMap<PortPins, usize>,
    pins: &[(PortPins, usize)],
) -> Result<(), AllocError>
    ensures { OnOk result (pairs.new.items
        ≡ pairs.old.items ++ flat_map (port_pair (place_of places.now)) pins.now) }
{
    for row in pins {
        tie(pairs, places, row)?;
    }
    Ok(())
}

/// Pairs that join all places that ports tie: at most two for each place. Each pin of a port is
/// paired with one pin above, and each pin above with one pin of a port that stands for it, so that
/// pins above that no port stands for stay apart.
pub(crate) fn port_pairs(alloc: Global, flat: &FlatRows) -> Result<Vec<(usize, usize)>, AllocError>
    ensures { IfOk result (λ pairs. Spans (AtPlaces AreTied flat.now.conductors)
        (length flat.now.conductors) pairs.items) }
{
    let above = places_of(alloc, flat.downs())?;
    let below = places_of(alloc, flat.ups())?;
    let mut pairs = Vec::new(alloc);
    tie_all(&mut pairs, &above, flat.ups())?;
    tie_all(&mut pairs, &below, flat.downs())?;
    Ok(pairs)
}
