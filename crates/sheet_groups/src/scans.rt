// All pairs that touch, by looking at each two conductors: the way for what lies further out than
// spans may.
ghost use Rattle.std.specs.Prelude.{◌≡◌, ◌<◌, ◌+◌, ◌↔◌, IfOk, IsTrue, OnOk, length};
ghost use Rattle.pair_classes.specs.Pairs.{Spans};
ghost use Rattle.sheet_groups.specs.steps.Scans.{HasPairsBefore, HasPairsOf};
ghost use Rattle.sheet_groups.specs.steps.Touching.{DrawnTouch, TouchAtPlaces};

use crate::drawn::DrawnConductor;
use geda_geom::touches;
use std::alloc::{AllocError, Global};

fn do_touch(first: &DrawnConductor, second: &DrawnConductor) -> bool
    ensures { IsTrue result ↔ DrawnTouch first.now second.now }
{
    first.sheet == second.sheet && touches(&first.shape, &second.shape)
}

/// Adds the pair of two places, if what stands there touches.
fn add_if_touching(
    pairs: &mut Vec<(usize, usize)>,
    conductors: &[DrawnConductor],
    first: usize,
    second: usize,
) -> Result<(), AllocError>
    requires first { first < length conductors.now }
    requires second { second < length conductors.now }
    ensures { OnOk result (HasPairsOf conductors.now first second pairs.old.items
        → HasPairsOf conductors.now first (second + 1) pairs.new.items) }
{
    if !do_touch(&conductors[first], &conductors[second]) {
        return Ok(());
    }
    pairs.push((first, second))?;
    Ok(())
}

/// Adds the pairs of a place with all places.
fn add_pairs_of(
    pairs: &mut Vec<(usize, usize)>,
    conductors: &[DrawnConductor],
    first: usize,
) -> Result<(), AllocError>
    requires first { first < length conductors.now }
    ensures { OnOk result (HasPairsBefore conductors.now first pairs.old.items
        → HasPairsBefore conductors.now (first + 1) pairs.new.items) }
{
    for second in 0..conductors.len() {
        add_if_touching(pairs, conductors, first, second)?;
    }
    Ok(())
}

/// The pairs of all that touches. Its time grows with the square of the count.
pub(crate) fn scanned_pairs(
    alloc: Global,
    conductors: &[DrawnConductor],
) -> Result<Vec<(usize, usize)>, AllocError>
    ensures { IfOk result (λ pairs.
        Spans (TouchAtPlaces conductors.now) (length conductors.now) pairs.items) }
{
    let mut pairs = Vec::new(alloc);
    for first in 0..conductors.len() {
        add_pairs_of(&mut pairs, conductors, first)?;
    }
    Ok(pairs)
}
