// The keys whose conductors touch a given one, and some of them that stand for all.
ghost use Rattle.std.specs.Prelude.{◌↔◌, Contains, IsTrue, IfOk, Some};
ghost use Rattle.std.specs.List.Sorted.{IsStrictlySortedBy};
ghost use Rattle.geda_geom.specs.declared.conductor.Key.{Key};
ghost use Rattle.geda_geom.specs.Keys.{by_key};
ghost use Rattle.touch_index.specs.Index.{DoTouch, IsNeighbour, IsSpanning};
ghost use Rattle.touch_index.specs.steps.Drawn.{AreDrawn};
ghost use Rattle.touch_index.specs.steps.Sifting.{IsBesideOne, IsIndexed, StandForAll, conductor_at};

use crate::grid::Grid;
use crate::spans::Wanted;
use geda_geom::{Conductor, Key, touches};
use std::alloc::{AllocError, Global};
use std::collections::HashMap;

/// Whether a key is there and its conductor touches a given one.
fn touches_key(conductors: &HashMap<Key, Conductor>, key: Key, conductor: &Conductor) -> bool
    ensures { IsTrue result ↔ DoTouch (conductor_at conductors.now.entries key)
        (Some conductor.now) }
{
    match conductors.get(&key) {
        Some(other) => touches(other, conductor),
        None => false,
    }
}

/// Whether a key touches one of a few.
fn touches_one(conductors: &HashMap<Key, Conductor>, few: &[Key], key: Key) -> bool
    ensures { IsTrue result → IsBesideOne (conductor_at conductors.now.entries) few.now key }
{
    let Some(conductor) = conductors.get(&key) else {
        return false;
    };
    for other in few {
        if touches_key(conductors, *other, conductor) {
            return true;
        }
    }
    false
}

/// No more than the first eight of some keys.
fn first_few(keys: &[Key]) -> &[Key]
    ensures { (q : Key) → Contains result.now q → Contains keys.now q }
{
    if keys.len() > 8 {
        return &keys[..8];
    }
    keys
}

/// Those of the keys that touch none of the first few of those before them.
///
/// It looks at few alone, so that it takes time by the number of the keys.
fn apart(
    alloc: Global,
    conductors: &HashMap<Key, Conductor>,
    keys: &[Key],
) -> Result<Vec<Key>, AllocError>
    ensures { IfOk result (λ left.
        StandForAll (conductor_at conductors.now.entries) left.items keys.now) }
{
    let mut left = Vec::new(alloc);
    for key in keys {
        if !touches_one(conductors, first_few(&left), *key) {
            left.push(*key)?;
        }
    }
    Ok(left)
}

/// The keys in order, each once. It takes no memory.
fn in_order(keys: Vec<Key>) -> Vec<Key>
    ensures rising { IsStrictlySortedBy by_key result.items }
    ensures same { (q : Key) → Contains result.items q ↔ Contains keys.items q }
{
    let mut keys = keys;
    keys.sort_unstable();
    keys.dedup();
    keys
}

/// The rising list of the other keys whose conductors touch that of the key.
pub(crate) fn touching(
    alloc: Global,
    conductors: &HashMap<Key, Conductor>,
    grid: &Grid,
    key: Key,
) -> Result<Vec<Key>, AllocError>
    requires indexed { IsIndexed conductors.now.entries grid.now }
    requires drawn { AreDrawn (conductor_at conductors.now.entries) grid.now }
    ensures rising { IfOk result (λ keys. IsStrictlySortedBy by_key keys.items) }
    ensures same { IfOk result (λ keys. (q : Key)
        → Contains keys.items q ↔ IsNeighbour (conductor_at conductors.now.entries) key q) }
{
    let Some(own) = conductors.get(&key) else {
        return Ok(Vec::new(alloc));
    };
    let near = grid.near(
        alloc,
        own,
        Wanted {
            own: key,
            all: true,
        },
    )?;
    Ok(in_order(near))
}

/// A rising list of other keys whose conductors touch that of the key, from which chains without
/// the key lead to all such.
pub(crate) fn spanning(
    alloc: Global,
    conductors: &HashMap<Key, Conductor>,
    grid: &Grid,
    key: Key,
) -> Result<Vec<Key>, AllocError>
    requires indexed { IsIndexed conductors.now.entries grid.now }
    requires drawn { AreDrawn (conductor_at conductors.now.entries) grid.now }
    ensures rising { IfOk result (λ keys. IsStrictlySortedBy by_key keys.items) }
    ensures spanning { IfOk result (λ keys.
        IsSpanning (conductor_at conductors.now.entries) key keys.items) }
{
    let Some(own) = conductors.get(&key) else {
        return Ok(Vec::new(alloc));
    };
    let near = grid.near(
        alloc,
        own,
        Wanted {
            own: key,
            all: false,
        },
    )?;
    let left = apart(alloc, conductors, &near)?;
    Ok(in_order(left))
}
