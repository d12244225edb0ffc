// The ranks of keys.
ghost use Rattle.std.specs.Prelude.{◌≡◌, ◌<◌, ◌+◌, ◌^◌, All, IfOk, length};
ghost use Rattle.std.specs.List.{range_with_len};
ghost use Rattle.rank_order.specs.Chains.{placed_at, seen};
ghost use Rattle.rank_order.specs.Keys.{AreNumbers, AreRanks, by_keys, run_with, same_key};

use crate::chains::ends;
use crate::ordered::{put_in_order, put_places};
use std::alloc::{AllocError, Global};

/// The rank of each key, and the count of ranks.
#[derive(Drop)]
pub struct Ranks {
    /// The ranks, in order of the keys' places.
    pub ranks: Vec<usize>,
    /// How many there are.
    pub count: usize,
}

fn entries<'a, K>(alloc: Global, keys: &'a [K]) -> Result<Vec<(&'a K, usize)>, AllocError>
    ensures { IfOk result (λ entries.
        seen entries.items ≡ placed_at keys.now (range_with_len 0 (length keys.now))) }
{
    let mut entries = Vec::with_capacity(alloc, keys.len())?;
    for at in 0..keys.len() {
        entries.push((&keys[at], at))?;
    }
    Ok(entries)
}

fn places_by_key<K: Ord>(alloc: Global, keys: &[K]) -> Result<Vec<usize>, AllocError>
    ensures { IfOk result (λ places. places.items ≡ by_keys K.cmp keys.now) }
{
    let mut entries = entries(alloc, keys)?;
    put_in_order(&mut entries)?;
    let mut places = Vec::with_capacity(alloc, keys.len())?;
    put_places(&mut places, &entries)?;
    Ok(places)
}

/// The head of a run of equal keys, and its rank, after one more place.
fn run_with<K: Ord>(keys: &[K], run: (usize, usize), place: usize) -> (usize, usize)
    requires head { run.0 < length keys.now }
    requires place { place < length keys.now }
    requires small { run.1 + 1 < 2 ^ 64 }
    ensures { result ≡ run_with (same_key K.cmp keys.now) run place }
{
    if keys[place].cmp(&keys[run.0]).is_eq() {
        return run;
    }
    (place, run.1 + 1)
}

/// Writes the rank of each place; places stand in order of their keys. The result is the count of
/// ranks.
fn number<K: Ord>(keys: &[K], places: &[usize], ranks: &mut Vec<usize>) -> usize
    requires inside { All (λ place. place < length keys.now) places.now }
    requires room { length ranks.old.items ≡ length keys.now }
    ensures len { length ranks.new.items ≡ length ranks.old.items }
    ensures numbers { AreNumbers (same_key K.cmp keys.now) places.now ranks.new.items result }
{
    if places.len() == 0 {
        return 0;
    }
    let mut run = (places[0], 0);
    for at in 0..places.len() {
        let place = places[at];
        run = run_with(keys, run, place);
        ranks[place] = run.1;
    }
    run.1 + 1
}

/// The ranks of keys: of each one its place among the keys in order, each once.
pub fn ranks_of<K: Ord>(alloc: Global, keys: &[K]) -> Result<Ranks, AllocError>
    ensures { IfOk result (λ r. AreRanks K.cmp keys.now r.ranks.items r.count) }
{
    let places = places_by_key(alloc, keys)?;
    let mut ranks = ends(alloc, keys.len(), 0)?;
    let count = number(keys, &places, &mut ranks);
    Ok(Ranks { ranks, count })
}
