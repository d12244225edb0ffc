// Searches from neighbour to neighbour, which meet, or end with a group of their own.
ghost use Rattle.std.specs.Prelude.{◌≡◌, ◌≢◌, ◌⊎◌, ◌≤◌, ◌+◌, [], Bool, false, None, IsSome, IfOk, OnOk, Contains, length};
ghost use Rattle.std.specs.FinMap.{get};
ghost use Rattle.geda_geom.specs.declared.conductor.Key.{Key};
ghost use Rattle.touch_index.specs.Index.{IsNeighbour};
ghost use Rattle.net_flood.specs.steps.Partition.{head_at};
ghost use Rattle.net_flood.specs.steps.Search.{Absorbs, AreLinked, AreUnique, Begins, Grows, IsFound, IsPlaced, IsReached, IsRow, IsSearch, IsUnder, Looks, Meets, Moves, Races, Reaches, Searches, is_that, passing};

use geda_geom::Key;
use std::alloc::{AllocError, Global};
use std::collections::{HashMap, VecDeque};
use std::mem;
use touch_index::TouchIndex;

/// A search: where it began, the keys that it has found, and those of them that it has not asked
/// about yet. All that it has found stand under its start, their head.
#[derive(Drop)]
pub(crate) struct Search {
    pub start: Key,
    pub row: Vec<Key>,
    pub waiting: VecDeque<Key>,
}

/// Whether a key is the one that may be named.
pub(crate) fn is_that(that: Option<Key>, key: Key) -> bool
    ensures { result ≡ is_that that key }
{
    match that {
        Some(other) => other == key,
        None => false,
    }
}

/// Puts a key that was not found yet under the start of a search, and lets it wait.
fn put(found: &mut HashMap<Key, Key>, search: &mut Search, key: Key) -> Result<(), AllocError>
    requires is_new { head_at found.old.entries key ≡ None }
    ensures grows { Grows (λ q. q ≡ key) found.old.entries found.new.entries }
    ensures few { length search.new.waiting.items + length found.old.entries
        ≤ length search.old.waiting.items + length found.new.entries }
    ensures looks { OnOk result (Looks (λ q. q ≡ key) false search.old search.new
        found.old.entries found.new.entries) }
{
    found.insert(key, search.start)?;
    search.row.push(key)?;
    search.waiting.push_back(key)?;
    Ok(())
}

/// A search that begins at a key that was not found yet.
fn begin(alloc: Global, found: &mut HashMap<Key, Key>, start: Key) -> Result<Search, AllocError>
    requires is_new { head_at found.old.entries start ≡ None }
    ensures grows { Grows (λ q. q ≡ start) found.old.entries found.new.entries }
    ensures few { IfOk result (λ search. length search.waiting.items + length found.old.entries
        ≤ length found.new.entries) }
    ensures begins { IfOk result (λ search. Begins start search
        found.old.entries found.new.entries) }
{
    let mut search = Search {
        start,
        row: Vec::new(alloc),
        waiting: VecDeque::new(alloc),
    };
    put(found, &mut search, start)?;
    Ok(search)
}

/// Finds a neighbour of a key that a search has found. Whether another search had found it is
/// answered.
fn find(found: &mut HashMap<Key, Key>, search: &mut Search, other: Key) -> Result<bool, AllocError>
    ensures grows { Grows (λ q. q ≡ other) found.old.entries found.new.entries }
    ensures few { length search.new.waiting.items + length found.old.entries
        ≤ length search.old.waiting.items + length found.new.entries }
    ensures looks { IfOk result (λ met. Looks (λ q. q ≡ other) met search.old search.new
        found.old.entries found.new.entries) }
{
    if let Some(head) = found.get(&other).copied() {
        return Ok(head != search.start);
    }
    put(found, search, other)?;
    Ok(false)
}

/// Asks for the neighbours of a key, and finds all but the one that is passed over. Whether
/// another search had found one of them is answered.
fn ask(
    index: &mut TouchIndex,
    passed: Option<Key>,
    found: &mut HashMap<Key, Key>,
    search: &mut Search,
    key: Key,
) -> Result<bool, AllocError>
    requires there { IsSome (get (passing passed index.old.conductors) key) }
    ensures grows { Grows (IsNeighbour (get (passing passed index.old.conductors)) key)
        found.old.entries found.new.entries }
    ensures looks { IfOk result (λ met. Looks
        (IsNeighbour (get (passing passed index.old.conductors)) key) met search.old search.new
        found.old.entries found.new.entries) }
    ensures conductors { index.new.conductors ≡ index.old.conductors }
    ensures few { length search.new.waiting.items + length found.old.entries
        ≤ length search.old.waiting.items + length found.new.entries }
    ensures steps { index.new.asked ≤ index.old.asked + 1 }
    ensures later { index.old.asked ≤ index.new.asked }
{
    let near = index.neighbours(key)?;
    let mut met = false;
    for other in &near {
        if !is_that(passed, *other) {
            met |= find(found, search, *other)?;
        }
    }
    Ok(met)
}

/// Puts keys that were found under another head.
fn put_under(found: &mut HashMap<Key, Key>, head: Key, keys: &[Key]) -> Result<(), AllocError>
    requires there { (q : Key) → Contains keys.now q → IsFound found.old.entries q }
    ensures grows { Grows (λ q. ⊥) found.old.entries found.new.entries }
    ensures moves { OnOk result (Moves head keys.now found.old.entries found.new.entries) }
{
    for key in keys {
        found.insert(*key, head)?;
    }
    Ok(())
}

/// Puts all that one search has found to what another has found.
fn absorb(found: &mut HashMap<Key, Key>, large: Search, small: Search) -> Result<Search, AllocError>
    requires apart { small.start ≢ large.start }
    requires large { IsRow large found.old.entries }
    requires small { IsRow small found.old.entries }
    ensures grows { Grows (λ q. ⊥) found.old.entries found.new.entries }
    ensures absorbs { IfOk result (λ last. Absorbs large small last
        found.old.entries found.new.entries) }
{
    let mut large = large;
    let mut small = small;
    put_under(found, large.start, &small.row)?;
    large.row.append(&mut small.row)?;
    large.waiting.append(&mut small.waiting)?;
    Ok(large)
}

/// One search of two that have met. The first one's keys wait first.
fn meet(found: &mut HashMap<Key, Key>, first: Search, second: Search) -> Result<Search, AllocError>
    requires apart { second.start ≢ first.start }
    requires first { IsSearch first found.old.entries }
    requires second { IsSearch second found.old.entries }
    ensures grows { Grows (λ q. ⊥) found.old.entries found.new.entries }
    ensures meets { IfOk result (λ last. Meets first second last
        found.old.entries found.new.entries) }
{
    // The smaller one moves, so that no key moves more than some 17 times of 100,000.
    if first.row.len() < second.row.len() {
        let large = Search {
            start: second.start,
            row: second.row,
            waiting: first.waiting,
        };
        let small = Search {
            start: first.start,
            row: first.row,
            waiting: second.waiting,
        };
        return absorb(found, large, small);
    }
    absorb(found, first, second)
}

/// Two searches in turn, until they meet or one of them ends. The one that goes on is answered.
fn race(
    index: &mut TouchIndex,
    passed: Option<Key>,
    found: &mut HashMap<Key, Key>,
    first: Search,
    second: Search,
) -> Result<Search, AllocError>
    requires unique { AreUnique found.old.entries }
    requires placed { IsPlaced (passing passed index.old.conductors) found.old.entries }
    requires linked { AreLinked (passing passed index.old.conductors)
        (λ q. Contains first.waiting.items q ⊎ Contains second.waiting.items q)
        found.old.entries }
    requires first { IsSearch first found.old.entries }
    requires second { IsSearch second found.old.entries }
    requires first_there { IsUnder found.old.entries first.start first.start }
    requires second_there { IsUnder found.old.entries second.start second.start }
    requires apart { second.start ≢ first.start }
    ensures grows { Grows (Reaches (passing passed index.old.conductors) found.old.entries)
        found.old.entries found.new.entries }
    ensures races { IfOk result (λ last. Races (passing passed index.old.conductors) last
        found.old.entries found.new.entries) }
    ensures conductors { index.new.conductors ≡ index.old.conductors }
    ensures count { IfOk result (λ last.
        index.new.asked + length last.waiting.items + length found.old.entries
        ≤ index.old.asked + (length first.waiting.items + length second.waiting.items)
        + length found.new.entries) }
    ensures steps { index.new.asked + length found.old.entries ≤ index.old.asked
        + (length first.waiting.items + length second.waiting.items) + length found.new.entries }
    ensures later { index.old.asked ≤ index.new.asked }
{
    let mut first = first;
    let mut second = second;
    while let Some(key) = first.waiting.pop_front() {
        if ask(index, passed, found, &mut first, key)? {
            return meet(found, first, second);
        }
        mem::swap(&mut first, &mut second);
    }
    Ok(second)
}

/// Searches from each of some keys in turn, two at a time, until all of them are found, and those
/// that are joined are known to be. It asks for no key twice. What it has not found has no
/// neighbour under a head but the answered one.
pub(crate) fn search_from(
    alloc: Global,
    index: &mut TouchIndex,
    passed: Option<Key>,
    found: &mut HashMap<Key, Key>,
    near: &[Key],
) -> Result<Option<Key>, AllocError>
    requires none { found.old.entries ≡ [] }
    requires there { (q : Key) → Contains near.now q
        → IsSome (get (passing passed index.old.conductors) q) }
    ensures unique { AreUnique found.new.entries }
    ensures reached { (q : Key) → IsFound found.new.entries q
        → IsReached (passing passed index.old.conductors) near.now q }
    ensures searches { IfOk result (λ start. Searches (passing passed index.old.conductors)
        near.now start found.new.entries) }
    ensures conductors { index.new.conductors ≡ index.old.conductors }
    ensures steps { index.new.asked ≤ index.old.asked + length found.new.entries }
    ensures later { index.old.asked ≤ index.new.asked }
{
    let Some(first) = near.first() else {
        return Ok(None);
    };
    let mut last = begin(alloc, found, *first)?;
    for start in near {
        if !found.contains_key(start) {
            let next = begin(alloc, found, *start)?;
            last = race(index, passed, found, last, next)?;
        }
    }
    Ok(Some(last.start))
}
