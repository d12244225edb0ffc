// The groups of conductors, kept while conductors come and go.
ghost use Rattle.std.specs.Prelude.{◌≡◌, ◌≤◌, ◌+◌, ◌↔◌, List, true, false, None, IsSome, IsTrue, IfOk, OnOk, OnErr, length};
ghost use Rattle.std.specs.FinMap as map;
ghost use Rattle.geda_geom.specs.declared.conductor.Key.{Key};
ghost use Rattle.net_flood.specs.Grouping.{HasSize, IsGroup, IsLeast};
ghost use Rattle.net_flood.specs.steps.Partition.{IsPartition, KeepsKeys, Together, heads_of, members_of};
ghost use Rattle.net_flood.specs.steps.Kept.{AreGroups, HasKeys, IsBefore};

use crate::partition::{Partition, listed};
use crate::search::search_from;
use geda_geom::Key;
use std::alloc::{AllocError, Global};
use std::collections::HashMap;
use std::marker::Model;
use touch_index::{Sealed, TouchIndex};

/// Adds a conductor under a key that is not there. The key is in no group.
fn add(
    index: &mut TouchIndex,
    partition: &mut Partition,
    key: Key,
    sealed: Sealed,
) -> Result<(), AllocError>
    requires is_free { map.get index.old.conductors key ≡ None }
    requires partition { IsPartition (heads_of partition.old) (members_of partition.old) }
    requires keys { HasKeys index.old.conductors (heads_of partition.old) }
    ensures ok { OnOk result
        (index.new.conductors ≡ map.insert index.old.conductors key sealed) }
    ensures err { OnErr result (index.new.conductors ≡ index.old.conductors) }
    ensures asked { index.new.asked ≡ index.old.asked }
    ensures partition { IsPartition (heads_of partition.new) (members_of partition.new) }
    ensures keys { HasKeys index.new.conductors (heads_of partition.new) }
    ensures members { partition.new.rows.entries ≡ partition.old.rows.entries }
{
    partition.know(key)?;
    let added = index.insert(key, sealed);
    if added.is_err() {
        partition.forget(key);
    }
    added
}

/// Puts a conductor that has come into a group, and joins it with the groups of its neighbours, by
/// one neighbour query. Of neighbours that are in one group already it wants one alone.
fn join_in(
    alloc: Global,
    index: &mut TouchIndex,
    partition: &mut Partition,
    key: Key,
) -> Result<(), AllocError>
    requires there { IsSome (map.get index.old.conductors key) }
    requires partition { IsPartition (heads_of partition.old) (members_of partition.old) }
    requires keys { HasKeys index.old.conductors (heads_of partition.old) }
    requires before { IsBefore index.old.conductors key (members_of partition.old) }
    ensures keys { KeepsKeys partition.old partition.new }
    ensures partition { OnOk result
        (IsPartition (heads_of partition.new) (members_of partition.new)) }
    ensures groups { OnOk result
        (AreGroups index.old.conductors (members_of partition.new)) }
    ensures conductors { index.new.conductors ≡ index.old.conductors }
    ensures steps { index.new.asked ≤ index.old.asked + 1 }
    ensures later { index.old.asked ≤ index.new.asked }
{
    let near = index.spanning_neighbours(key)?;
    partition.put(alloc, key, key)?;
    for other in &near {
        partition.join(alloc, key, *other)?;
    }
    Ok(())
}

/// Splits the group of a key that is about to go: the other members stand in the groups that they
/// make without it. It makes at most one neighbour query for each member.
///
/// It searches from some of the key's neighbours, to which the others are joined without it, and
/// stops as soon as all of them are known to be joined or parted. What is parted alone moves.
fn split(
    alloc: Global,
    index: &mut TouchIndex,
    partition: &mut Partition,
    key: Key,
) -> Result<(), AllocError>
    requires there { IsSome (map.get index.old.conductors key) }
    requires partition { IsPartition (heads_of partition.old) (members_of partition.old) }
    requires keys { HasKeys index.old.conductors (heads_of partition.old) }
    requires groups { AreGroups index.old.conductors (members_of partition.old) }
    ensures keys { KeepsKeys partition.old partition.new }
    ensures partition { OnOk result
        (IsPartition (heads_of partition.new) (members_of partition.new)) }
    ensures groups { OnOk result (AreGroups (map.remove index.old.conductors key)
        (members_of partition.new)) }
    ensures conductors { index.new.conductors ≡ index.old.conductors }
    ensures steps { (keys : List Key) → IsGroup index.old.conductors key keys
        → index.new.asked ≤ index.old.asked + length keys }
    ensures later { index.old.asked ≤ index.new.asked }
{
    let near = index.spanning_neighbours(key)?;
    let mut found = HashMap::new(alloc);
    let start = search_from(alloc, index, Some(key), &mut found, &near)?;
    let head = partition.head(key).unwrap();
    let mut left = partition.take(key);
    left.remove(&key);
    partition.put_found(alloc, &mut left, &found, start)?;
    partition.put_left(alloc, head, left)
}

/// Puts all keys into the groups of their conductors. It makes at most one neighbour query for
/// each.
fn group_all(
    alloc: Global,
    index: &mut TouchIndex,
    partition: &mut Partition,
) -> Result<(), AllocError>
    requires keys { HasKeys index.old.conductors (heads_of partition.old) }
    requires partition { IsPartition (heads_of partition.old) (members_of partition.old) }
    requires empty { (h q : Key) → members_of partition.old h q → ⊥ }
    ensures keys { KeepsKeys partition.old partition.new }
    ensures partition { OnOk result
        (IsPartition (heads_of partition.new) (members_of partition.new)) }
    ensures groups { OnOk result (AreGroups index.old.conductors (members_of partition.new)) }
    ensures conductors { index.new.conductors ≡ index.old.conductors }
    ensures steps { index.new.asked ≤ index.old.asked + map.len index.old.conductors }
    ensures later { index.old.asked ≤ index.new.asked }
{
    let mut left = partition.keys(alloc)?;
    let all = listed(alloc, &left)?;
    let mut found = HashMap::new(alloc);
    search_from(alloc, index, None, &mut found, &all)?;
    partition.put_found(alloc, &mut left, &found, None)
}

/// The conductors of one sheet with their groups: two are in one group where a chain of conductors
/// that touch leads from one to the other (docs/RULES.md, "Groups"). What touches it learns from
/// neighbour queries alone, and counts them.
///
/// The groups are fresh, or they were given up for want of memory. `rebuild` makes them fresh
/// again.
#[derive(Drop)]
pub struct Groups {
    alloc: Global,
    index: TouchIndex,
    partition: Partition,
    fresh: bool,
}

impl Model for Groups {
    ghost use Rattle.std.specs.FinMap as map;
    ghost use Rattle.std.specs.Coded.{codes};
    ghost use Rattle.net_flood.specs.Grouping.{GroupsData};
    ghost use Rattle.net_flood.specs.steps.Kept.{IsKept};

    ghost Value = { GroupsData };

    ghost coded = { Prim.hlevel (codes, map.code) };

    ghost view = { λ g. record {
      conductors = g.index.conductors;
      asked = g.index.asked;
      fresh = g.fresh;
    } };

    ghost invariant = { λ g. IsKept g.index.conductors g.fresh g.partition };
}

impl Groups {
    /// No conductors, with fresh groups and no query made. It takes no memory.
    pub fn new(alloc: Global) -> Groups
        ensures empty { result ≡ record { conductors = map.empty; asked = 0; fresh = true } }
    {
        Groups {
            alloc,
            index: TouchIndex::new(alloc),
            partition: Partition::new(alloc),
            fresh: true,
        }
    }

    /// Adds a conductor under a key that is not there, while the groups are fresh.
    ///
    /// On AllocError the conductors are as before, and the groups are given up. It makes at most
    /// one neighbour query, on AllocError too.
    pub fn insert(&mut self, key: Key, sealed: Sealed) -> Result<(), AllocError>
        requires is_fresh { self.old.fresh ≡ true }
        requires is_free { map.get self.old.conductors key ≡ None }
        ensures ok { OnOk result
            (self.new.conductors ≡ map.insert self.old.conductors key sealed) }
        ensures fresh { OnOk result (self.new.fresh ≡ true) }
        ensures err { OnErr result (self.new.conductors ≡ self.old.conductors) }
        ensures invalidated { OnErr result (self.new.fresh ≡ false) }
        ensures steps { self.new.asked ≤ self.old.asked + 1 }
        ensures later { self.old.asked ≤ self.new.asked }
    {
        self.fresh = false;
        add(&mut self.index, &mut self.partition, key, sealed)?;
        let joined = join_in(self.alloc, &mut self.index, &mut self.partition, key);
        if joined.is_err() {
            self.partition.clear(self.alloc);
            self.partition.forget(key);
            self.index.remove(key);
            return joined;
        }
        self.fresh = true;
        Ok(())
    }

    /// Removes the conductor of a key that is there, while the groups are fresh.
    ///
    /// On AllocError the conductors are as before, and the groups are given up. It makes at most
    /// as many neighbour queries as the key's group has members, on AllocError too.
    pub fn remove(&mut self, key: Key) -> Result<(), AllocError>
        requires is_fresh { self.old.fresh ≡ true }
        requires is_there { IsSome (map.get self.old.conductors key) }
        ensures ok { OnOk result
            (self.new.conductors ≡ map.remove self.old.conductors key) }
        ensures fresh { OnOk result (self.new.fresh ≡ true) }
        ensures err { OnErr result (self.new.conductors ≡ self.old.conductors) }
        ensures invalidated { OnErr result (self.new.fresh ≡ false) }
        ensures steps { (keys : List Key) → IsGroup self.old.conductors key keys
            → self.new.asked ≤ self.old.asked + length keys }
        ensures later { self.old.asked ≤ self.new.asked }
    {
        self.fresh = false;
        let parted = split(self.alloc, &mut self.index, &mut self.partition, key);
        if parted.is_err() {
            self.partition.clear(self.alloc);
            return parted;
        }
        // The key goes last, when no more memory is needed.
        self.partition.forget(key);
        self.index.remove(key);
        self.fresh = true;
        Ok(())
    }

    /// Groups all conductors anew, whether the groups are fresh or were given up.
    ///
    /// The conductors stay. On AllocError the groups are given up. It makes at most one neighbour
    /// query for each conductor, on AllocError too.
    pub fn rebuild(&mut self) -> Result<(), AllocError>
        ensures conductors { self.new.conductors ≡ self.old.conductors }
        ensures fresh { OnOk result (self.new.fresh ≡ true) }
        ensures invalidated { OnErr result (self.new.fresh ≡ false) }
        ensures steps { self.new.asked
            ≤ self.old.asked + map.len self.old.conductors }
        ensures later { self.old.asked ≤ self.new.asked }
    {
        self.fresh = false;
        self.partition.clear(self.alloc);
        let grouped = group_all(self.alloc, &mut self.index, &mut self.partition);
        if grouped.is_err() {
            self.partition.clear(self.alloc);
            return grouped;
        }
        self.fresh = true;
        Ok(())
    }

    /// The number of neighbour queries that were made, at most 2^64 - 1. It takes no memory.
    pub fn asked(&self) -> u64
        ensures asked { result ≡ self.now.asked }
    {
        self.index.asked()
    }

    /// Whether the groups are fresh: false where they were given up for want of memory. It takes no
    /// memory.
    pub fn is_fresh(&self) -> bool
        ensures fresh { result ≡ self.now.fresh }
    {
        self.fresh
    }

    /// The least key, by id, then place, of the group of a key that is there, while the groups are
    /// fresh. It takes no memory.
    pub fn group_of(&self, key: Key) -> Key
        requires is_fresh { self.now.fresh ≡ true }
        requires is_there { IsSome (map.get self.now.conductors key) }
        ensures least { IsLeast self.now.conductors key result }
    {
        self.partition.least(key)
    }

    /// How many conductors the group of a key that is there has, while the groups are fresh. It
    /// takes no memory.
    pub fn size_of(&self, key: Key) -> usize
        requires is_fresh { self.now.fresh ≡ true }
        requires is_there { IsSome (map.get self.now.conductors key) }
        ensures size { HasSize self.now.conductors key result }
    {
        self.partition.size(key)
    }

    /// The keys of the group of a key that is there, while the groups are fresh; by id, then place.
    pub fn members(&self, alloc: Global, key: Key) -> Result<Vec<Key>, AllocError>
        requires is_fresh { self.now.fresh ≡ true }
        requires is_there { IsSome (map.get self.now.conductors key) }
        ensures group { IfOk result (λ keys. IsGroup self.now.conductors key keys.items) }
    {
        self.partition.members(alloc, key)
    }
}
