// Conductors by key, with the grid that finds what touches.
ghost use Rattle.std.specs.Prelude.{◌≡◌, ◌≤◌, ◌↔◌, ◌+◌, ◌-◌, ◌^◌, min, Contains, Some, None, IsSome, IfOk, OnOk, OnErr};
ghost use Rattle.std.specs.FinMap as map;
ghost use Rattle.std.specs.List.Sorted.{IsStrictlySortedBy};
ghost use Rattle.geda_geom.specs.declared.conductor.Key.{Key};
ghost use Rattle.geda_geom.specs.Keys.{by_key};
ghost use Rattle.touch_index.specs.Index.{IndexData, IsNeighbour, IsSpanning};
ghost use Rattle.touch_index.specs.steps.Drawn.{AddsMarks};
ghost use Rattle.touch_index.specs.steps.Sifting.{DifferAt, IsIndexed};

use crate::grid::Grid;
use crate::neighbours::{spanning, touching};
use crate::sealed::Sealed;
use geda_geom::{Conductor, Key};
use std::alloc::{AllocError, Global};
use std::collections::HashMap;
use std::marker::Model;

/// Adds a conductor under a key that is not there.
fn add(
    conductors: &mut HashMap<Key, Conductor>,
    grid: &mut Grid,
    key: Key,
    conductor: Conductor,
) -> Result<(), AllocError>
    requires { IsIndexed conductors.old.entries grid.old }
    ensures indexed { IsIndexed conductors.new.entries grid.new }
    ensures ok { OnOk result
        (DifferAt key (Some conductor) conductors.old.entries conductors.new.entries) }
    ensures err { OnErr result (conductors.new.entries ≡ conductors.old.entries) }
    ensures marks { AddsMarks conductor key grid.old grid.new }
{
    // The grid has it first, so that each conductor of the map stands in the grid at any time.
    grid.enter(&conductor, key)?;
    conductors.insert(key, conductor)?;
    Ok(())
}

/// The conductors of one sheet by key, which finds what touches one of them (docs/RULES.md,
/// "Touching"). It gives no conductor back, and counts the neighbour queries.
#[derive(Drop)]
pub struct TouchIndex {
    alloc: Global,
    conductors: HashMap<Key, Conductor>,
    grid: Grid,
    queries: u64,
}

impl Model for TouchIndex {
    ghost use Rattle.std.specs.FinMap as map;
    ghost use Rattle.std.specs.Coded.{codes};
    ghost use Rattle.touch_index.specs.Index.{IndexData};
    ghost use Rattle.touch_index.specs.steps.Drawn.{AreDrawn};
    ghost use Rattle.touch_index.specs.steps.Sifting.{IsIndexed, conductor_at};

    ghost Value = { IndexData };

    ghost coded = { Prim.hlevel (codes, map.code) };

    ghost view = { λ t. record {
      conductors = map.from_entries t.conductors.entries;
      asked = t.queries;
    } };

    ghost invariant = { λ t. IsIndexed t.conductors.entries t.grid
        × AreDrawn (conductor_at t.conductors.entries) t.grid };
}

impl TouchIndex {
    /// An index without conductors, of which no neighbours were asked. It takes no memory.
    pub fn new(alloc: Global) -> TouchIndex
        ensures empty { result ≡ record { conductors = map.empty; asked = 0 } }
    {
        TouchIndex {
            alloc,
            conductors: HashMap::new(alloc),
            grid: Grid::new(alloc),
            queries: 0,
        }
    }

    /// Adds a conductor under a key that is not there.
    ///
    /// On AllocError the conductors are as before. `asked` stays.
    pub fn insert(&mut self, key: Key, sealed: Sealed) -> Result<(), AllocError>
        requires is_free { map.get self.old.conductors key ≡ None }
        ensures ok { OnOk result
            (self.new.conductors ≡ map.insert self.old.conductors key sealed) }
        ensures err { OnErr result (self.new.conductors ≡ self.old.conductors) }
        ensures asked { self.new.asked ≡ self.old.asked }
    {
        let conductor = sealed.open();
        let added = add(&mut self.conductors, &mut self.grid, key, conductor);
        if added.is_err() {
            self.grid.leave(&conductor, key);
        }
        added
    }

    /// Removes the conductor of a key that is there. `asked` stays. It takes no memory.
    pub fn remove(&mut self, key: Key)
        requires is_there { IsSome (map.get self.old.conductors key) }
        ensures removed { self.new.conductors ≡ map.remove self.old.conductors key }
        ensures asked { self.new.asked ≡ self.old.asked }
    {
        if let Some(conductor) = self.conductors.remove(&key) {
            self.grid.leave(&conductor, key);
        }
    }

    /// The other keys whose conductors touch that of a key, which is there; by id, then place.
    ///
    /// The conductors stay. `asked` rises by one, on AllocError too, or stays at 2^64 - 1.
    pub fn neighbours(&mut self, key: Key) -> Result<Vec<Key>, AllocError>
        requires is_there { IsSome (map.get self.old.conductors key) }
        ensures rising { IfOk result (λ keys. IsStrictlySortedBy by_key keys.items) }
        ensures same { IfOk result (λ keys. (q : Key)
            → Contains keys.items q ↔ IsNeighbour (map.get self.old.conductors) key q) }
        ensures conductors { self.new.conductors ≡ self.old.conductors }
        ensures asked { self.new.asked ≡ min (self.old.asked + 1) (2 ^ 64 - 1) }
        ensures later { self.old.asked ≤ self.new.asked }
    {
        self.queries = self.queries.saturating_add(1);
        touching(self.alloc, &self.conductors, &self.grid, key)
    }

    /// Some of the other keys whose conductors touch that of a key, which is there; by id, then
    /// place. From them chains of conductors that touch lead to all others of these keys, and none
    /// goes by the conductor of the key itself. Of many conductors that lie on one another, or meet
    /// in one point, they are few.
    ///
    /// The conductors stay. `asked` rises by one, on AllocError too, or stays at 2^64 - 1.
    pub fn spanning_neighbours(&mut self, key: Key) -> Result<Vec<Key>, AllocError>
        requires is_there { IsSome (map.get self.old.conductors key) }
        ensures rising { IfOk result (λ keys. IsStrictlySortedBy by_key keys.items) }
        ensures spanning { IfOk result (λ keys.
            IsSpanning (map.get self.old.conductors) key keys.items) }
        ensures conductors { self.new.conductors ≡ self.old.conductors }
        ensures asked { self.new.asked ≡ min (self.old.asked + 1) (2 ^ 64 - 1) }
        ensures later { self.old.asked ≤ self.new.asked }
    {
        self.queries = self.queries.saturating_add(1);
        spanning(self.alloc, &self.conductors, &self.grid, key)
    }

    /// The number of neighbour queries that were made, at most 2^64 - 1. It takes no memory.
    pub fn asked(&self) -> u64
        ensures asked { result ≡ self.now.asked }
    {
        self.queries
    }
}
