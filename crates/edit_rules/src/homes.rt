// How many objects each sheet has.
ghost use Rattle.std.specs.Prelude.{◌≡◌, ◌+◌, ◌≤◌, ◌<◌, IsSome, OnOk, option_copied};
ghost use Rattle.std.specs.FinMap as map;
ghost use Rattle.std.specs.Vec.{vec_len};
ghost use Rattle.edit_rules.specs.HomeRows.{home_count, with_sheet_row};

use geda_model::{Name, NameRoom};
use std::alloc::{AllocError, Global};
use std::collections::HashMap;
use std::marker::Model;

/// The number of objects of each sheet. A row is made for a sheet; after that its number changes in
/// place, so that an object wants no room. Contracts see a finite map, with the room for more rows.
#[derive(Drop)]
pub struct Homes {
    rows: HashMap<Name, u64>,
    rooms: Vec<NameRoom>,
}

impl Model for Homes {
    ghost use Rattle.std.specs.Prelude.{ℕ, List, min};
    ghost use Rattle.std.specs.FinMap as map;
    ghost use Rattle.std.specs.HashMap.{spare};
    ghost use Rattle.std.specs.Vec.{vec_len};
    ghost use Rattle.std.specs.Ordering.{nat_cmp};
    ghost use Rattle.std.specs.Cmp.Lexicographic.{slice_cmp};
    ghost use Rattle.std.specs.Coded.{codes};
    ghost use Rattle.edit_rules.specs.HomeRows.{HomesView};

    ghost Value = { HomesView };

    ghost coded = { Prim.hlevel (codes, map.code) };

    ghost view = { λ t. record { rows = map.from_entries t.rows.entries; spare = min (spare t.rows) (vec_len t.rooms) } };
}

fn fill(alloc: Global, rooms: &mut Vec<NameRoom>, count: usize) -> Result<(), AllocError>
    ensures ok { OnOk result (count ≤ vec_len rooms.new) }
{
    while rooms.len() < count {
        let room = NameRoom::new(alloc)?;
        rooms.push(room)?;
    }
    Ok(())
}

impl Homes {
    /// No rows, and no room. It takes no memory.
    pub fn new(alloc: Global) -> Homes
        ensures { result.rows ≡ map.empty }
    {
        Homes {
            rows: HashMap::new(alloc),
            rooms: Vec::new(alloc),
        }
    }

    /// The number of objects of a sheet; 0 where it has no row. It takes no memory.
    pub fn count(&self, name: &Name) -> u64
        ensures { result ≡ home_count (map.get self.now.rows name.now) }
    {
        match self.row(name) {
            None => 0,
            Some(count) => *count,
        }
    }

    fn row(&self, name: &Name) -> Option<&u64>
        ensures { option_copied result ≡ map.get self.now.rows name.now }
    {
        self.rows.get(name)
    }

    /// Makes room for as many more rows. The rows stay, also where memory runs out.
    pub fn reserve(&mut self, alloc: Global, count: usize) -> Result<(), AllocError>
        ensures rows { self.new.rows ≡ self.old.rows }
        ensures ok { OnOk result (count ≤ self.new.spare) }
    {
        fill(alloc, &mut self.rooms, count)?;
        self.rows.reserve(count)
    }

    // Makes a row for a sheet that has none.
    fn add(&mut self, name: &Name)
        requires { 0 < self.old.spare }
        ensures rows { self.new.rows ≡ map.insert self.old.rows name.now 0 }
        ensures spare { self.old.spare ≤ self.new.spare + 1 }
    {
        let room = self.rooms.pop().unwrap();
        let put: Result<_, _> = self.rows.insert(room.name(name), 0);
        put.unwrap();
    }

    /// Makes a row for a sheet, if it has none. It can't fail and takes no memory.
    pub fn open(&mut self, name: &Name)
        requires { 0 < self.old.spare }
        ensures rows { self.new.rows ≡ with_sheet_row self.old.rows name.now }
        ensures spare { self.old.spare ≤ self.new.spare + 1 }
    {
        if self.row(name).is_none() {
            self.add(name);
        }
    }

    /// Sets the number of a sheet that has a row. It can't fail and takes no memory.
    pub fn set(&mut self, name: &Name, count: u64)
        requires { IsSome (map.get self.old.rows name.now) }
        ensures { self.new.rows ≡ map.insert self.old.rows name.now count }
    {
        if let Some(row) = self.rows.get_mut(name) {
            *row = count;
            return;
        }
    }
}
