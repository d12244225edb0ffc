// Tables whose calls can't fail after a reserve.
ghost use Rattle.std.specs.Prelude.{◌≡◌, ◌+◌, ◌≤◌, ◌<◌, IfOk, OnOk, option_copied};
ghost use Rattle.std.specs.FinMap as map;
ghost use Rattle.std.specs.Vec.{vec_len};
ghost use Rattle.project_model.specs.Tables.{set_row};

use geda_model::{Name, NameRoom};
use std::alloc::{AllocError, Global};
use std::collections::HashMap;
use std::marker::Model;

/// Rows by id. Contracts see them as a finite map, with the room for more of them.
#[derive(Drop)]
pub struct ById<V> {
    rows: HashMap<u32, V>,
}

impl<V> Model for ById<V> {
    ghost use Rattle.std.specs.Prelude.{ℕ};
    ghost use Rattle.std.specs.FinMap as map;
    ghost use Rattle.std.specs.HashMap.{spare};
    ghost use Rattle.std.specs.Ordering.{nat_cmp};
    ghost use Rattle.std.specs.Coded.{coded_ℕ};
    ghost use Rattle.project_model.specs.Tables.{TableData, table_code};

    ghost Value = { TableData ℕ nat_cmp V };

    ghost coded = { table_code coded_ℕ V.code };

    ghost view = { λ t. record { rows = map.from_entries t.rows.entries; spare = spare t.rows } };
}

impl<V> ById<V> {
    /// No rows, and no room. It takes no memory.
    pub fn new(alloc: Global) -> ById<V>
        ensures { result.rows ≡ map.empty }
    {
        ById {
            rows: HashMap::new(alloc),
        }
    }

    pub(crate) fn rows(&self) -> &HashMap<u32, V>
        ensures { map.from_entries result.now.entries ≡ self.now.rows }
    {
        &self.rows
    }

    /// The row of a key.
    ///
    /// `None` exactly where there is none. It takes no memory.
    pub fn get(&self, id: u32) -> Option<&V>
        ensures { option_copied result ≡ map.get self.now.rows id }
    {
        self.rows.get(&id)
    }

    /// Makes room for as many more rows. The rows and the room that there is stay, also where
    /// memory runs out.
    pub fn reserve(&mut self, count: usize) -> Result<(), AllocError>
        ensures rows { self.new.rows ≡ self.old.rows }
        ensures ok { OnOk result (count ≤ self.new.spare) }
        ensures spare { self.old.spare ≤ self.new.spare }
    {
        self.rows.reserve(count)
    }

    /// Gives a key a row, or none, and answers the row that it had. It can't fail and takes no
    /// memory.
    pub fn set(&mut self, id: u32, row: Option<V>) -> Option<V>
        requires { 0 < self.old.spare }
        ensures old { result ≡ map.get self.old.rows id }
        ensures rows { self.new.rows ≡ set_row self.old.rows id row }
        ensures spare { self.old.spare ≤ self.new.spare + 1 }
    {
        match row {
            Some(row) => self.put(id, row),
            None => self.rows.remove(&id),
        }
    }

    /// Gives a key a row, and answers the row that it had. It can't fail and takes no memory.
    pub(crate) fn put(&mut self, id: u32, row: V) -> Option<V>
        requires { 0 < self.old.spare }
        ensures old { result ≡ map.get self.old.rows id }
        ensures rows { self.new.rows ≡ map.insert self.old.rows id row }
        ensures spare { self.old.spare ≤ self.new.spare + 1 }
    {
        self.rows.insert(id, row).unwrap()
    }
}

impl<V: Clone> ById<V> {
    /// Equal rows, without room for more.
    pub fn copy(&self) -> Result<ById<V>, AllocError>
        requires exact { (x y : V) → V.is_clone x y → y ≡ x }
        ensures { IfOk result (λ t. t.rows ≡ self.now.rows) }
    {
        let rows = self.rows.clone()?;
        Ok(ById { rows })
    }
}

/// Rows by name, with room for the names of more rows. Contracts see them as a finite map, with the
/// room for more of them.
#[derive(Drop)]
pub struct ByName<V> {
    rows: HashMap<Name, V>,
    rooms: Vec<NameRoom>,
}

impl<V> Model for ByName<V> {
    ghost use Rattle.std.specs.Prelude.{ℕ, List, min};
    ghost use Rattle.std.specs.FinMap as map;
    ghost use Rattle.std.specs.HashMap.{spare};
    ghost use Rattle.std.specs.Vec.{vec_len};
    ghost use Rattle.std.specs.Ordering.{nat_cmp};
    ghost use Rattle.std.specs.Cmp.Lexicographic.{slice_cmp};
    ghost use Rattle.std.specs.Coded.{coded_ℕ, coded_list};
    ghost use Rattle.project_model.specs.Tables.{TableData, table_code};

    ghost Value = { TableData (List ℕ) (slice_cmp nat_cmp) V };

    ghost coded = { table_code (coded_list coded_ℕ) V.code };

    ghost view = { λ t. record { rows = map.from_entries t.rows.entries; spare = min (spare t.rows) (vec_len t.rooms) } };
}

fn fill(alloc: Global, rooms: &mut Vec<NameRoom>, count: usize) -> Result<(), AllocError>
    ensures ok { OnOk result (count ≤ vec_len rooms.new) }
    ensures len { vec_len rooms.old ≤ vec_len rooms.new }
{
    while rooms.len() < count {
        let room = NameRoom::new(alloc)?;
        rooms.push(room)?;
    }
    Ok(())
}

impl<V> ByName<V> {
    /// No rows, and no room. It takes no memory.
    pub fn new(alloc: Global) -> ByName<V>
        ensures { result.rows ≡ map.empty }
    {
        ByName {
            rows: HashMap::new(alloc),
            rooms: Vec::new(alloc),
        }
    }

    pub(crate) fn rows(&self) -> &HashMap<Name, V>
        ensures { map.from_entries result.now.entries ≡ self.now.rows }
    {
        &self.rows
    }

    /// The row of a key.
    ///
    /// `None` exactly where there is none. It takes no memory.
    pub fn get(&self, name: &Name) -> Option<&V>
        ensures { option_copied result ≡ map.get self.now.rows name.now }
    {
        self.rows.get(name)
    }

    /// Makes room for as many more rows. The rows and the room that there is stay, also where
    /// memory runs out.
    pub fn reserve(&mut self, alloc: Global, count: usize) -> Result<(), AllocError>
        ensures rows { self.new.rows ≡ self.old.rows }
        ensures ok { OnOk result (count ≤ self.new.spare) }
        ensures spare { self.old.spare ≤ self.new.spare }
    {
        fill(alloc, &mut self.rooms, count)?;
        self.rows.reserve(count)
    }

    /// Gives a key a row, or none, and answers the row that it had. It can't fail and takes no
    /// memory.
    pub fn set(&mut self, name: &Name, row: Option<V>) -> Option<V>
        requires { 0 < self.old.spare }
        ensures old { result ≡ map.get self.old.rows name.now }
        ensures rows { self.new.rows ≡ set_row self.old.rows name.now row }
        ensures spare { self.old.spare ≤ self.new.spare + 1 }
    {
        match row {
            Some(row) => {
                let room = self.rooms.pop().unwrap();
                self.rows.insert(room.name(name), row).unwrap()
            }
            None => self.rows.remove(name),
        }
    }
}

impl<V: Clone> ByName<V> {
    /// Equal rows, without room for more.
    pub fn copy(&self, alloc: Global) -> Result<ByName<V>, AllocError>
        requires exact { (x y : V) → V.is_clone x y → y ≡ x }
        ensures { IfOk result (λ t. t.rows ≡ self.now.rows) }
    {
        let rows = self.rows.clone()?;
        Ok(ByName {
            rows,
            rooms: Vec::new(alloc),
        })
    }
}
