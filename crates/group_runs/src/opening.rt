// The groups of a sheet are begun, and read.
ghost use Rattle.std.specs.Prelude.{◌≡◌, ◌≤◌, ◌↔◌, [], true, IsSome, IsTrue, IfOk, OnOk, OnErr};
ghost use Rattle.std.specs.FinMap.{get};
ghost use Rattle.net_flood.specs.Grouping.{IsGroup, IsLeast};
ghost use Rattle.group_runs.specs.Sheets.{HasGroups, IsKept, IsSound, IsSoundRow, KeepsOtherSheets, asked_of, asked_sum, given_up, is_given_up, kept_at, kept_of, row_at};
ghost use Rattle.group_runs.specs.steps.Running.{SetsSheet};

use geda_geom::Key;
use geda_model::Name;
use net_flood::Groups;
use std::alloc::{AllocError, Global};
use std::collections::HashMap;

fn open_row(alloc: Global, row: &mut Option<Groups>)
    requires sound { IsSoundRow row.old }
    ensures kept { HasGroups row.new }
    ensures are { kept_of row.new ≡ kept_of row.old }
    ensures asked { asked_of row.new ≡ asked_of row.old }
{
    if row.is_none() {
        *row = Some(Groups::new(alloc));
    }
}

/// Begins the groups of a sheet whose groups are not kept, without conductors.
pub(crate) fn open(
    alloc: Global,
    rows: &mut HashMap<Name, Option<Groups>>,
    sheet: &Name,
) -> Result<(), AllocError>
    requires sound { IsSound (row_at rows.old.entries sheet.now) }
    ensures sets { OnOk result
        (SetsSheet sheet.now (kept_at rows.old.entries sheet.now) rows.new.entries) }
    ensures others { KeepsOtherSheets sheet.now rows.old.entries rows.new.entries }
    ensures err { OnErr result (rows.new.entries ≡ rows.old.entries) }
    ensures counted { asked_sum rows.new.entries ≤ asked_sum rows.old.entries }
{
    if let Some(row) = rows.get_mut(sheet) {
        open_row(alloc, row);
        return Ok(());
    }
    let name = sheet.clone()?;
    rows.insert(name, Some(Groups::new(alloc)))?;
    Ok(())
}

/// Whether the groups of a sheet are kept. It takes no memory.
pub(crate) fn is_kept(rows: &HashMap<Name, Option<Groups>>, sheet: &Name) -> bool
    requires sound { IsSound (row_at rows.now.entries sheet.now) }
    ensures { IsTrue result ↔ IsKept (row_at rows.now.entries sheet.now) }
{
    match rows.get(sheet) {
        Some(row) => row.is_some(),
        None => false,
    }
}

fn is_given_up(rows: &HashMap<Name, Option<Groups>>, sheet: &Name) -> bool
    ensures { result ≡ is_given_up (row_at rows.now.entries sheet.now) }
{
    match rows.get(sheet) {
        Some(row) => row.is_none(),
        None => false,
    }
}

/// Whether no groups were given up. It takes no memory.
pub(crate) fn is_fresh(rows: &HashMap<Name, Option<Groups>>) -> bool
    ensures { IsTrue result ↔ (given_up rows.now.entries ≡ []) }
{
    for sheet in rows.keys() {
        if is_given_up(rows, sheet) {
            return false;
        }
    }
    true
}

fn row_group_of(row: &Option<Groups>, key: Key) -> Key
    requires kept { HasGroups row.now }
    requires is_there { IsSome (get (kept_of row.now) key) }
    ensures least { IsLeast (kept_of row.now) key result }
{
    match row {
        Some(groups) => groups.group_of(key),
        None => key,
    }
}

fn row_members(alloc: Global, row: &Option<Groups>, key: Key) -> Result<Vec<Key>, AllocError>
    requires kept { HasGroups row.now }
    requires is_there { IsSome (get (kept_of row.now) key) }
    ensures group { IfOk result (λ keys. IsGroup (kept_of row.now) key keys.items) }
{
    match row {
        Some(groups) => groups.members(alloc, key),
        None => Ok(Vec::new(alloc)),
    }
}

/// The least key of a group. It takes no memory.
pub(crate) fn group_of(rows: &HashMap<Name, Option<Groups>>, sheet: &Name, key: Key) -> Key
    requires kept { IsKept (row_at rows.now.entries sheet.now) }
    requires is_there { IsSome (get (kept_at rows.now.entries sheet.now) key) }
    ensures least { IsLeast (kept_at rows.now.entries sheet.now) key result }
{
    match rows.get(sheet) {
        Some(row) => row_group_of(row, key),
        None => key,
    }
}

/// The keys of a group; by id, then place.
pub(crate) fn members(
    alloc: Global,
    rows: &HashMap<Name, Option<Groups>>,
    sheet: &Name,
    key: Key,
) -> Result<Vec<Key>, AllocError>
    requires kept { IsKept (row_at rows.now.entries sheet.now) }
    requires is_there { IsSome (get (kept_at rows.now.entries sheet.now) key) }
    ensures group { IfOk result
        (λ keys. IsGroup (kept_at rows.now.entries sheet.now) key keys.items) }
{
    match rows.get(sheet) {
        Some(row) => row_members(alloc, row, key),
        None => Ok(Vec::new(alloc)),
    }
}
