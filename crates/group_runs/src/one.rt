// One conductor of a sheet leaves, or comes.
ghost use Rattle.std.specs.Prelude.{◌≡◌, ◌≤◌, ◌+◌, ℕ, List, None, true, IsSome, IfOk, OnOk, length};
ghost use Rattle.std.specs.FinMap.{get, insert, remove};
ghost use Rattle.geda_geom.specs.declared.conductor.Key.{Key};
ghost use Rattle.net_flood.specs.Grouping.{HasSize, IsGroup};
ghost use Rattle.group_runs.specs.Sheets.{HasEntry, HasGroups, IsCounted, IsKept, KeepsOtherSheets, asked_of, asked_sum, kept_at, kept_of, row_at};
ghost use Rattle.group_runs.specs.steps.Running.{SetsSheet, invalidated};

use geda_geom::Key;
use geda_model::Name;
use net_flood::Groups;
use std::alloc::AllocError;
use std::collections::HashMap;
use touch_index::Sealed;

/// Removes a conductor, and counts the steps. It answers how many its group had.
fn remove_in(groups: &mut Groups, steps: &mut u64, key: Key) -> Result<usize, AllocError>
    requires fresh { groups.old.fresh ≡ true }
    requires there { IsSome (get groups.old.conductors key) }
    ensures ok { OnOk result
        (groups.new.conductors ≡ remove groups.old.conductors key) }
    ensures fresh { OnOk result (groups.new.fresh ≡ true) }
    ensures size { IfOk result (HasSize groups.old.conductors key) }
    ensures steps { (keys : List Key) → IsGroup groups.old.conductors key keys
        → steps.new ≤ steps.old + length keys }
    ensures later { steps.old ≤ steps.new }
    ensures counted { (rest : ℕ) → IsCounted (groups.old.asked + rest) steps.old
        → IsCounted (groups.new.asked + rest) steps.new }
{
    let size = groups.size_of(key);
    let before = groups.asked();
    let removed = groups.remove(key);
    *steps = steps.saturating_add(groups.asked().saturating_sub(before));
    removed?;
    Ok(size)
}

/// Adds a conductor, and counts the steps.
fn insert_in(
    groups: &mut Groups,
    steps: &mut u64,
    key: Key,
    sealed: Sealed,
) -> Result<(), AllocError>
    requires fresh { groups.old.fresh ≡ true }
    requires free { get groups.old.conductors key ≡ None }
    ensures ok { OnOk result
        (groups.new.conductors ≡ insert groups.old.conductors key sealed) }
    ensures fresh { OnOk result (groups.new.fresh ≡ true) }
    ensures steps { steps.new ≤ steps.old + 1 }
    ensures later { steps.old ≤ steps.new }
    ensures counted { (rest : ℕ) → IsCounted (groups.old.asked + rest) steps.old
        → IsCounted (groups.new.asked + rest) steps.new }
{
    let before = groups.asked();
    let added = groups.insert(key, sealed);
    *steps = steps.saturating_add(groups.asked().saturating_sub(before));
    added
}

fn remove_in_row(row: &mut Option<Groups>, steps: &mut u64, key: Key) -> Result<usize, AllocError>
    requires kept { HasGroups row.old }
    requires there { IsSome (get (kept_of row.old) key) }
    ensures kept { OnOk result (HasGroups row.new) }
    ensures are { OnOk result (kept_of row.new ≡ remove (kept_of row.old) key) }
    ensures size { IfOk result (HasSize (kept_of row.old) key) }
    ensures steps { (keys : List Key) → IsGroup (kept_of row.old) key keys
        → steps.new ≤ steps.old + length keys }
    ensures later { steps.old ≤ steps.new }
    ensures counted { (rest : ℕ) → IsCounted (asked_of row.old + rest) steps.old
        → IsCounted (asked_of row.new + rest) steps.new }
{
    match row {
        Some(groups) => remove_in(groups, steps, key),
        None => Ok(0),
    }
}

fn insert_in_row(
    row: &mut Option<Groups>,
    steps: &mut u64,
    key: Key,
    sealed: Sealed,
) -> Result<(), AllocError>
    requires kept { HasGroups row.old }
    requires free { get (kept_of row.old) key ≡ None }
    ensures kept { OnOk result (HasGroups row.new) }
    ensures are { OnOk result (kept_of row.new ≡ insert (kept_of row.old) key sealed) }
    ensures steps { steps.new ≤ steps.old + 1 }
    ensures later { steps.old ≤ steps.new }
    ensures counted { (rest : ℕ) → IsCounted (asked_of row.old + rest) steps.old
        → IsCounted (asked_of row.new + rest) steps.new }
{
    match row {
        Some(groups) => insert_in(groups, steps, key, sealed),
        None => Ok(()),
    }
}

/// Removes a conductor of a sheet whose groups are kept. It answers how many its group had.
pub(crate) fn remove_one(
    rows: &mut HashMap<Name, Option<Groups>>,
    steps: &mut u64,
    sheet: &Name,
    key: Key,
) -> Result<usize, AllocError>
    requires kept { IsKept (row_at rows.old.entries sheet.now) }
    requires there { IsSome (get (kept_at rows.old.entries sheet.now) key) }
    ensures sets { OnOk result
        (SetsSheet sheet.now (remove (kept_at rows.old.entries sheet.now) key) rows.new.entries) }
    ensures size { IfOk result (HasSize (kept_at rows.old.entries sheet.now) key) }
    ensures others { KeepsOtherSheets sheet.now rows.old.entries rows.new.entries }
    ensures entry { HasEntry (row_at rows.new.entries sheet.now) }
    ensures steps { (keys : List Key) → IsGroup (kept_at rows.old.entries sheet.now) key keys
        → steps.new ≤ steps.old + length keys }
    ensures later { steps.old ≤ steps.new }
    ensures counted { IsCounted (asked_sum rows.old.entries) steps.old
        → IsCounted (asked_sum rows.new.entries) steps.new }
{
    if let Some(row) = rows.get_mut(sheet) {
        return remove_in_row(row, steps, key);
    }
    Ok(0)
}

/// Adds a conductor to a sheet whose groups are kept.
pub(crate) fn insert_one(
    rows: &mut HashMap<Name, Option<Groups>>,
    steps: &mut u64,
    sheet: &Name,
    key: Key,
    sealed: Sealed,
) -> Result<(), AllocError>
    requires kept { IsKept (row_at rows.old.entries sheet.now) }
    requires free { get (kept_at rows.old.entries sheet.now) key ≡ None }
    ensures sets { OnOk result
        (SetsSheet sheet.now (insert (kept_at rows.old.entries sheet.now) key sealed)
        rows.new.entries) }
    ensures others { KeepsOtherSheets sheet.now rows.old.entries rows.new.entries }
    ensures entry { HasEntry (row_at rows.new.entries sheet.now) }
    ensures steps { steps.new ≤ steps.old + 1 }
    ensures later { steps.old ≤ steps.new }
    ensures counted { IsCounted (asked_sum rows.old.entries) steps.old
        → IsCounted (asked_sum rows.new.entries) steps.new }
{
    if let Some(row) = rows.get_mut(sheet) {
        return insert_in_row(row, steps, key, sealed);
    }
    Ok(())
}

/// Gives up the groups of a sheet. It takes no memory.
pub(crate) fn invalidate(rows: &mut HashMap<Name, Option<Groups>>, sheet: &Name)
    ensures gone { row_at rows.new.entries sheet.now
        ≡ invalidated (row_at rows.old.entries sheet.now) }
    ensures others { KeepsOtherSheets sheet.now rows.old.entries rows.new.entries }
    ensures counted { asked_sum rows.new.entries ≤ asked_sum rows.old.entries }
{
    if let Some(row) = rows.get_mut(sheet) {
        *row = None;
    }
}
