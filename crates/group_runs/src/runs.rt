// Conductors leave, and come, one after the other.
ghost use Rattle.std.specs.Prelude.{◌≡◌, ◌≤◌, ◌+◌, ℕ, IfOk, OnOk, OnErr, length};
ghost use Rattle.group_runs.specs.Runs.{AreFree, AreThere, IsRunBound, SheetName, SizesSum, sheets_in, sheets_of, with_all, without};
ghost use Rattle.group_runs.specs.Sheets.{AreGone, AreKept, IsCounted, IsGone, IsSound, KeepsEntries, KeepsGroups, KeepsOthers, KeepsUntouched, asked_sum, kept_at, row_at};

use crate::one::{insert_one, invalidate, remove_one};
use geda_geom::{Conductor, Key};
use geda_model::Name;
use net_flood::Groups;
use std::alloc::AllocError;
use std::collections::HashMap;
use touch_index::Sealed;

/// Removes conductors one after the other, each from its sheet. It answers the sum of the sizes
/// that their groups had.
pub(crate) fn remove_all(
    rows: &mut HashMap<Name, Option<Groups>>,
    steps: &mut u64,
    leaving: &[(Name, Key)],
) -> Result<u64, AllocError>
    requires kept { AreKept rows.old.entries (sheets_of leaving.now) }
    requires there { AreThere (kept_at rows.old.entries) leaving.now }
    ensures conductors { OnOk result
        (kept_at rows.new.entries ≡ without (kept_at rows.old.entries) leaving.now) }
    ensures kept { OnOk result (KeepsGroups rows.old.entries rows.new.entries) }
    ensures sizes { IfOk result (IsRunBound (kept_at rows.old.entries) leaving.now 0) }
    ensures others { KeepsOthers (sheets_of leaving.now) rows.old.entries rows.new.entries }
    ensures entries { KeepsEntries rows.old.entries rows.new.entries }
    ensures steps { (sum : ℕ) → SizesSum (kept_at rows.old.entries) leaving.now sum
        → steps.new ≤ steps.old + sum }
    ensures later { steps.old ≤ steps.new }
    ensures counted { IsCounted (asked_sum rows.old.entries) steps.old
        → IsCounted (asked_sum rows.new.entries) steps.new }
{
    let mut sum: u64 = 0;
    for place in leaving {
        let size = remove_one(rows, steps, &place.0, place.1)?;
        sum = sum.saturating_add(size as u64);
    }
    Ok(sum)
}

/// Adds conductors one after the other, each to its sheet.
pub(crate) fn insert_all(
    rows: &mut HashMap<Name, Option<Groups>>,
    steps: &mut u64,
    coming: &[(Name, (Key, Conductor))],
) -> Result<(), AllocError>
    requires kept { AreKept rows.old.entries (sheets_in coming.now) }
    requires free { AreFree (kept_at rows.old.entries) coming.now }
    ensures conductors { OnOk result
        (kept_at rows.new.entries ≡ with_all (kept_at rows.old.entries) coming.now) }
    ensures kept { OnOk result (KeepsGroups rows.old.entries rows.new.entries) }
    ensures others { KeepsOthers (sheets_in coming.now) rows.old.entries rows.new.entries }
    ensures entries { KeepsEntries rows.old.entries rows.new.entries }
    ensures steps { steps.new ≤ steps.old + length coming.now }
    ensures later { steps.old ≤ steps.new }
    ensures counted { IsCounted (asked_sum rows.old.entries) steps.old
        → IsCounted (asked_sum rows.new.entries) steps.new }
{
    for one in coming {
        insert_one(rows, steps, &one.0, one.1.0, Sealed::new(one.1.1))?;
    }
    Ok(())
}

fn invalidate_left(rows: &mut HashMap<Name, Option<Groups>>, leaving: &[(Name, Key)])
    ensures gone { AreGone (sheets_of leaving.now) rows.new.entries }
    ensures others { KeepsOthers (sheets_of leaving.now) rows.old.entries rows.new.entries }
    ensures entries { KeepsEntries rows.old.entries rows.new.entries }
    ensures stays { (s : SheetName) → IsGone (row_at rows.old.entries s)
        → IsGone (row_at rows.new.entries s) }
    ensures counted { asked_sum rows.new.entries ≤ asked_sum rows.old.entries }
{
    for place in leaving {
        invalidate(rows, &place.0);
    }
}

fn invalidate_coming(rows: &mut HashMap<Name, Option<Groups>>, coming: &[(Name, (Key, Conductor))])
    ensures gone { AreGone (sheets_in coming.now) rows.new.entries }
    ensures others { KeepsOthers (sheets_in coming.now) rows.old.entries rows.new.entries }
    ensures entries { KeepsEntries rows.old.entries rows.new.entries }
    ensures stays { (s : SheetName) → IsGone (row_at rows.old.entries s)
        → IsGone (row_at rows.new.entries s) }
    ensures counted { asked_sum rows.new.entries ≤ asked_sum rows.old.entries }
{
    for one in coming {
        invalidate(rows, &one.0);
    }
}

fn run(
    rows: &mut HashMap<Name, Option<Groups>>,
    steps: &mut u64,
    leaving: &[(Name, Key)],
    coming: &[(Name, (Key, Conductor))],
) -> Result<u64, AllocError>
    requires leaving_kept { AreKept rows.old.entries (sheets_of leaving.now) }
    requires coming_kept { AreKept rows.old.entries (sheets_in coming.now) }
    requires there { AreThere (kept_at rows.old.entries) leaving.now }
    requires free { AreFree (without (kept_at rows.old.entries) leaving.now) coming.now }
    ensures conductors { OnOk result (kept_at rows.new.entries
        ≡ with_all (without (kept_at rows.old.entries) leaving.now) coming.now) }
    ensures kept { OnOk result (KeepsGroups rows.old.entries rows.new.entries) }
    ensures bound { IfOk result
        (IsRunBound (kept_at rows.old.entries) leaving.now (length coming.now)) }
    ensures others { KeepsUntouched leaving.now coming.now rows.old.entries rows.new.entries }
    ensures entries { KeepsEntries rows.old.entries rows.new.entries }
    ensures steps { (sum : ℕ) → SizesSum (kept_at rows.old.entries) leaving.now sum
        → steps.new ≤ steps.old + (sum + length coming.now) }
    ensures later { steps.old ≤ steps.new }
    ensures counted { IsCounted (asked_sum rows.old.entries) steps.old
        → IsCounted (asked_sum rows.new.entries) steps.new }
{
    let sum = remove_all(rows, steps, leaving)?;
    insert_all(rows, steps, coming)?;
    Ok(sum.saturating_add(coming.len() as u64))
}

/// Conductors leave, in the order given, and then others come.
///
/// It answers how many steps that may take. On AllocError the groups of each sheet that one leaves
/// or comes to are given up.
pub(crate) fn apply_to(
    rows: &mut HashMap<Name, Option<Groups>>,
    steps: &mut u64,
    leaving: &[(Name, Key)],
    coming: &[(Name, (Key, Conductor))],
) -> Result<u64, AllocError>
    requires leaving_kept { AreKept rows.old.entries (sheets_of leaving.now) }
    requires coming_kept { AreKept rows.old.entries (sheets_in coming.now) }
    requires there { AreThere (kept_at rows.old.entries) leaving.now }
    requires free { AreFree (without (kept_at rows.old.entries) leaving.now) coming.now }
    requires sound { (s : SheetName) → IsSound (row_at rows.old.entries s) }
    ensures conductors { OnOk result (kept_at rows.new.entries
        ≡ with_all (without (kept_at rows.old.entries) leaving.now) coming.now) }
    ensures kept { OnOk result (KeepsGroups rows.old.entries rows.new.entries) }
    ensures bound { IfOk result
        (IsRunBound (kept_at rows.old.entries) leaving.now (length coming.now)) }
    ensures left_gone { OnErr result (AreGone (sheets_of leaving.now) rows.new.entries) }
    ensures come_gone { OnErr result (AreGone (sheets_in coming.now) rows.new.entries) }
    ensures others { KeepsUntouched leaving.now coming.now rows.old.entries rows.new.entries }
    ensures entries { KeepsEntries rows.old.entries rows.new.entries }
    ensures sound { (s : SheetName) → IsSound (row_at rows.new.entries s) }
    ensures steps { (sum : ℕ) → SizesSum (kept_at rows.old.entries) leaving.now sum
        → steps.new ≤ steps.old + (sum + length coming.now) }
    ensures later { steps.old ≤ steps.new }
    ensures counted { IsCounted (asked_sum rows.old.entries) steps.old
        → IsCounted (asked_sum rows.new.entries) steps.new }
{
    let done = run(rows, steps, leaving, coming);
    if done.is_err() {
        invalidate_left(rows, leaving);
        invalidate_coming(rows, coming);
    }
    done
}
