// The groups of several sheets.
ghost use Rattle.std.specs.Prelude.{◌≡◌, ◌≤◌, ◌+◌, ◌↔◌, ℕ, [], IsSome, IsTrue, IfOk, OnOk, OnErr, length};
ghost use Rattle.std.specs.FinMap.{get};
ghost use Rattle.geda_geom.specs.declared.conductor.Key.{Key};
ghost use Rattle.net_flood.specs.Grouping.{IsGroup, IsLeast};
ghost use Rattle.group_runs.specs.Runs.{AreFree, AreThere, IsRunBound, SizesSum, sheets_in, sheets_of, with_all, without};
ghost use Rattle.group_runs.specs.Sheets.{AreGone, AreKept, IsCounted, IsKept, KeepsEntries, KeepsGroups, KeepsOtherSheets, KeepsUntouched, asked_sum, given_up, kept_at, row_at};

use crate::opening::{group_of, is_fresh, is_kept, members, open};
use crate::runs::apply_to;
use geda_geom::{Conductor, Key};
use geda_model::Name;
use net_flood::Groups;
use std::alloc::{AllocError, Global};
use std::collections::HashMap;
use std::marker::Model;

/// The conductors of several sheets with their groups, by the names of the sheets (docs/RULES.md,
/// "Groups"). It counts the neighbour queries of all of them, as steps.
///
/// The groups of a sheet are kept, or were given up for want of memory; `open` begins them anew.
#[derive(Drop)]
pub struct SheetGroups {
    rows: HashMap<Name, Option<Groups>>,
    steps: u64,
}

impl Model for SheetGroups {
    ghost use Rattle.std.specs.Coded.{codes};
    ghost use Rattle.std.specs.FinMap as map;
    ghost use Rattle.group_runs.specs.Sheets.{IsHeld, SheetsData};

    ghost Value = { SheetsData };

    ghost coded = { Prim.hlevel (codes, map.code) };

    ghost view = { λ s. record { rows = s.rows.entries; steps = s.steps } };

    ghost invariant = { λ s. IsHeld s.rows.entries s.steps };
}

impl SheetGroups {
    /// No sheets, and no step made. It takes no memory.
    pub fn new(alloc: Global) -> SheetGroups
        ensures empty { result ≡ record { rows = []; steps = 0 } }
    {
        SheetGroups {
            rows: HashMap::new(alloc),
            steps: 0,
        }
    }

    /// The steps that were made, at most 2^64 - 1: at least those that the present groups have
    /// counted, or 2^64 - 1. It takes no memory.
    pub fn steps(&self) -> u64
        ensures steps { result ≡ self.now.steps }
        ensures counted { IsCounted (asked_sum self.now.rows) self.now.steps }
    {
        self.steps
    }

    /// Begins the groups of a sheet that has none, or whose groups were given up: without
    /// conductors. Groups that are kept stay as they are.
    ///
    /// On AllocError all stays as it is. It makes no step.
    pub fn open(&mut self, alloc: Global, sheet: &Name) -> Result<(), AllocError>
        ensures kept { OnOk result (IsKept (row_at self.new.rows sheet.now)) }
        ensures conductors { OnOk result (kept_at self.new.rows ≡ kept_at self.old.rows) }
        ensures err { OnErr result (self.new.rows ≡ self.old.rows) }
        ensures others { KeepsOtherSheets sheet.now self.old.rows self.new.rows }
        ensures steps { self.new.steps ≡ self.old.steps }
    {
        open(alloc, &mut self.rows, sheet)
    }

    /// Whether the groups of a sheet are kept. It takes no memory.
    pub fn is_kept(&self, sheet: &Name) -> bool
        ensures { IsTrue result ↔ IsKept (row_at self.now.rows sheet.now) }
    {
        is_kept(&self.rows, sheet)
    }

    /// Whether no groups were given up. It takes no memory.
    pub fn is_fresh(&self) -> bool
        ensures { IsTrue result ↔ (given_up self.now.rows ≡ []) }
    {
        is_fresh(&self.rows)
    }

    /// The least key, by id, then place, of the group of a key that is there, on a sheet whose
    /// groups are kept. It takes no memory.
    pub fn group_of(&self, sheet: &Name, key: Key) -> Key
        requires kept { IsKept (row_at self.now.rows sheet.now) }
        requires is_there { IsSome (get (kept_at self.now.rows sheet.now) key) }
        ensures least { IsLeast (kept_at self.now.rows sheet.now) key result }
    {
        group_of(&self.rows, sheet, key)
    }

    /// The keys of the group of a key that is there, on a sheet whose groups are kept; by id, then
    /// place.
    pub fn members(&self, alloc: Global, sheet: &Name, key: Key) -> Result<Vec<Key>, AllocError>
        requires kept { IsKept (row_at self.now.rows sheet.now) }
        requires is_there { IsSome (get (kept_at self.now.rows sheet.now) key) }
        ensures group { IfOk result
            (λ keys. IsGroup (kept_at self.now.rows sheet.now) key keys.items) }
    {
        members(alloc, &self.rows, sheet, key)
    }

    /// Conductors leave, each from its sheet, in the order given; then others come, each to its
    /// sheet. The groups of all these sheets are kept, and stay so.
    ///
    /// It answers how many steps that may take: one for each that comes, and for each that leaves
    /// the size that its group has just before; at most 2^64 - 1.
    ///
    /// On AllocError the groups of each of these sheets are given up, which takes no memory. Other
    /// sheets stay as they are. It makes no more steps than that, on AllocError too.
    pub fn apply(
        &mut self,
        leaving: &[(Name, Key)],
        coming: &[(Name, (Key, Conductor))],
    ) -> Result<u64, AllocError>
        requires leaving_kept { AreKept self.old.rows (sheets_of leaving.now) }
        requires coming_kept { AreKept self.old.rows (sheets_in coming.now) }
        requires there { AreThere (kept_at self.old.rows) leaving.now }
        requires free { AreFree (without (kept_at self.old.rows) leaving.now) coming.now }
        ensures conductors { OnOk result (kept_at self.new.rows
            ≡ with_all (without (kept_at self.old.rows) leaving.now) coming.now) }
        ensures kept { OnOk result (KeepsGroups self.old.rows self.new.rows) }
        ensures bound { IfOk result
            (IsRunBound (kept_at self.old.rows) leaving.now (length coming.now)) }
        ensures left_gone { OnErr result (AreGone (sheets_of leaving.now) self.new.rows) }
        ensures come_gone { OnErr result (AreGone (sheets_in coming.now) self.new.rows) }
        ensures others { KeepsUntouched leaving.now coming.now self.old.rows self.new.rows }
        ensures entries { KeepsEntries self.old.rows self.new.rows }
        ensures steps { (sum : ℕ) → SizesSum (kept_at self.old.rows) leaving.now sum
            → self.new.steps ≤ self.old.steps + (sum + length coming.now) }
        ensures later { self.old.steps ≤ self.new.steps }
    {
        apply_to(&mut self.rows, &mut self.steps, leaving, coming)
    }
}
