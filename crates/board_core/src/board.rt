// A project, and the groups of its sheets.
ghost use Rattle.std.specs.Prelude.{◌≡◌, ◌≤◌, ◌↔◌, [], IfOk, IfErr, OnOk, OnErr, IsTrue, length, option_copied};
ghost use Rattle.std.specs.FinMap.{get};
ghost use Rattle.std.specs.List.Sorted.{IsStrictlySortedBy};
ghost use Rattle.std.specs.Map.{keys_of};
ghost use Rattle.geda_geom.specs.Keys.{by_key};
ghost use Rattle.project_model.specs.Projects.{empty_project};
ghost use Rattle.project_model.specs.Changes.{CanApply, put};
ghost use Rattle.sheet_groups.specs.Conductors.{sheet_conductors};
ghost use Rattle.sheet_groups.specs.Groups.{AreGroups};
ghost use Rattle.board_core.specs.Bounds.{IsBound};
ghost use Rattle.board_core.specs.Boards.{IsCounted, MayGiveUp, RenewsGroups, StaysInBound};

use crate::bound::bound_of;
use crate::grouped::grouped;
use crate::local::kept_groups;
use crate::put_in::with_room;
use crate::regroup::regroup;
use crate::symbol_names::{learn_change, names_in};
use geda_geom::Key;
use geda_model::{Head, Name};
use group_runs::SheetGroups;
use project_model::{Change, Project};
use sheet_groups::local_groups;
use std::alloc::{AllocError, Global};
use std::collections::HashSet;
use std::marker::Model;

/// A project, with the groups of the conductors that touch on its sheets.
///
/// The groups of a sheet are kept from change to change, or they were given up for want of memory.
#[derive(Drop)]
pub struct Board {
    project: Project,
    groups: SheetGroups,
    // Among these are the names of the library symbols of all components. None is taken out, so
    // that the change which brings a symbol that no component has ever had looks at no object.
    names: HashSet<String>,
}

impl Model for Board {
    ghost use Rattle.std.specs.FinMap as map;
    ghost use Rattle.std.specs.Coded.{codes};
    ghost use Rattle.std.specs.HashSet.{contains_text};
    ghost use Rattle.group_runs.specs.Sheets.{asked_sum, given_up};
    ghost use Rattle.board_core.specs.Boards.{BoardData};
    ghost use Rattle.board_core.specs.steps.Kept.{IsSound};

    ghost Value = { BoardData };

    ghost coded = { Prim.hlevel (codes, map.code) };

    ghost view = { λ b. record {
      project = b.project.contents;
      invalidated = given_up b.groups.rows;
      asked = b.groups.steps;
      counted = asked_sum b.groups.rows;
    } };

    ghost invariant = { λ b.
        IsSound b.project.contents b.groups.rows b.groups.steps (contains_text b.names) };
}

impl Board {
    /// The empty project. It takes no memory.
    pub fn new(alloc: Global) -> Board
        ensures project { result.project ≡ empty_project }
        ensures fresh { result.invalidated ≡ [] }
        ensures asked { result.asked ≡ 0 }
        ensures counted { result.counted ≡ 0 }
    {
        Board {
            project: Project::new(alloc),
            groups: SheetGroups::new(alloc),
            names: HashSet::new(alloc),
        }
    }

    /// A board of an equal project, with the groups of all sheets. It makes at most one step for
    /// each conductor.
    pub fn of(alloc: Global, project: &Project) -> Result<Board, AllocError>
        ensures project { IfOk result (λ board. board.project ≡ project.now.contents) }
        ensures fresh { IfOk result (λ board. board.invalidated ≡ []) }
        ensures few { IfOk result
            (λ board. board.asked ≤ length (sheet_conductors project.now.contents)) }
        ensures counted { IfOk result IsCounted }
    {
        let groups = grouped(alloc, project)?;
        let names = names_in(alloc, project)?;
        Ok(Board {
            project: project.copy(alloc)?,
            groups,
            names,
        })
    }

    /// The project. It takes no memory.
    pub fn project(&self) -> &Project
        ensures { result.now.contents ≡ self.now.project }
    {
        &self.project
    }

    /// The version line of a sheet.
    ///
    /// `None` exactly where there is no such sheet. It takes no memory.
    pub fn sheet(&self, name: &Name) -> Option<&Head>
        ensures { option_copied result ≡ get self.now.project.sheets name.now }
    {
        self.project.head(name)
    }

    /// Whether the groups of all sheets are kept: false where those of some sheet were given up for
    /// want of memory. It takes no memory.
    pub fn is_fresh(&self) -> bool
        ensures { IsTrue result ↔ (self.now.invalidated ≡ []) }
    {
        self.groups.is_fresh()
    }

    /// The steps that its groups took since the board was made, at most 2^64 - 1. One step asks
    /// which conductors touch a given one. They are at least those that its present groups have
    /// counted, or 2^64 - 1. It takes no memory.
    pub fn asked(&self) -> u64
        ensures asked { result ≡ self.now.asked }
        ensures counted { IsCounted self.now }
    {
        self.groups.steps()
    }

    /// Puts a change in (docs/RULES.md, "Groups").
    ///
    /// A sheet is known by the name that its objects give, whether or not the project has a version
    /// line for it. On AllocError the project is as before, and the groups of sheets that the
    /// change touches may be given up. Otherwise the groups of each sheet that it touches are kept
    /// afterwards. Its steps stay within `bound`, where the groups of all touched sheets were kept.
    pub fn apply(&mut self, alloc: Global, change: &Change) -> Result<(), AllocError>
        requires { CanApply change.now.items }
        ensures ok { OnOk result (self.new.project ≡ put self.old.project change.now.items) }
        ensures err { OnErr result (self.new.project ≡ self.old.project) }
        ensures renewed { OnOk result (RenewsGroups self.old change.now.items self.new) }
        ensures given_up { OnErr result (MayGiveUp self.old change.now.items self.new) }
        ensures later { self.old.asked ≤ self.new.asked }
        ensures counted { IsCounted self.new }
        ensures few { StaysInBound self.old change.now.items self.new }
    {
        self.apply_with_bound(alloc, change)?;
        Ok(())
    }

    /// Puts a change in as `apply` does, and answers its bound. To do both at once costs no more
    /// than `apply`: the size of each group is known when a conductor leaves it.
    pub fn apply_with_bound(&mut self, alloc: Global, change: &Change) -> Result<u64, AllocError>
        requires { CanApply change.now.items }
        ensures ok { OnOk result (self.new.project ≡ put self.old.project change.now.items) }
        ensures err { OnErr result (self.new.project ≡ self.old.project) }
        ensures renewed { OnOk result (RenewsGroups self.old change.now.items self.new) }
        ensures given_up { OnErr result (MayGiveUp self.old change.now.items self.new) }
        ensures later { self.old.asked ≤ self.new.asked }
        ensures counted { IsCounted self.new }
        ensures bound { IfOk result (IsBound self.old.project change.now.items) }
        ensures few { StaysInBound self.old change.now.items self.new }
    {
        let copy = with_room(alloc, &mut self.project, change)?;
        learn_change(alloc, &mut self.names, change)?;
        let regrouped = regroup(alloc, &self.project, &mut self.groups, &self.names, change);
        // The steps are read so that the proof knows that they are below 2^64.
        let _ = self.groups.steps();
        let bound = regrouped?;
        // The project goes last, when nothing can fail any more.
        self.project.apply(copy);
        Ok(bound)
    }

    /// How many steps a change may take (docs/RULES.md, "Groups"): one for each conductor that
    /// comes, and for each that leaves the size that its group has just before. At most 2^64 - 1.
    ///
    /// It groups the project anew, which costs about n log n for n conductors of which each touches
    /// few, and then what the change costs.
    pub fn bound(&self, alloc: Global, change: &Change) -> Result<u64, AllocError>
        requires { CanApply change.now.items }
        ensures { IfOk result (IsBound self.now.project change.now.items) }
    {
        bound_of(alloc, &self.project, &self.names, change)
    }

    /// The key of each conductor with the least key of its group (docs/RULES.md, "Groups"). The
    /// keys of conductors rise. Where some groups are given up, all sheets are grouped anew for
    /// this call.
    pub fn local_groups(&self, alloc: Global) -> Result<Vec<(Key, Key)>, AllocError>
        ensures groups { IfOk result
            (λ groups. AreGroups (sheet_conductors self.now.project) groups.items) }
        ensures rising { IfOk result (λ groups. IsStrictlySortedBy by_key (keys_of groups.items)) }
    {
        if !self.groups.is_fresh() {
            return local_groups(alloc, &self.project);
        }
        kept_groups(alloc, &self.project, &self.groups)
    }
}
